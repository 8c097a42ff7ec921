// One line more of a text.

ghost use Rattle.std.specs.Prelude.{ℕ, ◌<◌, List, length, IfOk, IfSome};
ghost use Rattle.program_law.specs.Program.{Program};
ghost use Rattle.cert_grammar.specs.Places.{HasRoom};
ghost use Rattle.cert_text_law.specs.History.{IsBehind, Follows};
ghost use Rattle.cert_lines.specs.Steps.{Begins, Goes};

use crate::line::{claim_in, read_line};
use cert_fields::split_line;
use cert_grammar::{CertKind, Item, Place};
use program_data::Program;

/// A line that was read: its item, the place behind it, and the rest of the text.
#[derive(Clone, Copy)]
pub(crate) struct Step<'a> {
    pub item: Item,
    pub place: Place,
    pub rest: &'a [u8],
}

/// The first line.
fn first_step(text: &[u8]) -> Result<Step<'_>, CertKind>
    ensures read { (p : Program) (line : ℕ) → Begins p text.now line result }
    ensures shorter { IfOk result (λ step. length step.rest.now < length text.now) }
{
    let Some((first, rest)) = split_line(text) else {
        return Err(CertKind::CertEnd);
    };
    let Some(claim) = claim_in(first) else {
        return Err(CertKind::CertLine);
    };
    let item = Item::of_claim(claim);
    let place = Place::start(claim);
    Ok(Step { item, place, rest })
}

/// The line at a place, or none behind END.
fn later_step<'a>(p: &Program, place: Place, text: &'a [u8]) -> Result<Option<Step<'a>>, CertKind>
    requires { HasRoom place }
    ensures read { (whole : List ℕ) (line given : ℕ) → IsBehind p.now whole line given text.now place → Goes p.now whole line given result }
    ensures shorter { IfOk result (λ step. IfSome step (λ step. length step.rest.now < length text.now)) }
{
    if place.is_ended() {
        if !text.is_empty() {
            return Err(CertKind::CertAfter);
        }
        return Ok(None);
    }
    let Some((first, rest)) = split_line(text) else {
        return Err(CertKind::CertEnd);
    };
    let item = match read_line(p, place, first) {
        Ok(item) => item,
        Err(kind) => return Err(kind),
    };
    let place = place.after(&item);
    Ok(Some(Step { item, place, rest }))
}

/// The next line. The first one has no place yet.
pub(crate) fn next_step<'a>(
    p: &Program,
    place: Option<Place>,
    text: &'a [u8],
) -> Result<Option<Step<'a>>, CertKind>
    requires { IfSome place (λ place. HasRoom place) }
    ensures read { (whole : List ℕ) (line given : ℕ) → Follows p.now whole line given text.now place → Goes p.now whole line given result }
    ensures shorter { IfOk result (λ step. IfSome step (λ step. length step.rest.now < length text.now)) }
{
    match place {
        Some(place) => later_step(p, place, text),
        None => match first_step(text) {
            Ok(step) => Ok(Some(step)),
            Err(kind) => Err(kind),
        },
    }
}
