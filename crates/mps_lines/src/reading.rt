// Reading a text up to ENDATA.

ghost use Rattle.std.specs.Prelude.{◌≡◌, ◌+◌, ◌≤◌, ◌<◌, ◌^◌, [], length, IfOk, IfSome};
ghost use Rattle.mps_lines.specs.Reading.{read_stop, TellsNotes, Tells, IsPlaceIn, spot_of, spot_in};
ghost use Rattle.mps_grammar.specs.Lines.{is_passed};
ghost use Rattle.mps_grammar.specs.Reading.{told_of, rest_of};
ghost use Rattle.mps_grammar.specs.Told.{told_by};
ghost use Rattle.mps_notes.specs.Notes.{told_in, IsSound};

use crate::lines::Lines;
use crate::stop::{Place, ReadStop};
use mps_fields::{is_beyond, is_comment, whole_line};
use mps_grammar::FaultKind;
use mps_notes::Draft;
use mps_sections::LineStop;
use mps_tokens::Parts;
use std::alloc::Global;

/// Why a text is not read, where its line with this number is not taken.
fn stop_at(line: u32, stop: LineStop) -> ReadStop
    ensures { result ≡ read_stop line stop }
{
    match stop {
        LineStop::Memory => ReadStop::Memory,
        LineStop::Fault(kind) => ReadStop::Fault { line, kind },
    }
}

/// Takes the lines of a text up to ENDATA, and answers the place behind them.
fn take_lines(alloc: Global, text: &[u8], lines: &mut Lines) -> Result<Place, ReadStop>
    requires short { length text.now ≤ 2 ^ 30 }
    requires told { told_in lines.old ≡ told_by [] }
    requires sound { IsSound lines.old }
    ensures tells { TellsNotes (told_of text.now) lines.new result }
    ensures place { IfOk result (λ place. IsPlaceIn text.now place) }
{
    let mut at = 0;
    while at < text.len() {
        let whole = whole_line(text, at);
        let bytes = &text[whole.line.begin..whole.line.end];
        let number = lines.count() + 1;
        let ended = match lines.take(alloc, bytes, is_beyond(at, whole.end)) {
            Ok(ended) => ended,
            Err(stop) => return Err(stop_at(number, stop)),
        };
        at = whole.line.next;
        if ended {
            return Ok(Place {
                byte: at,
                line: lines.count() + 1,
            });
        }
    }
    Err(ReadStop::Fault {
        line: lines.count() + 1,
        kind: FaultKind::NoEnd,
    })
}

/// What the lines of a text up to ENDATA tell, and the place behind them.
///
/// # Errors
/// The fault of the first line that has one, or that there is no ENDATA; else `Memory`.
pub fn told(alloc: Global, text: &[u8]) -> Result<(Draft, Place), ReadStop>
    requires { length text.now ≤ 2 ^ 30 }
    ensures tells { Tells (told_of text.now) result }
    ensures place { IfOk result (λ t. IsPlaceIn text.now t.1) }
{
    let Ok(mut lines) = Lines::start(alloc) else {
        return Err(ReadStop::Memory);
    };
    let place = take_lines(alloc, text, &mut lines)?;
    Ok((lines.draft(), place))
}

/// Whether a line is blank or a comment.
fn is_passed(line: &[u8]) -> bool
    ensures { result ≡ is_passed line.now }
{
    is_comment(line) || Parts::of(line).len() == 0
}

/// The first line at or after a place that is neither blank nor a comment.
pub fn rest(text: &[u8], place: Place) -> Option<Place>
    requires text { length text.now ≤ 2 ^ 30 }
    requires byte { place.byte ≤ length text.now }
    requires line { place.line ≤ 2 ^ 31 }
    ensures first { spot_in result ≡ rest_of text.now (spot_of place) }
    ensures within { IfSome result (λ p. (p.byte < length text.now) × (p.line + place.byte ≤ place.line + p.byte)) }
{
    let mut at = place.byte;
    let mut line = place.line;
    while at < text.len() {
        let whole = whole_line(text, at);
        if !is_passed(&text[whole.line.begin..whole.line.end]) {
            return Some(Place { byte: at, line });
        }
        at = whole.line.next;
        line += 1;
    }
    None
}
