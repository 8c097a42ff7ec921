// The lines of a certificate.

ghost use Rattle.std.specs.Prelude.{◌≡◌};
ghost use Rattle.cert_fields.specs.Parts.{parts_of};
ghost use Rattle.cert_fields.specs.Fields.{behind};
ghost use Rattle.cert_grammar.specs.Items.{claim_in};
ghost use Rattle.cert_lines.specs.Entered.{ReadsFound, ReadsLine};

use crate::fields::{read_bare, read_entry, read_name, read_number};
use cert_fields::first_part;
use cert_grammar::{CertKind, Claim, Found, Item, Place, Shape, shape_of};
use frac_core::Frac;
use mps_tokens::{CertificateWord, certificate_word_of};
use program_data::Program;

/// The claim of the first line, where it has one.
#[tactic(auto, unfolding(cert_grammar::specs::Items::claim_in))]
pub(crate) fn claim_in(line: &[u8]) -> Option<Claim>
    ensures { result ≡ claim_in line.now }
{
    match certificate_word_of(line)? {
        CertificateWord::Optimal => Some(Claim::Optimal),
        CertificateWord::Infeasible => Some(Claim::Infeasible),
        CertificateWord::Unbounded => Some(Claim::Unbounded),
        CertificateWord::NotConvex => Some(Claim::NotConvex),
        _ => None,
    }
}

/// What stands behind the word of a line of a shape.
fn read_found(
    p: &Program,
    place: Place,
    word: CertificateWord,
    shape: Shape,
    line: &[u8],
) -> Result<Found, CertKind>
    ensures { ReadsFound p.now place word shape (behind (parts_of line.now)) result }
{
    let mut found = Found {
        place: 0,
        number: Frac::whole(0),
    };
    match shape {
        Shape::Bare => read_bare(place, word, line)?,
        Shape::Number(allowed) => found.number = read_number(place, word, allowed, line)?,
        Shape::Name(axis) => found.place = read_name(p, axis, place, word, line)?,
        Shape::Entry(axis, allowed) => {
            (found.place, found.number) = read_entry(p, axis, place, word, allowed, line)?;
        }
    }
    Ok(found)
}

/// The item of a line at a place, without its line feed.
///
/// # Errors
/// What is wrong with the line there, of several faults the first kind.
#[tactic(auto, unfolding(cert_grammar::specs::Faults::line_fault, cert_grammar::specs::Items::item_of))]
pub(crate) fn read_line(p: &Program, place: Place, line: &[u8]) -> Result<Item, CertKind>
    ensures { ReadsLine p.now place (parts_of line.now) result }
{
    let Some(word) = certificate_word_of(first_part(line)) else {
        return Err(CertKind::CertLine);
    };
    let found = read_found(p, place, word, shape_of(word), line)?;
    Ok(Item::of(word, found))
}
