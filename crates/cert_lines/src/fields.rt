// The fields of a line behind its word.

ghost use Rattle.std.specs.Prelude.{◌≡◌, Some};
ghost use Rattle.cert_fields.specs.Parts.{parts_of};
ghost use Rattle.cert_fields.specs.Fields.{behind};
ghost use Rattle.cert_fields.specs.Names.{names_on};
ghost use Rattle.cert_grammar.specs.Faults.{is_early};
ghost use Rattle.cert_lines.specs.Entered.{ReadsBare, ReadsNumber, ReadsName, ReadsEntry};

use cert_fields::{Axis, find_on, is_one_part, last_two_parts, number, second_part};
use cert_grammar::{Allowed, CertKind, Place};
use frac_core::Frac;
use mps_tokens::{CertificateWord, NumberFault};
use program_data::Program;

/// A line of a word alone.
pub(crate) fn read_bare(place: Place, word: CertificateWord, line: &[u8]) -> Result<(), CertKind>
    ensures { ReadsBare place word (behind (parts_of line.now)) result }
{
    if place.may_stand(word) && is_one_part(line) {
        Ok(())
    } else {
        Err(CertKind::CertLine)
    }
}

/// The number of a line of a word and a number.
pub(crate) fn read_number(
    place: Place,
    word: CertificateWord,
    allowed: Allowed,
    line: &[u8],
) -> Result<Frac, CertKind>
    ensures { ReadsNumber place word allowed (behind (parts_of line.now)) result }
{
    if !place.may_stand(word) {
        return Err(CertKind::CertLine);
    }
    let Some(bytes) = second_part(line) else {
        return Err(CertKind::CertLine);
    };
    let value = match number(bytes) {
        Ok(value) => value,
        Err(NumberFault::Past) => return Err(CertKind::CertPast),
        Err(NumberFault::NotNumber) => return Err(CertKind::CertNumber),
    };
    if !allowed.allows(value) {
        return Err(CertKind::CertNumber);
    }
    if place.is_one_too_many(word) {
        return Err(CertKind::CertMany);
    }
    Ok(value)
}

/// The column or row of a line of a word and a name.
pub(crate) fn read_name(
    p: &Program,
    axis: Axis,
    place: Place,
    word: CertificateWord,
    line: &[u8],
) -> Result<u32, CertKind>
    ensures { ReadsName place word (names_on p.now axis) (behind (parts_of line.now)) result }
{
    if !place.may_stand(word) {
        return Err(CertKind::CertLine);
    }
    let Some(name) = second_part(line) else {
        return Err(CertKind::CertLine);
    };
    find_on(p, axis, name).ok_or(CertKind::CertName)
}

fn is_early(least: u64, found: u32) -> bool
    ensures { result ≡ is_early least (Some found) }
{
    u64::from(found) < least
}

/// The column or row and the number of an entry's line.
pub(crate) fn read_entry(
    p: &Program,
    axis: Axis,
    place: Place,
    word: CertificateWord,
    allowed: Allowed,
    line: &[u8],
) -> Result<(u32, Frac), CertKind>
    ensures { ReadsEntry place word (names_on p.now axis) allowed (behind (parts_of line.now)) result }
{
    if !place.may_stand(word) {
        return Err(CertKind::CertLine);
    }
    let Some((name, bytes)) = last_two_parts(line) else {
        return Err(CertKind::CertLine);
    };
    let Some(found) = find_on(p, axis, name) else {
        return Err(CertKind::CertName);
    };
    let value = match number(bytes) {
        Ok(value) => value,
        Err(NumberFault::Past) => return Err(CertKind::CertPast),
        Err(NumberFault::NotNumber) => return Err(CertKind::CertNumber),
    };
    if !allowed.allows(value) {
        return Err(CertKind::CertNumber);
    }
    if is_early(place.least(word), found) {
        return Err(CertKind::CertOrder);
    }
    if place.is_one_too_many(word) {
        return Err(CertKind::CertMany);
    }
    Ok((found, value))
}
