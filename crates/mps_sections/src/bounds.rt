// Lines of BOUNDS.

ghost use Rattle.std.specs.Prelude.{◌≡◌, ◌<◌, length, OnOk};
ghost use Rattle.std.specs.Option.{option_map};
ghost use Rattle.mps_tokens.specs.declared.words.Section.TheVariants as sections;
ghost use Rattle.mps_grammar.specs.Fields.{has_number};
ghost use Rattle.mps_fields.specs.Views.{viewed_bounded};
ghost use Rattle.mps_notes.specs.Notes.{IsSound};
ghost use Rattle.mps_sections.specs.Steps.{TakesData, ReadsBound, BoundDone, TakesBounded};

use crate::stop::LineStop;
use frac_core::{Frac, Memory};
use mps_fields::{Bounded, bounded_of, is_long, kind_of};
use mps_grammar::FaultKind;
use mps_notes::{Bound, Bounds, Notes, is_used, name_set};
use mps_tokens::{BoundKind, Parts, bound_kind_of, number};
use std::alloc::Global;

/// Whether a bound of this kind has a number.
fn needs_number(kind: BoundKind) -> bool
    ensures { result ≡ has_number kind }
{
    match kind {
        BoundKind::Upper
        | BoundKind::Lower
        | BoundKind::Fixed
        | BoundKind::LowerInteger
        | BoundKind::UpperInteger => true,
        BoundKind::Free | BoundKind::MinusInfinity | BoundKind::PlusInfinity | BoundKind::Binary =>
            false,
    }
}

/// The number of a bound, or 0 where it is missing.
fn value_of(spelling: Option<&[u8]>) -> Result<Frac, FaultKind>
    ensures { ReadsBound (option_map (λ s. s.now) spelling.entry) result }
{
    let Some(spelling) = spelling else {
        return Ok(Frac::whole(0));
    };
    match number(spelling) {
        Ok(value) => Ok(value),
        Err(fault) => Err(kind_of(fault)),
    }
}

/// Puts a bound of the used set last.
fn put_bound(alloc: Global, bounds: &mut Bounds, set: &[u8], bound: Bound) -> Result<(), Memory>
    ensures { OnOk result (BoundDone bounds.old bounds.new set.now bound) }
{
    let used = is_used(&bounds.set, set);
    name_set(alloc, &mut bounds.set, set)?;
    if used {
        bounds.items.push(bound)?;
    }
    Ok(())
}

/// A bound of this kind.
fn take_bounded(
    alloc: Global,
    notes: &mut Notes,
    kind: BoundKind,
    bounded: &Bounded<'_>,
) -> Result<(), LineStop>
    requires { IsSound notes.old }
    ensures { TakesBounded notes.old kind (viewed_bounded bounded.now) notes.new result }
{
    if is_long(bounded.set) || is_long(bounded.column) {
        return Err(LineStop::Fault(FaultKind::NameLong));
    }
    let Some(column) = notes.columns.find(bounded.column) else {
        return Err(LineStop::Fault(FaultKind::NameUnknown));
    };
    let value = value_of(bounded.number)?;
    let bound = Bound {
        kind,
        column,
        value,
    };
    put_bound(alloc, &mut notes.bounds, bounded.set, bound)?;
    Ok(())
}

/// A line of BOUNDS.
pub(crate) fn take_bounds(
    alloc: Global,
    notes: &mut Notes,
    fields: &Parts<'_>,
) -> Result<(), LineStop>
    requires sound { IsSound notes.old }
    requires some { 0 < length fields.now }
    ensures { TakesData notes.old sections.Bounds fields.now notes.new result }
{
    let Some(kind) = bound_kind_of(fields.get(0)) else {
        return Err(LineStop::Fault(FaultKind::BoundKind));
    };
    let Some(bounded) = bounded_of(needs_number(kind), fields) else {
        return Err(LineStop::Fault(FaultKind::Fields));
    };
    take_bounded(alloc, notes, kind, &bounded)
}
