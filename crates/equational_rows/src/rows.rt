// Rows of the form's matrices, appended one after another.

ghost use Rattle.std.specs.Prelude.{◌≡◌, ◌≤◌, ◌<◌, ◌+◌, ◌-◌, ◌++◌, ◌∷◌, length, replicate, OnOk};
ghost use Rattle.rational.specs.Rational.{one_ℚ};
ghost use Rattle.rational.specs.Vectors.{zeros};
ghost use Rattle.rational.specs.Tests.{is_negative};
ghost use Rattle.equational_law.specs.Standing.{parts, spread, spread_at, standing};
ghost use Rattle.equational_rows.specs.Built.{all_slacks, ended, no_rows, signed, signed_by, with_equation};

use crate::layout::Layout;
use frac_core::{Frac, Memory, Vector};
use program_law::Row;
use std::alloc::Global;
use std::marker::Model;

fn signed(negated: bool, x: Frac) -> Frac
    ensures { result ≡ signed_by negated x }
{
    if negated { -x } else { x }
}

/// Appends a number so many times.
fn push_repeated(entries: &mut Vec<Frac>, x: Frac, count: usize) -> Result<(), Memory>
    ensures { OnOk result (entries.new.items ≡ entries.old.items ++ replicate count x) }
{
    for _ in 0..count {
        entries.push(x)?;
    }
    Ok(())
}

/// Appends zeros.
///
/// # Errors
///
/// `Memory`, after which some may have been appended.
pub fn push_zeros(entries: &mut Vec<Frac>, count: usize) -> Result<(), Memory>
    ensures { OnOk result (entries.new.items ≡ entries.old.items ++ zeros count) }
{
    push_repeated(entries, Frac::whole(0), count)
}

/// Appends a column's number on the columns that stand for it.
fn push_entry(entries: &mut Vec<Frac>, bounds: Row, x: Frac) -> Result<(), Memory>
    ensures { OnOk result (entries.new.items ≡ entries.old.items ++ spread_at (standing bounds) x) }
{
    if bounds.low.is_some() {
        entries.push(x)?;
        return Ok(());
    }
    if bounds.high.is_none() {
        entries.push(x)?;
    }
    entries.push(-x)?;
    Ok(())
}

/// Appends the numbers of the file's columns, or these negated, on the columns that stand for them.
///
/// # Errors
///
/// `Memory`, after which some may have been appended.
pub fn push_spread(
    entries: &mut Vec<Frac>,
    bounds: &[Row],
    row: &[Frac],
    negated: bool,
) -> Result<(), Memory>
    requires { length row.now ≡ length bounds.now }
    ensures { OnOk result (entries.new.items ≡ entries.old.items ++ signed negated (spread bounds.now row.now)) }
{
    for j in 0..bounds.len() {
        push_entry(entries, bounds[j], signed(negated, row[j]))?;
    }
    Ok(())
}

/// The slacks of an equation: how many stand before its own, how many are its own, and the entry on each of these.
#[derive(Clone, Copy)]
pub(crate) struct Slacks {
    pub(crate) before: usize,
    pub(crate) own: usize,
    pub(crate) entry: Frac,
}

/// Equations in order: the rows of M one after another, and r. One with a right side below 0 is negated.
#[derive(Drop)]
pub struct Rows {
    /// The rows of M one after another, each as long as the form has columns.
    entries: Vec<Frac>,
    /// r, a number for each equation so far.
    right: Vector<Frac>,
}

impl Model for Rows {
    ghost use Rattle.equational_rows.specs.Built.{Built};

    ghost Value = { Built };

    ghost view = { λ rows. record { entries = rows.entries.items; right = rows.right } };
}

impl Rows {
    pub(crate) fn new(alloc: Global) -> Rows
        ensures { result ≡ no_rows }
    {
        Rows {
            entries: Vec::new(alloc),
            right: Vector::new(alloc),
        }
    }

    /// How many equations there are.
    pub fn len(&self) -> usize
        ensures { result ≡ length self.now.right }
    {
        self.right.len()
    }

    /// Ends an equation of which the entries on the columns were appended: its slacks, of so many in all, and its right side.
    fn end(&mut self, all: usize, slacks: Slacks, right: Frac) -> Result<(), Memory>
        requires few { all ≤ 384 }
        requires within { slacks.before + slacks.own ≤ all }
        ensures { OnOk result (self.new ≡ ended all self.old slacks right) }
    {
        let negated = right.is_negative();
        push_zeros(&mut self.entries, slacks.before)?;
        push_repeated(&mut self.entries, signed(negated, slacks.entry), slacks.own)?;
        push_zeros(&mut self.entries, all - (slacks.before + slacks.own))?;
        self.right.push(signed(negated, right))?;
        Ok(())
    }

    /// Appends the equation of a row of the file.
    pub(crate) fn push_row(
        &mut self,
        layout: &Layout,
        row: &[Frac],
        slacks: Slacks,
        right: Frac,
    ) -> Result<(), Memory>
        requires width { length row.now ≡ length layout.now.region }
        requires within { slacks.before + slacks.own ≤ all_slacks layout.now }
        ensures { OnOk result (self.new ≡ with_equation (all_slacks layout.now) self.old (record { entries = spread layout.now.region row.now; before = slacks.before; own = replicate slacks.own slacks.entry; right = right })) }
    {
        push_spread(&mut self.entries, layout.bounds(), row, right.is_negative())?;
        self.end(layout.slacks(), slacks, right)
    }

    /// Appends the equation of slacks alone.
    pub(crate) fn push_slacks(
        &mut self,
        layout: &Layout,
        slacks: Slacks,
        right: Frac,
    ) -> Result<(), Memory>
        requires within { slacks.before + slacks.own ≤ all_slacks layout.now }
        ensures { OnOk result (self.new ≡ with_equation (all_slacks layout.now) self.old (record { entries = zeros (parts layout.now.region); before = slacks.before; own = replicate slacks.own slacks.entry; right = right })) }
    {
        push_zeros(&mut self.entries, layout.parts())?;
        self.end(layout.slacks(), slacks, right)
    }

    /// Appends the equation of the form's column at `at`.
    pub(crate) fn push_column(
        &mut self,
        layout: &Layout,
        at: usize,
        slacks: Slacks,
        right: Frac,
    ) -> Result<(), Memory>
        requires place { at < parts layout.now.region }
        requires within { slacks.before + slacks.own ≤ all_slacks layout.now }
        ensures { OnOk result (self.new ≡ with_equation (all_slacks layout.now) self.old (record { entries = zeros at ++ one_ℚ ∷ zeros (parts layout.now.region - (at + 1)); before = slacks.before; own = replicate slacks.own slacks.entry; right = right })) }
    {
        push_zeros(&mut self.entries, at)?;
        self.entries
            .push(signed(right.is_negative(), Frac::whole(1)))?;
        push_zeros(&mut self.entries, layout.parts() - (at + 1))?;
        self.end(layout.slacks(), slacks, right)
    }

    /// The rows of M one after another, and the right sides.
    pub fn into_parts(self) -> (Vec<Frac>, Vector<Frac>)
        ensures entries { result.0.items ≡ self.entries }
        ensures right { result.1 ≡ self.right }
    {
        (self.entries, self.right)
    }
}
