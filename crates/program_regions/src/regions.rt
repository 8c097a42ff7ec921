// Regions: a low and a high bound for each column.

ghost use Rattle.std.specs.Prelude.{◌≡◌, ◌<◌, ◌≤◌, length, slice_set, IfOk, IfSome, IfNone};
ghost use Rattle.program_law.specs.Program.{bounds, most_columns};
ghost use Rattle.program_law.specs.Region.{smaller, larger, cut_high, cut_low, IsCrossedAt, IsCrossedRegion, bounds_at};
ghost use Rattle.program_regions.specs.Regions.{is_crossed, first_crossed};

use frac_core::{Frac, Memory};
use program_data::Program;
use program_law::Row;
use std::alloc::Global;
use std::marker::Model;

/// A low and a high bound for each column, each of which may be absent.
#[derive(Drop)]
pub struct Region {
    bounds: Vec<Row>,
}

impl Model for Region {
    ghost use Rattle.std.specs.Prelude.{List, length, ◌≤◌};
    ghost use Rattle.program_law.specs.declared.Row.{Row};
    ghost use Rattle.program_law.specs.Program.{most_columns};

    ghost Value = { List Row };

    ghost view = { λ region. region.bounds.items };

    ghost invariant = { λ region. length region.bounds.items ≤ most_columns };
}

impl Region {
    /// The bounds of a program's columns.
    pub fn of(alloc: Global, p: &Program) -> Result<Region, Memory>
        ensures { IfOk result (λ region. region ≡ bounds p.now) }
    {
        let bounds = all_bounds(alloc, p)?;
        Ok(Region { bounds })
    }

    /// How many columns there are.
    pub fn len(&self) -> usize
        ensures count { result ≡ length self.now }
        ensures few { result ≤ most_columns }
    {
        self.bounds.len()
    }

    /// Makes the high bound of a column the smaller of itself and `k`.
    pub fn cut_high(&mut self, j: u32, k: Frac)
        requires { j < length self.old }
        ensures { self.new ≡ cut_high self.old j k }
    {
        let bounds = &mut self.bounds[j as usize];
        bounds.high = smaller(bounds.high, k);
    }

    /// Makes the low bound of a column the larger of itself and `k`.
    pub fn cut_low(&mut self, j: u32, k: Frac)
        requires { j < length self.old }
        ensures { self.new ≡ cut_low self.old j k }
    {
        let bounds = &mut self.bounds[j as usize];
        bounds.low = larger(bounds.low, k);
    }

    /// Gives a column these bounds.
    pub fn set(&mut self, j: u32, bounds: Row)
        requires { j < length self.old }
        ensures { self.new ≡ slice_set self.old j bounds }
    {
        self.bounds[j as usize] = bounds;
    }

    /// The bounds of a column.
    pub fn at(&self, j: u32) -> Row
        requires { j < length self.now }
        ensures { result ≡ bounds_at self.now j }
    {
        self.bounds[j as usize]
    }

    /// The low bound of a column.
    pub fn low(&self, j: u32) -> Option<Frac>
        requires { j < length self.now }
        ensures { result ≡ (bounds_at self.now j).low }
    {
        self.bounds[j as usize].low
    }

    /// The high bound of a column.
    pub fn high(&self, j: u32) -> Option<Frac>
        requires { j < length self.now }
        ensures { result ≡ (bounds_at self.now j).high }
    {
        self.bounds[j as usize].high
    }

    /// The bounds of all columns.
    pub fn bounds(&self) -> &[Row]
        ensures { result.now ≡ self.now }
    {
        &self.bounds
    }

    /// The first column whose low bound is above its high bound.
    pub fn crossed(&self) -> Option<u32>
        ensures first { result ≡ first_crossed self.now }
        ensures crossed { IfSome result (λ j. IsCrossedAt self.now j) }
        ensures none { IfNone result (IsCrossedRegion self.now → ⊥) }
    {
        first_crossed(&self.bounds)
    }
}

/// The smaller of a high bound and a number.
fn smaller(high: Option<Frac>, k: Frac) -> Option<Frac>
    ensures { result ≡ smaller high k }
{
    match high {
        Some(high) if high.at_most(k) => Some(high),
        _ => Some(k),
    }
}

/// The larger of a low bound and a number.
fn larger(low: Option<Frac>, k: Frac) -> Option<Frac>
    ensures { result ≡ larger low k }
{
    match low {
        Some(low) if !low.at_most(k) => Some(low),
        _ => Some(k),
    }
}

/// Whether a low bound is above a high one.
pub fn is_crossed(bounds: &Row) -> bool
    ensures { result ≡ is_crossed bounds.now }
{
    match bounds.low {
        Some(low) => match bounds.high {
            Some(high) => !low.at_most(high),
            None => false,
        },
        None => false,
    }
}

/// The first place where the low bound is above the high one.
fn first_crossed(bounds: &[Row]) -> Option<u32>
    requires { length bounds.now ≤ most_columns }
    ensures { result ≡ first_crossed bounds.now }
{
    for j in 0..bounds.len() {
        if is_crossed(&bounds[j]) {
            return Some(j as u32);
        }
    }
    None
}

/// The bounds of a program's columns.
fn all_bounds(alloc: Global, p: &Program) -> Result<Vec<Row>, Memory>
    ensures bounds { IfOk result (λ rows. rows.items ≡ bounds p.now) }
    ensures few { length (bounds p.now) ≤ most_columns }
{
    let mut bounds = Vec::new(alloc);
    for j in 0..p.columns() {
        let Row { low, high } = p.bounds(j);
        bounds.push(Row { low, high })?;
    }
    Ok(bounds)
}
