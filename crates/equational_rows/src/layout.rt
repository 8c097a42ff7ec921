// How the file's columns and the slacks stand in the form.

ghost use Rattle.std.specs.Prelude.{◌≡◌, ◌≤◌, ◌+◌, length, IfOk};
ghost use Rattle.program_law.specs.Program.{most_columns, sides};
ghost use Rattle.equational_law.specs.Standing.{standing, parts_at, parts};
ghost use Rattle.equational_law.specs.Equations.{slacks_at, row_slacks, bound_slacks, bound_slacks_by};
ghost use Rattle.equational_rows.specs.Built.{all_slacks, laid};

use frac_core::Memory;
use program_data::Program;
use program_law::Row;
use program_regions::Region;
use std::alloc::Global;
use std::marker::Model;

/// The bounds of the file's columns, how many columns of the form stand for them, and how many slacks follow: those of the file's rows,
/// and then one for each column with both bounds.
#[derive(Drop)]
pub struct Layout {
    /// The bounds of each column of the file.
    bounds: Vec<Row>,
    /// How many columns of the form stand for columns of the file: two for one without bounds, else one.
    parts: usize,
    /// How many slacks the rows have.
    row_slacks: usize,
    /// How many slacks there are in all.
    slacks: usize,
}

impl Model for Layout {
    ghost use Rattle.std.specs.Prelude.{◌≡◌, ◌≤◌, ◌+◌, length};
    ghost use Rattle.program_law.specs.Program.{most_columns};
    ghost use Rattle.equational_law.specs.Standing as standings;
    ghost use Rattle.equational_law.specs.Equations.{bound_slacks};
    ghost use Rattle.equational_rows.specs.Built.{Laid};

    ghost Value = { Laid };

    ghost view = { λ l. record { region = l.bounds.items; row_slacks = l.row_slacks } };

    ghost invariant = { λ l. (length l.bounds.items ≤ most_columns) × (l.parts ≡ standings.parts l.bounds.items) × (l.parts ≤ 256) × (l.row_slacks ≤ 256) × (l.slacks ≡ l.row_slacks + bound_slacks l.bounds.items) × (l.slacks ≤ 384) };
}

/// How many columns of the form stand for a column: two for one without bounds, else one.
pub fn parts_of(bounds: Row) -> usize
    ensures parts { result ≡ parts_at (standing bounds) }
    ensures few { result ≤ 2 }
{
    match bounds.low {
        Some(_) => 1,
        None => match bounds.high {
            Some(_) => 1,
            None => 2,
        },
    }
}

/// How many slacks the equations of a row have.
pub(crate) fn slacks_of(sides: Row) -> usize
    ensures slacks { result ≡ slacks_at sides }
    ensures few { result ≤ 2 }
{
    match sides.low {
        Some(low) => match sides.high {
            Some(high) => { if low == high { 0 } else { 2 } }
            None => 1,
        },
        None => match sides.high {
            Some(_) => 1,
            None => 0,
        },
    }
}

/// How many slacks the equation of a column has.
pub(crate) fn bound_slacks_of(bounds: Row) -> usize
    ensures slacks { result ≡ bound_slacks_by bounds.low bounds.high }
    ensures few { result ≤ 1 }
{
    match bounds.low {
        Some(_) => match bounds.high {
            Some(_) => 1,
            None => 0,
        },
        None => 0,
    }
}

fn all_parts(bounds: &[Row]) -> usize
    requires { length bounds.now ≤ most_columns }
    ensures parts { result ≡ parts bounds.now }
    ensures few { result ≤ 256 }
{
    let mut count = 0;
    for j in 0..bounds.len() {
        count += parts_of(bounds[j]);
    }
    count
}

fn all_bound_slacks(bounds: &[Row]) -> usize
    requires { length bounds.now ≤ most_columns }
    ensures slacks { result ≡ bound_slacks bounds.now }
    ensures few { result ≤ most_columns }
{
    let mut count = 0;
    for j in 0..bounds.len() {
        count += bound_slacks_of(bounds[j]);
    }
    count
}

fn all_row_slacks(p: &Program) -> usize
    ensures slacks { result ≡ row_slacks (sides p.now) }
    ensures few { result ≤ 256 }
{
    let mut count = 0;
    for i in 0..p.rows() {
        count += slacks_of(p.row(i));
    }
    count
}

/// The same bounds once more.
fn copied(alloc: Global, bounds: &[Row]) -> Result<Vec<Row>, Memory>
    ensures { IfOk result (λ copy. copy.items ≡ bounds.now) }
{
    let mut copy = Vec::new(alloc);
    copy.extend_from_slice(bounds)?;
    Ok(copy)
}

impl Layout {
    /// How the columns and the slacks of a program stand in its form in a region.
    pub fn of(alloc: Global, p: &Program, region: &Region) -> Result<Layout, Memory>
        ensures { IfOk result (λ l. l ≡ laid p.now region.now) }
    {
        let _few = region.len();
        let bounds = copied(alloc, region.bounds())?;
        let parts = all_parts(&bounds);
        let row_slacks = all_row_slacks(p);
        let slacks = row_slacks + all_bound_slacks(&bounds);
        Ok(Layout {
            bounds,
            parts,
            row_slacks,
            slacks,
        })
    }

    /// The bounds of the file's columns.
    pub fn bounds(&self) -> &[Row]
        ensures bounds { result.now ≡ self.now.region }
        ensures few { length self.now.region ≤ most_columns }
    {
        &self.bounds
    }

    /// How many columns stand for the file's.
    pub fn parts(&self) -> usize
        ensures parts { result ≡ parts self.now.region }
        ensures few { result ≤ 256 }
    {
        self.parts
    }

    /// How many slacks the equations of the file's rows have.
    pub(crate) fn row_slacks(&self) -> usize
        ensures slacks { result ≡ self.now.row_slacks }
        ensures few { result ≤ 256 }
    {
        self.row_slacks
    }

    /// How many slacks there are.
    pub fn slacks(&self) -> usize
        ensures slacks { result ≡ all_slacks self.now }
        ensures few { result ≤ 384 }
    {
        self.slacks
    }

    /// How many columns the form has.
    pub fn width(&self) -> usize
        ensures width { result ≡ parts self.now.region + all_slacks self.now }
        ensures few { result ≤ 640 }
    {
        self.parts + self.slacks
    }

    /// The bounds alone.
    pub fn into_bounds(self) -> Vec<Row>
        ensures { result.items ≡ self.region }
    {
        self.bounds
    }
}
