// A program, its changes and its readers.

ghost use Rattle.std.specs.Prelude.{◌≡◌, ◌≢◌, ◌<◌, ◌≤◌, ◌^◌, ◌++◌, ◌∷◌, [], None, length, slice_get, Some, IfOk, IfSome, OnOk, OnErr};
ghost use Rattle.program_law.specs.Program.{IsProgram, IsRow, row_names, column_names, sides, bounds, marks, marker, is_marked, most_rows, most_columns};
ghost use Rattle.program_law.specs.Changes.{zeros, empty_program, with_row, with_column, with_entry, with_cost, with_constant, with_pair, with_sides, with_bounds};
ghost use Rattle.program_law.specs.Places.{place_of};
ghost use Rattle.rational.specs.Sums.{entry};
ghost use Rattle.rational.specs.Vectors.{row_at};
ghost use Rattle.program_law.specs.Region.{bounds_at};
ghost use Rattle.program_data.specs.Answers.{IsPlaced};
ghost use Rattle.named_things.specs.Named.{names_of, things_of};

use crate::faults::AddFault;
use crate::grid::{Grid, zero_row};
use crate::names::Name;
use frac_core::{Frac, Memory};
use named_things::Named;
use program_law::{Column, MOST_COLUMNS, MOST_ROWS, Row};
use std::alloc::Global;
use std::marker::Model;

/// A program: to minimise `x Q x / 2 + c x + c0` where each row of `A x` lies within its sides and each column within its bounds.
/// It has at most 128 rows and 128 columns. The names of the objective and the rows differ, and so do those of the columns.
#[derive(Drop)]
pub struct Program {
    objective: Name,
    /// The sides of each row, by its name.
    rows: Named<Row>,
    /// The bounds of each column and whether it is marked, by its name.
    columns: Named<Column>,
    /// A, rows by columns.
    entries: Grid,
    /// c, a number for each column.
    costs: Vec<Frac>,
    /// c0.
    constant: Frac,
    /// Q, columns by columns, symmetric.
    pairs: Grid,
}

impl Model for Program {
    ghost use Rattle.program_law.specs.Program as law;

    ghost Value = { law.Program };

    ghost use Rattle.program_data.specs.Kept.{viewed, IsKept};

    ghost view = { viewed };

    ghost invariant = { IsKept };
}

impl Program {
    /// The program with no rows and no columns, and the constant 0.
    pub fn start(alloc: Global, objective: Name) -> Result<Program, Memory>
        requires { objective ≢ marker }
        ensures { IfOk result (λ p. p ≡ empty_program objective) }
    {
        let costs = zero_row(alloc)?;
        Ok(Program {
            objective,
            rows: Named::new(alloc),
            columns: Named::new(alloc),
            entries: Grid::new(alloc),
            costs,
            constant: Frac::whole(0),
            pairs: Grid::new(alloc),
        })
    }

    /// The place that a row with this name would have.
    fn row_place(&self, name: &Name) -> Result<u32, AddFault>
        ensures { IsPlaced most_rows (length self.now.rows) (row_names self.now) name.now result }
    {
        let place = self.rows.len();
        if place >= MOST_ROWS {
            return Err(AddFault::Many);
        }
        if name.bytes() == self.objective.bytes() || self.rows.find(name.bytes()).is_some() {
            return Err(AddFault::Twice);
        }
        Ok(place as u32)
    }

    /// The place that a column with this name would have.
    fn column_place(&self, name: &Name) -> Result<u32, AddFault>
        ensures { IsPlaced most_columns (length self.now.columns) (column_names self.now) name.now result }
    {
        let place = self.columns.len();
        if place >= MOST_COLUMNS {
            return Err(AddFault::Many);
        }
        if self.columns.find(name.bytes()).is_some() {
            return Err(AddFault::Twice);
        }
        Ok(place as u32)
    }

    /// Puts a row last, with entries 0, and answers its place.
    ///
    /// # Errors
    /// `Many` where there are 128 rows, else `Twice` where the objective or a row has the name, else `Memory`. The program stays
    /// as it was.
    pub fn add_row(&mut self, name: Name, row: Row) -> Result<u32, AddFault>
        requires row { IsRow row }
        requires name { name ≢ marker }
        ensures answer { IsPlaced most_rows (length self.old.rows) (row_names self.old) name result }
        ensures ok { OnOk result (self.new ≡ with_row self.old name row) }
        ensures err { OnErr result (self.new ≡ self.old) }
    {
        let place = self.row_place(&name)?;
        put(&mut self.rows, &mut self.entries, name.into_bytes(), row)?;
        Ok(place)
    }

    /// Puts a column last, with entries, cost and pairs 0, and answers its place.
    ///
    /// # Errors
    /// `Many` where there are 128 columns, else `Twice` where a column has the name, else `Memory`. The program stays as it was.
    pub fn add_column(&mut self, name: Name, column: Column) -> Result<u32, AddFault>
        ensures answer { IsPlaced most_columns (length self.old.columns) (column_names self.old) name result }
        ensures ok { OnOk result (self.new ≡ with_column self.old name column) }
        ensures err { OnErr result (self.new ≡ self.old) }
    {
        let place = self.column_place(&name)?;
        put(
            &mut self.columns,
            &mut self.pairs,
            name.into_bytes(),
            column,
        )?;
        Ok(place)
    }

    /// Sets the entry of A at a row and a column.
    pub fn set_entry(&mut self, row: u32, column: u32, value: Frac)
        requires row { row < length self.old.rows }
        requires column { column < length self.old.columns }
        ensures { self.new ≡ with_entry self.old row column value }
    {
        self.entries.set(row as usize, column as usize, value);
    }

    /// Sets the cost of a column.
    pub fn set_cost(&mut self, column: u32, value: Frac)
        requires { column < length self.old.columns }
        ensures { self.new ≡ with_cost self.old column value }
    {
        self.costs[column as usize] = value;
    }

    /// Sets the constant of the objective.
    pub fn set_constant(&mut self, value: Frac)
        ensures { self.new ≡ with_constant self.old value }
    {
        self.constant = value;
    }

    /// Sets both entries of Q at two columns.
    pub fn set_pair(&mut self, j: u32, k: u32, value: Frac)
        requires j { j < length self.old.columns }
        requires k { k < length self.old.columns }
        ensures { self.new ≡ with_pair self.old j k value }
    {
        self.pairs.set(j as usize, k as usize, value);
        self.pairs.set(k as usize, j as usize, value);
    }

    /// Sets a row's sides.
    pub fn set_row(&mut self, row: u32, sides: Row)
        requires row { row < length self.old.rows }
        requires sides { IsRow sides }
        ensures { self.new ≡ with_sides self.old row sides }
    {
        self.rows.renew(row as usize, sides);
    }

    /// Sets a column's bounds, and whether it is to be whole.
    pub fn set_column(&mut self, column: u32, value: Column)
        requires { column < length self.old.columns }
        ensures { self.new ≡ with_bounds self.old column value }
    {
        self.columns.renew(column as usize, value);
    }

    /// How many rows there are.
    pub fn rows(&self) -> u32
        ensures count { result ≡ length self.now.rows }
        ensures sides { length (sides self.now) ≡ result }
        ensures entries { length self.now.entries ≡ result }
        ensures few { result ≤ most_rows }
        ensures program { IsProgram self.now }
    {
        self.rows.len() as u32
    }

    /// How many columns there are.
    pub fn columns(&self) -> u32
        ensures count { result ≡ length self.now.columns }
        ensures bounds { length (bounds self.now) ≡ result }
        ensures marks { length (marks self.now) ≡ result }
        ensures costs { length self.now.costs ≡ result }
        ensures pairs { length self.now.pairs ≡ result }
        ensures few { result ≤ most_columns }
        ensures program { IsProgram self.now }
    {
        self.columns.len() as u32
    }

    /// A row's sides.
    pub fn row(&self, i: u32) -> Row
        requires { i < length self.now.rows }
        ensures row { slice_get (sides self.now) i ≡ Some result }
        ensures bounds { result ≡ bounds_at (sides self.now) i }
        ensures good { IsRow result }
    {
        self.rows.thing(i as usize)
    }

    /// A column's bounds, and whether it is to be whole.
    pub fn column(&self, j: u32) -> Column
        requires { j < length self.now.columns }
        ensures { slice_get (things_of self.now.columns) j ≡ Some result }
    {
        self.columns.thing(j as usize)
    }

    /// A column's bounds.
    pub fn bounds(&self, j: u32) -> Row
        requires { j < length self.now.columns }
        ensures { result ≡ bounds_at (bounds self.now) j }
    {
        let column = self.column(j);
        Row {
            low: column.low,
            high: column.high,
        }
    }

    /// Whether a column is to be whole.
    pub fn is_marked(&self, j: u32) -> bool
        requires { j < length self.now.columns }
        ensures { result ≡ is_marked (marks self.now) j }
    {
        self.column(j).whole
    }

    /// The entry of A at a row and a column.
    pub fn entry(&self, i: u32, j: u32) -> Frac
        requires row { i < length self.now.rows }
        requires column { j < length self.now.columns }
        ensures { result ≡ entry (row_at self.now.entries i) j }
    {
        self.entries.row(i as usize)[j as usize]
    }

    /// The cost of a column.
    pub fn cost(&self, j: u32) -> Frac
        requires { j < length self.now.columns }
        ensures { result ≡ entry self.now.costs j }
    {
        self.costs[j as usize]
    }

    /// The constant of the objective.
    pub fn constant(&self) -> Frac
        ensures { result ≡ self.now.constant }
    {
        self.constant
    }

    /// The entry of Q at two columns.
    pub fn pair(&self, j: u32, k: u32) -> Frac
        requires j { j < length self.now.columns }
        requires k { k < length self.now.columns }
        ensures { result ≡ entry (row_at self.now.pairs j) k }
    {
        self.pairs.row(j as usize)[k as usize]
    }

    /// The entries of a row of A, one for each column.
    pub fn entries_of(&self, i: u32) -> &[Frac]
        requires { i < length self.now.rows }
        ensures entries { result.now ≡ row_at self.now.entries i }
        ensures width { length result.now ≡ length self.now.columns }
    {
        &self.entries.row(i as usize)[..self.columns.len()]
    }

    /// The costs, one for each column.
    pub fn costs(&self) -> &[Frac]
        ensures costs { result.now ≡ self.now.costs }
        ensures width { length result.now ≡ length self.now.columns }
    {
        &self.costs[..self.columns.len()]
    }

    /// The entries of a row of Q, one for each column.
    pub fn pairs_of(&self, j: u32) -> &[Frac]
        requires { j < length self.now.columns }
        ensures pairs { result.now ≡ row_at self.now.pairs j }
        ensures width { length result.now ≡ length self.now.columns }
    {
        &self.pairs.row(j as usize)[..self.columns.len()]
    }

    /// The objective's name.
    pub fn objective_name(&self) -> &[u8]
        ensures { result.now ≡ self.now.objective }
    {
        self.objective.bytes()
    }

    /// The name of a row.
    pub fn row_name(&self, i: u32) -> &[u8]
        requires { i < length self.now.rows }
        ensures { slice_get (names_of self.now.rows) i ≡ Some result.now }
    {
        self.rows.name(i as usize)
    }

    /// The name of a column.
    pub fn column_name(&self, j: u32) -> &[u8]
        requires { j < length self.now.columns }
        ensures { slice_get (names_of self.now.columns) j ≡ Some result.now }
    {
        self.columns.name(j as usize)
    }

    /// The place of the row with a name. The objective is no row.
    pub fn find_row(&self, bytes: &[u8]) -> Option<u32>
        ensures { result ≡ place_of (names_of self.now.rows) bytes.now }
    {
        narrowed(self.rows.find(bytes))
    }

    /// The place of the column with a name.
    pub fn find_column(&self, bytes: &[u8]) -> Option<u32>
        ensures { result ≡ place_of (names_of self.now.columns) bytes.now }
    {
        narrowed(self.columns.find(bytes))
    }
}

/// Puts a thing last, with a row of zeros for it.
fn put<T: Copy + Drop>(
    things: &mut Named<T>,
    numbers: &mut Grid,
    name: Vec<u8>,
    thing: T,
) -> Result<(), Memory>
    requires { place_of (names_of things.old) name.items ≡ None }
    ensures things { OnOk result (things.new ≡ things.old ++ (name.items, thing) ∷ []) }
    ensures numbers { OnOk result (numbers.new ≡ numbers.old ++ zeros most_columns ∷ []) }
    ensures no_thing { OnErr result (things.new ≡ things.old) }
    ensures no_numbers { OnErr result (numbers.new ≡ numbers.old) }
{
    numbers.push_zeros()?;
    if things.push(name, thing).is_err() {
        numbers.pop();
        return Err(Memory);
    }
    Ok(())
}

/// A place as a number of 32 bits.
fn narrowed(place: Option<usize>) -> Option<u32>
    requires { IfSome place (λ k. k < 2 ^ 32) }
    ensures { result ≡ place }
{
    match place {
        Some(place) => Some(place as u32),
        None => None,
    }
}
