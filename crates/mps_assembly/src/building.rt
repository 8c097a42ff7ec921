// Programs with the rows and the columns of a file, and no numbers yet.

ghost use Rattle.std.specs.Prelude.{◌≡◌, ◌<◌, ◌≤◌, ◌+◌, true, [], None, Some, IsSome, length, slice_get, IfOk, OnOk};
ghost use Rattle.program_law.specs.Program.{IsRow, most_rows};
ghost use Rattle.mps_grammar.specs.Told.{binds, program_rows, objective_in};
ghost use Rattle.mps_grammar.specs.Programs.{first_line, is_range_past, sides_of, value_at, value_told};
ghost use Rattle.named_things.specs.Named.{names_of, things_of};
ghost use Rattle.named_things.specs.Names.{name_at};
ghost use Rattle.mps_tables.specs.Bounding.{boundings_of};
ghost use Rattle.mps_assembly.specs.Built.{AreSides, rows_built, columns_built};
ghost use Rattle.mps_tables.specs.ByRow.{rights_of};

use crate::naming::{name_of, push_column, push_row};
use frac_core::{Frac, Memory, Vector};
use mps_notes::Draft;
use mps_tables::{Bounding, bounded_columns, ranges, sides};
use mps_tokens::RowKind;
use program_data::{Program, Row};
use std::alloc::Global;

/// Whether a row of this kind is a row of the program.
fn is_bound(kind: RowKind) -> bool
    ensures { result ≡ binds kind }
{
    match kind {
        RowKind::Objective => false,
        RowKind::AtMost | RowKind::AtLeast | RowKind::Equal => true,
    }
}

/// The objective's row by its number in the file.
pub(crate) fn objective_row(draft: &Draft) -> usize
    requires { IsSome (objective_in draft.now.rows) }
    ensures within { result < length draft.now.rows }
    ensures objective { objective_in draft.now.rows ≡ Some (name_at (names_of draft.now.rows) result) }
{
    for row in 0..draft.rows() {
        if !is_bound(draft.row_kind(row)) {
            return row;
        }
    }
    unreachable!()
}

/// The sides of a row of the program.
fn sides_of_row(
    draft: &Draft,
    rights: &Vector<Frac>,
    ranges: &Vector<Option<Frac>>,
    row: usize,
    kind: RowKind,
) -> Row
    requires sides { AreSides draft.now rights.now ranges.now }
    requires row { row < length draft.now.rows }
    requires kind { slice_get (things_of draft.now.rows) row ≡ Some kind }
    requires bound { binds kind ≡ true }
    ensures sides { let name = name_at (names_of draft.now.rows) row in
        result ≡ sides_of kind (value_told draft.now.sides [] name) (value_at draft.now.ranges [] name) }
    ensures good { IsRow result }
{
    let _rows = draft.rows();
    let right = rights.at(row);
    let range = ranges.at(row);
    match sides(kind, right, range) {
        Some(sides) => sides,
        None => unreachable!(),
    }
}

/// Adds a row of the program.
fn add_row(
    alloc: Global,
    draft: &Draft,
    sides: Row,
    row: usize,
    kind: RowKind,
    program: &mut Program,
) -> Result<(), Memory>
    requires few { length (program_rows draft.now.rows) ≤ most_rows }
    requires objective { IsSome (objective_in draft.now.rows) }
    requires row { row < length draft.now.rows }
    requires kind { slice_get (things_of draft.now.rows) row ≡ Some kind }
    requires bound { binds kind ≡ true }
    requires sides { let name = name_at (names_of draft.now.rows) row in
        sides ≡ sides_of kind (value_told draft.now.sides [] name) (value_at draft.now.ranges [] name) }
    requires good { IsRow sides }
    requires program { program.old ≡ rows_built draft.now row }
    ensures { OnOk result (program.new ≡ rows_built draft.now (row + 1)) }
{
    let _rows = draft.rows();
    let name = name_of(alloc, draft.row_name(row))?;
    push_row(program, name, sides)
}

/// Adds the rows of the program, with these right sides and ranges.
fn add_each_row(
    alloc: Global,
    draft: &Draft,
    rights: &Vector<Frac>,
    ranges: &Vector<Option<Frac>>,
    program: &mut Program,
) -> Result<(), Memory>
    requires few { length (program_rows draft.now.rows) ≤ most_rows }
    requires objective { IsSome (objective_in draft.now.rows) }
    requires sides { AreSides draft.now rights.now ranges.now }
    requires program { program.old ≡ rows_built draft.now 0 }
    ensures { OnOk result (program.new ≡ rows_built draft.now (length draft.now.rows)) }
{
    for row in 0..draft.rows() {
        let kind = draft.row_kind(row);
        if is_bound(kind) {
            let sides = sides_of_row(draft, rights, ranges, row, kind);
            add_row(alloc, draft, sides, row, kind, program)?;
        }
    }
    Ok(())
}

/// Adds the rows of the program.
pub(crate) fn add_rows(
    alloc: Global,
    draft: &Draft,
    rights: &Vector<Frac>,
    program: &mut Program,
) -> Result<(), Memory>
    requires few { length (program_rows draft.now.rows) ≤ most_rows }
    requires objective { IsSome (objective_in draft.now.rows) }
    requires rights { rights.now ≡ rights_of (names_of draft.now.rows) draft.now.sides }
    requires held { first_line (is_range_past draft.now) draft.now.ranges ≡ None }
    requires program { program.old ≡ rows_built draft.now 0 }
    ensures { OnOk result (program.new ≡ rows_built draft.now (length draft.now.rows)) }
{
    let ranges = ranges(alloc, draft)?;
    add_each_row(alloc, draft, rights, &ranges, program)
}

/// Adds a column.
fn add_column(
    alloc: Global,
    draft: &Draft,
    bounded: &Bounding,
    column: usize,
    program: &mut Program,
) -> Result<(), Memory>
    requires column { column < length draft.now.columns }
    requires bounds { slice_get (boundings_of draft.now.columns draft.now.bounds) column ≡ Some bounded.now }
    requires program { program.old ≡ columns_built draft.now column }
    ensures { OnOk result (program.new ≡ columns_built draft.now (column + 1)) }
{
    let _columns = draft.columns();
    let name = name_of(alloc, draft.column_name(column))?;
    push_column(program, name, bounded.column)
}

/// Adds the columns, with these bounds.
fn add_each_column(
    alloc: Global,
    draft: &Draft,
    bounded: &[Bounding],
    program: &mut Program,
) -> Result<(), Memory>
    requires bounds { bounded.now ≡ boundings_of draft.now.columns draft.now.bounds }
    requires program { program.old ≡ columns_built draft.now 0 }
    ensures { OnOk result (program.new ≡ columns_built draft.now (length draft.now.columns)) }
{
    for column in 0..draft.columns() {
        add_column(alloc, draft, &bounded[column], column, program)?;
    }
    Ok(())
}

/// Adds the columns.
pub(crate) fn add_columns(alloc: Global, draft: &Draft, program: &mut Program) -> Result<(), Memory>
    requires { program.old ≡ columns_built draft.now 0 }
    ensures { OnOk result (program.new ≡ columns_built draft.now (length draft.now.columns)) }
{
    let bounded = bounded_columns(alloc, draft)?;
    add_each_column(alloc, draft, &bounded, program)
}
