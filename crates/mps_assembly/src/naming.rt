// Additions to a program that nothing but memory can stop.

ghost use Rattle.std.specs.Prelude.{◌≡◌, ◌≢◌, ◌<◌, None, length, IfOk, OnOk};
ghost use Rattle.program_law.specs.Program.{IsName, IsRow, row_names, column_names, marker, most_rows, most_columns};
ghost use Rattle.program_law.specs.Changes.{with_row, with_column};
ghost use Rattle.program_law.specs.Places.{place_of};

use frac_core::Memory;
use program_data::{AddFault, Column, Name, NameFault, Program, Row};
use std::alloc::Global;

/// The name with these bytes.
pub(crate) fn name_of(alloc: Global, bytes: &[u8]) -> Result<Name, Memory>
    requires { IsName bytes.now }
    ensures { IfOk result (λ name. name ≡ bytes.now) }
{
    match Name::of(alloc, bytes) {
        Ok(name) => Ok(name),
        Err(NameFault::Bad) => unreachable!(),
        Err(NameFault::Memory) => Err(Memory),
    }
}

/// Puts a row last, under a new name.
pub(crate) fn push_row(program: &mut Program, name: Name, row: Row) -> Result<(), Memory>
    requires row { IsRow row }
    requires marker { name ≢ marker }
    requires room { length program.old.rows < most_rows }
    requires absent { place_of (row_names program.old) name ≡ None }
    ensures { OnOk result (program.new ≡ with_row program.old name row) }
{
    match program.add_row(name, row) {
        Ok(_) => Ok(()),
        Err(AddFault::Many) | Err(AddFault::Twice) => unreachable!(),
        Err(AddFault::Memory) => Err(Memory),
    }
}

/// Puts a column last, under a new name.
pub(crate) fn push_column(program: &mut Program, name: Name, column: Column) -> Result<(), Memory>
    requires room { length program.old.columns < most_columns }
    requires absent { place_of (column_names program.old) name ≡ None }
    ensures { OnOk result (program.new ≡ with_column program.old name column) }
{
    match program.add_column(name, column) {
        Ok(_) => Ok(()),
        Err(AddFault::Many) | Err(AddFault::Twice) => unreachable!(),
        Err(AddFault::Memory) => Err(Memory),
    }
}
