// The names of a program's columns and rows.

ghost use Rattle.std.specs.Prelude.{◌≡◌, ◌<◌, ◌≤◌, length, IfSome};
ghost use Rattle.program_law.specs.Places.{place_of};
ghost use Rattle.cert_fields.specs.Names.{names_on, count_on, name_at};

use program_data::Program;

/// What an entry of a list stands for.
#[derive(Clone, Copy)]
pub enum Axis {
    Columns,
    Rows,
}

/// How many columns or rows there are.
#[tactic(auto, using(crate::proofs::NameLemmas::count_names))]
pub fn count_on(p: &Program, axis: Axis) -> u32
    ensures count { result ≡ count_on p.now axis }
    ensures names { length (names_on p.now axis) ≡ result }
    ensures few { result ≤ 128 }
{
    match axis {
        Axis::Columns => p.columns(),
        Axis::Rows => p.rows(),
    }
}

/// The name of a column or a row.
#[tactic(auto, using(crate::proofs::NameLemmas::count_names, crate::proofs::NameLemmas::name_found))]
pub fn name_on(p: &Program, axis: Axis, place: u32) -> &[u8]
    requires { place < count_on p.now axis }
    ensures { result.now ≡ name_at (names_on p.now axis) place }
{
    match axis {
        Axis::Columns => p.column_name(place),
        Axis::Rows => p.row_name(place),
    }
}

/// The place of the column or row with a name.
pub fn find_on(p: &Program, axis: Axis, name: &[u8]) -> Option<u32>
    ensures { result ≡ place_of (names_on p.now axis) name.now }
{
    match axis {
        Axis::Columns => p.find_column(name),
        Axis::Rows => p.find_row(name),
    }
}
