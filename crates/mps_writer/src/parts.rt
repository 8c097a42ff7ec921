// The names of a program's rows and columns by their places.

ghost use Rattle.std.specs.Prelude.{◌≡◌, ◌<◌, length};
ghost use Rattle.mps_writer_law.specs.Canonical.{row_name, column_name};

use program_data::Program;

/// A row's name.
#[tactic(auto, using(crate::proofs::PartLemmas::name_found))]
pub(crate) fn row_name(p: &Program, i: u32) -> &[u8]
    requires { i < length p.now.rows }
    ensures { result.now ≡ row_name p.now i }
{
    p.row_name(i)
}

/// A column's name.
#[tactic(auto, using(crate::proofs::PartLemmas::name_found))]
pub(crate) fn column_name(p: &Program, j: u32) -> &[u8]
    requires { j < length p.now.columns }
    ensures { result.now ≡ column_name p.now j }
{
    p.column_name(j)
}
