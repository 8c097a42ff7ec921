// The faults that all lines make together.

ghost use Rattle.std.specs.Prelude.{◌≡◌, ◌<◌, length, IfOk};
ghost use Rattle.named_things.specs.Named.{names_of};
ghost use Rattle.mps_grammar.specs.Programs.{first_line, is_range_past, is_lopsided, fault_at, pair_fault};
ghost use Rattle.mps_grammar.specs.declared.kinds.FaultKind.TheVariants as kinds;
ghost use Rattle.mps_notes.specs.Told.{telling_of};
ghost use Rattle.mps_notes.specs.Notes.{no_column};
ghost use Rattle.mps_tables.specs.ByRow.{rights_of};
ghost use Rattle.mps_tables.specs.PairTable.{IsPairTable};

use crate::row_sides::makes_past;
use exact_matrix::Matrix;
use frac_core::{Frac, Memory, Vector};
use mps_notes::{Draft, Entry};
use std::alloc::Global;

/// Whether the side that a range makes doesn't fit.
fn is_range_past(draft: &Draft, rights: &Vector<Frac>, range: &Entry) -> bool
    requires rights { rights.now ≡ rights_of (names_of draft.now.rows) draft.now.sides }
    requires row { range.now.row < length draft.now.rows }
    ensures { result ≡ is_range_past draft.now (telling_of no_column (names_of draft.now.rows) range.now) }
{
    let _rows = draft.rows();
    let kind = draft.row_kind(range.row);
    makes_past(kind, rights.at(range.row), range.value)
}

/// The first line with a range that makes a side that doesn't fit.
pub fn range_past(draft: &Draft, rights: &Vector<Frac>) -> Option<u32>
    requires { rights.now ≡ rights_of (names_of draft.now.rows) draft.now.sides }
    ensures { result ≡ first_line (is_range_past draft.now) draft.now.ranges }
{
    let ranges = draft.ranges();
    for range in ranges {
        if is_range_past(draft, rights, range) {
            return Some(range.line);
        }
    }
    None
}

/// The number of each two columns; 0 where none is told.
fn pair_table(alloc: Global, draft: &Draft) -> Result<Matrix<Frac>, Memory>
    ensures { IfOk result (λ table. IsPairTable draft.now table) }
{
    let count = draft.columns();
    let mut table = Matrix::filled(alloc, count, count, Frac::whole(0))?;
    let pairs = draft.pairs();
    for pair in pairs {
        table.set(pair.column, pair.row, pair.value);
    }
    Ok(table)
}

/// Whether an entry isn't 0, and isn't the one across the diagonal.
fn is_lopsided(draft: &Draft, table: &Matrix<Frac>, pair: &Entry) -> bool
    requires table { IsPairTable draft.now table.now }
    requires column { pair.now.column < length draft.now.columns }
    requires row { pair.now.row < length draft.now.columns }
    ensures { result ≡ is_lopsided draft.now.pairs (telling_of (names_of draft.now.columns) (names_of draft.now.columns) pair.now) }
{
    let across = table.at(pair.row, pair.column);
    !pair.value.is_zero() && across != pair.value
}

/// The first line with such an entry.
fn lopsided(draft: &Draft, table: &Matrix<Frac>) -> Option<u32>
    requires { IsPairTable draft.now table.now }
    ensures { result ≡ first_line (is_lopsided draft.now.pairs) draft.now.pairs }
{
    let pairs = draft.pairs();
    for pair in pairs {
        if is_lopsided(draft, table, pair) {
            return Some(pair.line);
        }
    }
    None
}

/// The first line with an entry of Q that isn't the one across the diagonal.
pub fn not_symmetric(alloc: Global, draft: &Draft) -> Result<Option<u32>, Memory>
    ensures { IfOk result (λ line. fault_at kinds.NotSymmetric line ≡ pair_fault draft.now) }
{
    if draft.gives_pairs_once() {
        return Ok(None);
    }
    let table = pair_table(alloc, draft)?;
    Ok(lopsided(draft, &table))
}
