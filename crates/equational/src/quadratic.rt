// Q and the costs on the form's columns.

ghost use Rattle.std.specs.Prelude.{◌≡◌, ◌++◌, length, map, IfOk, OnOk};
ghost use Rattle.exact_matrix.specs.Systems.{joined};
ghost use Rattle.equational_law.specs.Standing.{spread, spread_rows_at, standing};
ghost use Rattle.equational_law.specs.Form.{padded};
ghost use Rattle.equational_rows.specs.Built.{all_slacks, signed};
ghost use Rattle.equational.specs.Made.{quadratic_rows};

use equational_rows::{Layout, push_spread, push_zeros};
use frac_core::{Frac, Memory, Vector};
use program_data::Program;
use program_law::Row;
use std::alloc::Global;

/// Appends a row over the file's columns, or it negated, as a row over the form's.
fn push_padded(
    entries: &mut Vec<Frac>,
    layout: &Layout,
    row: &[Frac],
    negated: bool,
) -> Result<(), Memory>
    requires { length row.now ≡ length layout.now.region }
    ensures { OnOk result (entries.new.items ≡ entries.old.items ++ signed negated (padded (all_slacks layout.now) (spread layout.now.region row.now))) }
{
    push_spread(entries, layout.bounds(), row, negated)?;
    push_zeros(entries, layout.slacks())
}

/// Appends the rows of Q for a column of the file.
fn push_pairs(
    entries: &mut Vec<Frac>,
    layout: &Layout,
    bounds: Row,
    row: &[Frac],
) -> Result<(), Memory>
    requires { length row.now ≡ length layout.now.region }
    ensures { OnOk result (entries.new.items ≡ entries.old.items ++ joined (map (padded (all_slacks layout.now)) (spread_rows_at (standing bounds) (spread layout.now.region row.now)))) }
{
    match bounds.low {
        Some(_) => push_padded(entries, layout, row, false),
        None => match bounds.high {
            Some(_) => push_padded(entries, layout, row, true),
            None => {
                push_padded(entries, layout, row, false)?;
                push_padded(entries, layout, row, true)
            }
        },
    }
}

/// The rows of Q on the form's columns, one after another.
pub(crate) fn quadratic_rows(
    alloc: Global,
    layout: &Layout,
    p: &Program,
) -> Result<Vec<Frac>, Memory>
    requires { length layout.now.region ≡ length p.now.columns }
    ensures { IfOk result (λ entries. entries.items ≡ joined (quadratic_rows layout.now p.now.pairs)) }
{
    let mut entries = Vec::new(alloc);
    let bounds = layout.bounds();
    for j in 0..p.columns() {
        push_pairs(&mut entries, layout, bounds[j as usize], p.pairs_of(j))?;
    }
    push_zeros(&mut entries, layout.slacks() * layout.width())?;
    Ok(entries)
}

/// Costs of the file's columns on the form's columns.
pub(crate) fn cost(alloc: Global, layout: &Layout, costs: &[Frac]) -> Result<Vector<Frac>, Memory>
    requires { length costs.now ≡ length layout.now.region }
    ensures { IfOk result (λ c. c ≡ padded (all_slacks layout.now) (spread layout.now.region costs.now)) }
{
    let mut entries = Vec::new(alloc);
    push_padded(&mut entries, layout, costs, false)?;
    Vector::of_slice(alloc, &entries)
}
