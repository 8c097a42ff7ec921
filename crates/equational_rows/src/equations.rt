// The calculation of the equations, in the order of the file: the rows', and then the columns'.

ghost use Rattle.std.specs.Prelude.{◌≡◌, ◌≤◌, ◌+◌, ◌-◌, ◌++◌, ◌∷◌, [], List, length, replicate, Ok, IfOk};
ghost use Rattle.rational.specs.Rational.{one_ℚ};
ghost use Rattle.rational.specs.Vectors.{zeros};
ghost use Rattle.frac_core.specs.Parts.{max_part};
ghost use Rattle.program_law.specs.Program.{sides};
ghost use Rattle.equational_law.specs.Form.{equations};
ghost use Rattle.equational_law.specs.Standing.{parts, parts_at, shift, spread, standing};
ghost use Rattle.equational_law.specs.Equations.{Equation, slacks_at, row_slacks, row_equations, bound_slacks_by};
ghost use Rattle.equational_law.specs.Calculation.{equations_in, row_equations_by_in, row_equations_in, bound_equation_in, bound_equations_in};
ghost use Rattle.equational_rows.specs.Firsts.{firsts_from};
ghost use Rattle.exact_matrix.specs.Stops.{Answers};
ghost use Rattle.equational_rows.specs.Built.{all_slacks, appended, no_rows, side_in, taken, two_sides_in};

use crate::layout::{Layout, bound_slacks_of, parts_of, slacks_of};
use crate::lists::push;
use crate::rows::{Rows, Slacks};
use exact_matrix::Stop;
use frac_core::{Frac, dot_fractions, subtracted};
use program_data::Program;
use program_law::Row;
use std::alloc::Global;

/// The first equation of a row of the file, and whether it was negated.
#[derive(Clone, Copy)]
pub struct First {
    /// The equation, counted from 0.
    pub equation: usize,
    /// Whether its signs were turned.
    pub negated: bool,
}

/// Appends the equation of a side, given the row's product with the shift. Whether it is negated.
fn push_side(
    rows: &mut Rows,
    layout: &Layout,
    row: &[Frac],
    slacks: Slacks,
    side: Frac,
    product: Frac,
) -> Result<bool, Stop>
    requires width { length row.now ≡ length layout.now.region }
    requires within { slacks.before + slacks.own ≤ all_slacks layout.now }
    ensures { Answers (λ negated. (rows.new, negated)) result (taken (all_slacks layout.now) rows.old (side_in (spread layout.now.region row.now) slacks side product)) }
{
    let right = subtracted(side, product)?;
    rows.push_row(layout, row, slacks, right)?;
    Ok(right.is_negative())
}

/// Appends the equations of two different sides, given the row's product with the shift. Whether the first is negated.
fn push_two_sides(
    rows: &mut Rows,
    layout: &Layout,
    row: &[Frac],
    before: usize,
    sides: (Frac, Frac),
    product: Frac,
) -> Result<bool, Stop>
    requires width { length row.now ≡ length layout.now.region }
    requires within { before + 2 ≤ all_slacks layout.now }
    ensures { Answers (λ negated. (rows.new, negated)) result (taken (all_slacks layout.now) rows.old (two_sides_in sides.0 sides.1 before (spread layout.now.region row.now) product)) }
{
    let entry = Frac::whole(1);
    let first = Slacks {
        before,
        own: 1,
        entry,
    };
    let both = Slacks {
        before,
        own: 2,
        entry,
    };
    let negated = push_side(rows, layout, row, first, sides.1, product)?;
    let gap = subtracted(sides.1, sides.0)?;
    rows.push_slacks(layout, both, gap)?;
    Ok(negated)
}

/// Appends the equations of a row, given its product with the shift. Whether the first is negated.
fn push_row_equations(
    rows: &mut Rows,
    layout: &Layout,
    row: &[Frac],
    before: usize,
    sides: Row,
    product: Frac,
) -> Result<bool, Stop>
    requires width { length row.now ≡ length layout.now.region }
    requires within { before + slacks_at sides ≤ all_slacks layout.now }
    ensures { Answers (λ negated. (rows.new, negated)) result (taken (all_slacks layout.now) rows.old (row_equations_by_in max_part sides.low sides.high before (spread layout.now.region row.now) product)) }
{
    let entry = Frac::whole(1);
    match sides.low {
        Some(low) => match sides.high {
            Some(high) => {
                if low != high {
                    return push_two_sides(rows, layout, row, before, (low, high), product);
                }
                let slacks = Slacks {
                    before,
                    own: 0,
                    entry,
                };
                push_side(rows, layout, row, slacks, low, product)
            }
            None => {
                let slacks = Slacks {
                    before,
                    own: 1,
                    entry: -entry,
                };
                push_side(rows, layout, row, slacks, low, product)
            }
        },
        None => match sides.high {
            Some(high) => {
                let slacks = Slacks {
                    before,
                    own: 1,
                    entry,
                };
                push_side(rows, layout, row, slacks, high, product)
            }
            None => Ok(false),
        },
    }
}

/// Appends the equations of all rows, and answers the first of each.
fn rows_taken(
    alloc: Global,
    rows: &mut Rows,
    layout: &Layout,
    p: &Program,
    h: &[Frac],
) -> Result<Vec<First>, Stop>
    requires shift { length h.now ≡ length p.now.columns }
    requires region { length layout.now.region ≡ length p.now.columns }
    requires slacks { layout.now.row_slacks ≡ row_slacks (sides p.now) }
    ensures equations { Answers (λ _. rows.new) result (appended (all_slacks layout.now) rows.old (row_equations_in max_part layout.now.region h.now 0 (sides p.now) p.now.entries)) }
    ensures firsts { IfOk result (λ firsts. (more : List Equation) → firsts.items ≡ firsts_from (length rows.old.right) (sides p.now) (row_equations layout.now.region h.now 0 (sides p.now) p.now.entries ++ more)) }
{
    let mut firsts = Vec::new(alloc);
    let mut before = 0;
    for i in 0..p.rows() {
        let equation = rows.len();
        let row = p.entries_of(i);
        let product = dot_fractions(row, h)?;
        let negated = push_row_equations(rows, layout, row, before, p.row(i), product)?;
        push(&mut firsts, First { equation, negated })?;
        before += slacks_of(p.row(i));
    }
    Ok(firsts)
}

/// Appends the equation of a column with both bounds, whose column of the form is at `at`.
fn column_taken(
    rows: &mut Rows,
    layout: &Layout,
    bounds: Row,
    at: usize,
    before: usize,
) -> Result<(), Stop>
    requires place { at + parts_at (standing bounds) ≤ parts layout.now.region }
    requires within { before + bound_slacks_by bounds.low bounds.high ≤ all_slacks layout.now }
    ensures { Answers (λ _. rows.new) result (appended (all_slacks layout.now) rows.old (bound_equation_in max_part bounds.low bounds.high before (zeros at ++ one_ℚ ∷ zeros (parts layout.now.region - (at + 1))))) }
{
    let Some(low) = bounds.low else {
        return Ok(());
    };
    let Some(high) = bounds.high else {
        return Ok(());
    };
    let slacks = Slacks {
        before,
        own: 1,
        entry: Frac::whole(1),
    };
    let gap = subtracted(high, low)?;
    rows.push_column(layout, at, slacks, gap)?;
    Ok(())
}

/// Appends the equations of all columns.
fn columns_taken(rows: &mut Rows, layout: &Layout) -> Result<(), Stop>
    ensures { Answers (λ _. rows.new) result (appended (all_slacks layout.now) rows.old (bound_equations_in max_part layout.now.region layout.now.row_slacks 0 layout.now.region)) }
{
    let bounds = layout.bounds();
    let mut at = 0;
    let mut before = layout.row_slacks();
    for j in 0..bounds.len() {
        column_taken(rows, layout, bounds[j], at, before)?;
        at += parts_of(bounds[j]);
        before += bound_slacks_of(bounds[j]);
    }
    Ok(())
}

/// The equations of a program's rows and columns, given the shift of its columns; and the first equation of each row.
///
/// # Errors
///
/// `Past` with the first of their operations whose exact result doesn't fit, and `Memory`.
pub fn all_equations(
    alloc: Global,
    layout: &Layout,
    p: &Program,
    h: &[Frac],
) -> Result<(Rows, Vec<First>), Stop>
    requires region { length layout.now.region ≡ length p.now.columns }
    requires slacks { layout.now.row_slacks ≡ row_slacks (sides p.now) }
    requires shift { h.now ≡ shift layout.now.region }
    ensures equations { Answers (λ e. e.0) result (appended (all_slacks layout.now) no_rows (equations_in max_part p.now layout.now.region)) }
    ensures firsts { IfOk result (λ e. e.1.items ≡ firsts_from 0 (sides p.now) (equations p.now layout.now.region)) }
{
    let mut rows = Rows::new(alloc);
    let firsts = rows_taken(alloc, &mut rows, layout, p, h)?;
    columns_taken(&mut rows, layout)?;
    Ok((rows, firsts))
}
