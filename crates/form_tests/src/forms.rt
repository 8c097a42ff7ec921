// The form of a small program, part by part, and the first operation that is past.

use crate::programs::{FIRST, LARGE_COSTS, formed, program_of};
use equational::Form;
use exact_matrix::{Matrix, Stop};
use frac_core::{Frac, Op, Refused, Vector};
use program_data::Program;
use std::alloc::Global;
use std::test::Fail;

const MAX: i128 = i128::MAX;

fn is_vector(v: &Vector<Frac>, numbers: &[i128]) -> bool {
    if v.len() != numbers.len() {
        return false;
    }
    for i in 0..numbers.len() {
        if v.at(i).num() != numbers[i] || v.at(i).den() != 1 {
            return false;
        }
    }
    true
}

fn is_row_of(m: &Matrix<Frac>, i: usize, numbers: &[i128]) -> bool {
    if i >= m.rows() || m.columns() != numbers.len() {
        return false;
    }
    let row = m.row(i);
    for j in 0..row.len() {
        if j >= numbers.len() || row[j].num() != numbers[j] || row[j].den() != 1 {
            return false;
        }
    }
    true
}

/// Whether a point, a ray and multipliers of threes go back to threes.
fn go_back(alloc: Global, f: &Form) -> Result<bool, Fail> {
    let z = Vector::filled(alloc, f.cost().len(), Frac::whole(3))?;
    let y = Vector::filled(alloc, f.right().len(), Frac::whole(3))?;
    let multipliers = f.multipliers_back(alloc, &y)?;
    let Ok(point) = f.point_back(alloc, &z) else {
        return Ok(false);
    };
    let Ok(ray) = f.ray_back(alloc, &z) else {
        return Ok(false);
    };
    Ok(is_vector(&point, &[3, 3]) && is_vector(&ray, &[3, 3]) && is_vector(&multipliers, &[3, 3]))
}

fn has_equations(f: &Form) -> bool {
    f.matrix().rows() == 3
        && is_row_of(f.matrix(), 0, &[1, 1, 1, 0, 0])
        && is_row_of(f.matrix(), 1, &[-1, 2, 0, 1, 0])
        && is_row_of(f.matrix(), 2, &[0, 1, 0, 0, 1])
        && is_vector(f.right(), &[7, 4, 4])
}

fn has_costs(f: &Form) -> bool {
    f.quadratic().rows() == 5
        && is_row_of(f.quadratic(), 1, &[0, 8, 0, 0, 0])
        && is_vector(f.cost(), &[0, -32, 0, 0, 0])
        && f.constant().num() == 64
}

/// Whether the form of a program is this one, part by part, and goes back.
fn is_formed(alloc: Global, p: &Program) -> Result<bool, Fail> {
    match formed(alloc, p) {
        Ok(f) => Ok(has_equations(&f) && has_costs(&f) && go_back(alloc, &f)?),
        Err(_) => Ok(false),
    }
}

#[test]
fn a_form(rt: HostRuntime) -> Result<(), Fail> {
    let p = program_of(rt.alloc(), FIRST)?;
    assert!(rt; is_formed(rt.alloc(), &p)?);
    Ok(())
}

#[test]
fn a_sum_past_the_greatest(rt: HostRuntime) -> Result<(), Fail> {
    let p = program_of(rt.alloc(), LARGE_COSTS)?;
    let refused = match formed(rt.alloc(), &p) {
        Err(Stop::Past(refused)) => refused,
        _ => return Err(Fail::new("nothing is past")),
    };
    assert!(rt; matches!(refused.op, Op::Add));
    assert!(rt; refused.left.num() == MAX && refused.right.num() == MAX);
    Ok(())
}
