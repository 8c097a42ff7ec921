// The answers for small matrices.

use crate::programs::program_of;
use convexity::{Curvature, squares};
use exact_matrix::Stop;
use frac_core::{Frac, Op, Refused, Vector};
use program_law::Squares;
use std::alloc::Global;
use std::test::Fail;

const MAX: i128 = i128::MAX;

/// Whether it is the fraction of these parts.
fn is_number(x: Frac, parts: (i128, i128)) -> bool {
    x.num() == parts.0 && x.den() == parts.1
}

/// Whether these are the first numbers of a vector.
fn is_vector(v: &Vector<Frac>, numbers: &[(i128, i128)]) -> bool {
    for i in 0..numbers.len() {
        if i >= v.len() || !is_number(v.at(i), numbers[i]) {
            return false;
        }
    }
    true
}

/// Whether the square at a place has this weight and these entries.
fn is_square(squares: &Squares, k: usize, weight: i128, numbers: &[(i128, i128)]) -> bool {
    if k >= squares.len() {
        return false;
    }
    let square = squares.get(k);
    is_number(square.weight, (weight, 1)) && is_vector(&square.coef, numbers)
}

/// The squares of a program's matrix, where it has squares.
fn squares_of(alloc: Global, text: &str) -> Result<Squares, Fail> {
    let p = program_of(alloc, text)?;
    match squares(alloc, &p) {
        Ok(Curvature::Squares(squares)) => Ok(squares),
        _ => Err(Fail::new("no squares")),
    }
}

/// The vector of a program's matrix, where it has one.
fn negative_of(alloc: Global, text: &str) -> Result<Vector<Frac>, Fail> {
    let p = program_of(alloc, text)?;
    match squares(alloc, &p) {
        Ok(Curvature::Negative(v)) => Ok(v),
        _ => Err(Fail::new("no vector")),
    }
}

/// The operation that is past, where one is.
fn past_of(alloc: Global, text: &str) -> Result<Refused, Fail> {
    let p = program_of(alloc, text)?;
    match squares(alloc, &p) {
        Err(Stop::Past(refused)) => Ok(refused),
        _ => Err(Fail::new("nothing is past")),
    }
}

const TWO: &str = "ROWS\n N o\nCOLUMNS\n a o 0\n b o 0\nQUADOBJ\n a a 2\n b b 8\nENDATA\n";

const ONE: &str =
    "ROWS\n N o\nCOLUMNS\n a o 0\n b o 0\n c o 0\nQUADOBJ\n a a 4\n a b 2\n a c 6\n b b 1\n b c 3\n c c 9\nENDATA\n";

const MIXED: &str = "ROWS\n N o\nCOLUMNS\n a o 0\n b o 0\nQUADOBJ\n a b 1\nENDATA\n";

const CARRIED: &str =
    "ROWS\n N o\nCOLUMNS\n a o 0\n b o 0\nQUADOBJ\n a a 1\n a b 2\n b b 1\nENDATA\n";

const ABOVE: &str = "ROWS\n N o\nCOLUMNS\n a o 0\n b o 0\nQUADOBJ\n a b 1\n b b 2\nENDATA\n";

const PAST: &str =
    "ROWS\n N o\nCOLUMNS\n a o 0\n b o 0\nQUADOBJ\n a a 3\n a b 170141183460469231731687303715884105727\nENDATA\n";

#[test]
fn squares_sum_to_the_form(rt: HostRuntime) -> Result<(), Fail> {
    let two = squares_of(rt.alloc(), TWO)?;
    assert!(rt; two.len() == 2);
    assert!(rt; is_square(&two, 0, 2, &[(1, 1), (0, 1)]));
    assert!(rt; is_square(&two, 1, 8, &[(0, 1), (1, 1)]));
    let one = squares_of(rt.alloc(), ONE)?;
    assert!(rt; one.len() == 1);
    assert!(rt; is_square(&one, 0, 4, &[(1, 1), (1, 2), (3, 2)]));
    let none = squares_of(rt.alloc(), "ROWS\n N o\nCOLUMNS\nENDATA\n")?;
    assert!(rt; none.len() == 0);
    Ok(())
}

#[test]
fn vectors_have_a_negative_form(rt: HostRuntime) -> Result<(), Fail> {
    let mixed = negative_of(rt.alloc(), MIXED)?;
    assert!(rt; is_vector(&mixed, &[(1, 1), (-1, 1)]));
    let carried = negative_of(rt.alloc(), CARRIED)?;
    assert!(rt; is_vector(&carried, &[(-2, 1), (1, 1)]));
    let above = negative_of(rt.alloc(), ABOVE)?;
    assert!(rt; is_vector(&above, &[(1, 1), (-1, 2)]));
    Ok(())
}

#[test]
fn product_past_the_greatest(rt: HostRuntime) -> Result<(), Fail> {
    let refused = past_of(rt.alloc(), PAST)?;
    assert!(rt; matches!(refused.op, Op::Mul));
    assert!(rt; is_number(refused.left, (MAX, 1)) && is_number(refused.right, (MAX, 3)));
    Ok(())
}
