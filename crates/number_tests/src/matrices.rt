// Systems and inverses of small matrices, and an elimination past the greatest part.

use exact_matrix::{Matrix, Solved, Stop, invert, solve};
use frac_core::{Frac, Op, Refused, Vector};
use std::alloc::Global;
use std::test::Fail;

const MAX: i128 = i128::MAX;

fn vector(alloc: Global, entries: &[i128]) -> Result<Vector<Frac>, Fail> {
    let mut row = Vector::filled(alloc, 0, Frac::of_parts(0, 1)?)?;
    for x in entries {
        row.push(Frac::of_parts(*x, 1)?)?;
    }
    Ok(row)
}

/// The matrix of rows of whole numbers, one after another.
fn matrix(
    alloc: Global,
    rows: usize,
    columns: usize,
    entries: &[i128],
) -> Result<Matrix<Frac>, Fail> {
    let mut m = Matrix::filled(alloc, rows, columns, Frac::of_parts(0, 1)?)?;
    let mut next = entries.iter();
    for i in 0..m.rows() {
        for j in 0..m.columns() {
            if let Some(x) = next.next() {
                let value = Frac::of_parts(*x, 1)?;
                if i < m.rows() && j < m.columns() {
                    m.set(i, j, value);
                }
            }
        }
    }
    Ok(m)
}

fn push_number(text: &mut String, alloc: Global, x: Frac) -> Result<(), Fail> {
    text.push_str(&format!(in alloc; " {x}")?)?;
    Ok(())
}

fn push_stop(text: &mut String, alloc: Global, stop: Stop) -> Result<(), Fail> {
    match stop {
        Stop::Memory => text.push_str("memory")?,
        Stop::Past(r) => {
            let Refused { op, left, right } = r;
            text.push_str(&format!(in alloc; "past {op:?} {left} {right}")?)?;
        }
    }
    Ok(())
}

fn push_vector(text: &mut String, alloc: Global, v: &Vector<Frac>) -> Result<(), Fail> {
    for i in 0..v.len() {
        push_number(text, alloc, v.at(i))?;
    }
    Ok(())
}

fn push_rows(text: &mut String, alloc: Global, m: &Matrix<Frac>) -> Result<(), Fail> {
    for i in 0..m.rows() {
        for x in m.row(i) {
            push_number(text, alloc, *x)?;
        }
        text.push_str(" /")?;
    }
    Ok(())
}

/// The answer of `solve` as text.
fn solved(alloc: Global, m: &Matrix<Frac>, r: &Vector<Frac>) -> Result<String, Fail> {
    let mut text = String::new(alloc);
    if m.rows() != r.len() {
        return Ok(text);
    }
    match solve(alloc, m, r) {
        Ok(Solved::Solution(z)) => {
            text.push_str("solution")?;
            push_vector(&mut text, alloc, &z)?;
        }
        Ok(Solved::Refuted(w, v)) => {
            text.push_str("refuted")?;
            push_vector(&mut text, alloc, &w)?;
            text.push_str(" to")?;
            push_number(&mut text, alloc, v)?;
        }
        Err(stop) => push_stop(&mut text, alloc, stop)?,
    }
    Ok(text)
}

/// The answer of `invert` as text.
fn inverted(alloc: Global, m: &Matrix<Frac>) -> Result<String, Fail> {
    let mut text = String::new(alloc);
    if m.rows() != m.columns() {
        return Ok(text);
    }
    match invert(alloc, m) {
        Ok(Some(inverse)) => {
            text.push_str("inverse")?;
            push_rows(&mut text, alloc, &inverse)?;
        }
        Ok(None) => text.push_str("dependent")?,
        Err(stop) => push_stop(&mut text, alloc, stop)?,
    }
    Ok(text)
}

#[test]
fn entries(rt: HostRuntime) -> Result<(), Fail> {
    let alloc = rt.alloc();
    let mut text = String::new(alloc);
    push_rows(&mut text, alloc, &matrix(alloc, 2, 3, &[1, 2, 3, 4, 5, 6])?)?;
    push_rows(&mut text, alloc, &matrix(alloc, 3, 0, &[])?)?;
    assert_eq!(rt; text.as_str(), " 1 2 3 / 4 5 6 / / / /");
    assert!(rt; Matrix::filled(alloc, usize::MAX, 2, Frac::of_parts(0, 1)?).is_err());
    Ok(())
}

#[test]
fn systems(rt: HostRuntime) -> Result<(), Fail> {
    let alloc = rt.alloc();
    let table: [(usize, usize, &[i128], &[i128], &str); 6] = [
        (2, 2, &[1, 2, 2, 4], &[1, 3], "refuted -2 1 to 1"),
        (2, 2, &[1, 2, 2, 4], &[1, 2], "solution 1 0"),
        (2, 2, &[1, 2, 3, 4], &[1, 0], "solution -2 3/2"),
        (2, 3, &[0, 0, 2, 0, 3, 1], &[4, 5], "solution 0 1 2"),
        (0, 0, &[], &[], "solution"),
        (
            2,
            2,
            &[1, MAX, MAX, 0],
            &[0, 0],
            "past Mul 170141183460469231731687303715884105727 170141183460469231731687303715884105727",
        ),
    ];
    for (rows, columns, entries, right, text) in table {
        let m = matrix(alloc, rows, columns, entries)?;
        let r = vector(alloc, right)?;
        assert_eq!(rt; solved(alloc, &m, &r)?.as_str(), text);
    }
    Ok(())
}

#[test]
fn inverses(rt: HostRuntime) -> Result<(), Fail> {
    let alloc = rt.alloc();
    let table: [(usize, &[i128], &str); 5] = [
        (2, &[1, 2, 3, 4], "inverse -2 1 / 3/2 -1/2 /"),
        (2, &[0, 1, 1, 0], "inverse 0 1 / 1 0 /"),
        (2, &[1, 2, 2, 4], "dependent"),
        (0, &[], "inverse"),
        (
            2,
            &[1, 1, -MAX, 1],
            "past Sub 1 -170141183460469231731687303715884105727",
        ),
    ];
    for (size, entries, text) in table {
        let m = matrix(alloc, size, size, entries)?;
        assert_eq!(rt; inverted(alloc, &m)?.as_str(), text);
    }
    Ok(())
}
