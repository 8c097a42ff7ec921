// Systems of equations, solved by elimination.

use crate::numbers::{Generator, Kind};
use crate::sums::with_result;
use anyhow::{Result, bail};
use exact_matrix::{Matrix, Solved, solve};
use frac_core::{Frac, Vector};
use std::alloc::Global;

fn entry(numbers: &mut Generator, kind: Kind, i: usize, j: usize) -> Result<Frac> {
    let number = numbers.right(kind)?;
    match kind {
        Kind::Band if j > i.saturating_add(1) || i > j.saturating_add(1) => Ok(Frac::whole(0)),
        _ => Ok(number),
    }
}

fn put(rows: &mut Matrix<Frac>, i: usize, j: usize, number: Frac) {
    if i < rows.rows() && j < rows.columns() {
        rows.set(i, j, number);
    }
}

/// A square matrix, and the right sides.
fn some_system(
    alloc: Global,
    numbers: &mut Generator,
    kind: Kind,
    size: usize,
) -> Result<(Matrix<Frac>, Vector<Frac>)> {
    let mut rows = Matrix::filled(alloc, size, size, Frac::whole(0))?;
    let mut right = Vector::new(alloc);
    for i in 0..size {
        for j in 0..size {
            let number = entry(numbers, kind, i, j)?;
            put(&mut rows, i, j, number);
        }
        right.push(numbers.right(kind)?)?;
    }
    Ok((rows, right))
}

fn solution(alloc: Global, rows: &Matrix<Frac>, right: &Vector<Frac>) -> Result<Vector<Frac>> {
    if right.len() != rows.rows() {
        bail!("lengths differ");
    }
    match solve(alloc, rows, right) {
        Ok(Solved::Solution(x)) => Ok(x),
        Ok(Solved::Refuted(_, _)) => bail!("no solution"),
        Err(_) => bail!("past"),
    }
}

/// The checksum of the solutions of `count` systems of `size` equations.
pub fn repeated(alloc: Global, kind: Kind, size: usize, count: u64) -> Result<u64> {
    let mut numbers = Generator::start();
    let (rows, right) = some_system(alloc, &mut numbers, kind, size)?;
    let mut sum = 0;
    for _ in 0..count {
        let x = solution(alloc, &rows, &right)?;
        for j in 0..x.len() {
            sum = with_result(sum, x.at(j));
        }
    }
    Ok(sum)
}
