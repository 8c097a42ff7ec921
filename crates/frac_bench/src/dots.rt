// Products of vectors.

use crate::numbers::{Generator, Kind};
use crate::sums::with_result;
use anyhow::{Context, Result, bail};
use frac_core::{Frac, Vector, dot};
use std::alloc::Global;

const VECTORS: u64 = 16;

fn some_vector(
    alloc: Global,
    numbers: &mut Generator,
    kind: Kind,
    size: usize,
    is_left: bool,
) -> Result<Vector<Frac>> {
    let mut vector = Vector::new(alloc);
    for _ in 0..size {
        let number = if is_left {
            numbers.left(kind)?
        } else {
            numbers.right(kind)?
        };
        vector.push(number)?;
    }
    Ok(vector)
}

fn some_vectors(
    alloc: Global,
    numbers: &mut Generator,
    kind: Kind,
    size: usize,
    is_left: bool,
) -> Result<Vec<Vector<Frac>>> {
    let mut vectors = Vec::new(alloc);
    for _ in 0..VECTORS {
        vectors.push(some_vector(alloc, numbers, kind, size, is_left)?)?;
    }
    Ok(vectors)
}

/// The checksum of `count` products of vectors of `size` numbers each.
pub fn repeated(alloc: Global, kind: Kind, size: usize, count: u64) -> Result<u64> {
    let mut numbers = Generator::start();
    let left = some_vectors(alloc, &mut numbers, kind, size, true)?;
    let right = some_vectors(alloc, &mut numbers, kind, size, false)?;
    let mut sum = 0;
    for turn in 0..count {
        let a = left.get((turn % VECTORS) as usize).context("no vector")?;
        let b = right
            .get((turn / VECTORS % VECTORS) as usize)
            .context("no vector")?;
        if a.len() != b.len() {
            bail!("lengths differ");
        }
        let Ok(result) = dot(a, b) else { bail!("past") };
        sum = with_result(sum, result);
    }
    Ok(sum)
}
