// The reduction, place by place.

ghost use Rattle.frac_core.specs.Calculated.{Leaves};
ghost use Rattle.symmetric_half.specs.Chain.{row_answered};
ghost use Rattle.convexity.specs.Places.{after_row, answer_found, freed_onto, squares_of_rows, with_entry, IsReduced, IsStep, IsTaken};
ghost use Rattle.convexity.specs.Reduction.{first_place};
ghost use Rattle.convexity.specs.ReductionCalculation.{less_product, tilt_in};
ghost use Rattle.convexity.specs.declared.Curvature.TheVariants.{Negative};
ghost use Rattle.rational.specs.Sums.{entry};
ghost use Rattle.rational.specs.Vectors.{row_at};
ghost use Rattle.rational.specs.Order.{rational_cmp};
ghost use Rattle.rational.specs.Rational.{zero_ℚ, one_ℚ};
ghost use Rattle.std.specs.Prelude.{◌≡◌, ◌≢◌, ◌<◌, ◌≤◌, ◌+◌, ◌∷◌, ◌++◌, false, take, drop, length, pos, replicate, slice_set, IfOk, IfSome};
ghost use Rattle.std.specs.declared.cmp.Ordering.TheVariants.{Equal, Greater};

use crate::rows::divide_onto;
use frac_core::{Frac, Memory, Refused, Vector, dot_fractions, is_zero};
use program_law::{Square, Squares};
use std::alloc::Global;
use std::cmp::Ordering;
use symmetric_half::Half;

/// The first place with an entry that is not 0.
fn first_place(row: &[Frac]) -> Option<usize>
    ensures place { result ≡ first_place row.now }
    ensures within { IfSome result (λ k. k < length row.now) }
{
    for k in 0..row.len() {
        if !is_zero(row[k]) {
            return Some(k);
        }
    }
    None
}

/// The entry t of a vector with a negative form, where R has b beside the diagonal 0, and c on the diagonal there.
fn tilt(b: Frac, c: Frac) -> Result<Frac, Refused>
    requires { b.num ≢ pos 0 }
    ensures { result ≡ tilt_in b c }
{
    let quotient = if c.is_positive() {
        (b / c).or_refusal()?
    } else {
        (Frac::whole(1) / b).or_refusal()?
    };
    Ok(-quotient)
}

/// The place at `j`, where the diagonal is 0. Whether a vector is found.
fn flat(half: &Half, j: usize, z: &mut Vector<Frac>) -> Result<bool, Refused>
    requires place { j < length half.now }
    requires diagonal { rational_cmp (entry (row_at half.now j) 0) zero_ℚ ≡ Equal }
    requires zeros { z.old ≡ replicate (length half.now) zero_ℚ }
    ensures step { IsStep j half.now half.now z.new result }
    ensures passed { IfOk result (λ found. found ≡ false → z.new ≡ z.old) }
    ensures length { length z.new ≡ length z.old }
{
    let _size = half.size();
    let row = half.row(j);
    let Some(k) = first_place(&row[1..]) else {
        return Ok(false);
    };
    let beside = j + 1 + k;
    let t = tilt(row[1 + k], half.row(beside)[0])?;
    z.set(j, Frac::whole(1));
    z.set(beside, t);
    Ok(true)
}

/// Takes `f` times `v` from the row at `k`.
#[tactic(auto, unfolding(crate::specs::ReductionCalculation::less_product))]
fn free_row(half: &mut Half, k: usize, f: Frac, v: &[Frac]) -> Result<(), Refused>
    requires row { k < length half.old }
    requires width { k + length v.now ≡ length half.old }
    ensures row { Leaves (row_at half.new k) result (row_answered (less_product f v.now (row_at half.old k))) }
    ensures rest { half.new ≡ slice_set half.old k (row_at half.new k) }
{
    if is_zero(f) {
        return Ok(());
    }
    half.take_times(k, f, v)
}

/// Takes from each row after the one at `j` its entry in that row times `v`, which has the weight and the entries of a square.
fn free_rows(half: &mut Half, j: usize, v: &[Frac]) -> Result<(), Refused>
    requires place { j < length half.old }
    requires width { j + length v.now ≡ length half.old }
    ensures rows { Leaves half.new result (freed_onto (take (j + 1) half.old) (drop 1 (row_at half.old j)) (drop 1 v.now) (drop (j + 1) half.old)) }
    ensures size { length half.new ≡ length half.old }
{
    let _size = half.size();
    for k in 1..v.len() {
        let f = half.row(j)[k];
        free_row(half, j + k, f, &v[k..])?;
    }
    Ok(())
}

/// The place at `j`, where the diagonal is above 0: takes a square from R, and leaves its weight and entries as the row.
fn take_square(half: &mut Half, j: usize, room: &mut [Frac]) -> Result<(), Refused>
    requires place { j < length half.old }
    requires diagonal { rational_cmp (entry (row_at half.old j) 0) zero_ℚ ≡ Greater }
    requires room { length room.old ≡ length half.old }
    ensures taken { IsTaken j half.old half.new result }
    ensures size { length half.new ≡ length half.old }
{
    let v = &mut room[..half.size() - j];
    divide_onto(half.row(j), v)?;
    free_rows(half, j, v)?;
    half.put(j, v);
    Ok(())
}

/// The place at `j`. Whether a vector is found, whose entries from `j` on are then in `z`.
fn step(half: &mut Half, j: usize, z: &mut Vector<Frac>, room: &mut [Frac]) -> Result<bool, Refused>
    requires place { j < length half.old }
    requires zeros { z.old ≡ replicate (length half.old) zero_ℚ }
    requires room { length room.old ≡ length half.old }
    ensures step { IsStep j half.old half.new z.new result }
    ensures passed { IfOk result (λ found. found ≡ false → z.new ≡ z.old) }
    ensures length { length z.new ≡ length z.old }
    ensures size { length half.new ≡ length half.old }
{
    match half.row(j)[0].cmp(&Frac::whole(0)) {
        Ordering::Less => {
            z.set(j, Frac::whole(1));
            Ok(true)
        }
        Ordering::Equal => flat(half, j, z),
        Ordering::Greater => {
            take_square(half, j, room)?;
            Ok(false)
        }
    }
}

/// All places in order. The place at which a vector is found, if one is.
pub fn reduce(
    half: &mut Half,
    z: &mut Vector<Frac>,
    room: &mut [Frac],
) -> Result<Option<usize>, Refused>
    requires zeros { z.old ≡ replicate (length half.old) zero_ℚ }
    requires room { length room.old ≡ length half.old }
    ensures reduced { IsReduced half.old half.new z.new result }
    ensures length { length z.new ≡ length z.old }
    ensures size { length half.new ≡ length half.old }
{
    for j in 0..half.size() {
        if step(half, j, z, room)? {
            return Ok(Some(j));
        }
    }
    Ok(None)
}

/// The entry before the one at `next` of a vector that is 0 at the square of the row, given its entries from there on.
fn carried(row: &[Frac], z: &Vector<Frac>, next: usize) -> Result<Frac, Refused>
    requires some { 0 < length row.now }
    requires width { next + length row.now ≡ length z.now + 1 }
    ensures { after_row row.now (Negative (drop next z.now)) ≡ with_entry result (drop next z.now) }
{
    if is_zero(row[0]) {
        return Ok(Frac::whole(0));
    }
    let product = dot_fractions(&row[1..], &z.as_slice()[next..])?;
    Ok(-product)
}

/// Carries the vector back over the places before `j`.
pub fn carry_back(half: &Half, j: usize, z: &mut Vector<Frac>) -> Result<(), Refused>
    requires place { j ≤ length half.now }
    requires length { length z.old ≡ length half.now }
    ensures { Leaves (Negative z.new) result (answer_found j half.now z.old) }
{
    let mut i = j;
    while 0 < i {
        let entry = carried(half.row(i - 1), z, i)?;
        i -= 1;
        z.set(i, entry);
    }
    Ok(())
}

/// The entries of the square of the row at `j`: zeros before the place, 1 at it, and then those of the row.
fn coefficients(alloc: Global, j: usize, row: &[Frac]) -> Result<Vector<Frac>, Memory>
    requires { 0 < length row.now }
    ensures { IfOk result (λ coef. coef ≡ replicate j zero_ℚ ++ one_ℚ ∷ drop 1 row.now) }
{
    let mut entries = Vec::from_elem(alloc, Frac::whole(0), j)?;
    entries.push(Frac::whole(1))?;
    entries.extend_from_slice(&row[1..])?;
    Vector::of_slice(alloc, &entries)
}

/// The squares of the rows whose first entry, the weight, is not 0.
pub fn squares_of(alloc: Global, half: &Half) -> Result<Squares, Memory>
    ensures { IfOk result (λ squares. squares ≡ squares_of_rows 0 half.now) }
{
    let mut squares = Squares::start(alloc);
    for j in 0..half.size() {
        let row = half.row(j);
        let weight = row[0];
        if !is_zero(weight) {
            let coef = coefficients(alloc, j, row)?;
            squares.push(Square { weight, coef })?;
        }
    }
    Ok(squares)
}
