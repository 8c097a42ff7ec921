// A row of whole numbers over a denominator.

ghost use Rattle.std.specs.Int.{◌∣◌};
ghost use Rattle.std.specs.Prelude.{◌≡◌, ◌≢◌, ◌<◌, ◌+◌, ℕ, ◌*ℤ◌, ◌-ℤ◌, ◌<ℤ◌, ◌^◌, ◌∷◌, pos, length, unsigned_abs, IsTrue, IfOk, IfSome};
ghost use Rattle.row_arithmetic.specs.Products.{IsWithinRow, product, sum_products};
ghost use Rattle.row_arithmetic.specs.Rows.{number, IsUnitRow};
ghost use Rattle.row_arithmetic.specs.Multiples.{IsLessOf, IsQuotientOf};

use crate::numbers::{gcd, less, lowest, more, times};
use frac_core::Memory;
use std::alloc::Global;
use std::marker::Model;
use word_arithmetic::quotient;

/// A row of whole numbers, and the denominator under all of them. In a basis' row the first number is the value, and each equation has
/// one behind it.
#[derive(Drop)]
pub struct WholeRow {
    /// The numerators.
    pub numbers: Vec<i128>,
    /// The denominator that all share, above 0 in a basis' row.
    pub bottom: i128,
}

impl Model for WholeRow {
    ghost use Rattle.row_arithmetic.specs.Rows.{Row};

    ghost Value = { Row };

    ghost view = { λ r. record { numbers = r.numbers.items; bottom = r.bottom } };
}

/// p times each number of a row, less f times the one of another row. False where one doesn't fit.
fn combine(new: &mut [i128], p: i128, row: &[i128], f: i128, other: &[i128]) -> bool
    requires new { length new.old ≡ length row.now }
    requires other { length other.now ≡ length row.now }
    ensures size { length new.new ≡ length new.old }
    ensures numbers { IsTrue result → (k : ℕ) → k < length row.now → number new.new k ≡ p *ℤ number row.now k -ℤ f *ℤ number other.now k }
{
    for k in 0..row.len() {
        let Some(number) = less(p, row[k], f, other[k]) else {
            return false;
        };
        new[k] = number;
    }
    true
}

/// The greatest divisor of a denominator and of the numbers over it.
fn divisor(numbers: &[i128], bottom: i128) -> u128
    requires { pos 0 <ℤ bottom }
    ensures positive { 0 < result }
    ensures bottom { result ∣ unsigned_abs bottom }
    ensures numbers { (k : ℕ) → k < length numbers.now → result ∣ unsigned_abs (number numbers.now k) }
    ensures greatest { (d : ℕ) → d ∣ unsigned_abs bottom → ((k : ℕ) → k < length numbers.now → d ∣ unsigned_abs (number numbers.now k)) → d ∣ result }
{
    let mut common = bottom.unsigned_abs();
    for k in 0..numbers.len() {
        if common == 1 {
            return 1;
        }
        common = gcd(numbers[k].unsigned_abs(), common);
    }
    common
}

/// Divides each number by a common divisor.
fn divide(numbers: &mut [i128], g: u128)
    requires positive { 0 < g }
    requires divides { (k : ℕ) → k < length numbers.old → g ∣ unsigned_abs (number numbers.old k) }
    ensures size { length numbers.new ≡ length numbers.old }
    ensures numbers { (k : ℕ) → k < length numbers.old → number numbers.new k *ℤ pos g ≡ number numbers.old k }
{
    for k in 0..numbers.len() {
        numbers[k] = quotient(numbers[k], g);
    }
}

/// The sum of the products of the numbers over the equations, which come after the value, and a column, given by its entries with their
/// equations. None where a number on the way doesn't fit 128 bits.
pub fn product(numbers: &[i128], column: &[(usize, i128)]) -> Option<i128>
    requires { IsWithinRow (length numbers.now) column.now }
    ensures { IfSome result (λ t. t ≡ product numbers.now column.now) }
{
    let mut total: i128 = 0;
    for &(equation, value) in column {
        total = more(total, numbers[equation + 1], value)?;
    }
    Some(total)
}

/// The sum of the products of two lists of one length. None where a number on the way doesn't fit 128 bits.
pub fn sum_products(xs: &[i128], ys: &[i128]) -> Option<i128>
    requires { length xs.now ≡ length ys.now }
    ensures { IfSome result (λ t. t ≡ sum_products xs.now ys.now) }
{
    let mut total: i128 = 0;
    for k in 0..xs.len() {
        total = more(total, xs[k], ys[k])?;
    }
    Some(total)
}

/// The entry of a unit vector.
fn unit_entry(i: usize, k: usize) -> i128
    ensures one { i ≡ k → result ≡ pos 1 }
    ensures zero { i ≢ k → result ≡ pos 0 }
{
    if i == k { 1 } else { 0 }
}

impl WholeRow {
    /// A row of so many zeros.
    pub fn zeros(alloc: Global, width: usize) -> Result<WholeRow, Memory>
        ensures { IfOk result (λ r. length r.numbers ≡ width) }
    {
        let mut numbers = Vec::with_capacity(alloc, width)?;
        for _ in 0..width {
            numbers.push(0)?;
        }
        Ok(WholeRow { numbers, bottom: 1 })
    }

    /// The row of the unit column of the equation at `k` of `count`, with its value, over its scale.
    pub fn unit(
        alloc: Global,
        count: usize,
        k: usize,
        value: i128,
        scale: i128,
    ) -> Result<WholeRow, Memory>
        requires { count < 2 ^ 32 }
        ensures { IfOk result (IsUnitRow count k value scale) }
    {
        let mut numbers = Vec::with_capacity(alloc, count + 1)?;
        numbers.push(value)?;
        for i in 0..count {
            numbers.push(unit_entry(i, k))?;
        }
        Ok(WholeRow {
            numbers,
            bottom: scale,
        })
    }

    /// A row of a value and numbers.
    pub fn beside(
        alloc: Global,
        value: i128,
        rest: &[i128],
        bottom: i128,
    ) -> Result<WholeRow, Memory>
        ensures { IfOk result (λ r. r ≡ record { numbers = value ∷ rest.now; bottom = bottom }) }
    {
        let mut numbers = Vec::new(alloc);
        numbers.push(value)?;
        for number in rest {
            numbers.push(*number)?;
        }
        Ok(WholeRow { numbers, bottom })
    }

    /// Divides the numbers and the denominator by their greatest common divisor.
    fn reduce(&mut self)
        requires { pos 0 <ℤ self.old.bottom }
        ensures { IsQuotientOf self.old.bottom self.old self.new }
    {
        let common = divisor(&self.numbers, self.bottom);
        if common == 1 {
            return;
        }
        divide(&mut self.numbers, common);
        self.bottom = quotient(self.bottom, common);
    }

    /// Becomes a row over t in place of its denominator, in lowest terms.
    pub fn set_quotient(&mut self, row: &WholeRow, t: i128)
        requires size { length self.old.numbers ≡ length row.now.numbers }
        requires positive { pos 0 <ℤ t }
        ensures { IsQuotientOf t row.now self.new }
    {
        self.numbers.copy_from_slice(&row.numbers);
        self.bottom = t;
        self.reduce();
    }

    /// Becomes a row less t over its denominator times the pivot row, in lowest terms. False where a number on the way doesn't fit 128 bits;
    /// then only its width is known.
    pub fn set_less(&mut self, row: &WholeRow, pivot: &WholeRow, t: i128) -> bool
        requires size { length self.old.numbers ≡ length row.now.numbers }
        requires other { length pivot.now.numbers ≡ length row.now.numbers }
        requires row { pos 0 <ℤ row.now.bottom }
        requires pivot { pos 0 <ℤ pivot.now.bottom }
        ensures size { length self.new.numbers ≡ length self.old.numbers }
        ensures less { IsTrue result → IsLessOf t pivot.now row.now self.new }
    {
        let (p, f) = lowest(pivot.bottom, t);
        let Some(bottom) = times(row.bottom, p) else {
            return false;
        };
        if !combine(&mut self.numbers, p, &row.numbers, f, &pivot.numbers) {
            return false;
        }
        self.bottom = bottom;
        self.reduce();
        true
    }
}
