// A checksum of results.

use frac_core::Frac;

/// The checksum with one more result.
pub fn with_result(sum: u64, number: Frac) -> u64 {
    let top = (number.num().unsigned_abs() % (1 << 64)) as u64;
    let bottom = (number.den().unsigned_abs() % (1 << 64)) as u64;
    let sign: u64 = if number.sign() < 0 { 1 } else { 0 };
    (sum ^ top)
        .wrapping_mul(6364136223846793005)
        .wrapping_add(bottom)
        .wrapping_add(sign)
}
