// Fractions at the edge of what fits, and each call that allocates.

use frac_core::{
    Frac, Op, PartsFault, Refused, Tried, Vector, add_product, added, divided, dot, dot_fractions,
    is_zero, mul_div, multiplied, subtracted, take_times,
};
use std::test::Fail;

fn is(t: Tried, num: i128, den: i128) -> bool {
    match t {
        Tried::Is(f) => f.num() == num && f.den() == den,
        Tried::Past(_) => false,
    }
}

fn refuses(t: Tried, op: Op, left: Frac, right: Frac) -> bool {
    match t {
        Tried::Is(_) => false,
        Tried::Past(r) => r.op == op && r.left == left && r.right == right,
    }
}

#[test]
fn wide_cross_products(rt: HostRuntime) -> Result<(), Fail> {
    let s = 1i128 << 60;
    let p = Frac::of_parts(s * s - s + 1, s - 1)?;
    let q = Frac::of_parts(s * s + 1, s)?;
    assert!(rt; is(p - q, 1, (s - 1) * s));
    assert!(rt; p > q);
    Ok(())
}

#[test]
fn refusals(rt: HostRuntime) -> Result<(), Fail> {
    let max = Frac::whole(i128::MAX);
    let one = Frac::whole(1);
    assert!(rt; refuses(max + one, Op::Add, max, one));
    assert!(rt; refuses(max + one - one, Op::Add, max, one));
    let p = Frac::of_parts(1, i128::MAX)?;
    let q = Frac::of_parts(1, i128::MAX - 1)?;
    assert!(rt; refuses(p + q, Op::Add, p, q));
    Ok(())
}

#[test]
fn parts(rt: HostRuntime) -> Result<(), Fail> {
    let half = Frac::of_parts(6, -4)?;
    assert_eq!(rt; half.to_string(rt.alloc())?.as_str(), "-3/2");
    assert_eq!(rt; half.floor(), -2);
    assert_eq!(rt; half.ceil(), -1);
    assert!(rt; matches!(Frac::of_parts(1, 0), Err(PartsFault::ZeroDen)));
    Ok(())
}

#[test]
fn quotients(rt: HostRuntime) {
    let (quotient, rest) = mul_div(u128::MAX, 1 << 100, (1 << 126) + 12345);
    assert!(rt; quotient == 5070602400912917605986812821503);
    assert!(rt; rest == 85007993875944745669768343156957392953);
}

#[test]
fn vectors(rt: HostRuntime) -> Result<(), Fail> {
    let third = Frac::of_parts(1, 3)?;
    let mut a = Vector::filled(rt.alloc(), 2, third)?;
    a.push(Frac::whole(2))?;
    let mut b = a.copied()?;
    b.set(2, Frac::whole(5));
    assert_eq!(rt; b.len(), 3);
    assert!(rt; matches!(dot(&a, &b), Ok(f) if f == Frac::of_parts(92, 9)?));
    let large = Vector::filled(rt.alloc(), 1, Frac::whole(i128::MAX))?;
    assert!(rt; matches!(dot(&large, &large), Err(Refused { op: Op::Mul, .. })));
    Ok(())
}

#[test]
fn slices(rt: HostRuntime) -> Result<(), Fail> {
    let third = Frac::of_parts(1, 3)?;
    let mut row = [third.clone()?, Frac::whole(5)];
    let mut other = Vector::new(rt.alloc());
    other.push(third)?;
    other.push(Frac::whole(2))?;
    assert!(rt;
        matches!(dot_fractions(&row, other.as_slice()), Ok(f) if f == Frac::of_parts(91, 9)?)
    );
    assert!(rt; matches!(add_product(third, third, Frac::whole(2)), Ok(f) if f == Frac::whole(1)));
    assert!(rt; take_times(&mut row, Frac::whole(3), other.as_slice()).is_ok());
    let turned = Vector::of_slice(rt.alloc(), &row)?.negated()?;
    assert!(rt; turned.at(0) == Frac::of_parts(2, 3)? && turned.at(1) == Frac::whole(1));
    assert!(rt; matches!((third + third).or_refusal(), Ok(f) if f == Frac::of_parts(2, 3)?));
    Ok(())
}

/// (p, q, p + q, p * q), on both sides of what fits 63, 64 and 127 bits.
const SUMS: [((i128, i128), (i128, i128), (i128, i128), (i128, i128)); 9] = [
    (
        (9223372036854775807, 2),
        (1, 9223372036854775807),
        (85070591730234615847396907784232501251, 18446744073709551614),
        (1, 2),
    ),
    (
        (18446744073709551615, 6),
        (5, 18446744073709551557),
        (
            113427455640312820785523321003065038195,
            36893488147419103114,
        ),
        (30744573456182586025, 36893488147419103114),
    ),
    ((7, 12), (5, 12), (1, 1), (35, 144)),
    (
        (-4611686018427387904, 3),
        (4611686018427387904, 5),
        (-9223372036854775808, 15),
        (-21267647932558653966460912964485513216, 15),
    ),
    (
        (4, 6917529027641081856),
        (10, 10376293541461622784),
        (1, 648518346341351424),
        (5, 8972288971548182142100697656892325888),
    ),
    (
        (1267650600228229401496703205377, 1048576),
        (3, 1048576),
        (316912650057057350374175801345, 262144),
        (3802951800684688204490109616131, 1099511627776),
    ),
    ((-5, 1), (1, 3), (-14, 3), (-5, 3)),
    (
        (4611686018427387904, 1),
        (4611686018427387904, 1),
        (9223372036854775808, 1),
        (21267647932558653966460912964485513216, 1),
    ),
    (
        (729, 4611686018427387847000),
        (1000, 3361919107433565740463),
        (1531441, 3361919107433565740463000),
        (1, 21267647932558653440728706863763295409),
    ),
];

#[test]
fn words(rt: HostRuntime) -> Result<(), Fail> {
    for ((a, b), (c, d), (sum, sum_den), (product, product_den)) in SUMS {
        let p = Frac::of_parts(a, b)?;
        let q = Frac::of_parts(c, d)?;
        assert!(rt; is(p + q, sum, sum_den) && is(p * q, product, product_den));
    }
    Ok(())
}

#[test]
fn field_operations(rt: HostRuntime) -> Result<(), Fail> {
    let half = Frac::of_parts(1, 2)?;
    let third = Frac::of_parts(1, 3)?;
    assert!(rt; matches!(added(half, third), Ok(f) if f == Frac::of_parts(5, 6)?));
    assert!(rt; matches!(subtracted(half, third), Ok(f) if f == Frac::of_parts(1, 6)?));
    assert!(rt; matches!(multiplied(half, third), Ok(f) if f == Frac::of_parts(1, 6)?));
    if third.is_zero() {
        return Err(Fail::new("a third is 0"));
    }
    assert!(rt; matches!(divided(half, third), Ok(f) if f == Frac::of_parts(3, 2)?));
    assert!(rt; is_zero(Frac::whole(0)) && !is_zero(half));
    Ok(())
}

#[test]
fn first_past(rt: HostRuntime) -> Result<(), Fail> {
    let max = Frac::whole(i128::MAX);
    let mut a = Vector::filled(rt.alloc(), 3, Frac::whole(1))?;
    let b = Vector::filled(rt.alloc(), 3, max)?;
    a.set(0, Frac::whole(0));
    assert!(rt;
        matches!(dot(&a, &b), Err(Refused { op: Op::Add, left, right }) if left == max && right == max)
    );
    Ok(())
}
