// The points and regions of a program that is read.

use crate::programs::{FIRST, program_of};
use frac_core::{Frac, Memory, Tried, Vector};
use program_data::Program;
use program_model::{PointTest, check_point, value};
use program_regions::Region;
use std::alloc::Global;
use std::test::Fail;

fn is_whole(value: Frac, n: i128) -> bool {
    value.num() == n && value.den() == 1
}

/// Whether a side is a whole number.
fn is_at(side: Option<Frac>, n: i128) -> bool {
    match side {
        Some(value) => is_whole(value, n),
        None => false,
    }
}

fn point(alloc: Global, first: u8, second: u8) -> Result<Vector<Frac>, Memory> {
    let mut x = Vector::filled(alloc, 1, Frac::whole(i128::from(first)))?;
    x.push(Frac::whole(i128::from(second)))?;
    Ok(x)
}

/// The place of the row that a point breaks, or 100 more than that of the bound or the mark, counted from 1; 0 for none.
fn broken(p: &Program, region: &Region, x: &Vector<Frac>) -> Option<u32> {
    let columns = p.columns() as usize;
    if region.len() != columns || x.len() != columns {
        return None;
    }
    match check_point(p, region, x) {
        Ok(PointTest::Inside) => Some(0),
        Ok(PointTest::Row(i)) => i.checked_add(1),
        Ok(PointTest::Bound(j)) | Ok(PointTest::Mark(j)) => j.checked_add(101),
        Err(_) => None,
    }
}

fn value_is(p: &Program, x: &Vector<Frac>, wanted: i128) -> bool {
    if x.len() != p.columns() as usize {
        return false;
    }
    match value(p, x) {
        Tried::Is(value) => is_whole(value, wanted),
        Tried::Past(_) => false,
    }
}

#[test]
fn points(rt: HostRuntime) -> Result<(), Fail> {
    let p = program_of(rt.alloc(), FIRST)?;
    let region = Region::of(rt.alloc(), &p)?;
    for (a, b, place) in [(2, 3, 0), (9, 1, 1), (2, 4, 2), (2, 5, 2), (1, 2, 0)] {
        let x = point(rt.alloc(), a, b)?;
        assert!(rt; broken(&p, &region, &x) == Some(place));
    }
    let best = point(rt.alloc(), 2, 3)?;
    assert!(rt; value_is(&p, &best, 8));
    Ok(())
}

fn cut(region: &mut Region, j: u32, low: u8, high: u8) {
    if (j as usize) < region.len() {
        region.cut_low(j, Frac::whole(i128::from(low)));
    }
    if (j as usize) < region.len() {
        region.cut_high(j, Frac::whole(i128::from(high)));
    }
}

fn bounds_are(region: &Region, j: u32, low: i128, high: i128) -> bool {
    (j as usize) < region.len() && is_at(region.low(j), low) && is_at(region.high(j), high)
}

#[test]
fn regions(rt: HostRuntime) -> Result<(), Fail> {
    let p = program_of(rt.alloc(), FIRST)?;
    let mut region = Region::of(rt.alloc(), &p)?;
    cut(&mut region, 1, 1, 2);
    assert!(rt; bounds_are(&region, 1, 1, 2) && region.crossed().is_none());
    let x = point(rt.alloc(), 2, 3)?;
    assert!(rt; broken(&p, &region, &x) == Some(102));
    cut(&mut region, 1, 3, 9);
    assert!(rt; bounds_are(&region, 1, 3, 2) && region.crossed() == Some(1));
    Ok(())
}
