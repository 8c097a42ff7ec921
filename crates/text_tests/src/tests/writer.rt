// Programs and their texts.

use frac_core::{Frac, Memory};
use mps_writer::write;
use program_data::{Column, Name, Program, Row, is_marker, is_row};
use std::alloc::Global;
use std::test::Fail;

/// A number of small parts, or nothing where the denominator is 0.
fn number(num: i8, den: u8) -> Option<Frac> {
    match Frac::of_parts(i128::from(num), i128::from(den)) {
        Ok(number) => Some(number),
        Err(_) => None,
    }
}

fn start(alloc: Global, objective: &[u8]) -> Result<Program, Memory> {
    let Ok(name) = Name::of(alloc, objective) else {
        return Err(Memory);
    };
    if is_marker(name.bytes()) {
        return Err(Memory);
    }
    Program::start(alloc, name)
}

fn add_row(
    p: &mut Program,
    alloc: Global,
    name: &[u8],
    low: Option<Frac>,
    high: Option<Frac>,
) -> bool {
    let Ok(name) = Name::of(alloc, name) else {
        return false;
    };
    let row = Row { low, high };
    is_row(&row) && !is_marker(name.bytes()) && p.add_row(name, row).is_ok()
}

fn add_column(
    p: &mut Program,
    alloc: Global,
    name: &[u8],
    low: Option<Frac>,
    high: Option<Frac>,
    whole: bool,
) -> bool {
    let Ok(name) = Name::of(alloc, name) else {
        return false;
    };
    let column = Column { low, high, whole };
    p.add_column(name, column).is_ok()
}

fn set_entry(p: &mut Program, i: u32, j: u32, value: Option<Frac>) {
    if let Some(value) = value {
        if i < p.rows() && j < p.columns() {
            p.set_entry(i, j, value);
        }
    }
}

fn set_cost(p: &mut Program, j: u32, value: Option<Frac>) {
    if let Some(value) = value {
        if j < p.columns() {
            p.set_cost(j, value);
        }
    }
}

fn set_pair(p: &mut Program, j: u32, k: u32, value: Option<Frac>) {
    if let Some(value) = value {
        if j < p.columns() && k < p.columns() {
            p.set_pair(j, k, value);
        }
    }
}

fn has_text(alloc: Global, p: &Program, text: &[u8]) -> bool {
    let mut out = Vec::new(alloc);
    write(alloc, p, &mut out).is_ok() && out.as_slice() == text
}

/// x + x^2 + xy + y^2 with 3 <= x + y <= 5, x >= 0 and y <= -1
#[test]
fn a_range_and_a_triangle(rt: HostRuntime) -> Result<(), Fail> {
    let alloc = rt.alloc();
    let mut p = start(alloc, b"obj")?;
    let added = add_row(&mut p, alloc, b"e1", number(3, 1), number(5, 1))
        && add_column(&mut p, alloc, b"x", number(0, 1), None, false)
        && add_column(&mut p, alloc, b"y", None, number(-1, 1), false);
    for j in 0..2 {
        set_entry(&mut p, 0, j, number(1, 1));
        set_pair(&mut p, j, j, number(2, 1));
    }
    set_pair(&mut p, 1, 0, number(1, 1));
    set_cost(&mut p, 0, number(1, 1));
    let text =
        b"NAME\nROWS\n N obj\n G e1\nCOLUMNS\n x obj 1\n x e1 1\n y obj 0\n y e1 1\nRHS\n RHS e1 3\nRANGES\n RNG e1 2\nBOUNDS\n MI BND y\n UP BND y -1\nQUADOBJ\n x x 2\n x y 1\n y y 2\nENDATA\n";
    assert!(rt; added && has_text(alloc, &p, text));
    Ok(())
}

/// Names that are words elsewhere, a marked stretch, crossed bounds, and a low bound 0 under a negative high one.
#[test]
fn names_and_bounds(rt: HostRuntime) -> Result<(), Fail> {
    let alloc = rt.alloc();
    let mut p = start(alloc, b"*a")?;
    let added = add_row(&mut p, alloc, b"'INTORG'", None, number(0, 1))
        && add_row(&mut p, alloc, b"ENDATA", number(2, 3), number(4, 6))
        && add_column(&mut p, alloc, b"RHS", number(0, 1), number(-1, 1), true)
        && add_column(&mut p, alloc, b"'MARKER'", number(3, 1), number(2, 1), true)
        && add_column(&mut p, alloc, b"N", None, None, false)
        && add_column(&mut p, alloc, b"BND", number(1, 2), number(1, 2), false);
    set_entry(&mut p, 0, 0, number(-1, 3));
    set_cost(&mut p, 1, number(2, 1));
    set_pair(&mut p, 2, 1, number(-1, 1));
    if let Some(constant) = number(-3, 2) {
        p.set_constant(constant);
    }
    let text =
        b"NAME\nROWS\n N *a\n L 'INTORG'\n E ENDATA\nCOLUMNS\n MARKER 'MARKER' 'INTORG'\n RHS *a 0\n RHS 'INTORG' -1/3\n 'MARKER' *a 2\n MARKER 'MARKER' 'INTEND'\n N *a 0\n BND *a 0\nRHS\n RHS *a 3/2\n RHS ENDATA 2/3\nBOUNDS\n LO BND RHS 0\n UP BND RHS -1\n LO BND 'MARKER' 3\n UP BND 'MARKER' 2\n FR BND N\n FX BND BND 1/2\nQUADOBJ\n 'MARKER' N -1\nENDATA\n";
    assert!(rt; added && has_text(alloc, &p, text));
    Ok(())
}

/// A stretch that is begun at the end, and no other sections.
#[test]
fn a_marked_column_alone(rt: HostRuntime) -> Result<(), Fail> {
    let alloc = rt.alloc();
    let mut p = start(alloc, b"obj")?;
    let added = add_column(&mut p, alloc, b"x", number(0, 1), None, true);
    let text =
        b"NAME\nROWS\n N obj\nCOLUMNS\n MARKER 'MARKER' 'INTORG'\n x obj 0\n MARKER 'MARKER' 'INTEND'\nENDATA\n";
    assert!(rt; added && has_text(alloc, &p, text));
    Ok(())
}
