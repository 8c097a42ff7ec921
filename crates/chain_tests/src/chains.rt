// What is known of small problems.

ghost use Rattle.linear_basis.specs.Kept.{problem};
ghost use Rattle.std.specs.Prelude.{◌≡◌, ◌<◌, ◌*◌, ◌^◌, length};

use exact_matrix::Matrix;
use frac_core::{Frac, Vector};
use linear_simplex::{Feasible, LinearStop, feasible};
use std::alloc::Global;
use std::test::Fail;
use whole_rows::WholeBasis;

fn push_numbers(text: &mut String, alloc: Global, numbers: &Vector<Frac>) -> Result<(), Fail> {
    for k in 0..numbers.len() {
        text.push_str(&format!(in alloc; " {}", numbers.at(k))?)?;
    }
    Ok(())
}

fn push_columns(text: &mut String, alloc: Global, columns: &Vector<u32>) -> Result<(), Fail> {
    text.push_str(" |")?;
    for k in 0..columns.len() {
        text.push_str(&format!(in alloc; " {}", columns.at(k))?)?;
    }
    text.push_str("\n")?;
    Ok(())
}

/// What is known of two equations with the right sides `x` and `y`, whose entries stand one after another.
fn push_known(
    text: &mut String,
    alloc: Global,
    entries: Vec<Frac>,
    columns: usize,
    right: (u32, u32),
    bases: u64,
) -> Result<(), Fail>
    requires entries { length entries.items ≡ 2 * columns }
    requires few { columns < 2 ^ 31 }
{
    let m = Matrix::of_rows(entries, 2, columns);
    let mut r = Vector::filled(alloc, 2, Frac::whole(right.0 as i128))?;
    r.set(1, Frac::whole(right.1 as i128));
    match feasible(alloc, &m, &r, bases) {
        Ok(Feasible::Point(x, basis)) => {
            text.push_str("point")?;
            push_numbers(text, alloc, &x)?;
            push_columns(text, alloc, &basis)
        }
        Ok(Feasible::Farkas(y, basis)) => {
            text.push_str("farkas")?;
            push_numbers(text, alloc, &y)?;
            push_columns(text, alloc, &basis)
        }
        Err(LinearStop::Spent(basis)) => {
            text.push_str("spent")?;
            push_columns(text, alloc, &basis)
        }
        Err(LinearStop::Past(basis, _)) => {
            text.push_str("past")?;
            push_columns(text, alloc, &basis)
        }
        Err(LinearStop::Memory) => {
            text.push_str("memory\n")?;
            Ok(())
        }
    }
}

/// Of one unknown.
fn push_column(
    text: &mut String,
    alloc: Global,
    column: (Frac, Frac),
    right: (u32, u32),
    bases: u64,
) -> Result<(), Fail> {
    let mut entries = Vec::new(alloc);
    entries.push(column.0)?;
    entries.push(column.1)?;
    push_known(text, alloc, entries, 1, right, bases)
}

/// Of two unknowns, each of which is 1.
fn push_unit(text: &mut String, alloc: Global, bases: u64) -> Result<(), Fail> {
    let mut entries = Vec::new(alloc);
    entries.push(Frac::whole(1))?;
    entries.push(Frac::whole(0))?;
    entries.push(Frac::whole(0))?;
    entries.push(Frac::whole(1))?;
    push_known(text, alloc, entries, 2, (1, 1), bases)
}

#[test]
fn knows(rt: HostRuntime) -> Result<(), Fail> {
    let alloc = rt.alloc();
    let one = Frac::whole(1);
    let small = Frac::of_parts(1, 1 << 126)?;
    let mut text = String::new(alloc);
    push_unit(&mut text, alloc, 1)?;
    push_unit(&mut text, alloc, 2)?;
    push_column(&mut text, alloc, (one, one), (1, 2), 5)?;
    push_column(&mut text, alloc, (Frac::whole(2), one), (2, 1), 5)?;
    push_column(&mut text, alloc, (small, one), (3, 1), 5)?;
    assert_eq!(rt;
        text.as_str(),
        "spent | 0 3\npoint 1 1 | 0 1\nfarkas 1 -1 | 0 2\npoint 1 | 1 0\npast | 1 0\n"
    );
    Ok(())
}

/// The columns, values and multipliers of a basis.
fn push_basis(text: &mut String, alloc: Global, basis: &WholeBasis) -> Result<(), Fail> {
    for k in 0..basis.columns().len() {
        if let Some(value) = basis.value(k) {
            text.push_str(&format!(in alloc; " {value}")?)?;
        }
        if let Some(multiplier) = basis.multiplier(k) {
            text.push_str(&format!(in alloc; " {multiplier}")?)?;
        }
    }
    push_columns(text, alloc, basis.columns())
}

/// What the unit basis of two equations in one unknown comes to when this unknown comes in.
fn push_entered(text: &mut String, alloc: Global, basis: &mut WholeBasis) -> Result<(), Fail>
    requires { length basis.old.matrix ≡ 1 }
{
    let fell = matches!(basis.falls(0), Some(true));
    let entered = basis.enter(0);
    let ends = basis.is_zero_cost();
    let falls = matches!(basis.falls(0), Some(true));
    text.push_str(&format!(in alloc; "{fell} {entered} {ends} {falls}")?)?;
    push_basis(text, alloc, basis)
}

/// The same by rows of whole numbers, where they fit, and then what is known within one strict step.
fn push_whole(
    text: &mut String,
    alloc: Global,
    column: (Frac, Frac),
    right: (u32, u32),
) -> Result<(), Fail> {
    let mut entries = Vec::new(alloc);
    entries.push(column.0)?;
    entries.push(column.1)?;
    let m = Matrix::of_rows(entries, 2, 1);
    let mut r = Vector::filled(alloc, 2, Frac::whole(right.0 as i128))?;
    r.set(1, Frac::whole(right.1 as i128));
    match WholeBasis::start(alloc, &m, &r)? {
        Some(mut basis) if basis.given() == 1 => push_entered(text, alloc, &mut basis),
        _ => {
            text.push_str("nowhere\n")?;
            Ok(())
        }
    }
}

#[test]
fn whole_numbers_lead(rt: HostRuntime) -> Result<(), Fail> {
    let alloc = rt.alloc();
    let one = Frac::whole(1);
    let third = Frac::of_parts(1, 3)?;
    let small = Frac::of_parts(1, 1 << 126)?;
    let mut text = String::new(alloc);
    push_whole(&mut text, alloc, (third, one), (1, 3))?;
    push_whole(&mut text, alloc, (third, one), (1, 2))?;
    push_whole(&mut text, alloc, (one, one), (2, 1))?;
    push_whole(&mut text, alloc, (small, one), (3, 1))?;
    assert_eq!(rt;
        text.as_str(),
        "true true true false 0 1 3 -1/3 | 1 0\n\
         true true false false 1/3 1 2 -1/3 | 1 0\n\
         true true false false 1 1 1 -1 | 1 0\n\
         nowhere\n"
    );
    Ok(())
}

#[test]
fn known_as_whole_numbers_lead(rt: HostRuntime) -> Result<(), Fail> {
    let alloc = rt.alloc();
    let one = Frac::whole(1);
    let third = Frac::of_parts(1, 3)?;
    let mut text = String::new(alloc);
    push_column(&mut text, alloc, (third, one), (1, 3), 5)?;
    push_column(&mut text, alloc, (third, one), (1, 2), 5)?;
    push_column(&mut text, alloc, (one, one), (2, 1), 1)?;
    push_column(&mut text, alloc, (one, one), (2, 1), 0)?;
    assert_eq!(rt;
        text.as_str(),
        "point 3 | 1 0\nfarkas -1 1/3 | 1 0\nfarkas -1 1 | 1 0\nspent | 1 2\n"
    );
    Ok(())
}
