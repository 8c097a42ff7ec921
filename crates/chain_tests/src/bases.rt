// Bases of three small problems, and their exchanges.

ghost use Rattle.std.specs.Prelude.{◌≡◌, ◌<◌, ◌^◌, length, true, IfOk};
ghost use Rattle.rational.specs.Rational.{zero_ℚ};
ghost use Rattle.rational.specs.Sums.{entry};
ghost use Rattle.linear_basis_law.specs.Basis.{IsBasis};
ghost use Rattle.linear_basis_law.specs.Exchange.{coordinates, exchanged};
ghost use Rattle.linear_basis_law.specs.Problem.{height, width, IsProblem};
ghost use Rattle.linear_basis.specs.Kept.{kept, problem, tableau};

use exact_matrix::{Matrix, Stop};
use frac_core::{Frac, Refused, Vector, is_zero};
use linear_basis::Basis;
use std::alloc::Global;
use std::test::Fail;

fn push_vector(text: &mut String, alloc: Global, v: &Vector<Frac>) -> Result<(), Fail> {
    text.push_str(" |")?;
    for k in 0..v.len() {
        text.push_str(&format!(in alloc; " {}", v.at(k))?)?;
    }
    Ok(())
}

fn push_rows(text: &mut String, alloc: Global, m: &Matrix<Frac>) -> Result<(), Fail> {
    text.push_str("|")?;
    for k in 0..m.rows() {
        for x in m.row(k) {
            text.push_str(&format!(in alloc; " {}", *x)?)?;
        }
    }
    Ok(())
}

/// A line with the columns, the inverse, the point and the multipliers.
fn push_basis(text: &mut String, alloc: Global, basis: &Basis) -> Result<(), Fail> {
    let columns = basis.columns();
    for k in 0..columns.len() {
        text.push_str(&format!(in alloc; "{} ", columns.at(k))?)?;
    }
    push_rows(text, alloc, basis.inverse())?;
    push_vector(text, alloc, basis.point())?;
    push_vector(text, alloc, basis.multipliers())?;
    text.push_str("\n")?;
    Ok(())
}

fn push_stop(text: &mut String, alloc: Global, stop: Stop) -> Result<(), Fail> {
    match stop {
        Stop::Memory => text.push_str("memory\n")?,
        Stop::Past(r) => {
            let Refused { op, left, right } = r;
            text.push_str(&format!(in alloc; "past {op:?} {left} {right}\n")?)?;
        }
    }
    Ok(())
}

/// Puts a column in the first place, and tells the basis. Whether it came in.
fn exchanged(
    text: &mut String,
    alloc: Global,
    basis: &mut Basis,
    m: &Matrix<Frac>,
    r: &Vector<Frac>,
    column: u32,
) -> Result<bool, Fail>
    requires problem { IsProblem (problem m.now r.now) }
    requires basis { IsBasis (problem m.now r.now) (tableau basis.old) }
    requires column { column < width (problem m.now r.now) }
    requires place { 0 < height (problem m.now r.now) }
    requires pivot { ¬ (entry (coordinates (problem m.now r.now) (tableau basis.old) column) 0 ≡ zero_ℚ) }
    ensures { IfOk result (λ done. done ≡ true → basis.new ≡ kept (problem m.now r.now) (exchanged (problem m.now r.now) (tableau basis.old) column 0)) }
{
    let done = match basis.exchange(alloc, m, r, column, 0) {
        Ok(()) => true,
        Err(stop) => {
            push_stop(text, alloc, stop)?;
            false
        }
    };
    push_basis(text, alloc, basis)?;
    Ok(done)
}

/// The unit basis, and those with the first and then the second column in the first place, as far as these columns may come there.
fn bases(alloc: Global, m: &Matrix<Frac>, r: &Vector<Frac>) -> Result<String, Fail>
    requires problem { IsProblem (problem m.now r.now) }
    requires few { width (problem m.now r.now) < 2 ^ 32 }
    requires columns { 1 < m.now.columns }
    requires rows { 0 < length m.now.rows }
{
    let mut text = String::new(alloc);
    let mut basis = Basis::start(alloc, m, r)?;
    push_basis(&mut text, alloc, &basis)?;
    if is_zero(m.at(0, 0)) || !exchanged(&mut text, alloc, &mut basis, m, r, 0)? {
        return Ok(text);
    }
    if !is_zero(m.at(0, 1)) {
        exchanged(&mut text, alloc, &mut basis, m, r, 1)?;
    }
    Ok(text)
}

/// The same of two equations in two unknowns, with the right sides `x` and `y`.
fn told(
    alloc: Global,
    first: (Frac, Frac),
    second: (Frac, Frac),
    x: u32,
    y: u32,
) -> Result<String, Fail> {
    let mut entries = Vec::new(alloc);
    entries.push(first.0)?;
    entries.push(first.1)?;
    entries.push(second.0)?;
    entries.push(second.1)?;
    let m = Matrix::of_rows(entries, 2, 2);
    let mut r = Vector::filled(alloc, 2, Frac::whole(x as i128))?;
    r.set(1, Frac::whole(y as i128));
    bases(alloc, &m, &r)
}

#[test]
fn exchanges(rt: HostRuntime) -> Result<(), Fail> {
    let alloc = rt.alloc();
    let zero = Frac::whole(0);
    let one = Frac::whole(1);
    let large = Frac::whole(1 << 126);
    let small = Frac::of_parts(1, 1 << 126)?;
    let unit = told(alloc, (one, zero), (zero, one), 1, 1)?;
    assert_eq!(rt;
        unit.as_str(),
        "2 3 | 1 0 0 1 | 1 1 | 1 1\n0 3 | 1 0 0 1 | 1 1 | 0 1\n"
    );
    let wide = told(alloc, (large, one), (one, one), 3, 2)?;
    assert_eq!(rt;
        wide.as_str(),
        "2 3 | 1 0 0 1 | 3 2 | 1 1
0 3 | 1/85070591730234615865843651857942052864 0 -1/85070591730234615865843651857942052864 1 \
| 3/85070591730234615865843651857942052864 \
170141183460469231731687303715884105725/85070591730234615865843651857942052864 \
| -1/85070591730234615865843651857942052864 1
1 3 | 1 0 -1 1 | 3 -1 | -1 1
"
    );
    let past = told(alloc, (large, zero), (small, zero), 1, 1)?;
    assert_eq!(rt;
        past.as_str(),
        "2 3 | 1 0 0 1 | 1 1 | 1 1
past Mul 1/85070591730234615865843651857942052864 1/85070591730234615865843651857942052864
2 3 | 1 0 0 1 | 1 1 | 1 1
"
    );
    Ok(())
}
