// Where a small program's form shrinks to.

ghost use Rattle.face_descent_law.specs.Worked.{valley_form};
ghost use Rattle.std.specs.Prelude.{◌≡◌, IsTrue};

use crate::programs::{VALLEY, formed, program_of};
use equational::Form;
use face_descent::shrink;
use frac_core::{Frac, Vector, is_zero};
use std::alloc::Global;
use std::test::Fail;

fn is_both(a: Frac, b: Frac, x: Frac) -> bool
    ensures { IsTrue result → (a ≡ x) × (b ≡ x) }
{
    a == x && b == x
}

/// Whether it is the form of (x + y - 2)^2, but for its constant.
fn is_valley(f: &Form) -> bool
    ensures { IsTrue result → f.now.form ≡ record valley_form { constant = f.now.form.constant } }
{
    let rows = f.quadratic();
    let cost = f.cost();
    if f.matrix().rows() != 0 || cost.len() != 2 {
        return false;
    }
    let two = Frac::whole(2);
    if !is_both(rows.at(0, 0), rows.at(0, 1), two) {
        return false;
    }
    if !is_both(rows.at(1, 0), rows.at(1, 1), two) {
        return false;
    }
    is_both(cost.at(0), cost.at(1), Frac::whole(-4))
}

/// Where the form of (x + y - 2)^2 shrinks to from (1, 0).
fn shrunk(alloc: Global, f: &Form) -> Result<Vector<Frac>, Fail> {
    if !is_valley(f) {
        return Err(Fail::new("another form"));
    }
    let mut x = Vector::filled(alloc, 2, Frac::whole(0))?;
    x.set(0, Frac::whole(1));
    match shrink(alloc, f, x) {
        Ok(z) => Ok(z),
        Err(_) => Err(Fail::new("no point")),
    }
}

#[test]
fn a_valley_shrinks_to_its_first_column(rt: HostRuntime) -> Result<(), Fail> {
    let p = program_of(rt.alloc(), VALLEY)?;
    let f = match formed(rt.alloc(), &p) {
        Ok(f) => f,
        Err(_) => return Err(Fail::new("no form")),
    };
    let z = shrunk(rt.alloc(), &f)?;
    assert!(rt; z.len() == 2);
    assert!(rt; z.at(0).num() == 2 && z.at(0).den() == 1 && is_zero(z.at(1)));
    Ok(())
}
