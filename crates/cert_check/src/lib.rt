//! The checker of certificates.
//!
//! `check` calculates exactly and answers the first thing that is wrong with a certificate of a program. What it accepts
//! is a good certificate, and its verdict is true of all points of the program.
#![tactic(auto)]

mod trees;

ghost use Rattle.std.specs.Prelude.{◌≡◌, IfOk, Ok};
ghost use Rattle.program_law.specs.Verdict.{IsTrueOf};
ghost use Rattle.certificate_law.specs.Good.{IsGood, verdict_of};
ghost use Rattle.cert_check_law.specs.Check.{checked, answer};
ghost use Rattle.certificate_law.specs.Fits.{Fits, FitsSquares, FitsTree, IsColumnVector};
ghost use Rattle.cert_check.specs.Branches.{IsStart, branches, branches_of};
ghost use Rattle.certificate_law.specs.declared.Certificate.TheVariants as Of;

use cert_check_law::{Checked, Event};
use certificate_law::{Certificate, Tree};
pub use check_lines::check_text;
use check_nodes::{Walk, answer, best_tested, unbounded_tested, vector_tested};
use frac_core::{Frac, Memory, Vector};
use program_data::Program;
use program_law::Squares;
use program_regions::{Descent, Region};
use std::alloc::Global;
use trees::{branch_count, tree_tested};

/// How many branches a certificate's tree has.
fn branches_of(c: &Certificate) -> usize
    ensures { result ≡ branches_of c.now }
{
    match c {
        Certificate::Optimal(_, _, _, tree) => branch_count(tree),
        Certificate::Infeasible(tree) => branch_count(tree),
        _ => 0,
    }
}

fn optimal_checked(
    p: &Program,
    x: &Vector<Frac>,
    v: Frac,
    squares: &Squares,
    tree: &Tree,
    walk: &mut Walk,
) -> Result<(), Event>
    requires point { IsColumnVector p.now x.now }
    requires squares { FitsSquares p.now squares.now }
    requires tree { FitsTree p.now tree.now }
    requires start { IsStart p.now (branches tree.now) walk.old }
    ensures { result ≡ checked p.now (Of.Optimal x.now v squares.now tree.now) }
{
    best_tested(p, walk.region(), x, v, squares.as_slice())?;
    tree_tested(p, &Some(v), tree, walk)
}

fn checked(p: &Program, c: &Certificate, walk: &mut Walk) -> Result<(), Event>
    requires fits { Fits p.now c.now }
    requires start { IsStart p.now (branches_of c.now) walk.old }
    ensures { result ≡ checked p.now c.now }
{
    match c {
        Certificate::Optimal(x, v, squares, tree) => {
            optimal_checked(p, x, *v, squares, tree, walk)
        }
        Certificate::Infeasible(tree) => tree_tested(p, &None, tree, walk),
        Certificate::Unbounded(x, d, squares) => {
            unbounded_tested(p, walk.region(), x, d, squares.as_slice())
        }
        Certificate::NotConvex(x) => vector_tested(p, x),
    }
}

/// Checks a certificate of a program: accepted, or the first operation that is past or test that fails. All memory is taken
/// at the start.
///
/// # Errors
/// `Memory` where it ran out.
#[tactic(auto, using(check_nodes::proofs::Answered::accepted_is_good, check_nodes::proofs::Answered::accepted_is_true))]
pub fn check(alloc: Global, p: &Program, c: &Certificate) -> Result<Checked, Memory>
    requires { Fits p.now c.now }
    ensures answer { IfOk result (λ a. a ≡ answer (checked p.now c.now)) }
    ensures good { result ≡ Ok Checked.Accepted → IsGood p.now c.now }
    ensures holds { result ≡ Ok Checked.Accepted → IsTrueOf p.now (verdict_of c.now) }
{
    let _columns = p.columns();
    let region = Region::of(alloc, p)?;
    let mut walk = Descent::with_room(alloc, region, branches_of(c))?;
    Ok(answer(checked(p, c, &mut walk)))
}
