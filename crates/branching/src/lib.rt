//! The branching search: the certificate of a program that is found within two budgets, or why none is.
#![tactic(auto)]

mod best;
mod branches;
mod deciding;
mod endings;
mod point;
mod stops;

ghost use Rattle.std.specs.Prelude.{◌≤◌, ◌↔◌, IfOk, IfErr};
ghost use Rattle.certificate_law.specs.Good.{IsGood};
ghost use Rattle.cert_check_law.specs.Chain.{NoTestFails};
ghost use Rattle.cert_check_law.specs.Check.{checked};
ghost use Rattle.cert_grammar.specs.Writable.{IsWritable};
ghost use Rattle.branching_law.specs.Search.{most_boxes};
ghost use Rattle.branching.specs.Decided.{ClaimsCurved, IsCurved, IsFound};
ghost use Rattle.branching.specs.Stops.{HasPathIn, IsDecideStopOf};

use crate::deciding::convex;
pub use branching_law::{Cut, Turn};
use certificate_law::Certificate;
use convexity::{Curvature, squares};
pub use endings::programs_have_one_ending;
use exact_matrix::Stop;
use program_data::Program;
use quad_solve::Site;
pub use search_steps::Path;
use search_steps::no_turns;
use std::alloc::Global;
pub use stops::DecideStop;

/// The budgets of a search.
#[derive(Clone, Copy)]
pub struct Limits {
    /// How many strict steps a chain may take, and how many price steps a walk.
    pub bases: u64,
    /// How many branches a search may take.
    pub boxes: u64,
}

/// The certificate of a program, within two budgets.
///
/// The form's squares are made; a vector of a negative form is the certificate. Else the bounds of the marked columns are made whole,
/// and the region that is left is the root of a search: for the best point that keeps the marks, or, where the root has a ray, for any
/// point that keeps them. A search goes depth first, the lower side of a branch first, and branches on the first marked column at which
/// its point isn't whole (branch and bound, after Land and Doig).
///
/// No test of the checking calculation fails on the certificate, so the check accepts it wherever it isn't past. It claims that the
/// program isn't convex exactly where some vector has a negative form.
///
/// # Errors
///
/// `Bases` at the first site at which a chain or a walk would go on after `bases` steps, `Boxes` where a branch more than `boxes` was due, `Past` where the
/// exact result of an operation doesn't fit, each with the path and the site where there is one; and `Memory`.
pub fn decide(alloc: Global, p: &Program, limits: Limits) -> Result<Certificate, DecideStop>
    requires { limits.boxes ≤ most_boxes }
    ensures found { IfOk result (IsFound p.now limits.bases limits.boxes) }
    ensures good { IfOk result (IsGood p.now) }
    ensures curved { IfOk result (λ c. ClaimsCurved c ↔ IsCurved p.now) }
    ensures accepted { IfOk result (λ c. NoTestFails (checked p.now c)) }
    ensures writable { IfOk result (IsWritable p.now) }
    ensures stop { IfErr result (IsDecideStopOf p.now limits.bases limits.boxes) }
    ensures path { IfErr result (HasPathIn p.now) }
{
    let _columns = p.columns();
    match squares(alloc, p) {
        Ok(Curvature::Negative(vector)) => Ok(Certificate::NotConvex(vector)),
        Ok(Curvature::Squares(squares)) => convex(alloc, p, squares, limits),
        Err(Stop::Past(refused)) => {
            let path = no_turns(alloc)?;
            Err(DecideStop::Past(path, Site::Squares, refused))
        }
        Err(Stop::Memory) => Err(DecideStop::Memory),
    }
}
