// A node of a tree, on the region at hand. Each answers whether a region waits after it, which is then at hand.

ghost use Rattle.std.specs.Prelude.{◌≡◌, ◌≢◌, ◌<◌, ◌≤◌, ◌+◌, ◌^◌, length, neg_ℤ, pos};
ghost use Rattle.rational.specs.Rational.{whole};
ghost use Rattle.program_law.specs.Program.{marks};
ghost use Rattle.certificate_law.specs.Fits.{IsColumnVector, IsRowVector};
ghost use Rattle.cert_check_law.specs.Leaf.{bound_test, farkas_test};
ghost use Rattle.cert_check_law.specs.Tree.{branch_step, cross_test};
ghost use Rattle.check_nodes.specs.Walk.{waiting_of, behind_leaf, StepLeaves};

use crate::walks::{Walk, branch, next_region};
use cert_check_law::Event;
use check_parts::{bound_tested, farkas_tested};
use check_steps::{sum, tested};
use frac_core::{Frac, Vector};
use program_data::Program;
use program_regions::{Region, is_crossed};

/// A whole number that is not the least one.
fn whole(k: i128) -> Frac
    requires { k ≢ neg_ℤ (pos (2 ^ 127)) }
    ensures { result ≡ whole k }
{
    Frac::whole(k)
}

/// A branch: goes to the left half of the region, and keeps the right one.
///
/// # Errors
/// The operation that is past, or the test that fails.
#[tactic(auto, unfolding(cert_check_law::specs::Tree::branch_step))]
pub fn branch_taken(
    p: &Program,
    number: u32,
    j: u32,
    k: i128,
    walk: &mut Walk,
) -> Result<bool, Event>
    requires column { j < length p.now.columns }
    requires number { k ≢ neg_ℤ (pos (2 ^ 127)) }
    requires width { length walk.old.region ≡ length p.now.columns }
    requires room { length walk.old.before < walk.old.room }
    ensures step { StepLeaves result walk.new (branch_step (marks p.now) number walk.old.region j k (waiting_of walk.old.before)) }
    ensures width { length walk.new.region ≡ length walk.old.region }
    ensures cuts { length walk.new.before ≤ length walk.old.before + 1 }
    ensures room { walk.old.room ≤ walk.new.room }
{
    tested(p.is_marked(j), 6, number)?;
    let most = whole(k);
    let above = sum(most, Frac::whole(1))?;
    branch(walk, j, most, above);
    Ok(true)
}

/// A BOUND leaf.
///
/// # Errors
/// The first operation that is past or test that fails.
pub fn bound_taken(
    p: &Program,
    v: &Option<Frac>,
    number: u32,
    w: &Vector<Frac>,
    y: &Vector<Frac>,
    walk: &mut Walk,
) -> Result<bool, Event>
    requires point { IsColumnVector p.now w.now }
    requires rows { IsRowVector p.now y.now }
    requires width { length walk.old.region ≡ length p.now.columns }
    ensures step { StepLeaves result walk.new (behind_leaf (bound_test p.now v.now number walk.old.region w.now y.now) (waiting_of walk.old.before)) }
    ensures width { length walk.new.region ≡ length walk.old.region }
    ensures cuts { length walk.new.before ≤ length walk.old.before }
    ensures room { walk.old.room ≤ walk.new.room }
{
    bound_tested(p, v, number, walk.region(), w, y)?;
    Ok(next_region(walk))
}

/// A FARKAS leaf.
///
/// # Errors
/// The first operation that is past or test that fails.
pub fn farkas_taken(
    p: &Program,
    number: u32,
    y: &Vector<Frac>,
    walk: &mut Walk,
) -> Result<bool, Event>
    requires rows { IsRowVector p.now y.now }
    requires width { length walk.old.region ≡ length p.now.columns }
    ensures step { StepLeaves result walk.new (behind_leaf (farkas_test p.now number walk.old.region y.now) (waiting_of walk.old.before)) }
    ensures width { length walk.new.region ≡ length walk.old.region }
    ensures cuts { length walk.new.before ≤ length walk.old.before }
    ensures room { walk.old.room ≤ walk.new.room }
{
    farkas_tested(p, number, walk.region(), y)?;
    Ok(next_region(walk))
}

/// A column's bounds cross.
#[tactic(auto, unfolding(cert_check_law::specs::Tree::cross_test))]
fn cross_tested(number: u32, region: &Region, j: u32) -> Result<(), Event>
    requires { j < length region.now }
    ensures { result ≡ cross_test number region.now j }
{
    tested(is_crossed(&region.at(j)), 10, number)
}

/// A CROSS leaf.
///
/// # Errors
/// The test that fails.
pub fn cross_taken(number: u32, j: u32, walk: &mut Walk) -> Result<bool, Event>
    requires { j < length walk.old.region }
    ensures step { StepLeaves result walk.new (behind_leaf (cross_test number walk.old.region j) (waiting_of walk.old.before)) }
    ensures width { length walk.new.region ≡ length walk.old.region }
    ensures cuts { length walk.new.before ≤ length walk.old.before }
    ensures room { walk.old.room ≤ walk.new.room }
{
    cross_tested(number, walk.region(), j)?;
    Ok(next_region(walk))
}
