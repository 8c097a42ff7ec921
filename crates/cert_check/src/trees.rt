// The tests of a tree that is kept.

ghost use Rattle.std.specs.Prelude.{◌≡◌, ◌<◌, ◌≤◌, ◌+◌, ◌^◌, ◌∷◌, [], length, slice_index_or};
ghost use Rattle.std.specs.List.{AllByRecursion};
ghost use Rattle.program_law.specs.Program.{bounds};
ghost use Rattle.certificate_law.specs.Fits.{FitsNode};
ghost use Rattle.cert_check_law.specs.Tree.{node_step, tree_test};
ghost use Rattle.check_nodes.specs.Walk.{waiting_of, StepLeaves};
ghost use Rattle.cert_check.specs.Branches.{IsStart, branches};

use cert_check_law::Event;
use certificate_law::{Node, Tree};
use check_nodes::{Walk, bound_taken, branch_taken, cross_taken, farkas_taken};
use frac_core::Frac;
use program_data::Program;

/// The node at a place.
fn node_of(tree: &Tree, k: usize) -> &Node
    requires { k < length tree.now }
    ensures { result.now ≡ slice_index_or tree.now k result.now }
{
    tree.node(k)
}

/// 1 for a branch, and 0 for a leaf.
fn branches_in(node: &Node) -> usize
    ensures { result ≡ branches (node.now ∷ []) }
{
    match node {
        Node::Branch(_, _) => 1,
        _ => 0,
    }
}

/// How many branches a tree has.
#[tactic(auto, using(crate::proofs::Turns::more_branches))]
pub(crate) fn branch_count(tree: &Tree) -> usize
    ensures { result ≡ branches tree.now }
{
    let mut count = 0;
    for k in 0..tree.len() {
        count += branches_in(node_of(tree, k));
    }
    count
}

/// A node on the region at hand. Answers whether a region waits after it, which is then at hand.
fn node_taken(
    p: &Program,
    v: &Option<Frac>,
    number: u32,
    node: &Node,
    walk: &mut Walk,
) -> Result<bool, Event>
    requires node { FitsNode p.now node.now }
    requires width { length walk.old.region ≡ length p.now.columns }
    requires room { length walk.old.before + branches (node.now ∷ []) ≤ walk.old.room }
    ensures step { StepLeaves result walk.new (node_step p.now v.now number walk.old.region node.now (waiting_of walk.old.before)) }
    ensures width { length walk.new.region ≡ length walk.old.region }
    ensures cuts { length walk.new.before ≤ length walk.old.before + branches (node.now ∷ []) }
    ensures room { walk.old.room ≤ walk.new.room }
{
    match node {
        Node::Branch(j, k) => branch_taken(p, number, *j, *k, walk),
        Node::Bound(w, y) => bound_taken(p, v, number, w, y, walk),
        Node::Farkas(y) => farkas_taken(p, number, y, walk),
        Node::Cross(j) => cross_taken(number, *j, walk),
    }
}

/// The tests of a tree on the program's bounds, where a walk with room for the tree's branches begins.
#[tactic(auto, using(crate::proofs::Turns::more_branches))]
pub(crate) fn tree_tested(
    p: &Program,
    v: &Option<Frac>,
    tree: &Tree,
    walk: &mut Walk,
) -> Result<(), Event>
    requires start { IsStart p.now (branches tree.now) walk.old }
    requires count { length tree.now < 2 ^ 32 }
    requires nodes { AllByRecursion (FitsNode p.now) tree.now }
    ensures { result ≡ tree_test p.now v.now (bounds p.now) tree.now }
{
    let _columns = p.columns();
    for i in 0..tree.len() {
        let number = i as u32 + 1;
        if !node_taken(p, v, number, node_of(tree, i), walk)? {
            return Ok(());
        }
    }
    Ok(())
}
