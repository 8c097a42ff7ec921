// The nodes of rounding, before and behind those of a search.

ghost use Rattle.std.specs.Prelude.{◌≡◌, ◌++◌, ◌∷◌, [], IfOk, OnOk};
ghost use Rattle.certificate_law.specs.Nodes.{IsOneTree};
ghost use Rattle.search_steps.specs.Trees.{nodes_before, nodes_behind};

use branching_law::{Cut, Turn};
use certificate_law::{Node, Tree, TreeBuilder};
use frac_core::{Memory, Vector};
use std::alloc::Global;

/// Puts the branch of a turn, and what a turn above leaves.
fn put_before(nodes: &mut TreeBuilder, turn: Turn) -> Result<(), Memory>
    ensures { OnOk result (nodes.new ≡ nodes.old ++ nodes_before (turn ∷ [])) }
{
    nodes.put(Node::Branch(turn.column, turn.k))?;
    if let Cut::Above = turn.cut {
        nodes.put(Node::Cross(turn.column))?;
    }
    Ok(())
}

/// Puts what a turn below leaves.
fn put_behind(nodes: &mut TreeBuilder, turn: Turn) -> Result<(), Memory>
    ensures { OnOk result (nodes.new ≡ nodes.old ++ nodes_behind (turn ∷ [])) }
{
    if let Cut::Below = turn.cut {
        nodes.put(Node::Cross(turn.column))?;
    }
    Ok(())
}

/// The nodes of turns that stand before those of a search.
pub fn opened(alloc: Global, turns: &Vector<Turn>) -> Result<TreeBuilder, Memory>
    ensures { IfOk result (λ nodes. nodes ≡ nodes_before turns.now) }
{
    let mut nodes = Tree::start(alloc);
    for i in 0..turns.len() {
        put_before(&mut nodes, turns.at(i))?;
    }
    Ok(nodes)
}

/// The tree of these nodes, with those of the turns that stand behind them.
pub fn closed(mut nodes: TreeBuilder, turns: &Vector<Turn>) -> Result<Tree, Memory>
    requires { IsOneTree (nodes ++ nodes_behind turns.now) }
    ensures { IfOk result (λ tree. tree ≡ nodes ++ nodes_behind turns.now) }
{
    for i in (0..turns.len()).rev() {
        put_behind(&mut nodes, turns.at(i))?;
    }
    match nodes.finish() {
        Ok(tree) => Ok(tree),
        Err(_) => unreachable!(),
    }
}
