// Trees from their nodes.

ghost use Rattle.std.specs.Prelude.{◌≡◌, ◌<◌, ◌≤◌, ◌+◌, ◌++◌, ◌∷◌, [], length, slice_get, Some, IfOk, IfErr, IfSome, OnOk, OnErr};
ghost use Rattle.certificate_law.specs.Nodes.{IsOneTree};
ghost use Rattle.certificate_law.specs.Wanted.{with_node};

use crate::{Node, Tree};
use frac_core::Memory;
use std::alloc::Global;
use std::marker::Model;

/// Nodes in the order in which they were put, on their way to a tree.
#[derive(Drop)]
pub struct TreeBuilder {
    nodes: Vec<Node>,
    // how many subtrees are still wanted, and none where a node is too many
    wanted: Option<usize>,
}

impl Model for TreeBuilder {
    ghost use Rattle.std.specs.Prelude.{◌≡◌, ◌≤◌, ◌+◌, IfSome, List, Some, length};
    ghost use Rattle.certificate_law.specs.Wanted.{wanted_after};
    ghost use Rattle.certificate_law.specs.declared.Node.{Node};

    ghost Value = { List Node };

    ghost view = { λ b. b.nodes.items };

    ghost invariant = { λ b. (b.wanted ≡ wanted_after (Some 1) b.nodes.items) × IfSome b.wanted (λ w. w ≤ length b.nodes.items + 1) };
}

/// What is wanted after a node.
fn with_node(wanted: Option<usize>, node: &Node) -> Option<usize>
    requires { IfSome wanted (λ w. w < usize.MAX) }
    ensures { result ≡ with_node node.now wanted }
{
    match wanted {
        None => None,
        Some(0) => None,
        Some(wanted) => match node {
            Node::Branch(_, _) => Some(wanted + 1),
            _ => Some(wanted - 1),
        },
    }
}

impl TreeBuilder {
    /// Puts a node last. After `Err` the nodes are as before.
    #[tactic(auto, using(crate::proofs::Wanted::after_last, crate::proofs::Wanted::grows))]
    pub fn put(&mut self, node: Node) -> Result<(), Memory>
        ensures ok { OnOk result (self.new ≡ self.old ++ node ∷ []) }
        ensures err { OnErr result (self.new ≡ self.old) }
    {
        let wanted = with_node(self.wanted, &node);
        self.nodes.push(node)?;
        self.wanted = wanted;
        Ok(())
    }

    /// The tree of the nodes. Where they are not one whole tree, the builder comes back.
    #[tactic(auto, using(crate::proofs::Wanted::whole, crate::proofs::Wanted::not_whole))]
    pub fn finish(self) -> Result<Tree, TreeBuilder>
        ensures ok { IfOk result (λ tree. (tree ≡ self) × IsOneTree self) }
        ensures err { IfErr result (λ builder. (builder ≡ self) × (IsOneTree self → ⊥)) }
    {
        match self.wanted {
            Some(0) => Ok(Tree { nodes: self.nodes }),
            _ => Err(self),
        }
    }
}

impl Tree {
    /// A builder without nodes.
    pub fn start(alloc: Global) -> TreeBuilder
        ensures { result ≡ [] }
    {
        TreeBuilder {
            nodes: Vec::new(alloc),
            wanted: Some(1),
        }
    }

    /// How many nodes there are.
    pub fn len(&self) -> usize
        ensures count { result ≡ length self.now }
        ensures whole { IsOneTree self.now }
    {
        self.nodes.len()
    }

    /// The node at a place, in preorder.
    pub fn node(&self, k: usize) -> &Node
        requires { k < length self.now }
        ensures { slice_get self.now k ≡ Some result.now }
    {
        &self.nodes[k]
    }
}
