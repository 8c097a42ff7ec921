// Lists whose last thing is still being told.

ghost use Rattle.std.specs.Prelude.{◌≡◌, ◌++◌, ◌∷◌, [], slice_set, OnOk, IfOk};
ghost use Rattle.cert_text_law.specs.Told.{on_last, with_coef, with_w, with_y};

use certificate_law::{Node, Tree, TreeBuilder};
use frac_core::{Frac, Memory, Vector};
use program_data::{Square, Squares};
use std::alloc::Global;
use std::marker::Model;

/// Puts a value at a place, if there is such a place.
#[tactic(auto, using(std::proofs::lemmas::List::set_past))]
pub(crate) fn put_at(entries: &mut Vector<Frac>, place: u32, value: Frac)
    ensures { entries.new ≡ slice_set entries.old place value }
{
    let place = place as usize;
    if place < entries.len() {
        entries.set(place, value);
    }
}

/// Puts a coefficient of a square.
fn put_coef(square: &mut Square, column: u32, value: Frac)
    ensures { square.new ≡ with_coef column value square.old }
{
    put_at(&mut square.coef, column, value);
}

/// Puts an entry of a leaf's point.
fn put_w(node: &mut Node, column: u32, value: Frac)
    ensures { node.new ≡ with_w column value node.old }
{
    match node {
        Node::Bound(w, _) => put_at(w, column, value),
        _ => {}
    }
}

/// Puts a multiplier of a leaf.
fn put_y(node: &mut Node, row: u32, value: Frac)
    ensures { node.new ≡ with_y row value node.old }
{
    match node {
        Node::Bound(_, y) => put_at(y, row, value),
        Node::Farkas(y) => put_at(y, row, value),
        _ => {}
    }
}

/// Squares, the last of which may get further coefficients.
#[derive(Drop)]
pub(crate) struct SquareList {
    done: Squares,
    last: Option<Square>,
}

impl Model for SquareList {
    ghost use Rattle.std.specs.Prelude.{◌≡◌, List, [], ◌++◌, None};
    ghost use Rattle.std.specs.Option.{option_to_list};
    ghost use Rattle.program_law.specs.declared.Square.{Square};

    ghost Value = { List Square };

    ghost view = { λ s. s.done ++ option_to_list s.last };

    ghost invariant = { λ s. s.last ≡ None → s.done ≡ [] };
}

impl SquareList {
    pub(crate) fn start(alloc: Global) -> SquareList
        ensures { result ≡ [] }
    {
        SquareList {
            done: Squares::start(alloc),
            last: None,
        }
    }

    /// Puts a square last.
    pub(crate) fn push(&mut self, square: Square) -> Result<(), Memory>
        ensures { OnOk result (self.new ≡ self.old ++ square ∷ []) }
    {
        match self.last.replace(square) {
            Some(before) => self.done.push(before),
            None => Ok(()),
        }
    }

    /// Puts a coefficient of the last square.
    pub(crate) fn put(&mut self, column: u32, value: Frac)
        ensures { self.new ≡ on_last (with_coef column value) self.old }
    {
        if let Some(last) = &mut self.last {
            put_coef(last, column, value);
        }
    }

    /// The squares.
    pub(crate) fn finish(self) -> Result<Squares, Memory>
        ensures { IfOk result (λ squares. squares ≡ self) }
    {
        let mut squares = self.done;
        if let Some(last) = self.last {
            squares.push(last)?;
        }
        Ok(squares)
    }
}

/// Nodes, the last of which may get further entries.
#[derive(Drop)]
pub(crate) struct NodeList {
    done: TreeBuilder,
    last: Option<Node>,
}

impl Model for NodeList {
    ghost use Rattle.std.specs.Prelude.{◌≡◌, List, [], ◌++◌, None};
    ghost use Rattle.std.specs.Option.{option_to_list};
    ghost use Rattle.certificate_law.specs.declared.Node.{Node};

    ghost Value = { List Node };

    ghost view = { λ n. n.done ++ option_to_list n.last };

    ghost invariant = { λ n. n.last ≡ None → n.done ≡ [] };
}

impl NodeList {
    pub(crate) fn start(alloc: Global) -> NodeList
        ensures { result ≡ [] }
    {
        NodeList {
            done: Tree::start(alloc),
            last: None,
        }
    }

    /// Puts a node last.
    pub(crate) fn push(&mut self, node: Node) -> Result<(), Memory>
        ensures { OnOk result (self.new ≡ self.old ++ node ∷ []) }
    {
        match self.last.replace(node) {
            Some(before) => self.done.put(before),
            None => Ok(()),
        }
    }

    /// Puts an entry of the last node's point.
    pub(crate) fn put_w(&mut self, column: u32, value: Frac)
        ensures { self.new ≡ on_last (with_w column value) self.old }
    {
        if let Some(last) = &mut self.last {
            put_w(last, column, value);
        }
    }

    /// Puts a multiplier of the last node.
    pub(crate) fn put_y(&mut self, row: u32, value: Frac)
        ensures { self.new ≡ on_last (with_y row value) self.old }
    {
        if let Some(last) = &mut self.last {
            put_y(last, row, value);
        }
    }

    /// The nodes.
    pub(crate) fn finish(self) -> Result<TreeBuilder, Memory>
        ensures { IfOk result (λ nodes. nodes ≡ self) }
    {
        let mut nodes = self.done;
        if let Some(last) = self.last {
            nodes.put(last)?;
        }
        Ok(nodes)
    }
}
