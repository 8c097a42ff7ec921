// What the lines so far tell.

ghost use Rattle.std.specs.Prelude.{◌≡◌, IfOk, OnOk};
ghost use Rattle.certificate_law.specs.Nodes.{IsOneTree};
ghost use Rattle.certificate_law.specs.declared.Certificate.TheVariants as certificates;
ghost use Rattle.program_law.specs.Changes.{zeros};
ghost use Rattle.cert_text.specs.Drafts.{told};
ghost use Rattle.cert_text_law.specs.Told.{blank, with_item, with_claim, certificate_told, IsTreeDue};

use crate::openings::{NodeList, SquareList, put_at};
use cert_grammar::{Claim, Item};
use certificate_law::{Certificate, Node, Tree, TreeBuilder};
use frac_core::{Frac, Memory, Vector};
use program_data::Square;
use std::alloc::Global;

/// What the lines so far tell.
#[derive(Drop)]
pub(crate) struct Draft {
    /// What is claimed, `Infeasible` until a line claims.
    pub claim: Claim,
    pub point: Vector<Frac>,
    pub ray: Vector<Frac>,
    pub direction: Vector<Frac>,
    pub value: Frac,
    pub squares: SquareList,
    pub nodes: NodeList,
}

/// A zero for each column or row.
fn zeros(alloc: Global, count: u32) -> Result<Vector<Frac>, Memory>
    ensures { IfOk result (λ v. v ≡ zeros count) }
{
    Vector::filled(alloc, count as usize, Frac::whole(0))
}

/// The tree of nodes that are one.
fn tree_of(nodes: TreeBuilder) -> Tree
    requires { IsOneTree nodes }
    ensures { result ≡ nodes }
{
    match nodes.finish() {
        Ok(tree) => tree,
        Err(_) => unreachable!(),
    }
}

impl Draft {
    /// Nothing is told.
    pub(crate) fn start(alloc: Global, columns: u32) -> Result<Draft, Memory>
        ensures { IfOk result (λ draft. told draft ≡ blank columns) }
    {
        let point = zeros(alloc, columns)?;
        let ray = zeros(alloc, columns)?;
        let direction = zeros(alloc, columns)?;
        Ok(Draft {
            claim: Claim::Infeasible,
            point,
            ray,
            direction,
            value: Frac::whole(0),
            squares: SquareList::start(alloc),
            nodes: NodeList::start(alloc),
        })
    }

    /// A square is begun.
    fn begin_square(&mut self, alloc: Global, columns: u32, weight: Frac) -> Result<(), Memory>
        ensures told { OnOk result (told self.new ≡ with_item columns 0 (Item.Square weight) (told self.old)) }
        ensures claim { OnOk result (self.new.claim ≡ self.old.claim) }
    {
        let coef = zeros(alloc, columns)?;
        self.squares.push(Square { weight, coef })
    }

    /// A BOUND leaf is begun.
    fn begin_bound(&mut self, alloc: Global, columns: u32, rows: u32) -> Result<(), Memory>
        ensures told { OnOk result (told self.new ≡ with_item columns rows Item.Bound (told self.old)) }
        ensures claim { OnOk result (self.new.claim ≡ self.old.claim) }
    {
        let w = zeros(alloc, columns)?;
        let y = zeros(alloc, rows)?;
        self.nodes.push(Node::Bound(w, y))
    }

    /// A FARKAS leaf is begun.
    fn begin_farkas(&mut self, alloc: Global, rows: u32) -> Result<(), Memory>
        ensures told { OnOk result (told self.new ≡ with_item 0 rows Item.Farkas (told self.old)) }
        ensures claim { OnOk result (self.new.claim ≡ self.old.claim) }
    {
        let y = zeros(alloc, rows)?;
        self.nodes.push(Node::Farkas(y))
    }

    /// What a line tells is put behind what the lines before it tell.
    pub(crate) fn put(
        &mut self,
        alloc: Global,
        columns: u32,
        rows: u32,
        item: Item,
    ) -> Result<(), Memory>
        ensures told { OnOk result (told self.new ≡ with_item columns rows item (told self.old)) }
        ensures claim { OnOk result (self.new.claim ≡ with_claim item self.old.claim) }
    {
        match item {
            Item::Optimal => self.claim = Claim::Optimal,
            Item::Infeasible => self.claim = Claim::Infeasible,
            Item::Unbounded => self.claim = Claim::Unbounded,
            Item::NotConvex => self.claim = Claim::NotConvex,
            Item::Value(value) => self.value = value,
            Item::Point(column, value) => put_at(&mut self.point, column, value),
            Item::Ray(column, value) => put_at(&mut self.ray, column, value),
            Item::Direction(column, value) => put_at(&mut self.direction, column, value),
            Item::Square(weight) => self.begin_square(alloc, columns, weight)?,
            Item::Coef(column, value) => self.squares.put(column, value),
            Item::Branch(column, k) => self.nodes.push(Node::Branch(column, k))?,
            Item::Bound => self.begin_bound(alloc, columns, rows)?,
            Item::Farkas => self.begin_farkas(alloc, rows)?,
            Item::Cross(column) => self.nodes.push(Node::Cross(column))?,
            Item::W(column, value) => self.nodes.put_w(column, value),
            Item::Y(row, value) => self.nodes.put_y(row, value),
            Item::End => {}
        }
        Ok(())
    }

    /// The certificate that is told.
    pub(crate) fn finish(self) -> Result<Certificate, Memory>
        requires { IsTreeDue self.claim self.nodes }
        ensures { IfOk result (λ c. c ≡ certificate_told self.claim (told self)) }
    {
        let Draft {
            claim,
            point,
            ray,
            direction,
            value,
            squares,
            nodes,
        } = self;
        match claim {
            Claim::Optimal => optimal(point, value, squares, nodes),
            Claim::Infeasible => infeasible(nodes),
            Claim::Unbounded => unbounded(point, ray, squares),
            Claim::NotConvex => Ok(Certificate::NotConvex(direction)),
        }
    }
}

fn optimal(
    point: Vector<Frac>,
    value: Frac,
    squares: SquareList,
    nodes: NodeList,
) -> Result<Certificate, Memory>
    requires { IsOneTree nodes }
    ensures { IfOk result (λ c. c ≡ certificates.Optimal point value squares nodes) }
{
    let squares = squares.finish()?;
    let tree = tree_of(nodes.finish()?);
    Ok(Certificate::Optimal(point, value, squares, tree))
}

fn infeasible(nodes: NodeList) -> Result<Certificate, Memory>
    requires { IsOneTree nodes }
    ensures { IfOk result (λ c. c ≡ certificates.Infeasible nodes) }
{
    let tree = tree_of(nodes.finish()?);
    Ok(Certificate::Infeasible(tree))
}

fn unbounded(
    point: Vector<Frac>,
    ray: Vector<Frac>,
    squares: SquareList,
) -> Result<Certificate, Memory>
    ensures { IfOk result (λ c. c ≡ certificates.Unbounded point ray squares) }
{
    let squares = squares.finish()?;
    Ok(Certificate::Unbounded(point, ray, squares))
}
