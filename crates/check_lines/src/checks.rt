// A check on its way through a certificate's lines.

ghost use Rattle.std.specs.Prelude.{◌≡◌, ◌≢◌, ◌<◌, ◌≤◌, ◌+◌, ◌-◌, ◌^◌, suc, true, Ok, IfOk, OnOk, length};
ghost use Rattle.program_law.specs.Program.{bounds};
ghost use Rattle.program_law.specs.Changes.{zeros};
ghost use Rattle.cert_grammar.specs.Items.{IsWithin};
ghost use Rattle.check_nodes.specs.Walk.{StepLeaves};
ghost use Rattle.check_progress.specs.Progress.{start, waiting_behind, closed, after, found};
ghost use Rattle.check_lines.specs.Fronts.{IsFrontOf};
ghost use Rattle.check_lines.specs.Openings.{stage_of, stage_with, IsKindOf, IsOpenedOf};
ghost use Rattle.check_lines.specs.Checks.{progress_of, progress, IsCheckFor};

use crate::fronts::Front;
use crate::openings::{Kind, Opened};
use cert_check_law::Event;
use cert_grammar::{Claim, Item};
use certificate_law::MOST_BRANCHES;
use check_nodes::{Walk, bound_taken, branch_taken, cross_taken, farkas_taken};
use frac_core::Memory;
use program_data::Program;
use program_regions::{Descent, Region};
use std::alloc::Global;

/// A check on its way through a certificate's lines.
#[derive(Drop)]
pub(crate) struct Checking {
    pub front: Front,
    pub opened: Opened,
    /// How many nodes have begun.
    pub node: u32,
    /// Whether a region is at hand, or the first event.
    pub left: Result<bool, Event>,
    pub walk: Walk,
}

/// The node that is open, on the region at hand. Answers whether a region waits after it, which is then at hand.
fn node_taken(
    p: &Program,
    front: &Front,
    opened: &Opened,
    node: u32,
    walk: &mut Walk,
) -> Result<bool, Event>
    requires opened { IsOpenedOf p.now opened.now }
    requires kind { opened.now.kind ≢ Kind.Head }
    requires width { length walk.old.region ≡ length p.now.columns }
    requires room { length walk.old.before < walk.old.room }
    ensures step { StepLeaves result walk.new (waiting_behind p.now (stage_of opened.now) (progress_of front.now opened.now node (Ok true) walk.old)) }
    ensures width { length walk.new.region ≡ length walk.old.region }
    ensures room { walk.old.room ≤ walk.new.room }
{
    match opened.kind {
        Kind::Branch(j, k) => branch_taken(p, node, j, k, walk),
        Kind::Bound => bound_taken(p, &front.bound(), node, &opened.w, &opened.y, walk),
        Kind::Farkas => farkas_taken(p, node, &opened.y, walk),
        Kind::Cross(j) => cross_taken(node, j, walk),
        _ => Ok(true),
    }
}

/// What is open is tested, unless there was an event. Answers whether a region waits after it, which is then at hand.
#[tactic(auto, using(crate::proofs::Leaves::leaves_itself))]
fn tested(
    p: &Program,
    front: &Front,
    opened: &Opened,
    node: u32,
    left: Result<bool, Event>,
    walk: &mut Walk,
) -> Result<bool, Event>
    requires front { IsFrontOf p.now front.now }
    requires opened { IsOpenedOf p.now opened.now }
    requires width { length walk.old.region ≡ length p.now.columns }
    requires room { length walk.old.before < walk.old.room }
    requires whole { opened.now.kind ≡ Kind.Head → walk.old.region ≡ bounds p.now }
    ensures step { StepLeaves result walk.new (waiting_behind p.now (stage_of opened.now) (progress_of front.now opened.now node left walk.old)) }
    ensures width { length walk.new.region ≡ length walk.old.region }
    ensures room { walk.old.room ≤ walk.new.room }
{
    match opened.kind {
        Kind::Head => {
            front.tested(p, walk.region())?;
            left
        }
        Kind::Closed => left,
        _ => {
            if !left? {
                return Ok(false);
            }
            node_taken(p, front, opened, node, walk)
        }
    }
}

impl Checking {
    /// Before the first line. All memory is taken here.
    pub(crate) fn start(alloc: Global, p: &Program) -> Result<Checking, Memory>
        ensures progress { IfOk result (λ checking. progress checking ≡ start p.now) }
        ensures check { IfOk result (IsCheckFor p.now) }
    {
        let _columns = p.columns();
        let front = Front::start(alloc, p)?;
        let opened = Opened::start(alloc, p)?;
        let region = Region::of(alloc, p)?;
        let walk = Descent::with_room(alloc, region, MOST_BRANCHES + 1)?;
        Ok(Checking {
            front,
            opened,
            node: 0,
            left: Ok(true),
            walk,
        })
    }

    /// What is open is tested, and nothing is open any more.
    #[tactic(auto, using(crate::proofs::Leaves::leaves_is))]
    fn close(&mut self, p: &Program) -> Result<(), Memory>
        requires { IsCheckFor p.now self.old }
        ensures progress { OnOk result (progress self.new ≡ closed p.now (progress self.old)) }
        ensures check { OnOk result (IsCheckFor p.now self.new) }
    {
        if self.walk.len() > MOST_BRANCHES {
            return Err(Memory);
        }
        let left = tested(
            p,
            &self.front,
            &self.opened,
            self.node,
            self.left,
            &mut self.walk,
        );
        self.left = left;
        self.opened.close();
        Ok(())
    }

    /// A node is opened, a leaf with zeros, and what was open before is tested.
    fn begin(&mut self, p: &Program, kind: Kind) -> Result<(), Memory>
        requires check { IsCheckFor p.now self.old }
        requires kind { IsKindOf p.now kind }
        requires node { kind ≢ Kind.Head }
        requires few { self.old.node < 2 ^ 32 - 1 }
        ensures progress { OnOk result (progress self.new ≡ record (closed p.now (progress self.old)) { stage = stage_with kind (zeros (length p.now.columns)) (zeros (length p.now.rows)); node = suc self.old.node }) }
        ensures check { OnOk result (IsCheckFor p.now self.new) }
    {
        self.close(p)?;
        self.opened.begin(p, kind);
        self.node += 1;
        Ok(())
    }

    /// One line more.
    ///
    /// # Errors
    /// `Memory` where there is no room for it, as there is for the lines of each text of a certificate.
    pub(crate) fn put(&mut self, p: &Program, item: Item) -> Result<(), Memory>
        requires check { IsCheckFor p.now self.old }
        requires item { IsWithin p.now item }
        requires few { self.old.node < 2 ^ 32 - 1 }
        ensures progress { OnOk result (progress self.new ≡ after p.now (progress self.old) item) }
        ensures check { OnOk result (IsCheckFor p.now self.new) }
    {
        match item {
            Item::Branch(j, k) => self.begin(p, Kind::Branch(j, k)),
            Item::Bound => self.begin(p, Kind::Bound),
            Item::Farkas => self.begin(p, Kind::Farkas),
            Item::Cross(j) => self.begin(p, Kind::Cross(j)),
            Item::End => self.close(p),
            Item::W(j, v) => {
                self.opened.put_w(p, j, v);
                Ok(())
            }
            Item::Y(i, v) => {
                self.opened.put_y(p, i, v);
                Ok(())
            }
            Item::Square(weight) => self.front.begin_square(p, weight),
            Item::Coef(j, v) => {
                self.front.put_coef(p, j, v);
                Ok(())
            }
            Item::Value(v) => {
                self.front.value = v;
                Ok(())
            }
            Item::Point(j, v) => {
                self.front.point.set(j as usize, v);
                Ok(())
            }
            Item::Ray(j, v) => {
                self.front.ray.set(j as usize, v);
                Ok(())
            }
            Item::Direction(j, v) => {
                self.front.direction.set(j as usize, v);
                Ok(())
            }
            Item::Optimal => {
                self.front.claim = Claim::Optimal;
                Ok(())
            }
            Item::Infeasible => {
                self.front.claim = Claim::Infeasible;
                Ok(())
            }
            Item::Unbounded => {
                self.front.claim = Claim::Unbounded;
                Ok(())
            }
            Item::NotConvex => {
                self.front.claim = Claim::NotConvex;
                Ok(())
            }
        }
    }

    /// What is found, once all lines are read.
    pub(crate) fn found(&self) -> Result<(), Event>
        ensures { result ≡ found (progress self.now) }
    {
        match self.left {
            Ok(_) => Ok(()),
            Err(event) => Err(event),
        }
    }
}
