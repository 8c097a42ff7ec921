// What is open of a certificate.

ghost use Rattle.std.specs.Prelude.{◌≡◌, ◌<◌, IfOk, length};
ghost use Rattle.program_law.specs.Changes.{zeros};
ghost use Rattle.cert_text_law.specs.Told.{with_w, with_y};
ghost use Rattle.check_progress.specs.Progress.{in_node};
ghost use Rattle.check_lines.specs.Openings.{IsKindOf, IsOpenedOf, stage_of};

use crate::fronts::zeros;
use frac_core::{Frac, Memory, Vector};
use program_data::Program;
use std::alloc::Global;

/// What is open: what stands before the tree, a node of it, or nothing.
#[derive(Clone, Copy)]
pub(crate) enum Kind {
    Head,
    Branch(u32, i128),
    Bound,
    Farkas,
    Cross(u32),
    Closed,
}

/// What is open, with a leaf's point and multipliers.
#[derive(Drop)]
pub(crate) struct Opened {
    pub kind: Kind,
    pub w: Vector<Frac>,
    pub y: Vector<Frac>,
}

/// Puts zeros in the place of all numbers.
#[tactic(auto, using(crate::proofs::Zeroed::zeroed_more, crate::proofs::Zeroed::all_zeroed, crate::proofs::Zeroed::zeroed_length))]
fn clear(entries: &mut Vector<Frac>)
    ensures { entries.new ≡ zeros (length entries.old) }
{
    for i in 0..entries.len() {
        entries.set(i, Frac::whole(0));
    }
}

impl Opened {
    /// What stands before the tree is open.
    pub(crate) fn start(alloc: Global, p: &Program) -> Result<Opened, Memory>
        ensures kind { IfOk result (λ o. o.kind ≡ Kind.Head) }
        ensures opened { IfOk result (IsOpenedOf p.now) }
    {
        let w = zeros(alloc, p.columns())?;
        let y = zeros(alloc, p.rows())?;
        Ok(Opened {
            kind: Kind::Head,
            w,
            y,
        })
    }

    /// A node is opened, a leaf with zeros.
    pub(crate) fn begin(&mut self, p: &Program, kind: Kind)
        requires opened { IsOpenedOf p.now self.old }
        requires kind { IsKindOf p.now kind }
        ensures stage { stage_of self.new ≡ stage_of (record { kind = kind; w = zeros (length p.now.columns); y = zeros (length p.now.rows) }) }
        ensures kind { self.new.kind ≡ kind }
        ensures opened { IsOpenedOf p.now self.new }
    {
        match kind {
            Kind::Bound => {
                clear(&mut self.w);
                clear(&mut self.y);
            }
            Kind::Farkas => clear(&mut self.y),
            _ => {}
        }
        self.kind = kind;
    }

    /// Nothing is open any more.
    pub(crate) fn close(&mut self)
        ensures kind { self.new.kind ≡ Kind.Closed }
        ensures same { self.new ≡ record self.old { kind = Kind.Closed } }
    {
        self.kind = Kind::Closed;
    }

    /// An entry of a BOUND leaf's point.
    pub(crate) fn put_w(&mut self, p: &Program, column: u32, value: Frac)
        requires opened { IsOpenedOf p.now self.old }
        requires column { column < length p.now.columns }
        ensures stage { stage_of self.new ≡ in_node (with_w column value) (stage_of self.old) }
        ensures kind { self.new.kind ≡ self.old.kind }
        ensures opened { IsOpenedOf p.now self.new }
    {
        match self.kind {
            Kind::Bound => self.w.set(column as usize, value),
            _ => {}
        }
    }

    /// A multiplier of a leaf.
    pub(crate) fn put_y(&mut self, p: &Program, row: u32, value: Frac)
        requires opened { IsOpenedOf p.now self.old }
        requires row { row < length p.now.rows }
        ensures stage { stage_of self.new ≡ in_node (with_y row value) (stage_of self.old) }
        ensures kind { self.new.kind ≡ self.old.kind }
        ensures opened { IsOpenedOf p.now self.new }
    {
        match self.kind {
            Kind::Bound | Kind::Farkas => self.y.set(row as usize, value),
            _ => {}
        }
    }
}
