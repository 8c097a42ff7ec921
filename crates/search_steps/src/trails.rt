// The region at hand in a search, and the steps that led to it.

ghost use Rattle.std.specs.Prelude.{◌≡◌, ◌<◌, ◌≤◌, [], pos, ◌+ℤ◌, length, true, unsigned_abs, IfOk, OnOk};
ghost use Rattle.frac_core.specs.Parts.{max_part};
ghost use Rattle.rational.specs.Rational.{whole};
ghost use Rattle.rational.specs.Rounding.{floor_of};
ghost use Rattle.program_law.specs.Program.{Program};
ghost use Rattle.branching_law.specs.Paths.{above};
ghost use Rattle.search_steps.specs.Trails.{path_of, waiting_of, paths_left, IsTrail, GoesBelow};

use crate::turns::{turn_at, whole_above, whole_before};
use branching_law::{Cut, Turn};
use frac_core::{Frac, Memory, Vector};
use program_regions::{Descent, Region};
use std::alloc::Global;

/// The turns from the program's bounds to a region, rounding's first.
pub type Path = Vector<Turn>;

/// The turns that led to a root, and the walk on from there: the region at hand, with the turn of each cut on the way to it.
#[derive(Drop)]
pub struct Trail {
    pub turns: Vector<Turn>,
    pub walk: Descent<Turn>,
}

/// The turn to the other side.
fn other_side(turn: Turn) -> Turn
    ensures { result ≡ above turn.column turn.k }
{
    Turn {
        cut: Cut::Above,
        ..turn
    }
}

impl Trail {
    /// No step from a root.
    pub fn at_root(alloc: Global, turns: Vector<Turn>, region: Region) -> Trail
        ensures turns { result.turns ≡ turns }
        ensures region { result.walk.region ≡ region }
        ensures before { result.walk.before ≡ [] }
    {
        let walk = Descent::new(alloc, region);
        Trail { turns, walk }
    }

    /// The path to the region at hand.
    pub fn path(&self, alloc: Global) -> Result<Path, Memory>
        ensures { IfOk result (λ path. path ≡ path_of self.now) }
    {
        let mut path = self.turns.copied()?;
        for i in 0..self.walk.len() {
            path.push(self.walk.cut(i).note)?;
        }
        Ok(path)
    }

    /// Goes below the floor of a number that isn't whole.
    pub fn go_below(&mut self, j: u32, x: Frac) -> Result<(), Memory>
        requires fractional { x.den ≡ 1 → ⊥ }
        requires column { j < length self.old.walk.region }
        ensures below { OnOk result (GoesBelow self.old j (floor_of x) self.new) }
        ensures trail { (p : Program) → IsTrail p self.old → OnOk result (IsTrail p self.new) }
    {
        let turn = turn_at(Cut::Below, j, x);
        self.walk.cut_high(j, whole_before(x), turn)?;
        Ok(())
    }

    /// Goes to the next path that waits. Answers whether there is one.
    pub fn go_on(&mut self) -> bool
        requires { (p : Program) × IsTrail p self.old }
        ensures paths { paths_left result self.new ≡ waiting_of self.old }
        ensures turns { self.new.turns ≡ self.old.turns }
        ensures trail { (p : Program) → IsTrail p self.old → result ≡ true → IsTrail p self.new }
    {
        while let Some(cut) = self.walk.undo() {
            let turn = cut.note;
            if let Cut::Below = turn.cut {
                let above = whole_above(turn);
                if self
                    .walk
                    .cut_low(cut.column, above, other_side(turn))
                    .is_err()
                {
                    unreachable!()
                }
                return true;
            }
        }
        false
    }
}
