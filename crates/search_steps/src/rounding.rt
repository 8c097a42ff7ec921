// Rounding: the bounds of the marked columns are made whole before a search.

ghost use Rattle.std.specs.Prelude.{◌≡◌, ◌+◌, ◌<◌, ◌≤◌, ◌++◌, ◌∷◌, [], pos, ◌+ℤ◌, length, unsigned_abs, IfOk, IfSome, IfNone, OnOk, Ok, true, false};
ghost use Rattle.frac_core.specs.Parts.{max_part};
ghost use Rattle.rational.specs.Rounding.{floor_of};
ghost use Rattle.program_law.specs.Region.{IsCrossedRegion, bounds_at};
ghost use Rattle.branching_law.specs.Paths.{behind};
ghost use Rattle.branching_law.specs.Rounding.{IsBroken, IsMarkedAt, IsFractional};
ghost use Rattle.search_steps.specs.Progressing.{IsRoot};
ghost use Rattle.search_steps.specs.Roundings.{HasEnded, HasRounded};

use crate::trails::Trail;
use crate::turns::{no_turns, turn_at, whole_above};
use branching_law::{Cut, Turn};
use frac_core::{Frac, Memory, Vector};
use program_data::Program;
use program_regions::Region;
use std::alloc::Global;

/// Rounding on its way: its turns so far, and the region behind them.
#[derive(Drop)]
pub struct Rounding {
    pub turns: Vector<Turn>,
    pub region: Region,
}

/// A bound that is there and isn't whole.
fn broken(bound: Option<Frac>) -> Option<Frac>
    ensures broken { IfSome result (λ x. IsBroken bound (floor_of x)) }
    ensures fractional { IfSome result (λ x. x.den ≡ 1 → ⊥) }
    ensures whole { IfNone result (IsFractional bound → ⊥) }
{
    match bound {
        Some(x) if !x.is_whole() => Some(x),
        _ => None,
    }
}

impl Rounding {
    /// No turn from the program's bounds.
    fn start(alloc: Global, p: &Program) -> Result<Rounding, Memory>
        ensures { IfOk result (HasRounded p.now 0) }
    {
        let turns = no_turns(alloc)?;
        let region = Region::of(alloc, p)?;
        Ok(Rounding { turns, region })
    }

    /// Goes to the side of a turn.
    fn go_to(&mut self, turn: Turn) -> Result<(), Memory>
        requires column { turn.column < length self.old.region }
        requires fits { unsigned_abs turn.k ≤ max_part }
        requires next { unsigned_abs (turn.k +ℤ pos 1) ≤ max_part }
        ensures turns { OnOk result (self.new.turns ≡ self.old.turns ++ turn ∷ []) }
        ensures region { OnOk result (self.new.region ≡ behind self.old.region turn) }
    {
        self.turns.push(turn)?;
        match turn.cut {
            Cut::Below => self.region.cut_high(turn.column, Frac::whole(turn.k)),
            Cut::Above => self.region.cut_low(turn.column, whole_above(turn)),
        }
        Ok(())
    }

    /// Raises a low bound that isn't whole to the next whole number.
    fn raise_low(&mut self, p: &Program, j: u32) -> Result<(), Memory>
        requires rounded { HasRounded p.now j self.old }
        requires marked { IsMarkedAt p.now j }
        requires uncrossed { IsCrossedRegion self.old.region → ⊥ }
        ensures rounded { OnOk result (HasRounded p.now j self.new) }
        ensures low { OnOk result (IsFractional (bounds_at self.new.region j).low → ⊥) }
    {
        if let Some(low) = broken(self.region.low(j)) {
            self.go_to(turn_at(Cut::Above, j, low))?;
        }
        Ok(())
    }

    /// Lowers a high bound that isn't whole to the whole number before it. The low one is whole.
    fn lower_high(&mut self, p: &Program, j: u32) -> Result<(), Memory>
        requires rounded { HasRounded p.now j self.old }
        requires marked { IsMarkedAt p.now j }
        requires uncrossed { IsCrossedRegion self.old.region → ⊥ }
        requires low { IsFractional (bounds_at self.old.region j).low → ⊥ }
        ensures { OnOk result (HasRounded p.now (j + 1) self.new) }
    {
        if let Some(high) = broken(self.region.high(j)) {
            self.go_to(turn_at(Cut::Below, j, high))?;
        }
        Ok(())
    }

    /// Rounds a marked column. Answers whether rounding goes on: it ends as soon as the region is crossed.
    fn round(&mut self, p: &Program, j: u32) -> Result<bool, Memory>
        requires rounded { HasRounded p.now j self.old }
        requires marked { IsMarkedAt p.now j }
        ensures on { result ≡ Ok true → HasRounded p.now (j + 1) self.new }
        ensures ends { result ≡ Ok false → HasEnded p.now self.new }
    {
        if self.region.crossed().is_some() {
            return Ok(false);
        }
        self.raise_low(p, j)?;
        if self.region.crossed().is_some() {
            return Ok(false);
        }
        self.lower_high(p, j)?;
        Ok(true)
    }

    /// Rounds all marked columns, until the region is crossed.
    fn round_all(&mut self, p: &Program) -> Result<(), Memory>
        requires { HasRounded p.now 0 self.old }
        ensures { OnOk result (HasEnded p.now self.new) }
    {
        for j in 0..p.columns() {
            if p.is_marked(j) && !self.round(p, j)? {
                return Ok(());
            }
        }
        Ok(())
    }
}

/// The root of a search: the program's bounds, with those of the marked columns made whole one after another, until the region is
/// crossed.
pub fn rounded(alloc: Global, p: &Program) -> Result<Trail, Memory>
    ensures { IfOk result (IsRoot p.now) }
{
    let mut rounding = Rounding::start(alloc, p)?;
    rounding.round_all(p)?;
    Ok(Trail::at_root(alloc, rounding.turns, rounding.region))
}
