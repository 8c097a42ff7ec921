// The walk over a tree: the region at hand, and those that wait.

ghost use Rattle.std.specs.Prelude.{◌≡◌, ◌<◌, ◌≤◌, ◌+◌, ◌∷◌, length, true};
ghost use Rattle.program_law.specs.Region.{cut_high, cut_low};
ghost use Rattle.check_nodes.specs.Walk.{waiting_of, at_hand};

use frac_core::Frac;
use program_regions::Descent;

/// The region at hand. Each cut on the way to it notes what the low bound is to be cut to in the right half, where that still waits.
pub type Walk = Descent<Option<Frac>>;

/// Cuts the region at hand to its left half, and keeps how its right half comes back.
pub fn branch(walk: &mut Walk, j: u32, k: Frac, above: Frac)
    requires place { j < length walk.old.region }
    requires room { length walk.old.before < walk.old.room }
    ensures regions { at_hand true walk.new ≡ cut_high walk.old.region j k ∷ cut_low walk.old.region j above ∷ waiting_of walk.old.before }
    ensures width { length walk.new.region ≡ length walk.old.region }
    ensures cuts { length walk.new.before ≡ length walk.old.before + 1 }
    ensures room { walk.old.room ≤ walk.new.room }
{
    if walk.cut_high(j, k, Some(above)).is_err() {
        unreachable!()
    }
}

/// Goes to the next region that waits. Answers false where there is none.
pub fn next_region(walk: &mut Walk) -> bool
    ensures regions { at_hand result walk.new ≡ waiting_of walk.old.before }
    ensures width { length walk.new.region ≡ length walk.old.region }
    ensures cuts { length walk.new.before ≤ length walk.old.before }
    ensures room { walk.old.room ≤ walk.new.room }
{
    while let Some(cut) = walk.undo() {
        if let Some(above) = cut.note {
            if walk.cut_low(cut.column, above, None).is_err() {
                unreachable!()
            }
            return true;
        }
    }
    false
}
