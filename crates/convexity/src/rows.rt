// A row divided by its first entry.

ghost use Rattle.convexity.specs.Onto.{divided_onto};
ghost use Rattle.elimination_law.specs.Calculation.{divide_step};
ghost use Rattle.frac_core.specs.Calculated.{answered, Leaves};
ghost use Rattle.frac_core.specs.Parts.{max_part};
ghost use Rattle.rational.specs.Sums.{entry};
ghost use Rattle.std.specs.Prelude.{◌≡◌, ◌≢◌, ◌<◌, ◌∷◌, [], drop, length, pos};

use frac_core::{Frac, Refused, is_zero};

/// One place: x divided by d.
#[tactic(auto, unfolding(elimination_law::specs::Calculation::divide_step))]
fn quotient(x: Frac, d: Frac) -> Result<Frac, Refused>
    requires { d.num ≢ pos 0 }
    ensures { result ≡ answered (divide_step max_part d x) }
{
    if is_zero(x) {
        return Ok(x);
    }
    (x / d).or_refusal()
}

/// Writes into `v` the row, with each entry after the first divided by it.
pub fn divide_onto(row: &[Frac], v: &mut [Frac]) -> Result<(), Refused>
    requires some { 0 < length row.now }
    requires room { length v.old ≡ length row.now }
    requires divisor { (entry row.now 0).num ≢ pos 0 }
    ensures { Leaves v.new result (divided_onto (entry row.now 0) (entry row.now 0 ∷ []) (drop 1 row.now)) }
{
    let d = row[0];
    v[0] = d;
    for k in 1..row.len() {
        v[k] = quotient(row[k], d)?;
    }
    Ok(())
}
