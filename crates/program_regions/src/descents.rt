// A region that is cut again and again, and the way back.

ghost use Rattle.std.specs.Prelude.{◌≡◌, ◌<◌, ◌≤◌, ◌∷◌, [], length, reverse, slice_get, Some, IfOk, IfSome, IfNone, IsOk, OnOk, OnErr, vec_capacity};
ghost use Rattle.program_law.specs.Region.{cut_high, cut_low, bounds_at};
ghost use Rattle.program_regions.specs.Descents.{cuts_of};

use crate::regions::Region;
use frac_core::{Frac, Memory};
use program_law::Row;
use std::alloc::Global;
use std::marker::Model;

/// A cut of a region: its column, and what the caller noted of it.
#[derive(Clone, Copy)]
pub struct Cut<T> {
    pub column: u32,
    pub note: T,
}

/// A cut, and the bounds that its column had before.
#[derive(Clone, Copy)]
struct Kept<T> {
    cut: Cut<T>,
    before: Row,
}

/// A region, and the regions that it was cut from, each with the cut. Of each no more is kept than the bounds of the column that
/// was cut.
#[derive(Drop)]
pub struct Descent<T> {
    region: Region,
    cuts: Vec<Kept<T>>,
}

impl<T> Model for Descent<T> {
    ghost use Rattle.std.specs.Prelude.{length, reverse, vec_capacity};
    ghost use Rattle.program_regions.specs.Descents.{Descended, regions_before, AreWithin};

    ghost Value = { Descended T };

    ghost view = { λ d. record { region = d.region; before = regions_before d.region (reverse d.cuts.items); room = vec_capacity d.cuts } };

    ghost invariant = { λ d. AreWithin (length d.region) (reverse d.cuts.items) };
}

impl<T: Copy + Drop> Descent<T> {
    /// A region that isn't cut yet.
    pub fn new(alloc: Global, region: Region) -> Descent<T>
        ensures region { result.region ≡ region }
        ensures before { result.before ≡ [] }
    {
        let cuts = Vec::new(alloc);
        Descent { region, cuts }
    }

    /// A region that isn't cut yet, with room for so many cuts.
    pub fn with_room(alloc: Global, region: Region, room: usize) -> Result<Descent<T>, Memory>
        ensures region { IfOk result (λ d. d.region ≡ region) }
        ensures before { IfOk result (λ d. d.before ≡ []) }
        ensures room { IfOk result (λ d. room ≤ d.room) }
    {
        let cuts = Vec::with_capacity(alloc, room)?;
        Ok(Descent { region, cuts })
    }

    /// The region at hand.
    pub fn region(&self) -> &Region
        ensures { result.now ≡ self.now.region }
    {
        &self.region
    }

    /// How many cuts there are.
    pub fn len(&self) -> usize
        ensures { result ≡ length self.now.before }
    {
        self.cuts.as_slice().len()
    }

    /// A cut, counted from the first.
    pub fn cut(&self, i: usize) -> Cut<T>
        requires { i < length self.now.before }
        ensures { slice_get (cuts_of self.now.before) i ≡ Some result }
    {
        let cuts = self.cuts.as_slice();
        cuts[i].cut
    }

    /// Cuts the high bound of a column to the smaller of itself and `k`.
    ///
    /// # Errors
    /// `Memory`, only where there is no room. Then all stays as it was.
    pub fn cut_high(&mut self, j: u32, k: Frac, note: T) -> Result<(), Memory>
        requires { j < length self.old.region }
        ensures region { OnOk result (self.new.region ≡ cut_high self.old.region j k) }
        ensures before { OnOk result (self.new.before ≡ (record { column = j; note = note }, self.old.region) ∷ self.old.before) }
        ensures width { length self.new.region ≡ length self.old.region }
        ensures room { length self.old.before < self.old.room → IsOk result }
        ensures more { self.old.room ≤ self.new.room }
        ensures err { OnErr result ((self.new.region ≡ self.old.region) × (self.new.before ≡ self.old.before)) }
    {
        keep(&mut self.cuts, &self.region, j, note)?;
        self.region.cut_high(j, k);
        Ok(())
    }

    /// Cuts the low bound of a column to the larger of itself and `k`.
    ///
    /// # Errors
    /// `Memory`, only where there is no room. Then all stays as it was.
    pub fn cut_low(&mut self, j: u32, k: Frac, note: T) -> Result<(), Memory>
        requires { j < length self.old.region }
        ensures region { OnOk result (self.new.region ≡ cut_low self.old.region j k) }
        ensures before { OnOk result (self.new.before ≡ (record { column = j; note = note }, self.old.region) ∷ self.old.before) }
        ensures width { length self.new.region ≡ length self.old.region }
        ensures room { length self.old.before < self.old.room → IsOk result }
        ensures more { self.old.room ≤ self.new.room }
        ensures err { OnErr result ((self.new.region ≡ self.old.region) × (self.new.before ≡ self.old.before)) }
    {
        keep(&mut self.cuts, &self.region, j, note)?;
        self.region.cut_low(j, k);
        Ok(())
    }

    /// Goes back to the region before the last cut, and answers the cut, where there is one.
    pub fn undo(&mut self) -> Option<Cut<T>>
        ensures some { IfSome result (λ cut. self.old.before ≡ (cut, self.new.region) ∷ self.new.before) }
        ensures none { IfNone result ((self.old.before ≡ []) × (self.new ≡ self.old)) }
        ensures column { IfSome result (λ cut. cut.column < length self.new.region) }
        ensures again { IfSome result (λ _. length self.new.before < self.new.room) }
        ensures width { length self.new.region ≡ length self.old.region }
        ensures room { self.new.room ≡ self.old.room }
    {
        match pop(&mut self.cuts) {
            None => None,
            Some(kept) => {
                self.region.set(kept.cut.column, kept.before);
                Some(kept.cut)
            }
        }
    }
}

/// Puts a cut last, with the bounds of its column. Where there is room it doesn't fail.
#[tactic(auto, using(crate::proofs::DescentLemmas::reverse_last))]
fn keep<T: Copy + Drop>(
    cuts: &mut Vec<Kept<T>>,
    region: &Region,
    column: u32,
    note: T,
) -> Result<(), Memory>
    requires { column < length region.now }
    ensures ok { OnOk result (reverse cuts.new.items ≡ record { cut = record { column = column; note = note }; before = bounds_at region.now column } ∷ reverse cuts.old.items) }
    ensures err { OnErr result (cuts.new.items ≡ cuts.old.items) }
    ensures room { length cuts.old.items < vec_capacity cuts.old → IsOk result }
    ensures more { vec_capacity cuts.old ≤ vec_capacity cuts.new }
{
    let before = region.at(column);
    cuts.push(Kept {
        cut: Cut { column, note },
        before,
    })?;
    Ok(())
}

/// Takes the last cut away.
#[tactic(auto, using(crate::proofs::DescentLemmas::reverse_last))]
fn pop<T: Copy + Drop>(cuts: &mut Vec<Kept<T>>) -> Option<Kept<T>>
    ensures some { IfSome result (λ kept. reverse cuts.old.items ≡ kept ∷ reverse cuts.new.items) }
    ensures none { IfNone result ((reverse cuts.old.items ≡ []) × (reverse cuts.new.items ≡ [])) }
    ensures capacity { vec_capacity cuts.new ≡ vec_capacity cuts.old }
    ensures again { IfSome result (λ _. length cuts.new.items < vec_capacity cuts.new) }
{
    cuts.pop()
}
