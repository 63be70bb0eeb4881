//! Taking pairs out by the result of a closure, in the order of the places.
ghost use Rattle.std.specs.Prelude.{◌≡◌, ◌≤◌, ℕ, length, false, not, Some, IfSome, IfNone, if◌then◌else◌};
ghost use Rattle.bimap_base.specs.Kept.{MayTestInOrder, MayTestPair, TestedAt};
ghost use Rattle.bimap_base.specs.Places.{pairs_in};
ghost use Rattle.bimap_base.specs.Slots.{pair_at};
ghost use Rattle.bimap_core.specs.Partition.{IsPartition};

use crate::outlet::Outlet;
use crate::table::Table;
use bimap_base::Meter;
use bimap_index::Index;

impl<L: Eq, R: Eq, I: Index<L>, J: Index<R>> Table<L, R, I, J> {
    // Calls the closure on the pair at this place, if there is one. Returns whether the pair is to be removed, which is
    // whether the closure returned `goes`.
    pub(crate) fn goes_at<F: FnMut(&L, &R) -> bool>(
        &self,
        place: usize,
        goes: bool,
        f: &mut F,
    ) -> bool
        requires may { (p : _) → pair_at self.now.pairs place ≡ Some p →
            MayTestPair F.FnMut f.old p }
        ensures tested { IfSome (pair_at self.now.pairs place)
            (λ p. TestedAt F.FnMut f.old p (if result then goes else not goes) f.new) }
        ensures none { IfNone (pair_at self.now.pairs place) ((result ≡ false) × (f.new ≡ f.old)) }
    {
        match self.pairs.at(place) {
            Some((left, right)) => { if f(left, right) { goes } else { !goes } }
            None => false,
        }
    }

    /// Calls the closure once on each pair, in the order of the places. Removes the pairs on which the closure returns
    /// `goes`, and gives them to the outlet.
    ///
    /// Never allocates. The room stays. The time is proportional to the room, plus one removal for each removed pair.
    pub fn partition<F: FnMut(&L, &R) -> bool, S: Outlet<(L, R)>, M: Meter>(
        &mut self,
        goes: bool,
        mut f: F,
        outlet: &mut S,
        meter: &mut M,
    )
        requires may { MayTestInOrder F.FnMut f (pairs_in self.old.pairs) }
        requires fits { (n : ℕ) → n ≤ length (pairs_in self.old.pairs) → S.has_room outlet.old n }
        ensures parted { IsPartition F.FnMut S.receives goes f (pairs_in self.old.pairs)
            (pairs_in self.new.pairs) outlet.old outlet.new }
        ensures room { length self.new.pairs ≡ length self.old.pairs }
    {
        let places = self.pairs.places();
        for place in 0..places {
            if self.goes_at(place, goes, &mut f) {
                outlet.receive(self.take(place, meter));
            }
        }
    }
}
