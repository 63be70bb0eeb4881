//! Changes at one place, in the store and in both indexes together. This module decides nothing.
ghost use Rattle.std.specs.Prelude.{◌≡◌, ◌<◌, ◌≤◌, ◌+◌, ◌*◌, ◌++◌, ◌∷◌, [], ℕ, true, length, Some, None, IsSomeAnd, MatchOption, is_some, OnOk, OnErr, max, slice_set, if◌then◌else◌};
ghost use Rattle.bimap_base.specs.Holding.{IsRoomAfter};
ghost use Rattle.bimap_base.specs.Slots.{pair_at, left_at, right_at, IsLive, pair_count};
ghost use Rattle.bimap_base.specs.Positions.{ComesLast, IsTakenOut};

use crate::slot_update::{relist, unlist};
use crate::table::Table;
use bimap_base::{LeftSide, Meter, NoMemory, RightSide};
use bimap_index::Index;

impl<L: Eq, R: Eq, I: Index<L>, J: Index<R>> Table<L, R, I, J> {
    ghost use Rattle.bimap_core.specs.Store.{holding_of, IsAloneAt};

    // Puts a pair in the place of another one, which it returns. A side has a spot if its key is new. Its index then
    // removes the place and lists it again by that spot. A side without a spot has an equal key, and its index stays as
    // it is.
    pub(crate) fn swap<'a, M: Meter>(
        &mut self,
        place: usize,
        left: L,
        right: R,
        spots: (Option<&'a I::Spot>, Option<&'a J::Spot>),
        meter: &mut M,
    ) -> (L, R)
        requires live { IsLive self.old.pairs place }
        requires left { MatchOption spots.0
            (IsSomeAnd (pair_at self.old.pairs place) (λ p. L.eq p.0 left ≡ true))
            (λ s. I.is_for self.old.left left s.now) }
        requires right { MatchOption spots.1
            (IsSomeAnd (pair_at self.old.pairs place) (λ p. R.eq p.1 right ≡ true))
            (λ s. J.is_for self.old.right right s.now) }
        requires alone { IsAloneAt L.eq R.eq self.old.pairs place (left, right) }
        ensures was { pair_at self.old.pairs place ≡ Some result }
        ensures pairs { self.new.pairs ≡ slice_set self.old.pairs place (Some (left, right)) }
        ensures left_places { MatchOption spots.entry.0
            (I.places self.new.left ≡ I.places self.old.left)
            (λ _. I.appends → ComesLast (I.places self.old.left) place place
            (I.places self.new.left)) }
        ensures left_finds_by { I.finds_by self.new.left ≡ I.finds_by self.old.left }
        ensures right_finds_by { J.finds_by self.new.right ≡ J.finds_by self.old.right }
        ensures comparisons { M.comparisons meter.new ≤ M.comparisons meter.old
            + 2 * (if is_some spots.entry.0
            then I.effort (length (I.places self.old.left)) else 0)
            + 2 * (if is_some spots.entry.1
            then J.effort (length (J.places self.old.right)) else 0) }
        ensures touches { M.touches meter.new ≤ M.touches meter.old
            + 2 * (if is_some spots.entry.0
            then 64 * (I.effort (length (I.places self.old.left)) + 1) else 0)
            + 2 * (if is_some spots.entry.1
            then 64 * (J.effort (length (J.places self.old.right)) + 1) else 0) }
    {
        let lefts = LeftSide::new(&self.pairs);
        unlist(&mut self.left, spots.0.is_some(), lefts, place, meter);
        let rights = RightSide::new(&self.pairs);
        unlist(&mut self.right, spots.1.is_some(), rights, place, meter);
        let old = self.pairs.swap_in(place, left, right);
        let lefts = LeftSide::new(&self.pairs);
        relist(&mut self.left, lefts, place, spots.0, meter);
        let rights = RightSide::new(&self.pairs);
        relist(&mut self.right, rights, place, spots.1, meter);
        old
    }

    // Removes the pair at this place and returns it.
    pub(crate) fn take<M: Meter>(&mut self, place: usize, meter: &mut M) -> (L, R)
        requires live { IsLive self.old.pairs place }
        ensures was { pair_at self.old.pairs place ≡ Some result }
        ensures pairs { self.new.pairs ≡ slice_set self.old.pairs place None }
        ensures left_places { I.appends → IsTakenOut (I.places self.old.left) place
            (I.places self.new.left) }
        ensures left_finds_by { I.finds_by self.new.left ≡ I.finds_by self.old.left }
        ensures right_finds_by { J.finds_by self.new.right ≡ J.finds_by self.old.right }
        ensures right_spots { (key : R) (spot : J.Spot) → J.is_for self.old.right key spot →
            J.is_for self.new.right key spot }
        ensures right_effort { J.effort (length (J.places self.new.right))
            ≤ J.effort (length (J.places self.old.right)) }
        ensures comparisons { M.comparisons meter.new ≤ M.comparisons meter.old
            + I.effort (length (I.places self.old.left))
            + J.effort (length (J.places self.old.right)) }
        ensures touches { M.touches meter.new ≤ M.touches meter.old
            + 64 * (I.effort (length (I.places self.old.left)) + 1)
            + 64 * (J.effort (length (J.places self.old.right)) + 1) }
    {
        self.left.unlink(LeftSide::new(&self.pairs), place, meter);
        self.right.unlink(RightSide::new(&self.pairs), place, meter);
        self.pairs.take(place)
    }

    // Puts a pair into a free place and returns that place. The pair shares no value with another one. Each index links
    // the place at the spot of its value.
    pub(crate) fn put<M: Meter>(
        &mut self,
        left: L,
        right: R,
        left_spot: &I::Spot,
        right_spot: &J::Spot,
        meter: &mut M,
    ) -> usize
        requires free { pair_count self.old.pairs < length self.old.pairs }
        requires left { I.leads self.old.left (left_at self.old.pairs) left left_spot.now }
        requires right { J.leads self.old.right (right_at self.old.pairs) right right_spot.now }
        requires alone { (place : ℕ) → pair_at self.old.pairs place ≡ None →
            IsAloneAt L.eq R.eq self.old.pairs place (left, right) }
        ensures there { result < length self.old.pairs }
        ensures was_free { pair_at self.old.pairs result ≡ None }
        ensures pairs { self.new.pairs ≡ slice_set self.old.pairs result (Some (left, right)) }
        ensures left_places { I.appends → I.places self.new.left
            ≡ I.places self.old.left ++ result ∷ [] }
        ensures left_finds_by { I.finds_by self.new.left ≡ I.finds_by self.old.left }
        ensures right_finds_by { J.finds_by self.new.right ≡ J.finds_by self.old.right }
        ensures comparisons { M.comparisons meter.new ≡ M.comparisons meter.old }
        ensures touches { M.touches meter.new ≤ M.touches meter.old
            + 64 * (I.effort (length (I.places self.old.left)) + 1)
            + 64 * (J.effort (length (J.places self.old.right)) + 1) }
    {
        let place = self.pairs.put(left, right);
        self.left
            .link(LeftSide::new(&self.pairs), place, left_spot, meter);
        self.right
            .link(RightSide::new(&self.pairs), place, right_spot, meter);
        place
    }

    // Grows the store to at least `to` places, with a cell for each place in both indexes. If it runs out of memory, an
    // index may have more cells than before.
    pub(crate) fn grow(&mut self, to: usize) -> Result<(), NoMemory>
        ensures ok { OnOk result (length self.new.pairs ≡ max to (length self.old.pairs)) }
        ensures grows { length self.old.pairs ≤ length self.new.pairs }
        ensures kept { (place : ℕ) → pair_at self.new.pairs place ≡ pair_at self.old.pairs place }
        ensures count { pair_count self.new.pairs ≡ pair_count self.old.pairs }
        ensures left_spots { (key : L) (spot : I.Spot) →
            I.leads self.old.left (left_at self.old.pairs) key spot →
            I.leads self.new.left (left_at self.new.pairs) key spot }
        ensures right_spots { (key : R) (spot : J.Spot) →
            J.leads self.old.right (right_at self.old.pairs) key spot →
            J.leads self.new.right (right_at self.new.pairs) key spot }
        ensures left_places { I.places self.new.left ≡ I.places self.old.left }
        ensures right_places { J.places self.new.right ≡ J.places self.old.right }
        ensures left_finds_by { I.finds_by self.new.left ≡ I.finds_by self.old.left }
        ensures right_finds_by { J.finds_by self.new.right ≡ J.finds_by self.old.right }
        ensures err { OnErr result (self.new.pairs ≡ self.old.pairs) }
    {
        self.left.grow(to)?;
        self.right.grow(to)?;
        self.pairs.grow(to)
    }

    // Makes sure that a place is free. A full table doubles its places, to at least four.
    pub(crate) fn make_room(&mut self) -> Result<(), NoMemory>
        ensures ok { OnOk result (pair_count self.new.pairs < length self.new.pairs) }
        ensures room { IsRoomAfter (holding_of self.old.pairs) ⊥ (holding_of self.new.pairs) }
        ensures kept { (place : ℕ) → pair_at self.new.pairs place ≡ pair_at self.old.pairs place }
        ensures count { pair_count self.new.pairs ≡ pair_count self.old.pairs }
        ensures left_spots { (key : L) (spot : I.Spot) →
            I.leads self.old.left (left_at self.old.pairs) key spot →
            I.leads self.new.left (left_at self.new.pairs) key spot }
        ensures right_spots { (key : R) (spot : J.Spot) →
            J.leads self.old.right (right_at self.old.pairs) key spot →
            J.leads self.new.right (right_at self.new.pairs) key spot }
        ensures left_places { I.places self.new.left ≡ I.places self.old.left }
        ensures right_places { J.places self.new.right ≡ J.places self.old.right }
        ensures left_finds_by { I.finds_by self.new.left ≡ I.finds_by self.old.left }
        ensures right_finds_by { J.finds_by self.new.right ≡ J.finds_by self.old.right }
        ensures full { OnErr result (pair_count self.old.pairs ≡ length self.old.pairs) }
        ensures err { OnErr result (self.new.pairs ≡ self.old.pairs) }
    {
        let places = self.pairs.places();
        if self.pairs.len() < places {
            return Ok(());
        }
        match places.checked_mul(2) {
            Some(twice) => self.grow(twice.max(4)),
            None => Err(NoMemory),
        }
    }
}
