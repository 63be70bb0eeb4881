//! Insertions. Each key is searched once. What the call returns is decided before anything changes.
ghost use Rattle.std.specs.Prelude.{◌≡◌, ◌+◌, ◌*◌, ◌≤◌, None, IsSome, MatchBool, IfOk, OnErr, length};
ghost use Rattle.bimap_base.specs.Holding.{IsInsertionUnder};
ghost use Rattle.bimap_base.specs.PairsAt.{pairs_at};
ghost use Rattle.bimap_base.specs.Positions.{StandsInOrder};

use crate::table::Table;
use bimap_base::{Meter, NotInsertedWith, OnHeld, Overwritten, Policy};
use bimap_index::Index;

// Returns whether the value is contained and the policy keeps it.
fn keeps(held: Option<usize>, side: OnHeld) -> bool
    ensures { MatchBool result (IsSome held × (side ≡ OnHeld.Refuse))
        (side ≡ OnHeld.Refuse → held ≡ None) }
{
    held.is_some() && side.refuses()
}

impl<L: Eq, R: Eq, I: Index<L>, J: Index<R>> Table<L, R, I, J> {
    ghost use Rattle.bimap_core.specs.Store.{holding_of};

    /// Inserts a pair if the policy allows it to overwrite the pairs with which it shares a value. Returns the
    /// overwritten pairs.
    ///
    /// It allocates only if it overwrites no pair and no place is free. An `Err` gives the pair back, and nothing has
    /// changed.
    pub fn insert_with<M: Meter>(
        &mut self,
        left: L,
        right: R,
        policy: Policy,
        meter: &mut M,
    ) -> Result<Overwritten<L, R>, NotInsertedWith<L, R>>
        ensures answer { IsInsertionUnder L.eq R.eq (holding_of self.old.pairs)
            (left, right) policy result (holding_of self.new.pairs) }
        ensures position { I.appends → IfOk result (λ answer. StandsInOrder
            (pairs_at self.old.pairs (I.places self.old.left)) (left, right) answer
            (pairs_at self.new.pairs (I.places self.new.left))) }
        ensures slots { OnErr result (self.new.pairs ≡ self.old.pairs) }
        ensures places { OnErr result (I.places self.new.left ≡ I.places self.old.left) }
        ensures left_finds_by { I.finds_by self.new.left ≡ I.finds_by self.old.left }
        ensures right_finds_by { J.finds_by self.new.right ≡ J.finds_by self.old.right }
        ensures comparisons { M.comparisons meter.new ≤ M.comparisons meter.old
            + 3 * I.effort (length (I.places self.old.left))
            + 5 * J.effort (length (J.places self.old.right)) }
        ensures touches { M.touches meter.new ≤ M.touches meter.old
            + 200 * (I.effort (length (I.places self.old.left)) + 1)
            + 200 * (J.effort (length (J.places self.old.right)) + 1) }
    {
        let mut left_spot = self.left.spot();
        let mut right_spot = self.right.spot();
        let (to_left, to_right) = self.descend(
            &left,
            &right,
            &mut left_spot,
            &mut right_spot,
            meter,
        );
        let by_left = self.finish_left(to_left, &left, &mut left_spot, meter);
        if keeps(by_left, policy.left) {
            self.is_left_first = true;
            return Err(NotInsertedWith::LeftHeld(left, right));
        }
        let by_right = self.finish_right(by_left, to_right, &right, &mut right_spot, meter);
        self.is_left_first = false;
        if keeps(by_right, policy.right) {
            return Err(NotInsertedWith::RightHeld(left, right));
        }
        match (by_left, by_right) {
            (None, None) => {
                if self.make_room().is_err() {
                    return Err(NotInsertedWith::Memory(left, right));
                }
                let _place = self.put(left, right, &left_spot, &right_spot, meter);
                Ok(Overwritten::Neither)
            }
            (Some(place), None) => {
                let old = self.swap(place, left, right, (None, Some(&right_spot)), meter);
                Ok(Overwritten::Left(old.0, old.1))
            }
            (None, Some(place)) => {
                let old = self.swap(place, left, right, (Some(&left_spot), None), meter);
                Ok(Overwritten::Right(old.0, old.1))
            }
            (Some(place), Some(other)) => {
                let spots = (None, (place != other).then_some(&right_spot));
                if place == other {
                    self.is_left_first = true;
                    let old = self.swap(place, left, right, spots, meter);
                    return Ok(Overwritten::Pair(old.0, old.1));
                }
                let second = self.take(other, meter);
                let first = self.swap(place, left, right, spots, meter);
                Ok(Overwritten::Both(first, second))
            }
        }
    }
}
