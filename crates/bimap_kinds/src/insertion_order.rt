//! The ends of the insertion order, and moves of a pair to them. No capacity changes.
ghost use Rattle.std.specs.Prelude.{◌≡◌, ◌+◌, ◌-◌, ◌*◌, ◌≤◌, length, slice_get, option_map};
ghost use Rattle.std.specs.Map.Iter.{TakesFirst, TakesLast, deref_pair};
ghost use Rattle.bimap_base.specs.Positions.{ComesLast};
ghost use Rattle.bimap_index.specs.Moves.{ComesFirst, IsMove};

use crate::map::BijectiveMap;
use bimap_base::{Count, Meter, Query};
use bimap_index::{Index, InsertionOrder, Lookup};

#[tactic(auto, unfolding(crate::specs::HeldTable::held))]
impl<L: Eq, R: Eq, I: Index<L>, J: Index<R>> BijectiveMap<L, R, InsertionOrder<I>, J> {
    ghost use Rattle.bimap_kinds.specs.Held.{holding};

    /// Returns the first pair in insertion order, or `None` if the map is empty.
    ///
    /// Time: O(1), without comparing values.
    ///
    ///     seats.first(); // Some((&'a', &3))
    pub fn first(&self) -> Option<(&L, &R)>
        ensures { option_map deref_pair result ≡ slice_get (holding self.now).pairs 0 }
    {
        self.table.first()
    }

    /// Returns the last pair in insertion order, or `None` if the map is empty.
    ///
    /// Time: O(1), without comparing values.
    ///
    ///     seats.last(); // Some((&'c', &2))
    pub fn last(&self) -> Option<(&L, &R)>
        ensures { option_map deref_pair result
            ≡ slice_get (holding self.now).pairs (length (holding self.now).pairs - 1) }
    {
        self.table.last()
    }

    /// Removes the first pair in insertion order and returns it, or returns `None` if the map is empty.
    ///
    /// The capacity stays.
    ///
    /// Time: Expected O(1) with two hashed sides.
    ///
    ///     seats.pop_first(); // Some(('a', 3))
    pub fn pop_first(&mut self) -> Option<(L, R)>
        ensures taken { TakesFirst (λ p. p) (holding self.old).pairs result
            (holding self.new).pairs }
        ensures room { (holding self.new).room ≡ (holding self.old).room }
    {
        self.pop_first_metered(&mut Count::new())
    }

    /// Removes the last pair in insertion order and returns it, or returns `None` if the map is empty.
    ///
    /// The capacity stays.
    ///
    /// Time: Expected O(1) with two hashed sides.
    ///
    ///     seats.pop_last(); // Some(('c', 2))
    pub fn pop_last(&mut self) -> Option<(L, R)>
        ensures taken { TakesLast (λ p. p) (holding self.old).pairs result
            (holding self.new).pairs }
        ensures room { (holding self.new).room ≡ (holding self.old).room }
    {
        self.pop_last_metered(&mut Count::new())
    }

    /// Moves the pair of a left to the front of the insertion order, and returns whether the map contains the left.
    ///
    /// The other pairs keep their order, and the capacity stays. The left is a `&L` or a borrowed form, as in
    /// [`get_by_left`](Self::get_by_left).
    ///
    /// Time: That of one look-up.
    ///
    ///     seats.to_front(&'b'); // true
    ///     seats.first(); // Some((&'b', &1))
    pub fn to_front<Q: Query<L>>(&mut self, left: Q) -> bool
    where
        I: Lookup<L, Q>,
        ensures moved { IsMove (λ p. Q.same p.0 left) ComesFirst (holding self.old).pairs result
            (holding self.new).pairs }
        ensures room { (holding self.new).room ≡ (holding self.old).room }
    {
        self.to_front_metered(left, &mut Count::new())
    }

    /// Moves the pair of a left to the end of the insertion order, and returns whether the map contains the left.
    ///
    /// The other pairs keep their order, and the capacity stays. The left is a `&L` or a borrowed form, as in
    /// [`get_by_left`](Self::get_by_left).
    ///
    /// Time: That of one look-up.
    ///
    ///     seats.to_back(&'b'); // true
    ///     seats.last(); // Some((&'b', &1))
    pub fn to_back<Q: Query<L>>(&mut self, left: Q) -> bool
    where
        I: Lookup<L, Q>,
        ensures moved { IsMove (λ p. Q.same p.0 left) (λ was p. ComesLast was p p)
            (holding self.old).pairs result (holding self.new).pairs }
        ensures room { (holding self.new).room ≡ (holding self.old).room }
    {
        self.to_back_metered(left, &mut Count::new())
    }

    /// Is [`pop_first`](Self::pop_first) with a meter.
    pub fn pop_first_metered<M: Meter>(&mut self, meter: &mut M) -> Option<(L, R)>
        ensures taken { TakesFirst (λ p. p) (holding self.old).pairs result
            (holding self.new).pairs }
        ensures room { (holding self.new).room ≡ (holding self.old).room }
        ensures comparisons { let n = length (holding self.old).pairs in
            M.comparisons meter.new ≤ M.comparisons meter.old + I.effort n + J.effort n }
        ensures touches { let n = length (holding self.old).pairs in
            M.touches meter.new ≤ M.touches meter.old + 64 * (I.effort n + 1)
            + 64 * (J.effort n + 1) }
    {
        self.table.take_first(meter)
    }

    /// Is [`pop_last`](Self::pop_last) with a meter.
    pub fn pop_last_metered<M: Meter>(&mut self, meter: &mut M) -> Option<(L, R)>
        ensures taken { TakesLast (λ p. p) (holding self.old).pairs result
            (holding self.new).pairs }
        ensures room { (holding self.new).room ≡ (holding self.old).room }
        ensures comparisons { let n = length (holding self.old).pairs in
            M.comparisons meter.new ≤ M.comparisons meter.old + I.effort n + J.effort n }
        ensures touches { let n = length (holding self.old).pairs in
            M.touches meter.new ≤ M.touches meter.old + 64 * (I.effort n + 1)
            + 64 * (J.effort n + 1) }
    {
        self.table.take_last(meter)
    }

    /// Is [`to_front`](Self::to_front) with a meter.
    pub fn to_front_metered<Q: Query<L>, M: Meter>(&mut self, left: Q, meter: &mut M) -> bool
    where
        I: Lookup<L, Q>,
        ensures moved { IsMove (λ p. Q.same p.0 left) ComesFirst (holding self.old).pairs result
            (holding self.new).pairs }
        ensures room { (holding self.new).room ≡ (holding self.old).room }
        ensures comparisons { M.comparisons meter.new ≤ M.comparisons meter.old
            + I.effort (length (holding self.old).pairs) }
        ensures touches { M.touches meter.new ≤ M.touches meter.old
            + I.effort (length (holding self.old).pairs) }
    {
        self.table.to_front(left, meter)
    }

    /// Is [`to_back`](Self::to_back) with a meter.
    pub fn to_back_metered<Q: Query<L>, M: Meter>(&mut self, left: Q, meter: &mut M) -> bool
    where
        I: Lookup<L, Q>,
        ensures moved { IsMove (λ p. Q.same p.0 left) (λ was p. ComesLast was p p)
            (holding self.old).pairs result (holding self.new).pairs }
        ensures room { (holding self.new).room ≡ (holding self.old).room }
        ensures comparisons { M.comparisons meter.new ≤ M.comparisons meter.old
            + I.effort (length (holding self.old).pairs) }
        ensures touches { M.touches meter.new ≤ M.touches meter.old
            + I.effort (length (holding self.old).pairs) }
    {
        self.table.to_back(left, meter)
    }
}
