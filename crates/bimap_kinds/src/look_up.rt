//! What a map contains: lengths and look-ups.
ghost use Rattle.std.specs.Prelude.{◌≡◌, ◌↔◌, ◌+◌, ◌≤◌, [], length, Contains, IsTrue};
ghost use Rattle.bimap_base.specs.Holding.{IsFoundByLeft, IsFoundByRight};
ghost use Rattle.bimap_base.specs.Sets.{HasLeft, HasRight};

use crate::map::BijectiveMap;
use bimap_base::{Count, Meter, Query};
use bimap_index::{Index, Lookup};

impl<L: Eq, R: Eq, I: Index<L>, J: Index<R>> BijectiveMap<L, R, I, J> {
    ghost use Rattle.bimap_kinds.specs.Held.{holding};

    /// Returns the number of pairs.
    ///
    /// Time: O(1).
    ///
    ///     seats.len(); // 3
    pub fn len(&self) -> usize
        ensures { result ≡ length (holding self.now).pairs }
    {
        self.table.len()
    }

    /// Returns whether the map contains no pairs.
    ///
    /// Time: O(1).
    ///
    ///     seats.is_empty(); // false
    pub fn is_empty(&self) -> bool
        ensures { IsTrue result ↔ ((holding self.now).pairs ≡ []) }
    {
        self.len() == 0
    }

    /// Returns the number of pairs for which the map has space.
    ///
    /// Time: O(1).
    ///
    ///     seats.capacity(); // 4
    pub fn capacity(&self) -> usize
        ensures { result ≡ (holding self.now).room }
    {
        self.table.room()
    }

    /// Returns the right of a left, or `None` if the map does not contain the left.
    ///
    /// The left is a `&L` or a borrowed form. A `&str` finds a `String` or a `&str`, and a `&[T]` finds a `Vec<T>`. No
    /// key is built for the look-up.
    ///
    /// Time: O(log n) on an ordered left, expected O(1) on a hashed left.
    ///
    ///     seats.get_by_left(&'a'); // Some(&3)
    ///     numbers.get_by_left("main"); // Some(&1)
    pub fn get_by_left<Q: Query<L>>(&self, left: Q) -> Option<&R>
    where
        I: Lookup<L, Q>,
        ensures { IsFoundByLeft Q.same (holding self.now) left result }
    {
        self.table.get_by_left(left, &mut Count::new())
    }

    /// Returns the left of a right, or `None` if the map does not contain the right.
    ///
    /// The right is a `&R` or a borrowed form, as the left of [`get_by_left`](Self::get_by_left) is.
    ///
    /// Time: O(log n) on an ordered right, expected O(1) on a hashed right.
    ///
    ///     seats.get_by_right(&1); // Some(&'b')
    pub fn get_by_right<Q: Query<R>>(&self, right: Q) -> Option<&L>
    where
        J: Lookup<R, Q>,
        ensures { IsFoundByRight Q.same (holding self.now) right result }
    {
        self.table.get_by_right(right, &mut Count::new())
    }

    /// Returns whether the map contains the left.
    ///
    /// The left is a `&L` or a borrowed form, as in [`get_by_left`](Self::get_by_left).
    ///
    /// Time: O(log n) on an ordered left, expected O(1) on a hashed left.
    ///
    ///     seats.contains_left(&'d'); // false
    pub fn contains_left<Q: Query<L>>(&self, left: Q) -> bool
    where
        I: Lookup<L, Q>,
        ensures { IsTrue result ↔ HasLeft Q.same (Contains (holding self.now).pairs) left }
    {
        self.get_by_left(left).is_some()
    }

    /// Returns whether the map contains the right.
    ///
    /// The right is a `&R` or a borrowed form, as in [`get_by_right`](Self::get_by_right).
    ///
    /// Time: O(log n) on an ordered right, expected O(1) on a hashed right.
    ///
    ///     seats.contains_right(&2); // true
    pub fn contains_right<Q: Query<R>>(&self, right: Q) -> bool
    where
        J: Lookup<R, Q>,
        ensures { IsTrue result ↔ HasRight Q.same (Contains (holding self.now).pairs) right }
    {
        self.get_by_right(right).is_some()
    }

    /// Is [`get_by_left`](Self::get_by_left) with a meter.
    pub fn get_by_left_metered<Q: Query<L>, M: Meter>(&self, left: Q, meter: &mut M) -> Option<&R>
    where
        I: Lookup<L, Q>,
        ensures answer { IsFoundByLeft Q.same (holding self.now) left result }
        ensures comparisons { M.comparisons meter.new ≤ M.comparisons meter.old
            + I.effort (length (holding self.now).pairs) }
        ensures touches { M.touches meter.new ≤ M.touches meter.old
            + I.effort (length (holding self.now).pairs) }
    {
        self.table.get_by_left(left, meter)
    }

    /// Is [`get_by_right`](Self::get_by_right) with a meter.
    pub fn get_by_right_metered<Q: Query<R>, M: Meter>(&self, right: Q, meter: &mut M) -> Option<&L>
    where
        J: Lookup<R, Q>,
        ensures answer { IsFoundByRight Q.same (holding self.now) right result }
        ensures comparisons { M.comparisons meter.new ≤ M.comparisons meter.old
            + J.effort (length (holding self.now).pairs) }
        ensures touches { M.touches meter.new ≤ M.touches meter.old
            + J.effort (length (holding self.now).pairs) }
    {
        self.table.get_by_right(right, meter)
    }
}
