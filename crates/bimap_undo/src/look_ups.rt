//! Look-ups of a map with a record, also by a borrowed form of a value. They know which maps take one.
ghost use Rattle.bimap.specs.Holding.{IsFoundByLeft, IsFoundByRight};

use crate::copy_left::CopyLeft;
use crate::undoable::Undoable;
use bimap::{BijectiveMap, Index, Lookup, Query};

impl<L: CopyLeft + Drop, R: Eq + Drop, I: Index<L> + Drop, J: Index<R> + Drop> Undoable<
    BijectiveMap<L, R, I, J>,
    L,
    R,
> {
    /// Returns the right of a left, or `None` if the map does not contain the left.
    ///
    /// The left is a `&L` or a borrowed form, as in `BijectiveMap::get_by_left`.
    ///
    /// Time: O(log n) on an ordered left, expected O(1) on a hashed left.
    ///
    ///     seats.insert('a', 1)?;
    ///     seats.get_by_left(&'a'); // Some(&1)
    ///     seats.get_by_right(&2); // None
    pub fn get_by_left<Q: Query<L>>(&self, left: Q) -> Option<&R>
    where
        I: Lookup<L, Q>,
        ensures { IsFoundByLeft Q.same self.now.held left result }
    {
        self.held().get_by_left(left)
    }

    /// Returns the left of a right, or `None` if the map does not contain the right.
    ///
    /// The right is a `&R` or a borrowed form, as in `BijectiveMap::get_by_right`.
    ///
    /// Time: O(log n) on an ordered right, expected O(1) on a hashed right.
    pub fn get_by_right<Q: Query<R>>(&self, right: Q) -> Option<&L>
    where
        J: Lookup<R, Q>,
        ensures { IsFoundByRight Q.same self.now.held right result }
    {
        self.held().get_by_right(right)
    }
}
