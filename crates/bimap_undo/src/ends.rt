//! The ends of an ordered side of a map with a record.
ghost use Rattle.std.specs.Prelude.{◌≡◌, ◌-◌, List, length, slice_get, option_map};
ghost use Rattle.std.specs.Map.Iter.{deref_pair};
ghost use Rattle.bimap.specs.BTree.{IsByRight};

use crate::copy_left::CopyLeft;
use crate::undoable::Undoable;
use bimap::{BijectiveMap, Index, Ordered};

impl<L: CopyLeft + Ord + Drop, R: Eq + Drop, J: Index<R> + Drop> Undoable<
    BijectiveMap<L, R, Ordered, J>,
    L,
    R,
> {
    /// Returns the pair with the least left, or `None` if the map is empty.
    ///
    /// Time: O(log n), without comparing values.
    ///
    ///     seats.insert('b', 1)?;
    ///     seats.insert('a', 2)?;
    ///     seats.first_by_left(); // Some((&'a', &2))
    pub fn first_by_left(&self) -> Option<(&L, &R)>
        ensures { option_map deref_pair result ≡ slice_get self.now.held.pairs 0 }
    {
        self.held().first_by_left()
    }

    /// Returns the pair with the greatest left, or `None` if the map is empty.
    ///
    /// Time: O(log n), without comparing values.
    pub fn last_by_left(&self) -> Option<(&L, &R)>
        ensures { option_map deref_pair result
            ≡ slice_get self.now.held.pairs (length self.now.held.pairs - 1) }
    {
        self.held().last_by_left()
    }
}

impl<L: CopyLeft + Drop, R: Ord + Drop, I: Index<L> + Drop> Undoable<
    BijectiveMap<L, R, I, Ordered>,
    L,
    R,
> {
    /// Returns the pair with the least right, or `None` if the map is empty.
    ///
    /// Time: O(log n), without comparing values.
    ///
    ///     seats.insert('b', 1)?;
    ///     seats.insert('a', 2)?;
    ///     seats.first_by_right(); // Some((&'b', &1))
    pub fn first_by_right(&self) -> Option<(&L, &R)>
        ensures { (sorted : List (L × R)) × IsByRight R.cmp self.now.held.pairs sorted
            × (option_map deref_pair result ≡ slice_get sorted 0) }
    {
        self.held().first_by_right()
    }

    /// Returns the pair with the greatest right, or `None` if the map is empty.
    ///
    /// Time: O(log n), without comparing values.
    pub fn last_by_right(&self) -> Option<(&L, &R)>
        ensures { (sorted : List (L × R)) × IsByRight R.cmp self.now.held.pairs sorted
            × (option_map deref_pair result ≡ slice_get sorted (length sorted - 1)) }
    {
        self.held().last_by_right()
    }
}
