//! The capacity of a map, which is exact.
ghost use Rattle.bimap_any.specs.Capacity.{IsReservation, IsShrink};

use crate::map::BijectiveMap;
use bimap_base::{Count, NoMemory};
use bimap_index::{CompactedIndex, Index};

impl<L: Eq, R: Eq, I: Index<L>, J: Index<R>> BijectiveMap<L, R, I, J> {
    ghost use Rattle.bimap_kinds.specs.Held.{holding};

    /// Grows the capacity to exactly the length plus `more`, unless it is that large already.
    ///
    /// After an `Ok`, the next `more` insertions cannot run out of memory.
    ///
    /// Time: O(new capacity) if it grows, otherwise O(1).
    ///
    /// Memory: It allocates for the new capacity, if it grows.
    ///
    /// `Err`: Out of memory. Pairs and capacity are as before, and the map may use more memory than before.
    ///
    ///     seats.reserve(5); // Ok(())
    ///     seats.capacity(); // 8
    pub fn reserve(&mut self, more: usize) -> Result<(), NoMemory>
        ensures { IsReservation (holding self.old) more result (holding self.new) }
    {
        self.table.reserve(more)
    }
}

impl<L: Eq + Drop, R: Eq + Drop, I: CompactedIndex<L>, J: CompactedIndex<R>> BijectiveMap<
    L,
    R,
    I,
    J,
> {
    ghost use Rattle.bimap_kinds.specs.Held.{holding};

    /// Shrinks a capacity above `least` to exactly `least`, or to the length if that is more.
    ///
    /// If the capacity is `least` or less, nothing changes. In insertion order it also allocates 2 n numbers, which it
    /// frees at the end.
    ///
    /// Time: O(old capacity), and O(n log n) more for each ordered side and for insertion order. O(1) if nothing
    /// shrinks.
    ///
    /// Memory: It allocates for the new capacity, if it shrinks.
    ///
    /// `Err`: Out of memory. The map is as before.
    ///
    ///     seats.shrink_to(0); // Ok(())
    ///     seats.capacity(); // 3
    pub fn shrink_to(&mut self, least: usize) -> Result<(), NoMemory>
        ensures { IsShrink (holding self.old) least result (holding self.new) }
    {
        self.table.shrink_to(least, &mut Count::new())
    }

    /// Shrinks the capacity to exactly the length.
    ///
    /// It does what [`shrink_to`](Self::shrink_to) does for 0.
    ///
    /// Time: O(old capacity), and O(n log n) more for each ordered side and for insertion order. O(1) if nothing
    /// shrinks.
    ///
    /// Memory: It allocates for the new capacity, if it shrinks.
    ///
    /// `Err`: Out of memory. The map is as before.
    ///
    ///     seats.shrink_to_fit(); // Ok(())
    ///     seats.capacity(); // 3
    pub fn shrink_to_fit(&mut self) -> Result<(), NoMemory>
        ensures { IsShrink (holding self.old) 0 result (holding self.new) }
    {
        self.shrink_to(0)
    }
}
