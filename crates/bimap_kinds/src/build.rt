//! Many pairs inserted at once, by calls of `bimap_any`.
ghost use Rattle.std.specs.Prelude.{[], OnOk, IfOk, IfErr};
ghost use Rattle.std.specs.Iterator.{IsFiniteIterable};
ghost use Rattle.bimap_any.specs.Extension.{IsExtension, IsExtensionStopped};
ghost use Rattle.bimap_base.specs.Holding.{Holding};
ghost use Rattle.bimap_base.specs.Positions.{ComeInOrder, FollowInOrder};

use crate::map::BijectiveMap;
use bimap_base::ExtendStopped;
use bimap_index::{EmptyIndex, Index};
use std::alloc::Global;

impl<L: Eq + Drop, R: Eq + Drop, I: Index<L>, J: Index<R>> BijectiveMap<L, R, I, J> {
    ghost use Rattle.bimap_kinds.specs.Held.{holding};

    /// Inserts each item in order, as [`insert`](Self::insert) does.
    ///
    /// Condition: The iterator ends. If its `next` has a condition, it is true at each call of `next`.
    ///
    /// Time: That of `insert` for each item.
    ///
    /// Memory: It allocates as `insert` does for each item. Nothing is reserved ahead.
    ///
    /// `Err`: Out of memory at an item. It hands that item back with the number of items before it, which stay
    /// inserted.
    ///
    ///     seats.extend([('d', 4), ('e', 1)]); // Ok(())
    ///     seats.len(); // 4
    pub fn extend<A: IntoIterator<Item = (L, R)>>(
        &mut self,
        items: A,
    ) -> Result<(), ExtendStopped<L, R>>
        requires ends { IsFiniteIterable A.into_iter_gives A.IntoIter.can_next
            A.IntoIter.remaining items }
        ensures extended { OnOk result (IsExtension L.eq R.eq
            (A.into_iter_gives items) A.IntoIter.next_gives (holding self.old) (holding self.new)) }
        ensures stopped { IfErr result (λ e. IsExtensionStopped L.eq R.eq
            (A.into_iter_gives items) A.IntoIter.next_gives (holding self.old) e
            (holding self.new)) }
        ensures position { I.appends → OnOk result (FollowInOrder (A.into_iter_gives items)
            A.IntoIter.next_gives (holding self.old).pairs (holding self.new).pairs) }
        ensures position_stopped { I.appends → IfErr result (λ e. (stop : IsExtensionStopped L.eq
            R.eq (A.into_iter_gives items) A.IntoIter.next_gives (holding self.old) e
            (holding self.new)) × ComeInOrder (holding self.old).pairs stop.items
            (holding self.new).pairs) }
    {
        bimap_any::extend(self, items)
    }
}

impl<L: Eq + Drop, R: Eq + Drop, I: EmptyIndex<L> + Drop, J: EmptyIndex<R> + Drop> BijectiveMap<
    L,
    R,
    I,
    J,
> {
    ghost use Rattle.bimap_kinds.specs.Held.{holding};

    /// Returns a map made by an `insert` of each item in order, for a map type whose hash builders implement `Default`.
    ///
    /// Condition: The iterator ends. If its `next` has a condition, it is true at each call of `next`.
    ///
    /// Time: That of `insert` for each item.
    ///
    /// Memory: It allocates as `insert` does for each item. Nothing is reserved ahead.
    ///
    /// `Err`: Out of memory at an item. It hands that item back with the number of items before it, and drops the map.
    ///
    ///     let seats: BiBTreeMap<char, u32> = BiBTreeMap::from_iter(alloc, [('a', 3), ('b', 1), ('c', 2)])?;
    pub fn from_iter<A: IntoIterator<Item = (L, R)>>(
        alloc: Global,
        items: A,
    ) -> Result<Self, ExtendStopped<L, R>>
        requires ends { IsFiniteIterable A.into_iter_gives A.IntoIter.can_next
            A.IntoIter.remaining items }
        ensures extended { IfOk result (λ bimap. IsExtension L.eq R.eq
            (A.into_iter_gives items) A.IntoIter.next_gives (record { pairs = []; room = 0 })
            (holding bimap)) }
        ensures stopped { IfErr result (λ e. (last : Holding L R) × IsExtensionStopped L.eq R.eq
            (A.into_iter_gives items) A.IntoIter.next_gives (record { pairs = []; room = 0 })
            e last) }
        ensures position { I.appends → IfOk result (λ bimap. FollowInOrder (A.into_iter_gives items)
            A.IntoIter.next_gives [] (holding bimap).pairs) }
    {
        bimap_any::from_iter(BijectiveMap::empty(alloc), items)
    }
}
