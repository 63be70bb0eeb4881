//! Maps with hash builders handed in, of each kind that has a hashed side.
ghost use Rattle.std.specs.Prelude.{◌≡◌, [], IfOk, IfErr, IsOk};
ghost use Rattle.std.specs.Iterator.{IsFiniteIterable};
ghost use Rattle.bimap_any.specs.Extension.{IsExtension, IsExtensionStopped};
ghost use Rattle.bimap_base.specs.Holding.{Holding};

use crate::map::{BiBTreeHashMap, BiHashBTreeMap, BiHashMap, BiInsertionOrderMap, BijectiveMap};
use bimap_base::{ExtendStopped, NoMemory};
use bimap_index::{HashIndex, InsertionOrder};
use bimap_tree::Ordered;
use std::alloc::Global;
use std::hash::{BuildHasher, Hash};

impl<L: Eq + Hash, R: Eq + Hash, LS: BuildHasher, RS: BuildHasher> BiHashMap<L, R, LS, RS> {
    ghost use Rattle.bimap_kinds.specs.Held.{holding, lefts_hashed_by, rights_hashed_by};

    /// Returns an empty map of capacity 0, with these hash builders.
    ///
    /// Time: O(1).
    ///
    ///     let (left, right) = (RandomState::new(&rt)?, RandomState::new(&rt)?);
    ///     let mut seats = BiHashMap::with_hashers(alloc, left, right);
    ///     seats.insert('a', 3); // Ok(Overwritten::Neither)
    pub fn with_hashers(alloc: Global, left_builder: LS, right_builder: RS) -> Self
        ensures pairs { (holding result).pairs ≡ [] }
        ensures room { (holding result).room ≡ 0 }
        ensures left_builder { lefts_hashed_by result ≡ left_builder }
        ensures right_builder { rights_hashed_by result ≡ right_builder }
    {
        let left = HashIndex::new(alloc, left_builder);
        let right = HashIndex::new(alloc, right_builder);
        BijectiveMap::over(alloc, left, right)
    }

    /// Returns an empty map of exactly this capacity, with these hash builders.
    ///
    /// Time: O(capacity).
    ///
    /// Memory: It allocates for the capacity, and not at all for 0.
    ///
    /// `Err`: Out of memory. There is no map, and the hash builders are dropped.
    ///
    ///     let (left, right) = (RandomState::new(&rt)?, RandomState::new(&rt)?);
    ///     let seats: BiHashMap<char, u32, RandomState, RandomState> = BiHashMap::with_capacity_and_hashers(alloc, 16, left, right)?;
    ///     seats.capacity(); // 16
    pub fn with_capacity_and_hashers(
        alloc: Global,
        capacity: usize,
        left_builder: LS,
        right_builder: RS,
    ) -> Result<Self, NoMemory>
    where
        L: Drop,
        R: Drop,
        LS: Drop,
        RS: Drop,
        ensures pairs { IfOk result (λ bimap. (holding bimap).pairs ≡ []) }
        ensures room { IfOk result (λ bimap. (holding bimap).room ≡ capacity) }
        ensures none { capacity ≡ 0 → IsOk result }
    {
        let mut bimap = BiHashMap::with_hashers(alloc, left_builder, right_builder);
        bimap.reserve(capacity)?;
        Ok(bimap)
    }

    /// Returns a map with these hash builders, made by an `insert` of each item in order.
    ///
    /// Condition: The iterator ends. If its `next` has a condition, it is true at each call of `next`.
    ///
    /// Time: That of `insert` for each item.
    ///
    /// Memory: It allocates as `insert` does for each item. Nothing is reserved ahead.
    ///
    /// `Err`: Out of memory at an item. It hands that item back with the number of items before it, and drops the map.
    ///
    ///     let (left, right) = (RandomState::new(&rt)?, RandomState::new(&rt)?);
    ///     let seats = BiHashMap::from_iter_with_hashers(alloc, left, right, [('a', 3), ('b', 1)])?;
    ///     seats.len(); // 2
    pub fn from_iter_with_hashers<A: IntoIterator<Item = (L, R)>>(
        alloc: Global,
        left_builder: LS,
        right_builder: RS,
        items: A,
    ) -> Result<Self, ExtendStopped<L, R>>
    where
        L: Drop,
        R: Drop,
        LS: Drop,
        RS: Drop,
        requires ends { IsFiniteIterable A.into_iter_gives A.IntoIter.can_next
            A.IntoIter.remaining items }
        ensures extended { IfOk result (λ bimap. IsExtension L.eq R.eq
            (A.into_iter_gives items) A.IntoIter.next_gives (record { pairs = []; room = 0 })
            (holding bimap)) }
        ensures stopped { IfErr result (λ e. (last : Holding L R) × IsExtensionStopped L.eq R.eq
            (A.into_iter_gives items) A.IntoIter.next_gives (record { pairs = []; room = 0 })
            e last) }
    {
        let empty = BiHashMap::with_hashers(alloc, left_builder, right_builder);
        bimap_any::from_iter(empty, items)
    }
}

impl<L: Ord, R: Eq + Hash, RS: BuildHasher> BiBTreeHashMap<L, R, RS> {
    ghost use Rattle.bimap_kinds.specs.Held.{holding, rights_hashed_by};

    /// Returns an empty map of capacity 0, with this hash builder for the rights.
    ///
    /// Time: O(1).
    ///
    ///     let mut seats = BiBTreeHashMap::with_hasher(alloc, RandomState::new(&rt)?);
    ///     seats.insert('a', 3); // Ok(Overwritten::Neither)
    pub fn with_hasher(alloc: Global, right_builder: RS) -> Self
        ensures pairs { (holding result).pairs ≡ [] }
        ensures room { (holding result).room ≡ 0 }
        ensures right_builder { rights_hashed_by result ≡ right_builder }
    {
        let rights = HashIndex::new(alloc, right_builder);
        BijectiveMap::over(alloc, Ordered::new(alloc), rights)
    }
}

impl<L: Eq + Hash, R: Ord, LS: BuildHasher> BiHashBTreeMap<L, R, LS> {
    ghost use Rattle.bimap_kinds.specs.Held.{holding, lefts_hashed_by};

    /// Returns an empty map of capacity 0, with this hash builder for the lefts.
    ///
    /// Time: O(1).
    ///
    ///     let mut seats = BiHashBTreeMap::with_hasher(alloc, RandomState::new(&rt)?);
    ///     seats.insert('a', 3); // Ok(Overwritten::Neither)
    pub fn with_hasher(alloc: Global, left_builder: LS) -> Self
        ensures pairs { (holding result).pairs ≡ [] }
        ensures room { (holding result).room ≡ 0 }
        ensures left_builder { lefts_hashed_by result ≡ left_builder }
    {
        let lefts = HashIndex::new(alloc, left_builder);
        BijectiveMap::over(alloc, lefts, Ordered::new(alloc))
    }
}

impl<L: Eq + Hash, R: Eq + Hash, LS: BuildHasher, RS: BuildHasher> BiInsertionOrderMap<
    L,
    R,
    LS,
    RS,
> {
    ghost use Rattle.bimap_kinds.specs.Held.{holding, lefts_hashed_by, rights_hashed_by};

    /// Returns an empty map of capacity 0, with these hash builders.
    ///
    /// Time: O(1).
    ///
    ///     let (left, right) = (RandomState::new(&rt)?, RandomState::new(&rt)?);
    ///     let mut seats = BiInsertionOrderMap::with_hashers(alloc, left, right);
    ///     seats.insert('a', 3); // Ok(Overwritten::Neither)
    pub fn with_hashers(alloc: Global, left_builder: LS, right_builder: RS) -> Self
        ensures pairs { (holding result).pairs ≡ [] }
        ensures room { (holding result).room ≡ 0 }
        ensures left_builder { lefts_hashed_by result ≡ left_builder }
        ensures right_builder { rights_hashed_by result ≡ right_builder }
    {
        let lefts = InsertionOrder::new(alloc, HashIndex::new(alloc, left_builder));
        let rights = HashIndex::new(alloc, right_builder);
        BijectiveMap::over(alloc, lefts, rights)
    }
}
