//! Empty maps.
ghost use Rattle.std.specs.Prelude.{◌≡◌, [], None, IfOk, IsOk};

use crate::map::BijectiveMap;
use bimap_base::NoMemory;
use bimap_core::Table;
use bimap_index::{DefaultIndex, EmptyIndex, Index};
use std::alloc::Global;

impl<L: Eq, R: Eq, I: Index<L>, J: Index<R>> BijectiveMap<L, R, I, J> {
    ghost use Rattle.bimap_kinds.specs.Held.{holding};

    // Returns the empty map over two indexes that list nothing.
    #[tactic(auto, unfolding(crate::specs::HeldTable::held))]
    pub(crate) fn over(alloc: Global, left: I, right: J) -> Self
        requires left { I.is_listing left (λ _. None) }
        requires right { J.is_listing right (λ _. None) }
        ensures pairs { (holding result).pairs ≡ [] }
        ensures room { (holding result).room ≡ 0 }
        ensures left { result.table.left ≡ left }
        ensures right { result.table.right ≡ right }
    {
        BijectiveMap {
            table: Table::new(alloc, left, right),
        }
    }
}

impl<L: Eq, R: Eq, I: EmptyIndex<L>, J: EmptyIndex<R>> BijectiveMap<L, R, I, J> {
    ghost use Rattle.bimap_kinds.specs.Held.{holding};

    /// Returns an empty map of capacity 0, for a map type whose hash builders implement `Default`.
    ///
    /// Use it for a map type that names hash builders of its own.
    ///
    /// Time: O(1).
    ///
    ///     let seats: BiHashMap<char, u32> = BiHashMap::empty(alloc);
    ///     seats.len(); // 0
    pub fn empty(alloc: Global) -> Self
        ensures pairs { (holding result).pairs ≡ [] }
        ensures room { (holding result).room ≡ 0 }
    {
        BijectiveMap::over(alloc, I::empty(alloc), J::empty(alloc))
    }
}

impl<L: Eq, R: Eq, I: DefaultIndex<L>, J: DefaultIndex<R>> BijectiveMap<L, R, I, J> {
    ghost use Rattle.bimap_kinds.specs.Held.{holding};

    /// Returns an empty map of capacity 0, for a map type with the default hash builders.
    ///
    /// Time: O(1).
    ///
    ///     let seats: BiBTreeMap<char, u32> = BiBTreeMap::new(alloc);
    ///     seats.capacity(); // 0
    pub fn new(alloc: Global) -> Self
        ensures pairs { (holding result).pairs ≡ [] }
        ensures room { (holding result).room ≡ 0 }
    {
        Self::empty(alloc)
    }

    /// Returns an empty map of exactly this capacity, for a map type with the default hash builders.
    ///
    /// Time: O(capacity).
    ///
    /// Memory: It allocates for the capacity, and not at all for 0.
    ///
    /// `Err`: Out of memory. There is no map.
    ///
    ///     let seats: BiBTreeMap<char, u32> = BiBTreeMap::with_capacity(alloc, 16)?;
    ///     seats.capacity(); // 16
    pub fn with_capacity(alloc: Global, capacity: usize) -> Result<Self, NoMemory>
    where
        L: Drop,
        R: Drop,
        I: Drop,
        J: Drop,
        ensures pairs { IfOk result (λ bimap. (holding bimap).pairs ≡ []) }
        ensures room { IfOk result (λ bimap. (holding bimap).room ≡ capacity) }
        ensures none { capacity ≡ 0 → IsOk result }
    {
        let mut bimap = BijectiveMap::empty(alloc);
        bimap.reserve(capacity)?;
        Ok(bimap)
    }
}
