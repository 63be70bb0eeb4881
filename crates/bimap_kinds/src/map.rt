//! A map over any two indexes, and what callers know of its pairs.
ghost use Rattle.std.specs.Prelude.{◌≡◌, ◌≤◌, length};
ghost use Rattle.std.specs.List.{AllPairs};
ghost use Rattle.std.specs.declared.cmp.Ordering.TheVariants.{Less};
ghost use Rattle.std.proofs.Props.{props};
ghost use Rattle.bimap_base.specs.Sets.{IsApart};
ghost use Rattle.bimap_kinds.specs.HeldTable.{held};

use bimap_core::Table;
use bimap_index::{HashIndex, Index, InsertionOrder};
use bimap_tree::Ordered;
use std::hash::{BuildHasherDefault, FoldHasher};

/// A map that contains pairs of a left and a right, each found by either value. No two pairs share a value.
///
/// A pair has a place, which is an entry of one vector. Each side has an index, which lists the places in order or by
/// hash. The capacity is the number of places.
///
/// Four things hold of every call, where n is the length:
///
/// - *Time.* The paragraph `Time:` of a call says what it costs. A search takes O(log n) on an ordered side. On a
///   hashed side it takes expected O(1) if the hashes spread well, and O(n) at worst.
/// - *Memory.* A call allocates only if it has a paragraph `Memory:`. An insertion allocates only if it overwrites
///   nothing and the capacity is used up. The capacity then doubles, to at least 4.
/// - *`Err`.* An `Err` leaves the pairs and the capacity as they were. [`extend`](Self::extend) is the exception: the
///   items that it inserted before stay.
/// - *Meters.* A call `.._metered` is the plain call with a meter, which counts comparisons of keys and touches of
///   nodes.
///
/// Contracts bound these counts, and how far an insertion grows the capacity. They say nothing about time.
pub struct BijectiveMap<L: Eq, R: Eq, I: Index<L>, J: Index<R>> {
    pub(crate) table: Table<L, R, I, J>,
    /// No two of the pairs share a value.
    pub ghost apart: { IsApart L.eq R.eq (held table).pairs } by { Prim.hlevel props },
    /// The pairs ascend by left, if the left is ordered.
    pub ghost ascending: { AllPairs (λ p q. I.walk_order table.left p.0 q.0 ≡ Less)
        (held table).pairs } by { Prim.hlevel props },
    /// There is a place for each pair.
    pub ghost fits: { length (held table).pairs ≤ (held table).room },
    // Each index lists as many places as there are pairs. So what a table says of its indexes holds for the length.
    ghost lefts: { length (I.places table.left) ≡ length (held table).pairs },
    ghost rights: { length (J.places table.right) ≡ length (held table).pairs },
}

// Written by hand, so that a proof sees one step when a map is dropped, and none of its fields.
impl<L: Eq + Drop, R: Eq + Drop, I: Index<L> + Drop, J: Index<R> + Drop> Drop
    for BijectiveMap<L, R, I, J> {
    fn drop(self) {
        let BijectiveMap { table: _table } = self;
    }
}

impl<L: Eq, R: Eq, I: Index<L>, J: Index<R>> BijectiveMap<L, R, I, J> {
    // Returns the table alone.
    pub(crate) fn into_table(self) -> Table<L, R, I, J>
        ensures { result ≡ self.table }
    {
        let BijectiveMap { table } = self;
        table
    }
}

/// A map with two ordered sides. It iterates in ascending order of the lefts, and has ranges of either side.
pub type BiBTreeMap<L, R> = BijectiveMap<L, R, Ordered, Ordered>;

/// A map with two hashed sides, for use without an order.
///
/// The default hash builders have a fixed seed. Hand in a `RandomState` for a side whose values strangers choose.
pub type BiHashMap<L, R, LS = BuildHasherDefault<FoldHasher>, RS = BuildHasherDefault<FoldHasher>> =
    BijectiveMap<L, R, HashIndex<LS>, HashIndex<RS>>;

/// A map with an ordered left and a hashed right.
pub type BiBTreeHashMap<L, R, RS = BuildHasherDefault<FoldHasher>> = BijectiveMap<
    L,
    R,
    Ordered,
    HashIndex<RS>,
>;

/// A map with a hashed left and an ordered right.
pub type BiHashBTreeMap<L, R, LS = BuildHasherDefault<FoldHasher>> = BijectiveMap<
    L,
    R,
    HashIndex<LS>,
    Ordered,
>;

/// A map with two hashed sides that iterates in insertion order.
///
/// A new pair that overwrites the pair of the same left keeps that pair's position. Any other new pair goes to the end.
pub type BiInsertionOrderMap<
    L,
    R,
    LS = BuildHasherDefault<FoldHasher>,
    RS = BuildHasherDefault<FoldHasher>,
> = BijectiveMap<L, R, InsertionOrder<HashIndex<LS>>, HashIndex<RS>>;
