//! Taking pairs out by the result of a closure, in the order of iteration. Each kind of index does it in its own way.
ghost use Rattle.std.specs.Prelude.{◌≡◌, ◌≤◌, ℕ, length};
ghost use Rattle.bimap_base.specs.Kept.{MayTestInOrder};
ghost use Rattle.bimap_base.specs.PairsAt.{pairs_at};
ghost use Rattle.bimap_core.specs.Partition.{IsPartition};

use crate::outlet::Outlet;
use crate::table::Table;
use bimap_base::Meter;
use bimap_index::{HashIndex, Index, InsertionOrder};
use bimap_tree::{Batch, Ordered};
use std::hash::{BuildHasher, Hash};

/// An index of the lefts that can take pairs out of a table in the order of iteration.
pub trait PartedIndex<K: Eq>: Index<K> {
    /// Calls the closure once on each pair, in the order of iteration by left. Removes the pairs on which the closure
    /// returns `goes`, and gives them to the outlet.
    ///
    /// Never allocates. The room stays. The time is that of an iteration, plus one removal and one search for each
    /// removed pair.
    fn partition_ordered<R: Eq, J: Index<R>, F: FnMut(&K, &R) -> bool, S: Outlet<(K, R)>, M: Meter>(
        table: &mut Table<K, R, Self, J>,
        goes: bool,
        f: F,
        outlet: &mut S,
        meter: &mut M,
    )
        requires may { MayTestInOrder F.FnMut f
            (pairs_at table.old.pairs (Self.places table.old.left)) }
        requires fits { (n : ℕ) →
            n ≤ length (pairs_at table.old.pairs (Self.places table.old.left)) →
            S.has_room outlet.old n }
        ensures parted { IsPartition F.FnMut S.receives goes f
            (pairs_at table.old.pairs (Self.places table.old.left))
            (pairs_at table.new.pairs (Self.places table.new.left)) outlet.old outlet.new }
        ensures room { length table.new.pairs ≡ length table.old.pairs };
}

impl<K: Ord> PartedIndex<K> for Ordered {
    fn partition_ordered<R: Eq, J: Index<R>, F: FnMut(&K, &R) -> bool, S: Outlet<(K, R)>, M: Meter>(
        table: &mut Table<K, R, Ordered, J>,
        goes: bool,
        mut f: F,
        outlet: &mut S,
        meter: &mut M,
    ) {
        let mut rank = 0;
        let mut batch = Batch::new(&table.left);
        while rank < table.pairs.len() {
            let place = batch.place(&table.left, rank, usize::MAX, meter);
            if table.goes_at(place, goes, &mut f) {
                outlet.receive(table.take(place, meter));
                batch = Batch::new(&table.left);
            } else {
                rank += 1;
            }
        }
    }
}

impl<K: Eq + Hash, B: BuildHasher> PartedIndex<K> for HashIndex<B> {
    fn partition_ordered<R: Eq, J: Index<R>, F: FnMut(&K, &R) -> bool, S: Outlet<(K, R)>, M: Meter>(
        table: &mut Table<K, R, HashIndex<B>, J>,
        goes: bool,
        f: F,
        outlet: &mut S,
        meter: &mut M,
    ) {
        table.partition(goes, f, outlet, meter);
    }
}

impl<K: Eq, I: Index<K>> PartedIndex<K> for InsertionOrder<I> {
    fn partition_ordered<R: Eq, J: Index<R>, F: FnMut(&K, &R) -> bool, S: Outlet<(K, R)>, M: Meter>(
        table: &mut Table<K, R, InsertionOrder<I>, J>,
        goes: bool,
        mut f: F,
        outlet: &mut S,
        meter: &mut M,
    ) {
        let mut next = table.left.list().first();
        for _ in 0..table.pairs.len() {
            let Some(place) = next else { unreachable!() };
            next = table.left.list().after(place);
            if table.goes_at(place, goes, &mut f) {
                outlet.receive(table.take(place, meter));
            }
        }
    }
}
