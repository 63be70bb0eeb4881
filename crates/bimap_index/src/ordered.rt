//! The ordered index as an index of a side. This module knows places and routes, and not the nodes.
ghost use Rattle.std.specs.Prelude.{◌≡◌, ◌+◌, ◌*◌, ◌≤◌, ⊤, ℕ, Option, [], Some, length, IfSome, IfNone};
ghost use Rattle.bimap_base.specs.Digits.{most_height};
ghost use Rattle.bimap_base.specs.Keyed.{standing};
ghost use Rattle.bimap_tree.specs.Descent.{IsUnderWay, levels_left};
ghost use Rattle.bimap_tree.specs.Route.{IsRoute};
ghost use Rattle.bimap_index.specs.ByOrder.{ListsByOrder};
ghost use Rattle.bimap_index.specs.Listed.{IsFoundBy, IsWithout};
ghost use Rattle.bimap_index.specs.OrderLaws.{order_listed, order_distinct, order_in_order, order_respects, order_settled};

use crate::constructors::{CompactedIndex, CopiedIndex, DefaultIndex, EmptyIndex};
use crate::index::Index;
use bimap_base::{ByOrder, Keys, Meter, NoMemory, OrderQuery, Side};
use bimap_tree::{Descent, Ordered, Route};
use std::alloc::Global;
use std::cmp::Ordering;

// Returns the place whose key the look-up asks for, if there is one.
pub(crate) fn find_in_order<K: Ord, S: Side<K>, Q: OrderQuery<K>, M: Meter>(
    index: &Ordered,
    side: S,
    query: Q,
    meter: &mut M,
) -> Option<usize>
    requires { ListsByOrder K.cmp index.now.places (S.key_at side) }
    ensures found { IsFoundBy (S.key_at side) Q.same query result }
    ensures comparisons { M.comparisons meter.new ≤ M.comparisons meter.old
        + most_height (length index.now.places) }
    ensures touches { M.touches meter.new ≤ M.touches meter.old
        + most_height (length index.now.places) }
{
    index.find(&ByOrder::new(side), query, meter)
}

// Removes the place whose key the look-up asks for from the list and returns it, if there is one.
pub(crate) fn unlink_in_order<K: Ord, S: Side<K>, Q: OrderQuery<K>, M: Meter>(
    index: &mut Ordered,
    side: S,
    query: Q,
    meter: &mut M,
) -> Option<usize>
    requires { ListsByOrder K.cmp index.old.places (S.key_at side) }
    ensures found { IsFoundBy (S.key_at side) Q.same query result }
    ensures listing { IfSome result (λ place. (f : ℕ → Option K) →
        IsWithout f (S.key_at side) place → ListsByOrder K.cmp index.new.places f) }
    ensures unchanged { IfNone result (index.new ≡ index.old) }
    ensures cells { length index.new.nodes ≡ length index.old.nodes }
    ensures comparisons { M.comparisons meter.new ≤ M.comparisons meter.old
        + most_height (length index.old.places) }
    ensures touches { M.touches meter.new ≤ M.touches meter.old
        + 64 * (most_height (length index.old.places) + 1) }
{
    index.remove_key(&ByOrder::new(side), query, meter)
}

impl<K: Ord> Index<K> for Ordered {
    type Spot = Route;

    type Search = Descent;

    ghost is_listing = { λ o. ListsByOrder K.cmp o.places };

    ghost leads = { λ o f key spot. IsRoute o (λ q. standing K.cmp (f q) (Some key)) spot };

    ghost is_for = { λ o key spot. ⊤ };

    ghost under_way = { λ o f key search spot. IsUnderWay o (λ q. standing K.cmp (f q) (Some key))
        search spot };

    ghost ahead = { λ o search. levels_left o.nodes search };

    ghost places = { λ o. o.places };

    ghost walk_order = { λ o. K.cmp };

    ghost appends = { ⊥ };

    ghost cells = { λ o. length o.nodes };

    ghost effort = { most_height };

    ghost Finder = { ⊤ };

    ghost finds_by = { λ o. tt };

    fn spot(&self) -> Route {
        Route::new()
    }

    fn spot_for(&self, _key: &K) -> Route {
        Route::new()
    }

    fn find<S: Side<K>, M: Meter>(&self, side: S, key: &K, meter: &mut M) -> Option<usize> {
        self.find(&ByOrder::new(side), key, meter)
    }

    fn start(&self) -> Descent {
        self.start()
    }

    fn step<S: Side<K>, M: Meter>(
        &self,
        side: S,
        key: &K,
        search: &mut Descent,
        spot: &mut Route,
        meter: &mut M,
    ) -> bool {
        self.step(&ByOrder::new(side), key, search, spot, meter)
    }

    fn finish<S: Side<K>, M: Meter>(
        &self,
        side: S,
        key: &K,
        search: Descent,
        spot: &mut Route,
        meter: &mut M,
    ) -> Option<usize> {
        self.finish(&ByOrder::new(side), key, search, spot, meter)
    }

    fn is_known<S: Side<K>, M: Meter>(
        &self,
        side: S,
        place: usize,
        key: &K,
        meter: &mut M,
    ) -> bool {
        matches!(
            ByOrder::new(side).compare(place, key, meter),
            Ordering::Equal
        )
    }

    fn link<S: Side<K>, M: Meter>(&mut self, side: S, place: usize, spot: &Route, meter: &mut M) {
        self.insert_at(&ByOrder::new(side), spot, place, meter);
    }

    fn relink<S: Side<K>, M: Meter>(
        &mut self,
        side: S,
        place: usize,
        _spot: &Route,
        meter: &mut M,
    ) {
        self.insert(&ByOrder::new(side), place, meter);
    }

    fn unlink<S: Side<K>, M: Meter>(&mut self, side: S, place: usize, meter: &mut M) {
        self.remove(&ByOrder::new(side), place, meter);
    }

    fn unlink_key<S: Side<K>, M: Meter>(
        &mut self,
        side: S,
        key: &K,
        meter: &mut M,
    ) -> Option<usize> {
        self.remove_key(&ByOrder::new(side), key, meter)
    }

    fn grow(&mut self, to: usize) -> Result<(), NoMemory> {
        self.grow(to)
    }

    fn clear(&mut self) {
        self.clear();
    }

    ghost listed = { λ o. order_listed K.cmp K.eq K.total K.matches_eq o.places };

    ghost distinct = { λ o. order_distinct K.cmp K.eq K.total K.matches_eq o.places };

    ghost in_order = { λ o. order_in_order K.cmp K.eq K.total K.matches_eq o.places };

    ghost respects = { λ o. order_respects K.cmp K.eq K.total K.matches_eq o.places };

    ghost settled = { λ o. order_settled K.cmp K.eq K.total K.matches_eq o.places };
}

impl<K: Ord> EmptyIndex<K> for Ordered {
    fn empty(alloc: Global) -> Self {
        Ordered::new(alloc)
    }
}

impl<K: Ord> DefaultIndex<K> for Ordered {}

impl<K: Ord> CopiedIndex<K> for Ordered {
    ghost finds_as = { λ o copy. ⊤ };

    ghost finds_on = { λ o copy later same finds. tt };

    fn copied<S: Side<K>>(&self, _side: S) -> Result<Self, NoMemory> {
        Ok(self.clone()?)
    }
}

impl<K: Ord> CompactedIndex<K> for Ordered {
    type Compacted = Ordered;

    ghost is_compacted = { λ o to new. (length o.places ≤ to) × (new.places ≡ [])
        × (length new.nodes ≡ to) };

    fn compacted(&self, alloc: Global, to: usize) -> Result<Ordered, NoMemory> {
        let mut compacted = Ordered::new(alloc);
        compacted.grow(to)?;
        Ok(compacted)
    }

    fn adopt<S: Side<K>, M: Meter>(&mut self, compacted: Ordered, side: S, meter: &mut M) {
        let len = self.len();
        let keys = ByOrder::new(side);
        *self = compacted;
        for place in 0..len {
            self.insert(&keys, place, meter);
        }
    }
}
