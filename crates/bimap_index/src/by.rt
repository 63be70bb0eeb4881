//! Look-ups by a borrowed form of any key type, in each kind of index.
use crate::hash_index::HashIndex;
use crate::insertion_order::InsertionOrder;
use crate::lookup::Lookup;
use crate::ordered::{find_in_order, unlink_in_order};
use bimap_base::{HashQuery, Meter, OrderQuery, Query, Side};
use bimap_tree::Ordered;
use std::cmp::{Eq, Ord, Ordering};
use std::hash::{BuildHasher, Hash};

/// A borrowed form of a key, by which each index can be searched.
///
/// A `&str` finds a `String` as it is. For a key type of your own, implement `Query` for a borrowed form. For an ordered
/// side, also implement `OrderQuery`, and for a hashed side `HashQuery`. Then pass the form in a `By`.
///
///     seats.get_by_left(By("ann")); // Some(&12)
#[derive(Clone, Copy, Eq, Hash, PartialEq)]
pub struct By<Q>(pub Q);

impl<K: Eq, Q: Query<K>> Query<K> for By<Q> {
    ghost same = { λ k by. Q.same k by.0 };

    ghost respects = { λ by. Q.respects by.0 };

    fn is(&self, key: &K) -> bool {
        self.0.is(key)
    }
}

impl<K: Ord, Q: OrderQuery<K>> OrderQuery<K> for By<Q> {
    ghost order = { λ k by. Q.order k by.0 };

    ghost agrees = { λ by. Q.agrees by.0 };

    ghost follows = { λ by. Q.follows by.0 };

    fn order(&self, key: &K) -> Ordering {
        self.0.order(key)
    }
}

impl<K: Eq + Hash, Q: HashQuery<K>> HashQuery<K> for By<Q> {
    ghost hashed = { λ by. Q.hashed by.0 };
}

impl<K: Ord, Q: OrderQuery<K>> Lookup<K, By<Q>> for Ordered {
    fn find_by<S: Side<K>, M: Meter>(&self, side: S, query: By<Q>, meter: &mut M) -> Option<usize> {
        find_in_order(self, side, query, meter)
    }

    fn unlink_by<S: Side<K>, M: Meter>(
        &mut self,
        side: S,
        query: By<Q>,
        meter: &mut M,
    ) -> Option<usize> {
        unlink_in_order(self, side, query, meter)
    }
}

impl<K: Eq + Hash, Q: HashQuery<K>, B: BuildHasher> Lookup<K, By<Q>> for HashIndex<B> {
    fn find_by<S: Side<K>, M: Meter>(&self, side: S, query: By<Q>, meter: &mut M) -> Option<usize> {
        self.find_hashed(side, query, meter)
    }

    fn unlink_by<S: Side<K>, M: Meter>(
        &mut self,
        side: S,
        query: By<Q>,
        meter: &mut M,
    ) -> Option<usize> {
        self.unlink_hashed(side, query, meter)
    }
}

impl<K: Eq, Q: Query<K>, I: Lookup<K, By<Q>>> Lookup<K, By<Q>> for InsertionOrder<I> {
    fn find_by<S: Side<K>, M: Meter>(&self, side: S, query: By<Q>, meter: &mut M) -> Option<usize> {
        self.find_listed(side, query, meter)
    }

    fn unlink_by<S: Side<K>, M: Meter>(
        &mut self,
        side: S,
        query: By<Q>,
        meter: &mut M,
    ) -> Option<usize> {
        self.unlink_listed(side, query, meter)
    }
}
