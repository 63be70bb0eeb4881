//! Look-ups by a borrowed form of a key, in each kind of index.

use crate::hash_index::HashIndex;
use crate::insertion_order::InsertionOrder;
use crate::lookup::Lookup;
use crate::ordered::{find_in_order, unlink_in_order};
use bimap_base::{Meter, Side};
use bimap_tree::Ordered;
use std::alloc::Allocator;
use std::hash::{BuildHasher, Hash};

impl<'q, A: Allocator> Lookup<String<A>, &'q str> for Ordered {
    fn find_by<S: Side<String<A>>, M: Meter>(
        &self,
        side: S,
        query: &'q str,
        meter: &mut M,
    ) -> Option<usize> {
        find_in_order(self, side, query, meter)
    }

    fn unlink_by<S: Side<String<A>>, M: Meter>(
        &mut self,
        side: S,
        query: &'q str,
        meter: &mut M,
    ) -> Option<usize> {
        unlink_in_order(self, side, query, meter)
    }
}

impl<'q, A: Allocator, B: BuildHasher> Lookup<String<A>, &'q str> for HashIndex<B> {
    fn find_by<S: Side<String<A>>, M: Meter>(
        &self,
        side: S,
        query: &'q str,
        meter: &mut M,
    ) -> Option<usize> {
        self.find_hashed(side, query, meter)
    }

    fn unlink_by<S: Side<String<A>>, M: Meter>(
        &mut self,
        side: S,
        query: &'q str,
        meter: &mut M,
    ) -> Option<usize> {
        self.unlink_hashed(side, query, meter)
    }
}

impl<'q, A: Allocator, I: Lookup<String<A>, &'q str>> Lookup<String<A>, &'q str>
    for InsertionOrder<I> {
    fn find_by<S: Side<String<A>>, M: Meter>(
        &self,
        side: S,
        query: &'q str,
        meter: &mut M,
    ) -> Option<usize> {
        self.find_listed(side, query, meter)
    }

    fn unlink_by<S: Side<String<A>>, M: Meter>(
        &mut self,
        side: S,
        query: &'q str,
        meter: &mut M,
    ) -> Option<usize> {
        self.unlink_listed(side, query, meter)
    }
}

impl<'q, 'k> Lookup<&'k str, &'q str> for Ordered {
    fn find_by<S: Side<&'k str>, M: Meter>(
        &self,
        side: S,
        query: &'q str,
        meter: &mut M,
    ) -> Option<usize> {
        find_in_order(self, side, query, meter)
    }

    fn unlink_by<S: Side<&'k str>, M: Meter>(
        &mut self,
        side: S,
        query: &'q str,
        meter: &mut M,
    ) -> Option<usize> {
        unlink_in_order(self, side, query, meter)
    }
}

impl<'q, 'k, B: BuildHasher> Lookup<&'k str, &'q str> for HashIndex<B> {
    fn find_by<S: Side<&'k str>, M: Meter>(
        &self,
        side: S,
        query: &'q str,
        meter: &mut M,
    ) -> Option<usize> {
        self.find_hashed(side, query, meter)
    }

    fn unlink_by<S: Side<&'k str>, M: Meter>(
        &mut self,
        side: S,
        query: &'q str,
        meter: &mut M,
    ) -> Option<usize> {
        self.unlink_hashed(side, query, meter)
    }
}

impl<'q, 'k, B: BuildHasher> Lookup<&'k str, &'q str> for InsertionOrder<HashIndex<B>> {
    fn find_by<S: Side<&'k str>, M: Meter>(
        &self,
        side: S,
        query: &'q str,
        meter: &mut M,
    ) -> Option<usize> {
        self.find_listed(side, query, meter)
    }

    fn unlink_by<S: Side<&'k str>, M: Meter>(
        &mut self,
        side: S,
        query: &'q str,
        meter: &mut M,
    ) -> Option<usize> {
        self.unlink_listed(side, query, meter)
    }
}

impl<'q, T: Ord, A: Allocator> Lookup<Vec<T, A>, &'q [T]> for Ordered {
    fn find_by<S: Side<Vec<T, A>>, M: Meter>(
        &self,
        side: S,
        query: &'q [T],
        meter: &mut M,
    ) -> Option<usize> {
        find_in_order(self, side, query, meter)
    }

    fn unlink_by<S: Side<Vec<T, A>>, M: Meter>(
        &mut self,
        side: S,
        query: &'q [T],
        meter: &mut M,
    ) -> Option<usize> {
        unlink_in_order(self, side, query, meter)
    }
}

impl<'q, T: Eq + Hash, A: Allocator, B: BuildHasher> Lookup<Vec<T, A>, &'q [T]> for HashIndex<B> {
    fn find_by<S: Side<Vec<T, A>>, M: Meter>(
        &self,
        side: S,
        query: &'q [T],
        meter: &mut M,
    ) -> Option<usize> {
        self.find_hashed(side, query, meter)
    }

    fn unlink_by<S: Side<Vec<T, A>>, M: Meter>(
        &mut self,
        side: S,
        query: &'q [T],
        meter: &mut M,
    ) -> Option<usize> {
        self.unlink_hashed(side, query, meter)
    }
}

impl<'q, T: Eq, A: Allocator, I: Lookup<Vec<T, A>, &'q [T]>> Lookup<Vec<T, A>, &'q [T]>
    for InsertionOrder<I> {
    fn find_by<S: Side<Vec<T, A>>, M: Meter>(
        &self,
        side: S,
        query: &'q [T],
        meter: &mut M,
    ) -> Option<usize> {
        self.find_listed(side, query, meter)
    }

    fn unlink_by<S: Side<Vec<T, A>>, M: Meter>(
        &mut self,
        side: S,
        query: &'q [T],
        meter: &mut M,
    ) -> Option<usize> {
        self.unlink_listed(side, query, meter)
    }
}
