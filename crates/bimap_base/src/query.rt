//! What a look-up may be given instead of a key.
ghost use Rattle.std.specs.Prelude.{◌≡◌, Bool, true};
ghost use Rattle.std.proofs.Common.{ap, sym};
ghost use Rattle.std.specs.Hash as fed;
ghost use Rattle.std.specs.Hash.{items_Alike};
ghost use Rattle.std.specs.Cmp.Lexicographic.{nat_list_eq_equiv, nat_list_cmp_total, slice_cmp, bytes_decides, texts_ties, pointwise, lists_equiv, lists_ties, lists_total};
ghost use Rattle.std.specs.Ordering.{nat_cmp, is_eq};
ghost use Rattle.std.specs.Str.{bytes_eq};
ghost use Rattle.std.specs.declared.cmp.Ordering.{Ordering};
ghost use Rattle.std.specs.String.{string_bytes};
ghost use Rattle.bimap_base.specs.Keyed.{Follows};
ghost use Rattle.bimap_base.specs.QueryLaws.{respects_equal, follows_itself};

use std::alloc::{Allocator, Global};
use std::cmp::{Eq, Ord, Ordering};
use std::hash::Hash;

/// A query is what a look-up searches by. It is a reference to a key, or a borrowed form of a key, as `&str` is of `String`. A
/// look-up by a borrowed form builds no key.
///
/// `&K` finds keys of any type `K`. `&str` finds a `String` or a `&str`. `&[T]` finds a `Vec<T>`.
pub trait Query<K: Eq>: Copy {
    /// Whether a key is equal to the query.
    ghost same: { K → Self → Bool };

    /// Returns whether this key is equal to the query.
    fn is(&self, key: &K) -> bool
        ensures { result ≡ same key.now self.now };

    /// If a key is equal to the query, then the keys equal to that key are exactly the keys equal to the query.
    ghost respects: { (q : Self) (x y : K) → same x q ≡ true → same y q ≡ K.eq y x };
}

/// A query that compares with every key as an equal key would.
pub trait OrderQuery<K: Ord>: Query<K> {
    /// How a key compares with the query.
    ghost order: { K → Self → Ordering };

    /// Returns how this key compares with the query.
    fn order(&self, key: &K) -> Ordering
        ensures { result ≡ order key.now self.now };

    /// A key is equal to the query exactly if the comparison gives `Equal`.
    ghost agrees: { (q : Self) (x : K) → Self.Query.same x q ≡ is_eq (order x q) };

    /// If one key is below another key, and the other key is not above the query, then the first key is below the query.
    ghost follows: { Follows K.cmp order };
}

/// A query that has the same hash as each key that is equal to it.
pub trait HashQuery<K: Eq + Hash>: Query<K> + Hash {
    ghost hashed: { (q : Self) (k : K) → Self.Query.same k q ≡ true →
        Self.Hash.hash_input q ≡ K.hash_input k };
}

impl<K: Eq> Query<K> for &K {
    ghost same = { λ k q. K.eq k q.now };

    ghost respects = { λ q. respects_equal K.Eq.laws q.now };

    fn is(&self, key: &K) -> bool {
        *key == **self
    }
}

impl<K: Eq + Hash> HashQuery<K> for &K {
    ghost hashed = { λ q k e. sym (K.respects_eq k q.now e) };
}

impl<K: Ord> OrderQuery<K> for &K {
    ghost order = { λ k q. K.cmp k q.now };

    ghost agrees = { λ q x. K.matches_eq x q.now };

    ghost follows = { λ q. follows_itself K.total q.now };

    fn order(&self, key: &K) -> Ordering {
        key.cmp(*self)
    }
}

impl<A: Allocator> Query<String<A>> for &str {
    ghost same = { λ k q. bytes_eq (string_bytes k) q.now };

    ghost respects = { λ q x y. respects_equal nat_list_eq_equiv q.now (string_bytes x)
        (string_bytes y) };

    fn is(&self, key: &String<A>) -> bool {
        key.as_str() == *self
    }
}

impl<A: Allocator> HashQuery<String<A>> for &str {
    ghost hashed = { λ q k e. sym (ap fed.str ((bytes_decides (string_bytes k) q.now).0 e)) };
}

impl<A: Allocator> OrderQuery<String<A>> for &str {
    ghost order = { λ k q. slice_cmp nat_cmp (string_bytes k) q.now };

    ghost agrees = { λ q x. texts_ties (string_bytes x) q.now };

    ghost follows = { λ q x y. follows_itself nat_list_cmp_total q.now (string_bytes x)
        (string_bytes y) };

    fn order(&self, key: &String<A>) -> Ordering {
        key.as_str().cmp(*self)
    }
}

impl Query<&str> for &str {
    ghost same = { λ k q. bytes_eq k.now q.now };

    ghost respects = { λ q x y. respects_equal nat_list_eq_equiv q.now x.now y.now };

    fn is(&self, key: &&str) -> bool {
        *key == *self
    }
}

impl OrderQuery<&str> for &str {
    ghost order = { λ k q. slice_cmp nat_cmp k.now q.now };

    ghost agrees = { λ q x. texts_ties x.now q.now };

    ghost follows = { λ q x y. follows_itself nat_list_cmp_total q.now x.now y.now };

    fn order(&self, key: &&str) -> Ordering {
        (*key).cmp(*self)
    }
}

impl HashQuery<&str> for &str {
    ghost hashed = { λ q k e. sym (ap fed.str ((bytes_decides k.now q.now).0 e)) };
}

impl<T: Eq, A: Allocator> Query<Vec<T, A>> for &[T] {
    ghost same = { λ k q. pointwise T.eq k.items q.now };

    ghost respects = { λ q x y. respects_equal (lists_equiv T.Eq.laws) q.now x.items y.items };

    fn is(&self, key: &Vec<T, A>) -> bool {
        key.as_slice() == *self
    }
}

impl<T: Ord, A: Allocator> OrderQuery<Vec<T, A>> for &[T] {
    ghost order = { λ k q. slice_cmp T.cmp k.items q.now };

    ghost agrees = { λ q x. lists_ties T.cmp T.matches_eq x.items q.now };

    ghost follows = { λ q x y. follows_itself (lists_total T.total) q.now x.items y.items };

    fn order(&self, key: &Vec<T, A>) -> Ordering {
        key.as_slice().cmp(*self)
    }
}

impl<T: Eq + Hash, A: Allocator> HashQuery<Vec<T, A>> for &[T] {
    ghost hashed = { λ q k e. sym ((items_Alike (record { fed = T.respects_eq })).fed k.items q.now
        e) };
}
