//! How a hashed index hashes and compares the places that it lists. The index knows nothing of the values of keys.
ghost use Rattle.std.specs.Prelude.{◌≡◌, ℕ, Option, Bool, IsSome, IsTrue, IfSome};

/// Places that have keys, queries for keys, and a hash number for each key and each query.
pub trait Spread {
    type Key;

    /// What a look-up searches by.
    type Query: Copy;

    /// The key of a place, or `None` if the place has no key.
    ghost key_at: { Self → ℕ → Option Self.Key };

    /// The hash number of a key.
    ghost number_of: { Self → Self.Key → ℕ };

    /// The hash number of a query.
    ghost query_number: { Self → Self.Query → ℕ };

    /// Whether a key is equal to a query.
    ghost same_key: { Self.Key → Self.Query → Bool };

    /// Returns the hash number of a query.
    fn hash_query(&self, query: Self::Query) -> u32
        ensures { result ≡ query_number self.now query };

    /// Returns the hash number of the key of a place.
    fn hash_place(&self, place: usize) -> u32
        requires live { IsSome (key_at self.now place) }
        ensures { IfSome (key_at self.now place) (λ k. result ≡ number_of self.now k) };

    /// Returns whether the key of a place is equal to a query.
    fn same(&self, place: usize, query: Self::Query) -> bool
        requires live { IsSome (key_at self.now place) }
        ensures { IfSome (key_at self.now place) (λ k. result ≡ same_key k query) };

    /// A query has the same hash number as each key that is equal to it.
    ghost alike: { (s : Self) (k : Self.Key) (q : Self.Query) → IsTrue (same_key k q) →
        number_of s k ≡ query_number s q };
}
