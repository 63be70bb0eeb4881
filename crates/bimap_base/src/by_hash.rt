//! The keys of a side of a store, hashed by a hash builder.
ghost use Rattle.std.specs.Prelude.{◌≡◌, ◌%◌};
ghost use Rattle.std.specs.List.{fold};
ghost use Rattle.std.proofs.Common.{ap, sym};
ghost use Rattle.bimap_base.specs.Numbered.{number_by};

use crate::numbered::hash_number;
use crate::query::HashQuery;
use crate::side::Side;
use crate::spread::Spread;
use std::hash::{BuildHasher, Hash};
use std::marker::PhantomData;

/// The keys of a side, as a hashed index hashes and compares them.
#[derive_where(Clone, Copy; S)]
pub struct ByHash<'a, K, Q, S, B> {
    side: S,
    builder: &'a B,
    of: PhantomData<(K, Q)>,
}

impl<'a, K, Q, S: Copy, B> ByHash<'a, K, Q, S, B> {
    /// Returns the keys of this side, to be hashed by this builder. Never allocates.
    pub fn new(side: S, builder: &'a B) -> Self
        ensures side { result.side ≡ side }
        ensures builder { result.builder.now ≡ builder.now }
    {
        ByHash {
            side,
            builder,
            of: PhantomData,
        }
    }
}

impl<'a, K: Eq + Hash, Q: HashQuery<K>, S: Side<K>, B: BuildHasher> Spread
    for ByHash<'a, K, Q, S, B> {
    type Key = K;

    type Query = Q;

    ghost key_at = { λ s. S.key_at s.side };

    ghost number_of = { λ s. number_by B.Hasher.finish B.Hasher.write B.build_hasher K.hash_input
        s.builder.now };

    ghost query_number = { λ s. number_by B.Hasher.finish B.Hasher.write B.build_hasher Q.hash_input
        s.builder.now };

    ghost same_key = { Q.same };

    ghost alike = { λ s k q h. ap (λ w. B.Hasher.finish
        (fold B.Hasher.write (B.build_hasher s.builder.now) w) % 4294967296)
        (sym (Q.hashed q k h)) };

    fn hash_query(&self, query: Q) -> u32 {
        hash_number(self.builder, &query)
    }

    fn hash_place(&self, place: usize) -> u32 {
        hash_number(self.builder, self.side.key(place))
    }

    #[inline(always)]
    fn same(&self, place: usize, query: Q) -> bool {
        query.is(self.side.key(place))
    }
}
