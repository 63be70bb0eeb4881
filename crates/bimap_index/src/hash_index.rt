//! A hashed index of a side, with its hash builder. This module knows hash numbers and places, and not the chains.
ghost use Rattle.std.specs.Prelude.{◌≡◌, ◌+◌, ◌≤◌, ◌%◌, ⊤, ℕ, Option, [], length, IfSome, IfNone};
ghost use Rattle.std.specs.declared.cmp.Ordering.TheVariants.{Less};
ghost use Rattle.std.specs.List.{fold};
ghost use Rattle.std.proofs.Common.{ap, subst, sym};
ghost use Rattle.bimap_base.specs.Numbered.{number_by};
ghost use Rattle.bimap_base.specs.Places.{pairs_in, compacted};
ghost use Rattle.bimap_index.specs.ByHash.{ListsByHash, places_from};
ghost use Rattle.bimap_index.specs.Listed.{IsFoundBy, IsWithout};
ghost use Rattle.bimap_index.specs.HashLaws.{hash_listed, hash_distinct, hash_in_order, hash_respects, hash_settled};

use crate::constructors::{CompactedIndex, CopiedIndex, DefaultIndex, EmptyIndex};
use crate::index::Index;
use bimap_base::{ByHash, HashQuery, Meter, NoMemory, Side, Spread, hash_number};
use bimap_chain::Hashed;
use std::alloc::Global;
use std::hash::{BuildHasher, BuildHasherDefault, FoldHasher, Hash};

/// A hashed index and the hash builder that hashes its keys.
#[derive(Drop)]
pub struct HashIndex<B> {
    hashed: Hashed,
    builder: B,
}

impl<B> HashIndex<B> {
    /// Returns an index that lists no place and has this hash builder. Never allocates.
    pub fn new(alloc: Global, builder: B) -> Self
        ensures hashed { result.hashed ≡ [] }
        ensures builder { result.builder ≡ builder }
    {
        HashIndex {
            hashed: Hashed::new(alloc),
            builder,
        }
    }
}

impl<B: BuildHasher> HashIndex<B> {
    // Returns the place whose key the look-up asks for, if there is one. Counts nothing on the meter.
    #[inline(always)]
    pub(crate) fn find_hashed<K: Eq + Hash, S: Side<K>, Q: HashQuery<K>, M: Meter>(
        &self,
        side: S,
        query: Q,
        _meter: &mut M,
    ) -> Option<usize>
        requires { ListsByHash K.eq (number_by B.Hasher.finish B.Hasher.write B.build_hasher
            K.hash_input self.now.builder) self.now.hashed (S.key_at side) }
        ensures found { IsFoundBy (S.key_at side) Q.same query result }
        ensures comparisons { M.comparisons _meter.new ≤ M.comparisons _meter.old }
        ensures touches { M.touches _meter.new ≤ M.touches _meter.old }
    {
        self.hashed.find(&ByHash::new(side, &self.builder), query)
    }

    // Removes the place whose key the look-up asks for from the list and returns it, if there is one. Counts nothing on
    // the meter.
    #[inline(always)]
    pub(crate) fn unlink_hashed<K: Eq + Hash, S: Side<K>, Q: HashQuery<K>, M: Meter>(
        &mut self,
        side: S,
        query: Q,
        _meter: &mut M,
    ) -> Option<usize>
        requires { ListsByHash K.eq (number_by B.Hasher.finish B.Hasher.write B.build_hasher
            K.hash_input self.old.builder) self.old.hashed (S.key_at side) }
        ensures found { IsFoundBy (S.key_at side) Q.same query result }
        ensures listing { IfSome result (λ place. (f : ℕ → Option K) →
            IsWithout f (S.key_at side) place →
            ListsByHash K.eq (number_by B.Hasher.finish B.Hasher.write B.build_hasher
            K.hash_input self.new.builder) self.new.hashed f) }
        ensures unchanged { IfNone result (self.new ≡ self.old) }
        ensures builder { self.new.builder ≡ self.old.builder }
        ensures cells { length self.new.hashed ≡ length self.old.hashed }
        ensures comparisons { M.comparisons _meter.new ≤ M.comparisons _meter.old }
        ensures touches { M.touches _meter.new ≤ M.touches _meter.old + 64 }
    {
        self.hashed.take(&ByHash::new(side, &self.builder), query)
    }
}

impl<K: Eq + Hash, B: BuildHasher> Index<K> for HashIndex<B> {
    type Spot = u32;

    // The search along a chain has no steps: `finish` does all of it.
    type Search = ();

    ghost is_listing = { λ h. ListsByHash K.eq
        (number_by B.Hasher.finish B.Hasher.write B.build_hasher K.hash_input h.builder) h.hashed };

    ghost leads = { λ h f key spot. spot ≡ number_by B.Hasher.finish B.Hasher.write B.build_hasher
        K.hash_input h.builder key };

    ghost is_for = { λ h key spot. spot ≡ number_by B.Hasher.finish B.Hasher.write B.build_hasher
        K.hash_input h.builder key };

    ghost under_way = { λ h f key search spot. ⊤ };

    ghost ahead = { λ h search. 0 };

    ghost places = { λ h. places_from 0 h.hashed };

    ghost walk_order = { λ h k l. Less };

    ghost appends = { ⊥ };

    ghost cells = { λ h. length h.hashed };

    ghost effort = { λ n. 0 };

    ghost Finder = { B };

    ghost finds_by = { λ h. h.builder };

    fn spot(&self) -> u32 {
        0
    }

    fn spot_for(&self, key: &K) -> u32 {
        hash_number(&self.builder, key)
    }

    #[inline(always)]
    fn find<S: Side<K>, M: Meter>(&self, side: S, key: &K, meter: &mut M) -> Option<usize> {
        self.find_hashed(side, key, meter)
    }

    fn start(&self) {}

    #[inline(always)]
    fn finish<S: Side<K>, M: Meter>(
        &self,
        side: S,
        key: &K,
        _search: (),
        spot: &mut u32,
        _meter: &mut M,
    ) -> Option<usize> {
        let spread = ByHash::new(side, &self.builder);
        let number = spread.hash_query(key);
        *spot = number;
        self.hashed.find_numbered(&spread, number, key)
    }

    fn is_known<S: Side<K>, M: Meter>(
        &self,
        side: S,
        place: usize,
        key: &K,
        _meter: &mut M,
    ) -> bool {
        ByHash::new(side, &self.builder).same(place, key)
    }

    #[inline(always)]
    fn link<S: Side<K>, M: Meter>(&mut self, _side: S, place: usize, spot: &u32, _meter: &mut M) {
        self.hashed.insert_numbered(place, *spot);
    }

    #[inline(always)]
    fn relink<S: Side<K>, M: Meter>(&mut self, _side: S, place: usize, spot: &u32, _meter: &mut M) {
        self.hashed.insert_numbered(place, *spot);
    }

    #[inline(always)]
    fn unlink<S: Side<K>, M: Meter>(&mut self, _side: S, place: usize, _meter: &mut M) {
        self.hashed.remove(place);
    }

    #[inline(always)]
    fn unlink_key<S: Side<K>, M: Meter>(
        &mut self,
        side: S,
        key: &K,
        meter: &mut M,
    ) -> Option<usize> {
        self.unlink_hashed(side, key, meter)
    }

    fn grow(&mut self, to: usize) -> Result<(), NoMemory> {
        self.hashed.grow_to(to)
    }

    fn clear(&mut self) {
        self.hashed.clear();
    }

    ghost listed = { λ h. hash_listed K.eq (number_by B.Hasher.finish B.Hasher.write B.build_hasher
        K.hash_input h.builder) h.hashed };

    ghost distinct = { λ h. hash_distinct K.eq
        (number_by B.Hasher.finish B.Hasher.write B.build_hasher K.hash_input h.builder) h.hashed };

    ghost in_order = { λ h. hash_in_order K.eq
        (number_by B.Hasher.finish B.Hasher.write B.build_hasher K.hash_input h.builder) h.hashed };

    ghost respects = { λ h. hash_respects K.eq
        (number_by B.Hasher.finish B.Hasher.write B.build_hasher K.hash_input h.builder) K.Eq.laws
        (λ x y e. ap (λ w. B.Hasher.finish (fold B.Hasher.write (B.build_hasher h.builder)
        w) % 4294967296) (K.respects_eq x y e)) h.hashed };

    ghost settled = { λ h. hash_settled K.eq (number_by B.Hasher.finish B.Hasher.write
        B.build_hasher K.hash_input h.builder) h.hashed };
}

impl<K: Eq + Hash, B: BuildHasher + Default> EmptyIndex<K> for HashIndex<B> {
    fn empty(alloc: Global) -> Self {
        HashIndex::new(alloc, B::default())
    }
}

impl<K: Eq + Hash> DefaultIndex<K> for HashIndex<BuildHasherDefault<FoldHasher>> {}

impl<K: Eq + Hash, B: BuildHasher + Clone> CopiedIndex<K> for HashIndex<B> {
    ghost finds_as = { λ h copy. B.is_clone h.builder copy.builder };

    ghost finds_on = { λ h copy later same finds. subst (B.is_clone h.builder) (sym same) finds };

    // A clone of the builder may hash a key to another number.
    fn copied<S: Side<K>>(&self, side: S) -> Result<Self, NoMemory> {
        let builder = self.builder.clone()?;
        let hashed = self
            .hashed
            .rehashed::<ByHash<K, &K, S, B>>(&ByHash::new(side, &builder))?;
        Ok(HashIndex { hashed, builder })
    }
}

impl<K: Eq + Hash, B: BuildHasher> CompactedIndex<K> for HashIndex<B> {
    type Compacted = Hashed;

    ghost is_compacted = { λ h to new. (length (pairs_in h.hashed) ≤ to)
        × (new ≡ compacted (pairs_in h.hashed) to) };

    fn compacted(&self, _alloc: Global, to: usize) -> Result<Hashed, NoMemory> {
        self.hashed.compacted(to)
    }

    fn adopt<S: Side<K>, M: Meter>(&mut self, compacted: Hashed, _side: S, _meter: &mut M) {
        self.hashed = compacted;
    }
}
