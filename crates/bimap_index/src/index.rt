//! What a map requires of an index of one side. This module knows neither order nor hash.
ghost use Rattle.std.specs.Prelude.{◌≡◌, ◌≢◌, ◌↔◌, List, [], ◌∷◌, ◌++◌, length, ◌+◌, ◌*◌, ◌≤◌, ◌<◌, ℕ, Option, None, Some, true, IsOk, IsSome, IfSome, IfNone, OnOk, OnErr};
ghost use Rattle.std.specs.List.{AllPairs, Contains};
ghost use Rattle.std.specs.declared.cmp.Ordering.{Ordering};
ghost use Rattle.std.specs.declared.cmp.Ordering.TheVariants.{Less};
ghost use Rattle.bimap_index.specs.Listed.{IsFoundBy, IsWithout, IsAlike, MayLink};
ghost use Rattle.bimap_base.specs.Positions.{IsTakenOut};

use bimap_base::{Meter, NoMemory, Side};

/// The places of a side, found by their keys. No two listed places have equal keys.
///
/// The side is passed to each call that looks at keys. It must be the side by which the places are listed.
///
/// `effort` and the meter bound the work of an index that compares keys. An index that hashes keys counts nothing. Its
/// calls take expected constant time if the hash numbers are well distributed.
pub trait Index<K: Eq> {
    /// What a search for a key leaves for linking a place later.
    type Spot: Drop;

    /// How far a search that goes on by steps has come.
    type Search: Copy;

    /// The index lists exactly the places that have a key. No two of these keys are equal.
    ghost is_listing: { Self → (ℕ → Option K) → Type 0 };

    /// The spot is where a place with this key would be linked. This is true until a place is linked or unlinked.
    ghost leads: { Self → (ℕ → Option K) → K → Self.Spot → Type 0 };

    /// The spot belongs to this key. This stays true when places are unlinked or cells are added.
    ghost is_for: { Self → K → Self.Spot → Type 0 };

    /// The search for this key has come so far, and the spot contains what it noted.
    ghost under_way: { Self → (ℕ → Option K) → K → Self.Search → Self.Spot → Type 0 };

    /// The number of comparisons that the search may still take.
    ghost ahead: { Self → Self.Search → ℕ };

    /// The listed places, each once, in the order of iteration.
    ghost places: { Self → List ℕ };

    /// The order by which keys ascend during iteration: each key is `Less` than every later one. If iteration has no
    /// key order, any two keys are `Less`.
    ghost walk_order: { Self → K → K → Ordering };

    /// Iteration follows the order in which the places were linked.
    ghost appends: { Type 0 };

    /// The number of places that have a cell. Only places below it can be listed.
    ghost cells: { Self → ℕ };

    /// The number of comparisons that one search may take, given the number of listed places.
    ghost effort: { ℕ → ℕ };

    /// The type of what an index finds keys by. A hashed index finds them by its hash builder, an ordered one by the
    /// keys alone.
    ghost Finder: { Type 0 };

    /// What this index finds keys by. No call changes it.
    ghost finds_by: { Self → Finder };

    /// Returns a spot of no key. `step` and `finish` write it.
    fn spot(&self) -> Self::Spot;

    /// Returns a spot of this key for `relink`. It does not search.
    fn spot_for(&self, key: &K) -> Self::Spot
        ensures { is_for self.now key.now result };

    /// Returns the place with an equal key, if there is one.
    fn find<S: Side<K>, M: Meter>(&self, side: S, key: &K, meter: &mut M) -> Option<usize>
        requires listing { is_listing self.now (S.key_at side) }
        ensures found { IsFoundBy (S.key_at side) K.eq key.now result }
        ensures comparisons { M.comparisons meter.new ≤ M.comparisons meter.old
            + effort (length (places self.now)) }
        ensures touches { M.touches meter.new ≤ M.touches meter.old
            + effort (length (places self.now)) };

    /// Returns a search that has not begun, for `step` and `finish`. It looks at no key.
    fn start(&self) -> Self::Search
        ensures under_way { (f : ℕ → Option K) (key : K) (spot : Self.Spot) →
            is_listing self.now f → under_way self.now f key result spot }
        ensures ahead { ahead self.now result ≤ effort (length (places self.now)) };

    /// Takes the search one step further and returns `true`. Returns `false` if the search is at its end, or if the
    /// index takes no single steps.
    ///
    /// A caller can alternate the steps of two searches. The processor then waits for the memory of both at the same
    /// time.
    fn step<S: Side<K>, M: Meter>(
        &self,
        side: S,
        key: &K,
        search: &mut Self::Search,
        spot: &mut Self::Spot,
        meter: &mut M,
    ) -> bool
        requires listing { is_listing self.now (S.key_at side) }
        requires under_way { under_way self.now (S.key_at side) key.now search.old spot.old }
        ensures under_way { under_way self.now (S.key_at side) key.now search.new spot.new }
        ensures went { result ≡ true → ahead self.now search.new < ahead self.now search.old }
        ensures comparisons { M.comparisons meter.new
            + ahead self.now search.new ≤ M.comparisons meter.old + ahead self.now search.old }
        ensures touches { M.touches meter.new + ahead self.now search.new ≤ M.touches meter.old
            + ahead self.now search.old }
    {
        false
    }

    /// Takes the search to its end and returns the place with an equal key, if there is one. Writes a spot for the key.
    fn finish<S: Side<K>, M: Meter>(
        &self,
        side: S,
        key: &K,
        search: Self::Search,
        spot: &mut Self::Spot,
        meter: &mut M,
    ) -> Option<usize>
        requires listing { is_listing self.now (S.key_at side) }
        requires under_way { under_way self.now (S.key_at side) key.now search spot.old }
        ensures found { IsFoundBy (S.key_at side) K.eq key.now result }
        ensures leads { IfNone result (leads self.now (S.key_at side) key.now spot.new) }
        ensures is_for { is_for self.now key.now spot.new }
        ensures comparisons { M.comparisons meter.new ≤ M.comparisons meter.old
            + ahead self.now search }
        ensures touches { M.touches meter.new ≤ M.touches meter.old + ahead self.now search };

    /// Returns whether the key of this place equals `key`. It does not search.
    fn is_known<S: Side<K>, M: Meter>(&self, side: S, place: usize, key: &K, meter: &mut M) -> bool
        requires listing { is_listing self.now (S.key_at side) }
        requires live { IsSome (S.key_at side place) }
        ensures found { result ≡ true → IsFoundBy (S.key_at side) K.eq key.now (Some place) }
        ensures equal { IfSome (S.key_at side place) (λ k. result ≡ K.eq k key.now) }
        ensures comparisons { M.comparisons meter.new ≤ M.comparisons meter.old
            + effort (length (places self.now)) }
        ensures touches { M.touches meter.new ≡ M.touches meter.old };

    /// Lists a place at the spot of its key, without a comparison. Never allocates.
    fn link<S: Side<K>, M: Meter>(
        &mut self,
        side: S,
        place: usize,
        spot: &Self::Spot,
        meter: &mut M,
    )
        requires may { (key : K) × (m : MayLink is_listing K.eq self.old (S.key_at side) place key)
            × leads self.old m.f key spot.now }
        requires cell { place < cells self.old }
        ensures listing { is_listing self.new (S.key_at side) }
        ensures last { appends → places self.new ≡ places self.old ++ place ∷ [] }
        ensures finds_by { finds_by self.new ≡ finds_by self.old }
        ensures cells { cells self.new ≡ cells self.old }
        ensures comparisons { M.comparisons meter.new ≡ M.comparisons meter.old }
        ensures touches { M.touches meter.new ≤ M.touches meter.old
            + 64 * (effort (length (places self.old)) + 1) };

    /// Lists a place by a spot of its key. The index may have changed since the spot was made. Never allocates.
    fn relink<S: Side<K>, M: Meter>(
        &mut self,
        side: S,
        place: usize,
        spot: &Self::Spot,
        meter: &mut M,
    )
        requires may { (key : K) × MayLink is_listing K.eq self.old (S.key_at side) place key
            × is_for self.old key spot.now }
        requires cell { place < cells self.old }
        ensures listing { is_listing self.new (S.key_at side) }
        ensures last { appends → places self.new ≡ places self.old ++ place ∷ [] }
        ensures finds_by { finds_by self.new ≡ finds_by self.old }
        ensures cells { cells self.new ≡ cells self.old }
        ensures comparisons { M.comparisons meter.new ≤ M.comparisons meter.old
            + effort (length (places self.old)) }
        ensures touches { M.touches meter.new ≤ M.touches meter.old
            + 64 * (effort (length (places self.old)) + 1) };

    /// Removes a place from the list. Never allocates.
    fn unlink<S: Side<K>, M: Meter>(&mut self, side: S, place: usize, meter: &mut M)
        requires listing { is_listing self.old (S.key_at side) }
        requires live { IsSome (S.key_at side place) }
        ensures listing { (f : ℕ → Option K) → IsWithout f (S.key_at side) place →
            is_listing self.new f }
        ensures others { appends → IsTakenOut (places self.old) place (places self.new) }
        ensures is_for { (key : K) (spot : Self.Spot) → is_for self.old key spot →
            is_for self.new key spot }
        ensures finds_by { finds_by self.new ≡ finds_by self.old }
        ensures cells { cells self.new ≡ cells self.old }
        ensures effort { effort (length (places self.new)) ≤ effort (length (places self.old)) }
        ensures comparisons { M.comparisons meter.new ≤ M.comparisons meter.old
            + effort (length (places self.old)) }
        ensures touches { M.touches meter.new ≤ M.touches meter.old
            + 64 * (effort (length (places self.old)) + 1) };

    /// Removes the place with an equal key from the list and returns it. If there is none, nothing changes.
    fn unlink_key<S: Side<K>, M: Meter>(&mut self, side: S, key: &K, meter: &mut M) -> Option<usize>
        requires listing { is_listing self.old (S.key_at side) }
        ensures found { IsFoundBy (S.key_at side) K.eq key.now result }
        ensures listing { IfSome result (λ place. (f : ℕ → Option K) →
            IsWithout f (S.key_at side) place → is_listing self.new f) }
        ensures others { appends → IfSome result (λ place. IsTakenOut (places self.old) place
            (places self.new)) }
        ensures unchanged { IfNone result (self.new ≡ self.old) }
        ensures finds_by { finds_by self.new ≡ finds_by self.old }
        ensures cells { cells self.new ≡ cells self.old }
        ensures comparisons { M.comparisons meter.new ≤ M.comparisons meter.old
            + effort (length (places self.old)) }
        ensures touches { M.touches meter.new ≤ M.touches meter.old
            + 64 * (effort (length (places self.old)) + 1) };

    /// Makes a cell for each place below `to`. It allocates only if some of these cells are missing. If it runs out of
    /// memory, nothing changes.
    fn grow(&mut self, to: usize) -> Result<(), NoMemory>
        ensures listing { (f : ℕ → Option K) → is_listing self.old f → is_listing self.new f }
        ensures leads { (f : ℕ → Option K) (key : K) (spot : Self.Spot) →
            leads self.old f key spot → leads self.new f key spot }
        ensures is_for { (key : K) (spot : Self.Spot) → is_for self.old key spot →
            is_for self.new key spot }
        ensures places { places self.new ≡ places self.old }
        ensures finds_by { finds_by self.new ≡ finds_by self.old }
        ensures cells { cells self.old ≤ cells self.new }
        ensures ok { OnOk result (to ≤ cells self.new) }
        ensures enough { to ≤ cells self.old → IsOk result }
        ensures err { OnErr result (self.new ≡ self.old) };

    /// Removes all places from the list. The cells stay.
    fn clear(&mut self)
        ensures listing { is_listing self.new (λ _. None) }
        ensures finds_by { finds_by self.new ≡ finds_by self.old }
        ensures cells { cells self.new ≡ cells self.old };

    /// The listed places are those that have a key.
    ghost listed: { (index : Self) (f : ℕ → Option K) → is_listing index f → (p : ℕ) →
        Contains (places index) p ↔ IsSome (f p) };

    /// No place is listed twice.
    ghost distinct: { (index : Self) (f : ℕ → Option K) → is_listing index f →
        AllPairs (λ a b. a ≢ b) (places index) };

    /// The keys of the listed places ascend by `walk_order`.
    ghost in_order: { (index : Self) (f : ℕ → Option K) → is_listing index f →
        AllPairs (λ a b. (k l : K) → f a ≡ Some k → f b ≡ Some l → walk_order index k l ≡ Less)
        (places index) };

    /// The places stay listed if their keys are exchanged for equal ones.
    ghost respects: { (index : Self) (f g : ℕ → Option K) → ((p : ℕ) → IsAlike K.eq (f p) (g p)) →
        is_listing index f → is_listing index g };

    /// There is at most one proof that an index lists a side.
    ghost settled: { (index : Self) (f : ℕ → Option K) → ∥ is_listing index f ∥₁ →
        is_listing index f };
}
