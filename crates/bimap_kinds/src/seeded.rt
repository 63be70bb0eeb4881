//! A hash builder with a seed.
ghost use Rattle.std.specs.Prelude.{◌≡◌};
ghost use Rattle.bimap_kinds.specs.Seeded.{seeded};

use std::hash::{BuildHasher, FoldHasher, Hasher};

/// A hash builder with a seed. Its hasher is a `FoldHasher` to which the seed is written first.
///
/// The same seed gives the same hashes, on every machine and in every run. Another seed usually gives other hashes.
///
/// A seed that strangers know does not protect against collisions: whoever knows it can choose values that collide.
/// Hand in a `RandomState` for a side whose values strangers choose.
#[derive(Clone, Copy)]
pub struct Seeded {
    initial: FoldHasher,
}

impl Seeded {
    /// Returns the hash builder of this seed.
    ///
    /// Time: O(1).
    ///
    ///     let mut seats = BiHashMap::with_hashers(alloc, Seeded::new(1), Seeded::new(1));
    ///     seats.insert('a', 3); // Ok(Overwritten::Neither)
    pub fn new(seed: u64) -> Seeded
        ensures { result.initial ≡ seeded seed }
    {
        let mut initial = FoldHasher::default();
        initial.write_u64(seed);
        Seeded { initial }
    }
}

impl BuildHasher for Seeded {
    type Hasher = FoldHasher;

    ghost build_hasher = { λ s. s.initial };

    fn build_hasher(&self) -> FoldHasher {
        self.initial
    }
}
