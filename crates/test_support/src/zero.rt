//! A hashed map in which all keys have the same hash number.
ghost use Rattle.std.specs.Prelude.{◌≡◌, []};
ghost use Rattle.bimap.specs.Hash.{holding};

use bimap::BiHashMap;
use std::alloc::Global;
use std::hash::{BuildHasher, Hash, Hasher};

/// A hasher that ignores everything that is written to it. It is also its own hash builder.
#[derive(Clone, Copy, Default)]
pub struct Zero;

impl Hasher for Zero {
    ghost write = { λ s _. s };

    ghost finish = { λ _. 0 };

    fn finish(&self) -> u64 {
        0
    }

    fn write(&mut self, _bytes: &[u8]) {}
}

impl BuildHasher for Zero {
    type Hasher = Zero;

    ghost build_hasher = { λ s. s };

    fn build_hasher(&self) -> Zero {
        *self
    }
}

/// A hashed map with these hash builders.
pub type Crowded<L, R> = BiHashMap<L, R, Zero, Zero>;

/// Returns an empty map with these hash builders. Never allocates.
pub fn crowded<L: Eq + Hash, R: Eq + Hash>(alloc: Global) -> Crowded<L, R>
    ensures pairs { (holding result).pairs ≡ [] }
    ensures room { (holding result).room ≡ 0 }
{
    BiHashMap::with_hashers(alloc, Zero, Zero)
}
