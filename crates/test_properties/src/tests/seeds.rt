//! Hash builders with a seed: equal seeds hash alike, in every run.
ghost use Rattle.std.specs.Prelude.{◌≡◌};

use bimap::Seeded;
use std::hash::{BuildHasher, FoldHasher, Hash, Hasher};

// Both hashes are by the same seed.
fn by_the_same_seed(seed: u64, key: u32) -> (u64, u64)
    ensures { result.0 ≡ result.1 }
{
    (
        Seeded::new(seed).hash_one(key),
        Seeded::new(seed).hash_one(key),
    )
}

// The second hash is the one that a `FoldHasher` gives for the seed and then the key.
fn after_the_seed(seed: u64, key: u32) -> (u64, u64)
    ensures { result.0 ≡ result.1 }
{
    let mut hasher = FoldHasher::default();
    (seed, key).hash(&mut hasher);
    (Seeded::new(seed).hash_one(key), hasher.finish())
}

// The numbers were computed from the definition of the hash, and not by a run.
#[test]
fn a_seed_gives_the_same_hashes_in_every_run(rt: HostRuntime) {
    let one = 12_436_726_562_578_633_005;
    assert_eq!(rt; by_the_same_seed(1, 5), (one, one));
    assert_eq!(rt; after_the_seed(1, 5), (one, one));
}

#[test]
fn another_seed_gives_another_hash(rt: HostRuntime) {
    assert_eq!(rt; Seeded::new(2).hash_one(5u32), 10_342_888_043_487_036_974);
}
