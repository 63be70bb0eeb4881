//! The hash number under which a hashed index lists a key.
ghost use Rattle.std.specs.Prelude.{◌≡◌};
ghost use Rattle.bimap_base.specs.Numbered.{number_by};

use std::hash::{BuildHasher, Hash};

/// Returns the low 32 bits of the hash that the hash builder gives for the key.
pub fn hash_number<K: Hash, B: BuildHasher>(builder: &B, key: &K) -> u32
    ensures { result ≡ number_by B.Hasher.finish B.Hasher.write B.build_hasher K.hash_input
        builder.now key.now }
{
    (builder.hash_one(key) % 4_294_967_296) as u32
}
