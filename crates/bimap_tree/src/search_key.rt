//! What a descent searches for, and how the key of a place compares with it. The code here knows keys only through `Keys`, and no
//! tree.
ghost use Rattle.std.specs.Prelude.{◌≡◌, ℕ, ◌+◌, Some, IsSome};
ghost use Rattle.std.specs.declared.cmp.Ordering.{Ordering};
ghost use Rattle.bimap_base.specs.Keyed.{standing};
ghost use Rattle.bimap_tree.specs.Order.{after_key};

use bimap_base::{Keys, Meter, Sought};
use std::cmp::Ordering;
use std::mem::{ManuallyDrop, size_of, size_of_val};

pub trait SearchKey {
    ghost live: { Self → ℕ → Type 0 };

    ghost go: { Self → ℕ → Ordering };

    // Returns how the key of a place compares with what is searched for.
    fn ordering<M: Meter>(&self, place: usize, meter: &mut M) -> Ordering
        requires { live self.now place }
        ensures ordering { result ≡ go self.now place }
        ensures comparisons { M.comparisons meter.new ≡ M.comparisons meter.old + 1 }
        ensures touches { M.touches meter.new ≡ M.touches meter.old };

    // Returns whether the keys are wide. A comparison of wide keys probably follows a pointer.
    fn has_wide_keys() -> bool;
}

// Returns whether a key is wide. A key is wide if an `Option` of it is larger than an `Option<usize>`. The result is a constant
// for each type. The size is measured at a value, because `size_of` of a type parameter has no proof.
fn is_wide<K>() -> bool {
    let no_key: Option<ManuallyDrop<K>> = None;
    let size = size_of_val(&no_key);
    let most = size_of::<Option<usize>>();
    size > most
}

#[derive(Drop)]
pub struct ToKey<'a, K: Keys> {
    pub keys: &'a K,
    pub key: &'a K::Key,
}

impl<K: Keys> SearchKey for ToKey<'_, K> {
    ghost live = { λ s p. IsSome (K.key_at s.keys.now p) };

    ghost go = { λ s p. standing K.order (K.key_at s.keys.now p) (Some s.key.now) };

    fn ordering<M: Meter>(&self, place: usize, meter: &mut M) -> Ordering {
        self.keys.compare(place, self.key, meter)
    }

    fn has_wide_keys() -> bool {
        is_wide::<K::Key>()
    }
}

// A search for the key that is equal to a query.
#[derive(Drop)]
pub struct ToQuery<'a, K, Q> {
    pub keys: &'a K,
    pub query: Q,
}

impl<K: Keys, Q: Sought<K>> SearchKey for ToQuery<'_, K, Q> {
    ghost live = { λ s p. IsSome (K.key_at s.keys.now p) };

    ghost go = { λ s p. standing Q.order (K.key_at s.keys.now p) (Some s.query) };

    fn ordering<M: Meter>(&self, place: usize, meter: &mut M) -> Ordering {
        self.query.compare(self.keys, place, meter)
    }

    fn has_wide_keys() -> bool {
        is_wide::<K::Key>()
    }
}

#[derive(Drop)]
pub struct ToPlace<'a, K: Keys> {
    pub keys: &'a K,
    pub place: usize,
}

impl<K: Keys> SearchKey for ToPlace<'_, K> {
    ghost live = { λ s p. IsSome (K.key_at s.keys.now p) × IsSome (K.key_at s.keys.now s.place) };

    ghost go = { λ s p. standing K.order (K.key_at s.keys.now p) (K.key_at s.keys.now s.place) };

    fn ordering<M: Meter>(&self, place: usize, meter: &mut M) -> Ordering {
        self.keys.compare_places(place, self.place, meter)
    }

    fn has_wide_keys() -> bool {
        is_wide::<K::Key>()
    }
}

// A search for the position just after the key that is equal to a query.
#[derive(Drop)]
pub struct AfterQuery<'a, K, Q> {
    pub keys: &'a K,
    pub query: Q,
}

impl<K: Keys, Q: Sought<K>> SearchKey for AfterQuery<'_, K, Q> {
    ghost live = { λ s p. IsSome (K.key_at s.keys.now p) };

    ghost go = { λ s p. after_key (standing Q.order (K.key_at s.keys.now p) (Some s.query)) };

    fn ordering<M: Meter>(&self, place: usize, meter: &mut M) -> Ordering {
        match self.query.compare(self.keys, place, meter) {
            Ordering::Equal => Ordering::Less,
            other => other,
        }
    }

    fn has_wide_keys() -> bool {
        is_wide::<K::Key>()
    }
}
