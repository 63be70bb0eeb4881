//! The two sides of a store, as the keys of its places. The code here knows no index.
ghost use Rattle.std.specs.Prelude.{◌≡◌, ℕ, Option, Some, IsSome};
ghost use Rattle.bimap_base.specs.Slots.{left_at, right_at};

use crate::pairs::Pairs;

/// Places that have keys.
pub trait Side<K>: Copy {
    /// The key of a place, or `None` if the place has no key.
    ghost key_at: { Self → ℕ → Option K };

    /// Returns the key of a place, in constant time.
    fn key(&self, place: usize) -> &K
        requires live { IsSome (key_at self.now place) }
        ensures { key_at self.now place ≡ Some result.now };
}

/// The lefts of a store.
#[derive_where(Clone, Copy)]
pub struct LeftSide<'a, L, R> {
    pairs: &'a Pairs<L, R>,
}

/// The rights of a store.
#[derive_where(Clone, Copy)]
pub struct RightSide<'a, L, R> {
    pairs: &'a Pairs<L, R>,
}

impl<'a, L, R> LeftSide<'a, L, R> {
    /// Returns the lefts of this store. Never allocates.
    pub fn new(pairs: &'a Pairs<L, R>) -> Self
        ensures { result.pairs.now ≡ pairs.now }
    {
        LeftSide { pairs }
    }
}

impl<'a, L, R> RightSide<'a, L, R> {
    /// Returns the rights of this store. Never allocates.
    pub fn new(pairs: &'a Pairs<L, R>) -> Self
        ensures { result.pairs.now ≡ pairs.now }
    {
        RightSide { pairs }
    }
}

impl<'a, L, R> Side<L> for LeftSide<'a, L, R> {
    ghost key_at = { λ s. left_at s.pairs.now };

    fn key(&self, place: usize) -> &L {
        let pairs = self.pairs;
        let (left, _) = pairs.held(place);
        left
    }
}

impl<'a, L, R> Side<R> for RightSide<'a, L, R> {
    ghost key_at = { λ s. right_at s.pairs.now };

    fn key(&self, place: usize) -> &R {
        let pairs = self.pairs;
        let (_, right) = pairs.held(place);
        right
    }
}
