//! How a test makes a map of any kind.
ghost use Rattle.std.specs.Prelude.{◌≡◌, []};
ghost use Rattle.bimap_any.specs.Capacity.{IsShrink};

use bimap::{Bijection, BijectiveMap, ExtendStopped, NoMemory};
use bimap_index::{CompactedIndex, EmptyIndex};
use std::alloc::Global;

/// A kind of map that tests can make.
pub trait Kind<L: Eq + Drop, R: Eq + Drop>: Bijection<L, R> + Drop {
    /// Returns an empty map. Never allocates.
    fn empty(alloc: Global) -> Self
        ensures { (Self.holding result).pairs ≡ [] };

    /// Shrinks the capacity to `least` by the map's own `shrink_to`.
    fn shrink_to(&mut self, least: usize) -> Result<(), NoMemory>
        ensures { IsShrink (Self.holding self.old) least result (Self.holding self.new) };

    /// Shrinks the capacity to the length by the map's own `shrink_to_fit`.
    fn shrink_to_fit(&mut self) -> Result<(), NoMemory>
        ensures { IsShrink (Self.holding self.old) 0 result (Self.holding self.new) };
}

/// A kind of map of `Copy` values that tests can make of items.
pub trait CopyKind<L: Copy + Eq + Drop, R: Copy + Eq + Drop>: Kind<L, R> {
    /// Returns a map of the items, made by the map's own `from_iter`.
    fn built(alloc: Global, items: &[(L, R)]) -> Result<Self, ExtendStopped<L, R>>;

    /// Adds the items by the map's own `extend`.
    fn add(&mut self, items: &[(L, R)]) -> Result<(), ExtendStopped<L, R>>;
}

impl<
    L: Eq + Drop,
    R: Eq + Drop,
    I: EmptyIndex<L> + CompactedIndex<L> + Drop,
    J: EmptyIndex<R> + CompactedIndex<R> + Drop,
> Kind<L, R> for BijectiveMap<L, R, I, J> {
    fn empty(alloc: Global) -> Self {
        BijectiveMap::empty(alloc)
    }

    fn shrink_to(&mut self, least: usize) -> Result<(), NoMemory> {
        self.shrink_to(least)
    }

    fn shrink_to_fit(&mut self) -> Result<(), NoMemory> {
        self.shrink_to_fit()
    }
}

impl<
    L: Copy + Eq + Drop,
    R: Copy + Eq + Drop,
    I: EmptyIndex<L> + CompactedIndex<L> + Drop,
    J: EmptyIndex<R> + CompactedIndex<R> + Drop,
> CopyKind<L, R> for BijectiveMap<L, R, I, J> {
    fn built(alloc: Global, items: &[(L, R)]) -> Result<Self, ExtendStopped<L, R>> {
        BijectiveMap::from_iter(alloc, items.iter().copied())
    }

    fn add(&mut self, items: &[(L, R)]) -> Result<(), ExtendStopped<L, R>> {
        self.extend(items.iter().copied())
    }
}

/// Calls a test over the two mixed kinds of map of these values and over the kind in insertion order. In the two mixed
/// kinds, either index is on either side. The form is `over_mixed_kinds!(TEST, LEFT, RIGHT, RUNTIME)`. A further `?` is
/// needed if the test returns a `Result`.
#[macro_export]
macro_rules! over_mixed_kinds {
    ($test:ident, $left:ty, $right:ty, $rt:expr $(, $try:tt)?) => {{
        $test::<bimap::BiBTreeHashMap<$left, $right>>($rt, $rt.alloc()) $($try)?;
        $test::<bimap::BiHashBTreeMap<$left, $right>>($rt, $rt.alloc()) $($try)?;
        $test::<bimap::BiInsertionOrderMap<$left, $right>>($rt, $rt.alloc()) $($try)?;
    }};
}
