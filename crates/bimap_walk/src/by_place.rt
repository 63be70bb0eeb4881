//! Iterators in the order of the places.
ghost use Rattle.std.specs.Prelude.{◌≡◌};
ghost use Rattle.std.specs.Map.Iter.{GivesInOrder};
ghost use Rattle.bimap_base.specs.Places.{pairs_in};

use crate::places::{ByPlace, PlacesLeft};
use bimap_base::Pairs;

/// An iterator over the pairs by place. Each item is `(&L, &R)`. A full iteration takes time proportional to the number
/// of places.
pub type Iter<'a, L, R> = crate::iter::Iter<'a, L, R, ByPlace>;

/// An iterator over the lefts by place.
pub type LeftValues<'a, L, R> = crate::values::LeftValues<'a, L, R, ByPlace>;

/// An iterator over the rights by place.
pub type RightValues<'a, L, R> = crate::values::RightValues<'a, L, R, ByPlace>;

/// An owning iterator over the pairs by place.
pub type IntoIter<L, R> = crate::into_iter::IntoIter<L, R, ByPlace>;

/// Returns an iterator over the pairs by place.
pub fn iter<'a, L, R>(pairs: &'a Pairs<L, R>) -> Iter<'a, L, R>
    ensures { result ≡ pairs_in pairs.now }
{
    Iter::new(pairs, &ByPlace, PlacesLeft::new(pairs))
}

/// Returns an owning iterator over the pairs by place.
pub fn into_iter<L: Drop, R: Drop>(pairs: Pairs<L, R>) -> IntoIter<L, R>
    ensures rest { result ≡ pairs_in pairs }
    ensures runs { GivesInOrder (L × R) }
{
    let cursor = PlacesLeft::new(&pairs);
    IntoIter::new(pairs, ByPlace, cursor)
}
