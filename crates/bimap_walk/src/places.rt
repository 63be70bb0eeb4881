//! The course by place, which is the order of the store itself. This module knows no index.
ghost use Rattle.std.specs.Prelude.{◌≡◌, ◌<◌, length, drop};
ghost use Rattle.bimap_base.specs.Places.{pairs_in};
ghost use Rattle.bimap_base.specs.Slots.{IsLive};

use crate::course::Course;
use bimap_base::Pairs;

/// The course that visits the places of a store in ascending order.
#[derive(Clone, Copy)]
pub struct ByPlace;

/// A cursor in a store: the next place to look at, and how many pairs are left.
#[derive(Clone, Copy)]
pub struct PlacesLeft {
    place: usize,
    left: usize,
}

impl PlacesLeft {
    // Returns a cursor before the first place.
    pub(crate) fn new<L, R>(pairs: &Pairs<L, R>) -> Self
        ensures from { result.place ≡ 0 }
        ensures left { result.left ≡ length (pairs_in pairs.now) }
    {
        PlacesLeft {
            place: 0,
            left: pairs.len(),
        }
    }
}

// Returns the first place with a pair, from the place `from` on.
fn live_from<L, R>(pairs: &Pairs<L, R>, from: usize) -> usize
    requires { 0 < length (pairs_in (drop from pairs.now)) }
    ensures live { IsLive pairs.now result }
    ensures bound { result < usize.MAX }
    ensures same { pairs_in (drop result pairs.now) ≡ pairs_in (drop from pairs.now) }
{
    for place in from..pairs.places() {
        if pairs.at(place).is_some() {
            return place;
        }
    }
    unreachable!()
}

impl Course for ByPlace {
    type Cursor = PlacesLeft;

    ghost ahead = { λ P by cursor slots. pairs_in (drop cursor.place slots) };

    ghost stands = { λ P by cursor slots. cursor.left ≡ length
        (pairs_in (drop cursor.place slots)) };

    fn len<L, R>(&self, _pairs: &Pairs<L, R>, cursor: &PlacesLeft) -> usize {
        cursor.left
    }

    #[inline(always)]
    fn first<L, R>(&self, pairs: &Pairs<L, R>, cursor: &mut PlacesLeft) -> Option<usize> {
        if cursor.left == 0 {
            return None;
        }
        let place = live_from(pairs, cursor.place);
        cursor.place = place + 1;
        cursor.left -= 1;
        Some(place)
    }
}
