//! Iterators in the order of a linked list of places. In an index in insertion order this is the insertion order. This
//! module does not know what the order of the list means.
ghost use Rattle.std.specs.Prelude.{◌≡◌, ◌≢◌, ◌↔◌, ℕ, length};
ghost use Rattle.std.specs.List.{AllPairs, Contains};
ghost use Rattle.std.specs.Map.Iter.{TakesFirst, TakesLast, GivesInOrder, GivesInReverse};
ghost use Rattle.bimap_base.specs.PairsAt.{pairs_at};
ghost use Rattle.bimap_base.specs.Places.{pairs_in};
ghost use Rattle.bimap_base.specs.Slots.{IsLive};
ghost use Rattle.bimap_walk.specs.Positions.{IsLiveListPosition, places_left};

use crate::course::{Course, CourseBack};
use bimap_base::Pairs;
use bimap_list::LinkedList;

/// An iterator over the pairs in the order of a list, from both ends. Each item is `(&L, &R)`. A step takes constant time.
pub type Iter<'a, L, R> = crate::iter::Iter<'a, L, R, LinkedList>;

/// An owning iterator over the pairs in the order of a list.
pub type IntoIter<L, R> = crate::into_iter::IntoIter<L, R, LinkedList>;

/// A cursor in a list. The places that are left have the positions from `front` up to `back`, which is excluded. `next` is
/// the first of these places, and `last` is the last one.
#[derive(Clone, Copy)]
pub struct ListPosition {
    front: usize,
    back: usize,
    next: Option<usize>,
    last: Option<usize>,
}

impl ListPosition {
    ghost use Rattle.bimap_walk.specs.Positions.{IsListPosition};

    // Returns a cursor that has passed no place of the list. The list has exactly the places with a pair.
    fn whole<L, R>(list: &LinkedList, pairs: &Pairs<L, R>) -> Self
        requires lists { (place : ℕ) → Contains list.now.places place ↔ IsLive pairs.now place }
        requires distinct { AllPairs (λ a b. a ≢ b) list.now.places }
        ensures position { IsListPosition list.now.places result }
        ensures places { places_left list.now.places result ≡ list.now.places }
    {
        ListPosition {
            front: 0,
            back: pairs.len(),
            next: list.first(),
            last: list.last(),
        }
    }

    // Returns the first place that is left and moves past it, or returns `None` if no place is left.
    #[inline(always)]
    fn first(&mut self, list: &LinkedList) -> Option<usize>
        requires position { IsListPosition list.now.places self.old }
        ensures position { IsListPosition list.now.places self.new }
        ensures takes { TakesFirst (λ place. place) (places_left list.now.places self.old) result
            (places_left list.now.places self.new) }
    {
        if self.front == self.back {
            return None;
        }
        let place = self.next?;
        self.next = list.after(place);
        self.front += 1;
        Some(place)
    }

    // Returns the last place that is left and moves before it, or returns `None` if no place is left.
    #[inline(always)]
    fn last(&mut self, list: &LinkedList) -> Option<usize>
        requires position { IsListPosition list.now.places self.old }
        ensures position { IsListPosition list.now.places self.new }
        ensures takes { TakesLast (λ place. place) (places_left list.now.places self.old) result
            (places_left list.now.places self.new) }
    {
        if self.front == self.back {
            return None;
        }
        let place = self.last?;
        self.last = list.before(place);
        self.back -= 1;
        Some(place)
    }
}

impl Course for LinkedList {
    type Cursor = ListPosition;

    ghost ahead = { λ P l position slots. pairs_at slots (places_left l.places position) };

    ghost stands = { λ P l position slots. IsLiveListPosition slots l.places position };

    fn len<L, R>(&self, _pairs: &Pairs<L, R>, position: &ListPosition) -> usize {
        position.back - position.front
    }

    #[inline(always)]
    fn first<L, R>(&self, _pairs: &Pairs<L, R>, position: &mut ListPosition) -> Option<usize> {
        position.first(self)
    }
}

impl CourseBack for LinkedList {
    #[inline(always)]
    fn last<L, R>(&self, _pairs: &Pairs<L, R>, position: &mut ListPosition) -> Option<usize> {
        position.last(self)
    }
}

/// Returns an iterator over the pairs in the order of a list of their places.
pub fn iter<'a, L, R>(pairs: &'a Pairs<L, R>, list: &'a LinkedList) -> Iter<'a, L, R>
    requires lists { (place : ℕ) → Contains list.now.places place ↔ IsLive pairs.now place }
    requires distinct { AllPairs (λ a b. a ≢ b) list.now.places }
    ensures { result ≡ pairs_at pairs.now list.now.places }
{
    Iter::new(pairs, list, ListPosition::whole(list, pairs))
}

/// Returns an owning iterator over the pairs in the order of a list of their places.
pub fn into_iter<L: Drop, R: Drop>(pairs: Pairs<L, R>, list: LinkedList) -> IntoIter<L, R>
    requires lists { (place : ℕ) → Contains list.places place ↔ IsLive pairs place }
    requires distinct { AllPairs (λ a b. a ≢ b) list.places }
    ensures rest { result ≡ pairs_at pairs list.places }
    ensures runs { GivesInOrder (L × R) }
    ensures runs_back { GivesInReverse (L × R) }
{
    let position = ListPosition::whole(&list, &pairs);
    IntoIter::new(pairs, list, position)
}
