//! The borrowing iterator along any course. This module knows places, and not how a course finds the next one.
ghost use Rattle.std.specs.Prelude.{◌≡◌, length, Some, IfSome, ⊤};
ghost use Rattle.std.specs.Iterator.{at_most, UpTo};
ghost use Rattle.std.specs.Iterator.SizeHint.{IsWithinCount};
ghost use Rattle.std.specs.Map.Iter.{TakesFirst, TakesLast, deref_pair};

use crate::course::{Course, CourseBack};
use bimap_base::Pairs;
use std::alloc::AllocError;
use std::marker::Model;

/// An iterator over the pairs of a store along a course. Each item is `(&L, &R)`.
#[derive(Drop)]
pub struct Iter<'a, L, R, C: Course> {
    pairs: &'a Pairs<L, R>,
    course: &'a C,
    cursor: C::Cursor,
}

impl<'a, L, R, C: Course> Model for Iter<'a, L, R, C> {
    ghost use Rattle.std.specs.Prelude.{List};

    ghost Value = { List (L × R) };

    ghost view = { λ w. C.ahead (L × R) w.course.now w.cursor w.pairs.now };

    ghost invariant = { λ w. C.stands (L × R) w.course.now w.cursor w.pairs.now };
}

impl<'a, L, R, C: Course> Iter<'a, L, R, C> {
    /// Returns an iterator over the pairs ahead of a cursor.
    pub fn new(pairs: &'a Pairs<L, R>, course: &'a C, cursor: C::Cursor) -> Self
        requires stands { C.stands (L × R) course.now cursor pairs.now }
        ensures { result ≡ C.ahead (L × R) course.now cursor pairs.now }
    {
        Iter {
            pairs,
            course,
            cursor,
        }
    }

    /// Returns how many pairs are left, in constant time.
    pub fn len(&self) -> usize
        ensures { result ≡ length self.now }
    {
        self.course.len(self.pairs, &self.cursor)
    }
}

impl<'a, L, R, C: Course> Iterator for Iter<'a, L, R, C> {
    type Item = (&'a L, &'a R);

    ghost next_gives = { TakesFirst deref_pair };

    ghost remaining = { λ s. at_most (length s) };

    fn next(&mut self) -> Option<(&'a L, &'a R)> {
        let place = self.course.first(self.pairs, &mut self.cursor)?;
        Some(self.pairs.held(place))
    }

    fn size_hint(&self) -> (usize, Option<usize>)
        ensures lower { IsWithinCount result.0 (at_most (length self.now)) }
        ensures upper { IfSome result.1 (UpTo (at_most (length self.now))) }
        ensures exact { result ≡ (length self.now, Some (length self.now)) }
    {
        let len = self.len();
        (len, Some(len))
    }
}

impl<'a, L, R, C: CourseBack> DoubleEndedIterator for Iter<'a, L, R, C> {
    ghost next_back_gives = { TakesLast deref_pair };

    fn next_back(&mut self) -> Option<(&'a L, &'a R)> {
        let place = self.course.last(self.pairs, &mut self.cursor)?;
        Some(self.pairs.held(place))
    }
}

impl<'a, L, R, C: Course> Clone for Iter<'a, L, R, C> {
    ghost is_clone = { λ s r. r ≡ s };

    ghost is_infallible = { λ _. ⊤ };

    fn clone(&self) -> Result<Self, AllocError> {
        Ok(Iter::new(self.pairs, self.course, self.cursor))
    }
}
