//! The owning iterator along any course. This module knows places, and not how a course finds the next one.
ghost use Rattle.std.specs.Prelude.{◌≡◌, length, Some, IfSome};
ghost use Rattle.std.specs.Iterator.{at_most, UpTo};
ghost use Rattle.std.specs.Iterator.SizeHint.{IsWithinCount};
ghost use Rattle.std.specs.Map.Iter.{TakesFirst, TakesLast};

use crate::course::{Course, CourseBack};
use bimap_base::Pairs;
use std::marker::Model;

/// An owning iterator over the pairs along a course. Dropping the iterator drops the pairs that are left.
#[derive(Drop)]
pub struct IntoIter<L, R, C: Course> {
    pairs: Pairs<L, R>,
    course: C,
    cursor: C::Cursor,
}

impl<L, R, C: Course> Model for IntoIter<L, R, C> {
    ghost use Rattle.std.specs.Prelude.{List};

    ghost Value = { List (L × R) };

    ghost view = { λ w. C.ahead (L × R) w.course w.cursor w.pairs };

    ghost invariant = { λ w. C.stands (L × R) w.course w.cursor w.pairs };
}

impl<L, R, C: Course> IntoIter<L, R, C> {
    /// Returns an iterator over the pairs ahead of a cursor.
    pub fn new(pairs: Pairs<L, R>, course: C, cursor: C::Cursor) -> Self
        requires stands { C.stands (L × R) course cursor pairs }
        ensures { result ≡ C.ahead (L × R) course cursor pairs }
    {
        IntoIter {
            pairs,
            course,
            cursor,
        }
    }

    /// Returns how many pairs are left, in constant time.
    pub fn len(&self) -> usize
        ensures { result ≡ length self.now }
    {
        self.course.len(&self.pairs, &self.cursor)
    }
}

impl<L: Drop, R: Drop, C: Course> Iterator for IntoIter<L, R, C> {
    type Item = (L, R);

    ghost next_gives = { TakesFirst (λ p. p) };

    ghost remaining = { λ s. at_most (length s) };

    fn next(&mut self) -> Option<(L, R)> {
        let place = self.course.first(&self.pairs, &mut self.cursor)?;
        Some(self.pairs.take(place))
    }

    fn size_hint(&self) -> (usize, Option<usize>)
        ensures lower { IsWithinCount result.0 (at_most (length self.now)) }
        ensures upper { IfSome result.1 (UpTo (at_most (length self.now))) }
        ensures exact { result ≡ (length self.now, Some (length self.now)) }
    {
        let len = self.len();
        (len, Some(len))
    }
}

impl<L: Drop, R: Drop, C: CourseBack> DoubleEndedIterator for IntoIter<L, R, C> {
    ghost next_back_gives = { TakesLast (λ p. p) };

    fn next_back(&mut self) -> Option<(L, R)> {
        let place = self.course.last(&self.pairs, &mut self.cursor)?;
        Some(self.pairs.take(place))
    }
}
