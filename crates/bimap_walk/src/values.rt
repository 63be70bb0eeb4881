//! Iterators over the lefts or over the rights. This module knows no place.
ghost use Rattle.std.specs.Prelude.{◌≡◌, length, map, Some, IfSome, ⊤};
ghost use Rattle.std.specs.Iterator.{at_most, UpTo};
ghost use Rattle.std.specs.Iterator.SizeHint.{IsWithinCount};
ghost use Rattle.std.specs.Map.Iter.{TakesFirst, TakesLast, deref};

use crate::course::{Course, CourseBack};
use crate::iter::Iter;
use crate::projection::{LeftProjection, Projection, RightProjection};
use std::alloc::AllocError;
use std::marker::{Model, PhantomData};

/// An iterator over the lefts or over the rights of the pairs along a course.
#[derive(Drop)]
pub struct Values<'a, L, R, C: Course, P: Projection<L, R>> {
    pairs: Iter<'a, L, R, C>,
    projection: PhantomData<P>,
}

/// An iterator over the lefts along a course.
pub type LeftValues<'a, L, R, C> = Values<'a, L, R, C, LeftProjection>;

/// An iterator over the rights along a course.
pub type RightValues<'a, L, R, C> = Values<'a, L, R, C, RightProjection>;

impl<'a, L, R, C: Course, P: Projection<L, R>> Model for Values<'a, L, R, C, P> {
    ghost use Rattle.std.specs.Prelude.{List, map};

    ghost Value = { List P.Value };

    ghost view = { λ v. map P.of v.pairs };
}

impl<'a, L, R, C: Course, P: Projection<L, R>> Values<'a, L, R, C, P> {
    /// Returns an iterator over the lefts or over the rights of the pairs that `pairs` has left.
    pub fn new(pairs: Iter<'a, L, R, C>) -> Self
        ensures { result ≡ map P.of pairs.entry }
    {
        Values {
            pairs,
            projection: PhantomData,
        }
    }

    /// Returns how many values are left, in constant time.
    pub fn len(&self) -> usize
        ensures { result ≡ length self.now }
    {
        self.pairs.len()
    }
}

impl<'a, L, R, C: Course, P: Projection<L, R>> Iterator for Values<'a, L, R, C, P>
where
    P::Value: 'a,
{
    type Item = &'a P::Value;

    ghost next_gives = { TakesFirst deref };

    ghost remaining = { λ s. at_most (length s) };

    fn next(&mut self) -> Option<&'a P::Value> {
        Some(P::get(self.pairs.next()?))
    }

    fn size_hint(&self) -> (usize, Option<usize>)
        ensures lower { IsWithinCount result.0 (at_most (length self.now)) }
        ensures upper { IfSome result.1 (UpTo (at_most (length self.now))) }
        ensures exact { result ≡ (length self.now, Some (length self.now)) }
    {
        let len = self.len();
        (len, Some(len))
    }
}

impl<'a, L, R, C: CourseBack, P: Projection<L, R>> DoubleEndedIterator for Values<'a, L, R, C, P>
where
    P::Value: 'a,
{
    ghost next_back_gives = { TakesLast deref };

    fn next_back(&mut self) -> Option<&'a P::Value> {
        Some(P::get(self.pairs.next_back()?))
    }
}

impl<'a, L, R, C: Course, P: Projection<L, R>> Clone for Values<'a, L, R, C, P> {
    ghost is_clone = { λ s r. r ≡ s };

    ghost is_infallible = { λ _. ⊤ };

    fn clone(&self) -> Result<Self, AllocError> {
        let pairs = self.pairs.clone()?;
        Ok(Values::new(pairs))
    }
}
