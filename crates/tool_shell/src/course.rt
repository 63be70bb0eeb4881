//! Iterators, step by step.
use crate::request::Step;
use crate::word::Word;
use bimap_walk::{Course, CourseBack, IntoIter, Iter, Projection, Values};
use std::alloc::AllocError;
use std::fmt::Debug;

/// An iterator that the shell asks for one step at a time.
pub trait Walk: Sized {
    type Item: Debug + Drop;

    /// Returns the next item from the front.
    fn front(&mut self) -> Option<Self::Item>;

    /// Returns the next item from the back. Returns `None` if the iterator cannot go backwards.
    fn back(&mut self) -> Option<Option<Self::Item>>;

    /// Returns how many items are left.
    fn left(&self) -> usize;

    /// Returns a copy of the iterator, or `None` if it gives its items by value.
    fn copy(&self) -> Result<Option<Self>, AllocError> {
        Ok(None)
    }
}

/// An iterator that can go backwards.
pub trait WalkBack: Walk {
    /// Returns the next item from the back.
    fn last(&mut self) -> Option<Self::Item>;
}

impl<'a, C: Course> Walk for Iter<'a, Word, Word, C> {
    type Item = (&'a Word, &'a Word);

    fn front(&mut self) -> Option<(&'a Word, &'a Word)> {
        self.next()
    }

    fn back(&mut self) -> Option<Option<(&'a Word, &'a Word)>> {
        None
    }

    fn left(&self) -> usize {
        self.len()
    }

    fn copy(&self) -> Result<Option<Self>, AllocError> {
        Ok(Some(self.clone()?))
    }
}

impl<'a, C: CourseBack> WalkBack for Iter<'a, Word, Word, C> {
    fn last(&mut self) -> Option<(&'a Word, &'a Word)> {
        self.next_back()
    }
}

impl<'a, C: Course, P: Projection<Word, Word, Value = Word>> Walk for Values<'a, Word, Word, C, P> {
    type Item = &'a Word;

    fn front(&mut self) -> Option<&'a Word> {
        self.next()
    }

    fn back(&mut self) -> Option<Option<&'a Word>> {
        None
    }

    fn left(&self) -> usize {
        self.len()
    }

    fn copy(&self) -> Result<Option<Self>, AllocError> {
        Ok(Some(self.clone()?))
    }
}

impl<'a, C: CourseBack, P: Projection<Word, Word, Value = Word>> WalkBack
    for Values<'a, Word, Word, C, P> {
    fn last(&mut self) -> Option<&'a Word> {
        self.next_back()
    }
}

impl<C: Course> Walk for IntoIter<Word, Word, C> {
    type Item = (Word, Word);

    fn front(&mut self) -> Option<(Word, Word)> {
        self.next()
    }

    fn back(&mut self) -> Option<Option<(Word, Word)>> {
        None
    }

    fn left(&self) -> usize {
        self.len()
    }
}

impl<C: CourseBack> WalkBack for IntoIter<Word, Word, C> {
    fn last(&mut self) -> Option<(Word, Word)> {
        self.next_back()
    }
}

/// An iterator that the shell uses from both ends.
#[derive(Drop)]
pub struct BothEnds<W>(pub W);

impl<W: WalkBack> Walk for BothEnds<W> {
    type Item = W::Item;

    fn front(&mut self) -> Option<W::Item> {
        self.0.front()
    }

    fn back(&mut self) -> Option<Option<W::Item>> {
        Some(self.0.last())
    }

    fn left(&self) -> usize {
        self.0.left()
    }

    fn copy(&self) -> Result<Option<Self>, AllocError> {
        Ok(self.0.copy()?.map(BothEnds))
    }
}

// Writes the items that are left.
fn rest<W: Walk>(walk: &mut W, said: &mut String) -> Result<(), AllocError> {
    write!(said, "[")?;
    let mut between = "";
    for _ in 0..walk.left() {
        if let Some(item) = walk.front() {
            write!(said, "{between}{item:?}")?;
            between = ", ";
        }
    }
    write!(said, "]")
}

// Writes what a step shows. Returns whether the iterator has this step.
fn shown<W: Walk>(walk: &mut W, step: Step, said: &mut String) -> Result<bool, AllocError> {
    if !said.is_empty() {
        write!(said, " · ")?;
    }
    match step {
        Step::Front => write!(said, "{:?}", walk.front())?,
        Step::Len => write!(said, "{}", walk.left())?,
        Step::Back => match walk.back() {
            Some(item) => write!(said, "{item:?}")?,
            None => return Ok(false),
        },
        _ => rest(walk, said)?,
    }
    Ok(true)
}

/// Makes the steps, and writes what they show. The steps after a copy are made on the copy. Returns whether the
/// iterator has every step.
pub fn follow<W: Walk + Drop>(
    walk: W,
    steps: &[Step],
    said: &mut String,
) -> Result<bool, AllocError> {
    let mut walk = walk;
    for step in steps {
        let has = match step {
            Step::Copy => match walk.copy()? {
                Some(copy) => {
                    walk = copy;
                    true
                }
                None => false,
            },
            step => shown(&mut walk, *step, said)?,
        };
        if !has {
            return Ok(false);
        }
    }
    Ok(true)
}
