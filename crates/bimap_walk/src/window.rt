//! A window of ranks, which gives its places one at a time from either end. This module knows no pair.
ghost use Rattle.std.specs.Prelude.{◌≡◌, ◌<◌, ◌≤◌, IfSome, IsSomeAnd, IsTrue, length};
ghost use Rattle.bimap_tree.specs.Batches.{IsBatch};
ghost use Rattle.std.specs.List.{between};
ghost use Rattle.std.specs.Map.Iter.{TakesFirst, TakesLast};

use bimap_base::Count;
use bimap_tree::{Batch, Ordered};

/// The ranks from `front` up to `back`, which is excluded. `ahead` and `behind` contain places near the two ends. Most iterators
/// never go back, so `behind` is made by the first call of `last`.
#[derive(Clone, Copy)]
pub struct Window {
    front: usize,
    // `ahead` contains the places of the ranks from `front` up to `ready`, which is excluded.
    ready: usize,
    // `behind` contains the places of the ranks from `ready_back` up to `back`, which is excluded.
    ready_back: usize,
    back: usize,
    ahead: Batch,
    behind: Option<Batch>,
}

// Makes a batch, unless there is one.
fn make_batch(batch: &mut Option<Batch>, index: &Ordered)
    requires { IfSome batch.old (IsBatch index.now.places) }
    ensures { IsSomeAnd batch.new (IsBatch index.now.places) }
{
    if batch.is_none() {
        *batch = Some(Batch::new(index));
    }
}

impl Window {
    ghost use Rattle.bimap_walk.specs.Windows.{IsRead, IsWindow, places_in};

    pub(crate) fn new(index: &Ordered, front: usize, back: usize) -> Self
        requires ordered { front ≤ back }
        requires within { back ≤ length index.now.places }
        ensures window { IsWindow index.now.places result }
        ensures places { places_in index.now.places result ≡ between front back index.now.places }
    {
        // This establishes that the listed places are distinct.
        let len = index.len();
        prove!(back <= len);
        Window {
            front,
            ready: front,
            ready_back: back,
            back,
            ahead: Batch::new(index),
            behind: None,
        }
    }

    // Returns the window of all ranks of an index.
    pub(crate) fn whole(index: &Ordered) -> Self
        ensures window { IsWindow index.now.places result }
        ensures places { places_in index.now.places result ≡ index.now.places }
    {
        Window::new(index, 0, index.len())
    }

    // Returns the number of places left.
    pub(crate) fn len(&self, index: &Ordered) -> usize
        requires window { IsWindow index.now.places self.now }
        ensures { result ≡ length (places_in index.now.places self.now) }
    {
        // Only the contract uses `index`.
        let _ = index;
        self.back - self.front
    }

    // Gets the places of further ranks ready at the front, if a rank is left. Returns whether one is left. It is never inlined,
    // because most calls of `has_first` skip it.
    #[inline(never)]
    fn read_ahead(&mut self, index: &Ordered) -> bool
        requires { IsWindow index.now.places self.old }
        ensures read { IsRead index.now.places self.old self.new result }
        ensures ready { IsTrue result → self.new.front < self.new.ready }
    {
        if self.front == self.back {
            return false;
        }
        let left = self.len(index);
        let _ = self.ahead.place(index, self.front, left, &mut Count::new());
        let (_, end) = self.ahead.ranks(index);
        self.ready = end.min(self.back);
        self.ready_back = self.ready_back.max(self.ready);
        true
    }

    // Returns whether a rank is left. If one is left, the place of the first rank is ready then.
    #[inline(always)]
    fn has_first(&mut self, index: &Ordered) -> bool
        requires { IsWindow index.now.places self.old }
        ensures read { IsRead index.now.places self.old self.new result }
        ensures ready { IsTrue result → self.new.front < self.new.ready }
    {
        self.front < self.ready || self.read_ahead(index)
    }

    // Returns the first place left and removes it from the window. One descent in the index serves many calls.
    #[inline(always)]
    pub(crate) fn first(&mut self, index: &Ordered) -> Option<usize>
        requires window { IsWindow index.now.places self.old }
        ensures window { IsWindow index.now.places self.new }
        ensures takes { TakesFirst (λ place. place) (places_in index.now.places self.old) result
            (places_in index.now.places self.new) }
    {
        if !self.has_first(index) {
            return None;
        }
        let place = self.ahead.at(index, self.front);
        self.front += 1;
        Some(place)
    }

    // Gets the places of further ranks ready at the back, if a rank is left. Returns whether one is left. It is never inlined,
    // because most calls of `has_last` skip it.
    #[inline(never)]
    fn read_behind(&mut self, index: &Ordered) -> bool
        requires { IsWindow index.now.places self.old }
        ensures read { IsRead index.now.places self.old self.new result }
        ensures ready { IsTrue result → self.new.ready_back < self.new.back }
    {
        if self.front == self.back {
            return false;
        }
        let left = self.len(index);
        make_batch(&mut self.behind, index);
        let Some(behind) = &mut self.behind else {
            unreachable!();
        };
        let _ = behind.place(index, self.back - 1, left, &mut Count::new());
        let (start, _) = behind.ranks(index);
        self.ready_back = start.max(self.front);
        self.ready = self.ready.min(self.ready_back);
        true
    }

    // Returns whether a rank is left. If one is left, the place of the last rank is ready then.
    #[inline(always)]
    fn has_last(&mut self, index: &Ordered) -> bool
        requires { IsWindow index.now.places self.old }
        ensures read { IsRead index.now.places self.old self.new result }
        ensures ready { IsTrue result → self.new.ready_back < self.new.back }
    {
        self.ready_back < self.back || self.read_behind(index)
    }

    // Returns the last place left and removes it from the window. One descent in the index serves many calls.
    #[inline(always)]
    pub(crate) fn last(&mut self, index: &Ordered) -> Option<usize>
        requires window { IsWindow index.now.places self.old }
        ensures window { IsWindow index.now.places self.new }
        ensures takes { TakesLast (λ place. place) (places_in index.now.places self.old) result
            (places_in index.now.places self.new) }
    {
        if !self.has_last(index) {
            return None;
        }
        let Some(behind) = &self.behind else {
            unreachable!();
        };
        self.back -= 1;
        Some(behind.at(index, self.back))
    }
}
