//! A ring of cells whose links all have the same width.
ghost use Rattle.std.specs.Prelude.{◌≡◌, ◌≢◌, ℕ, ◌+◌, ◌<◌, ◌≤◌, ◌-◌, ◌++◌, ◌∷◌, [], length, slice_get, Some, None, OnOk, OnErr, IfOk};
ghost use Rattle.std.specs.List.{AllPairs, Contains, remove};
ghost use Rattle.bimap_base.specs.Keyed.{Drops};
ghost use Rattle.bimap_list.specs.Ring.{IsJoined, links_in, place_of, told, unlinked};

use crate::cell_number::CellNumber;
use bimap_base::NoMemory;
use std::alloc::{AllocError, Global};
use std::marker::Model;

/// A cell of the ring. It stores the numbers of the cells before and after it. A cell takes 8 bytes if a number has four bytes,
/// and 16 if a number has eight.
#[derive(Clone, Copy, Drop)]
pub(crate) struct Links<N> {
    previous: N,
    next: N,
}

/// The cells of a list, with numbers of one width. The ring leads from cell 0 through the cells of the listed places in
/// order, and back to cell 0. The number of a place's cell is the place plus one.
#[derive(Drop)]
pub(crate) struct Ring<N: CellNumber> {
    cells: Vec<Links<N>>,
}

impl<N: CellNumber> Model for Ring<N> {
    ghost use Rattle.std.specs.Prelude.{◌≤◌, length};
    ghost use Rattle.bimap_list.specs.Ring.{Listing, IsRing, places_of, listing, told};

    ghost Value = { Listing };

    ghost view = { λ r. listing (told N.value r.cells.items) };

    ghost invariant = { λ r. record {
      ring : IsRing (told N.value r.cells.items) (places_of (told N.value r.cells.items));
      few : length r.cells.items ≤ N.count;
    } };
}

// Returns a cell that is linked to cell 0 in both directions.
#[inline(always)]
fn unlinked_cell<N: CellNumber>() -> Links<N>
    ensures { links_in N.value result ≡ unlinked }
{
    Links {
        previous: N::of(0),
        next: N::of(0),
    }
}

// Links the cell `from` to the cell `to`, and back.
#[inline(always)]
fn join<N: CellNumber>(cells: &mut Vec<Links<N>>, from: usize, to: usize)
    requires from { from < length cells.old.items }
    requires to { to < length cells.old.items }
    requires few { length cells.old.items ≤ N.count }
    ensures joined { IsJoined (told N.value cells.old.items) from to
        (told N.value cells.new.items) }
    ensures cells { length cells.new.items ≡ length cells.old.items }
{
    cells[from].next = N::of(to);
    cells[to].previous = N::of(from);
}

// Returns the place of a cell. Cell 0 has no place.
#[inline(always)]
fn place_of<N: CellNumber>(cell: N) -> Option<usize>
    ensures { result ≡ place_of (N.value cell) }
{
    let number = cell.get();
    if number == 0 { None } else { Some(number - 1) }
}

impl<N: CellNumber> Ring<N> {
    /// Returns a ring without places and without cells. Never allocates.
    pub(crate) fn new(alloc: Global) -> Self
        ensures places { result.places ≡ [] }
        ensures cells { result.cells ≡ 0 }
    {
        Ring {
            cells: Vec::new(alloc),
        }
    }

    /// Returns the number of places that have cells.
    #[inline(always)]
    pub(crate) fn cells(&self) -> usize
        ensures cells { result ≡ self.now.cells }

        // The following is true of every ring.
        ensures few { self.now.cells < N.count }
        ensures below { (p : ℕ) → Contains self.now.places p → p < self.now.cells }
        ensures fits { length self.now.places ≤ self.now.cells }
        ensures distinct { AllPairs (λ a b. a ≢ b) self.now.places }
    {
        self.cells.len().saturating_sub(1)
    }

    /// Makes cells for each place below `to`. If it runs out of memory, nothing changes.
    pub(crate) fn grow(&mut self, to: usize) -> Result<(), NoMemory>
        requires above { self.old.cells ≤ to }
        requires few { to < N.count }
        ensures places { self.new.places ≡ self.old.places }
        ensures ok { OnOk result (self.new.cells ≡ to) }
        ensures err { OnErr result (self.new ≡ self.old) }
    {
        let Some(cells) = to.checked_add(1) else {
            return Err(NoMemory);
        };
        let more = cells - self.cells.len();
        if self.cells.try_reserve_exact(more).is_err() {
            return Err(NoMemory);
        }
        let Ok(()) = self.cells.resize(cells, unlinked_cell()) else {
            unreachable!()
        };
        Ok(())
    }

    /// Returns a ring of the same places whose links have another width. It has cells for each place below `to`.
    ///
    /// If it runs out of memory, it returns no ring.
    pub(crate) fn copied<M: CellNumber>(&self, to: usize) -> Result<Ring<M>, NoMemory>
        requires above { self.now.cells ≤ to }
        requires few { to < M.count }
        ensures places { IfOk result (λ ring. ring.places ≡ self.now.places) }
        ensures cells { IfOk result (λ ring. ring.cells ≡ to) }
    {
        let mut copy: Ring<M> = Ring::new(*self.cells.allocator());
        copy.grow(to)?;
        let mut next = self.first();
        for _ in 0..self.cells() {
            let Some(place) = next else {
                break;
            };
            copy.push_back(place);
            next = self.after(place);
        }
        Ok(copy)
    }

    /// Removes the cells of the places from `to` on. None of these places is in the ring. Keeps the memory of the cells.
    pub(crate) fn shrink(&mut self, to: usize)
        requires cells { to ≤ self.old.cells }
        requires below { (p : ℕ) → Contains self.old.places p → p < to }
        ensures places { self.new.places ≡ self.old.places }
        ensures cells { self.new.cells ≡ to }
    {
        self.cells.truncate(to + 1);
    }

    /// Appends a place.
    #[inline(always)]
    pub(crate) fn push_back(&mut self, place: usize)
        requires cell { place < self.old.cells }
        requires absent { Contains self.old.places place → ⊥ }
        ensures places { self.new.places ≡ self.old.places ++ place ∷ [] }
        ensures cells { self.new.cells ≡ self.old.cells }
        ensures distinct { AllPairs (λ a b. a ≢ b) self.new.places }
    {
        let last = self.cells[0].previous;
        join(&mut self.cells, last.get(), place + 1);
        join(&mut self.cells, place + 1, 0);
    }

    /// Puts a place before all others.
    #[inline(always)]
    pub(crate) fn push_front(&mut self, place: usize)
        requires cell { place < self.old.cells }
        requires absent { Contains self.old.places place → ⊥ }
        ensures places { self.new.places ≡ place ∷ self.old.places }
        ensures cells { self.new.cells ≡ self.old.cells }
        ensures distinct { AllPairs (λ a b. a ≢ b) self.new.places }
    {
        let first = self.cells[0].next;
        join(&mut self.cells, place + 1, first.get());
        join(&mut self.cells, 0, place + 1);
    }

    /// Removes a place from the ring.
    #[inline(always)]
    pub(crate) fn remove(&mut self, place: usize)
        requires { Contains self.old.places place }
        ensures places { (k : ℕ) → slice_get self.old.places k ≡ Some place →
            self.new.places ≡ remove self.old.places k }
        ensures drops { Drops self.old.places place self.new.places }
        ensures cells { self.new.cells ≡ self.old.cells }
        ensures cell { place < self.new.cells }
        ensures distinct { AllPairs (λ a b. a ≢ b) self.new.places }
    {
        let Links { previous, next } = self.cells[place + 1];
        join(&mut self.cells, previous.get(), next.get());
    }

    /// Puts a place of the ring before all others.
    #[inline(always)]
    pub(crate) fn to_front(&mut self, place: usize)
        requires { Contains self.old.places place }
        ensures places { (k : ℕ) → slice_get self.old.places k ≡ Some place →
            self.new.places ≡ place ∷ remove self.old.places k }
        ensures cells { self.new.cells ≡ self.old.cells }
        ensures distinct { AllPairs (λ a b. a ≢ b) self.new.places }
    {
        self.remove(place);
        self.push_front(place);
    }

    /// Puts a place of the ring after all others.
    #[inline(always)]
    pub(crate) fn to_back(&mut self, place: usize)
        requires { Contains self.old.places place }
        ensures places { (k : ℕ) → slice_get self.old.places k ≡ Some place →
            self.new.places ≡ remove self.old.places k ++ place ∷ [] }
        ensures cells { self.new.cells ≡ self.old.cells }
        ensures distinct { AllPairs (λ a b. a ≢ b) self.new.places }
    {
        self.remove(place);
        self.push_back(place);
    }

    /// Removes all places from the ring. The cells stay.
    pub(crate) fn clear(&mut self)
        ensures places { self.new.places ≡ [] }
        ensures cells { self.new.cells ≡ self.old.cells }
    {
        if !self.cells.is_empty() {
            self.cells[0] = unlinked_cell();
        }
    }

    /// Returns the first place, or `None` if the ring has no place.
    #[inline(always)]
    pub(crate) fn first(&self) -> Option<usize>
        ensures { result ≡ slice_get self.now.places 0 }
    {
        if self.cells.is_empty() {
            return None;
        }
        place_of(self.cells[0].next)
    }

    /// Returns the place after `place` in the ring, or `None` if `place` is the last.
    #[inline(always)]
    pub(crate) fn after(&self, place: usize) -> Option<usize>
        requires { Contains self.now.places place }
        ensures { (k : ℕ) → slice_get self.now.places k ≡ Some place →
            result ≡ slice_get self.now.places (k + 1) }
    {
        place_of(self.cells[place + 1].next)
    }
    /// Returns the last place, or `None` if the ring has no place.
    #[inline(always)]
    pub(crate) fn last(&self) -> Option<usize>
        ensures { result ≡ slice_get self.now.places (length self.now.places - 1) }
    {
        if self.cells.is_empty() {
            return None;
        }
        place_of(self.cells[0].previous)
    }

    /// Returns the place before `place` in the ring, or `None` if `place` is the first.
    #[inline(always)]
    pub(crate) fn before(&self, place: usize) -> Option<usize>
        requires { Contains self.now.places place }
        ensures between { (k : ℕ) → slice_get self.now.places (k + 1) ≡ Some place →
            result ≡ slice_get self.now.places k }
        ensures first { slice_get self.now.places 0 ≡ Some place → result ≡ None }
    {
        place_of(self.cells[place + 1].previous)
    }
}

impl<N: CellNumber> Clone for Ring<N> {
    ghost is_clone = { λ ring copy. copy ≡ ring };

    /// Returns a ring of the same places, with as many cells. Allocates all cells at once.
    fn clone(&self) -> Result<Self, AllocError> {
        let cells = Vec::from_slice(*self.cells.allocator(), &self.cells)?;
        Ok(Ring { cells })
    }
}
