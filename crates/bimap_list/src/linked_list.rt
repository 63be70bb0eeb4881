//! `LinkedList` and its calls. Each call finds out once which width the links have.
ghost use Rattle.std.specs.Prelude.{◌≡◌, ◌≢◌, ℕ, ◌+◌, ◌<◌, ◌≤◌, ◌-◌, ◌++◌, ◌∷◌, [], length, max, slice_get, Some, None, IsOk, OnOk, OnErr};
ghost use Rattle.std.specs.List.{AllPairs, Contains, remove};
ghost use Rattle.bimap_base.specs.Keyed.{Drops};

use crate::ring::Ring;
use bimap_base::NoMemory;
use std::alloc::{AllocError, Global};
use std::marker::Model;

// From this count of places on, links of four bytes are too narrow.
const WIDE: usize = 4_294_967_296;

// The cells. The links have four bytes while fewer than `WIDE` places have cells. From then on they have eight.
#[derive(Drop)]
enum ByWidth {
    Narrow(Ring<u32>),
    Wide(Ring<usize>),
}

/// A list of distinct places, with a cell for each place that may be in it. A cell takes 8 bytes while fewer than 2^32 places
/// have cells. From then on a cell takes 16 bytes.
///
/// The cells are linked into a ring. It leads from cell 0 through the cells of the listed places in order, and back to cell 0.
/// The number of a place's cell is the place plus one. A contract sees the list and the number of places that have cells.
#[derive(Drop)]
pub struct LinkedList {
    by_width: ByWidth,
}

impl Model for LinkedList {
    ghost use Rattle.bimap_list.specs.Ring.{Listing};
    ghost use Rattle.bimap_list.specs.ByWidth.{ring_in};

    ghost Value = { Listing };

    ghost view = { λ l. ring_in l.by_width };
}

impl LinkedList {
    /// Returns an empty list without cells. Never allocates.
    pub fn new(alloc: Global) -> Self
        ensures places { result.places ≡ [] }
        ensures cells { result.cells ≡ 0 }
    {
        LinkedList {
            by_width: ByWidth::Narrow(Ring::new(alloc)),
        }
    }

    /// Returns the number of places that have cells.
    pub fn cells(&self) -> usize
        ensures cells { result ≡ self.now.cells }

        // The following is true of every list.
        ensures below { (p : ℕ) → Contains self.now.places p → p < self.now.cells }
        ensures fits { length self.now.places ≤ self.now.cells }
        ensures distinct { AllPairs (λ a b. a ≢ b) self.now.places }
    {
        match &self.by_width {
            ByWidth::Narrow(ring) => ring.cells(),
            ByWidth::Wide(ring) => ring.cells(),
        }
    }

    /// Makes a cell for each place below `to` that has none. The time is at most proportional to `to`.
    ///
    /// Allocates only if cells are missing. If it runs out of memory, nothing changes.
    pub fn grow(&mut self, to: usize) -> Result<(), NoMemory>
        ensures places { self.new.places ≡ self.old.places }
        ensures ok { OnOk result (self.new.cells ≡ max self.old.cells to) }
        ensures err { OnErr result (self.new ≡ self.old) }
        ensures enough { to ≤ self.old.cells → IsOk result }
    {
        if to <= self.cells() {
            return Ok(());
        }
        match &mut self.by_width {
            ByWidth::Narrow(ring) => {
                if to < WIDE {
                    return ring.grow(to);
                }
                let wide = ring.copied(to)?;
                self.by_width = ByWidth::Wide(wide);
                Ok(())
            }
            ByWidth::Wide(ring) => ring.grow(to),
        }
    }

    /// Removes the cells of the places from `to` on. None of these places is in the list. Keeps the memory of the cells.
    pub fn shrink(&mut self, to: usize)
        requires cells { to ≤ self.old.cells }
        requires below { (p : ℕ) → Contains self.old.places p → p < to }
        ensures places { self.new.places ≡ self.old.places }
        ensures cells { self.new.cells ≡ to }
    {
        match &mut self.by_width {
            ByWidth::Narrow(ring) => ring.shrink(to),
            ByWidth::Wide(ring) => ring.shrink(to),
        }
    }

    /// Appends a place.
    #[inline(always)]
    pub fn push_back(&mut self, place: usize)
        requires cell { place < self.old.cells }
        requires absent { Contains self.old.places place → ⊥ }
        ensures places { self.new.places ≡ self.old.places ++ place ∷ [] }
        ensures cells { self.new.cells ≡ self.old.cells }
        ensures distinct { AllPairs (λ a b. a ≢ b) self.new.places }
    {
        match &mut self.by_width {
            ByWidth::Narrow(ring) => ring.push_back(place),
            ByWidth::Wide(ring) => ring.push_back(place),
        }
    }

    /// Removes a place from the list.
    #[inline(always)]
    pub fn remove(&mut self, place: usize)
        requires { Contains self.old.places place }
        ensures places { (k : ℕ) → slice_get self.old.places k ≡ Some place →
            self.new.places ≡ remove self.old.places k }
        ensures drops { Drops self.old.places place self.new.places }
        ensures cells { self.new.cells ≡ self.old.cells }
        ensures distinct { AllPairs (λ a b. a ≢ b) self.new.places }
    {
        match &mut self.by_width {
            ByWidth::Narrow(ring) => ring.remove(place),
            ByWidth::Wide(ring) => ring.remove(place),
        }
    }

    /// Puts a place of the list before all others.
    #[inline(always)]
    pub fn to_front(&mut self, place: usize)
        requires { Contains self.old.places place }
        ensures places { (k : ℕ) → slice_get self.old.places k ≡ Some place →
            self.new.places ≡ place ∷ remove self.old.places k }
        ensures cells { self.new.cells ≡ self.old.cells }
        ensures distinct { AllPairs (λ a b. a ≢ b) self.new.places }
    {
        match &mut self.by_width {
            ByWidth::Narrow(ring) => ring.to_front(place),
            ByWidth::Wide(ring) => ring.to_front(place),
        }
    }

    /// Puts a place of the list after all others.
    #[inline(always)]
    pub fn to_back(&mut self, place: usize)
        requires { Contains self.old.places place }
        ensures places { (k : ℕ) → slice_get self.old.places k ≡ Some place →
            self.new.places ≡ remove self.old.places k ++ place ∷ [] }
        ensures cells { self.new.cells ≡ self.old.cells }
        ensures distinct { AllPairs (λ a b. a ≢ b) self.new.places }
    {
        match &mut self.by_width {
            ByWidth::Narrow(ring) => ring.to_back(place),
            ByWidth::Wide(ring) => ring.to_back(place),
        }
    }

    /// Removes all places from the list. The cells stay.
    pub fn clear(&mut self)
        ensures places { self.new.places ≡ [] }
        ensures cells { self.new.cells ≡ self.old.cells }
    {
        match &mut self.by_width {
            ByWidth::Narrow(ring) => ring.clear(),
            ByWidth::Wide(ring) => ring.clear(),
        }
    }

    /// Returns the first place, or `None` if the list is empty.
    #[inline(always)]
    pub fn first(&self) -> Option<usize>
        ensures { result ≡ slice_get self.now.places 0 }
    {
        match &self.by_width {
            ByWidth::Narrow(ring) => ring.first(),
            ByWidth::Wide(ring) => ring.first(),
        }
    }

    /// Returns the place after `place` in the list, or `None` if `place` is the last.
    #[inline(always)]
    pub fn after(&self, place: usize) -> Option<usize>
        requires { Contains self.now.places place }
        ensures { (k : ℕ) → slice_get self.now.places k ≡ Some place →
            result ≡ slice_get self.now.places (k + 1) }
    {
        match &self.by_width {
            ByWidth::Narrow(ring) => ring.after(place),
            ByWidth::Wide(ring) => ring.after(place),
        }
    }
    /// Returns the last place, or `None` if the list is empty.
    #[inline(always)]
    pub fn last(&self) -> Option<usize>
        ensures { result ≡ slice_get self.now.places (length self.now.places - 1) }
    {
        match &self.by_width {
            ByWidth::Narrow(ring) => ring.last(),
            ByWidth::Wide(ring) => ring.last(),
        }
    }

    /// Returns the place before `place` in the list, or `None` if `place` is the first.
    #[inline(always)]
    pub fn before(&self, place: usize) -> Option<usize>
        requires { Contains self.now.places place }
        ensures between { (k : ℕ) → slice_get self.now.places (k + 1) ≡ Some place →
            result ≡ slice_get self.now.places k }
        ensures first { slice_get self.now.places 0 ≡ Some place → result ≡ None }
    {
        match &self.by_width {
            ByWidth::Narrow(ring) => ring.before(place),
            ByWidth::Wide(ring) => ring.before(place),
        }
    }
}

impl Clone for LinkedList {
    ghost is_clone = { λ list copy. copy ≡ list };

    /// Returns a list of the same places in the same order, with as many cells. Takes time linear in the number of cells, and
    /// allocates all cells at once. If it runs out of memory, it returns no list.
    fn clone(&self) -> Result<Self, AllocError> {
        let by_width = match &self.by_width {
            ByWidth::Narrow(ring) => ByWidth::Narrow(ring.clone()?),
            ByWidth::Wide(ring) => ByWidth::Wide(ring.clone()?),
        };
        Ok(LinkedList { by_width })
    }
}
