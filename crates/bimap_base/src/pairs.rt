//! The store of pairs in numbered places. The code here knows nothing of the values in pairs, nor of how places are found.
ghost use Rattle.std.specs.Prelude.{◌≡◌, ◌+◌, ◌<◌, ◌≤◌, [], max, map, length, option_map, Some, None, IsOk, IsSome, OnOk, OnErr, slice_set, slice_get, slice_index_or, replicate, ℕ, vec_len, vec_capacity};
ghost use Rattle.bimap_base.specs.Slots.{pair_at, IsLive, pair_count};
ghost use Rattle.bimap_base.specs.Places.{pairs_in, compacted};
ghost use Rattle.bimap_base.specs.FreeSlots.{pair_of, AddsFree, IsFreeList, IsRun, IsSound, IsGrown};

mod copy;
mod inverse;

use crate::refusal::NoMemory;
use std::alloc::Global;
use std::marker::Model;
use std::mem;

/// Pairs in numbered places. A place without a pair is free.
#[derive(Drop)]
pub struct Pairs<L, R> {
    slots: Vec<Slot<L, R>>,
    // The number of pairs.
    len: usize,
    // The first free place. If no place is free, this is the number of places.
    next: usize,
}

#[derive(Drop)]
enum Slot<L, R> {
    // A free slot stores the next free place. The last free slot stores the number of places.
    Free(usize),
    Held(L, R),
}

impl<L, R> Model for Pairs<L, R> {
    ghost use Rattle.std.specs.Prelude.{List, Option, map};

    ghost Value = { List (Option (L × R)) };

    ghost use Rattle.bimap_base.specs.FreeSlots.{pair_of, IsSound};

    ghost view = { λ s. map pair_of s.slots.items };

    ghost invariant = { λ s. IsSound s.slots.items s.len s.next };
}

// Appends free slots up to `to`. Each stores the next place, and the last stores `after`.
fn push_run<L, R>(slots: &mut Vec<Slot<L, R>>, to: usize, after: usize)
    requires room { to ≤ vec_capacity slots.old }
    requires more { vec_len slots.old < to }
    ensures kept { (p : ℕ) → p < vec_len slots.old →
        slice_get slots.new.items p ≡ slice_get slots.old.items p }
    ensures adds { AddsFree slots.old.items slots.new.items }
    ensures run { IsRun slots.new.items (vec_len slots.old) to after }
    ensures long { vec_len slots.new ≡ to }
    ensures capacity { vec_capacity slots.new ≡ vec_capacity slots.old }
{
    while slots.len() + 1 < to {
        let next = slots.len() + 1;
        slots.push_reserved(Slot::Free(next));
    }
    slots.push_reserved(Slot::Free(after));
}

// Free slots are appended in blocks of this size. Each block is taken in an order of its own.
const BLOCK: usize = 1_024;

// Appends a block of free slots. After its first slot, a block is taken from some slot inside it, which differs from block to
// block.
//
// Without this, ascending keys would put the places at the top of a tree powers of two apart. All of them would then share a few
// lines of the processor's cache.
fn push_block<L, R>(slots: &mut Vec<Slot<L, R>>)
    requires { vec_len slots.old + 1_024 ≤ vec_capacity slots.old }
    ensures grown { (first : _) (len next : ℕ) → IsGrown first slots.old.items len next →
        IsGrown first slots.new.items len next }
    ensures long { vec_len slots.new ≡ vec_len slots.old + 1_024 }
    ensures capacity { vec_capacity slots.new ≡ vec_capacity slots.old }
{
    let first = slots.len();
    let middle = first + 2 + first / BLOCK * 37 % 1_000;
    let end = first + BLOCK;
    slots.push_reserved(Slot::Free(middle));
    push_run(slots, middle, end);
    push_run(slots, end, first + 1);
}

// Appends free slots up to `to`. The capacity must suffice for them. They are taken after the slots that are free already.
fn push_free<L, R>(slots: &mut Vec<Slot<L, R>>, to: usize)
    requires room { to ≤ vec_capacity slots.old }
    requires fits { vec_len slots.old ≤ to }
    ensures grown { (len next : ℕ) → IsSound slots.old.items len next →
        IsGrown slots.old.items slots.new.items len next }
    ensures long { vec_len slots.new ≡ to }
{
    while to - slots.len() >= BLOCK {
        push_block(slots);
    }
    if slots.len() < to {
        push_run(slots, to, to);
    }
}

impl<L, R> Pairs<L, R> {
    /// Returns a store without places. Never allocates.
    pub fn new(alloc: Global) -> Self
        ensures { result ≡ [] }
    {
        Pairs {
            slots: Vec::new(alloc),
            len: 0,
            next: 0,
        }
    }

    /// Returns the allocator.
    pub fn allocator(&self) -> Global {
        *self.slots.allocator()
    }

    /// Returns the number of places.
    pub fn places(&self) -> usize
        ensures { result ≡ length self.now }
    {
        self.slots.len()
    }

    /// Returns the number of pairs.
    pub fn len(&self) -> usize
        ensures value { result ≡ pair_count self.now }
        ensures bound { result ≤ length self.now }
    {
        self.len
    }

    /// Returns the pair at a place, or `None` if the place has no pair.
    pub fn at(&self, place: usize) -> Option<(&L, &R)>
        ensures { option_map (λ p. (p.0.now, p.1.now)) result ≡ pair_at self.now place }
    {
        match self.slots.get(place) {
            Some(Slot::Held(left, right)) => Some((left, right)),
            _ => None,
        }
    }

    /// Returns the pair at a place that has one, in constant time.
    pub fn held(&self, place: usize) -> (&L, &R)
        requires live { IsLive self.now place }
        ensures { pair_at self.now place ≡ Some (result.0.now, result.1.now) }
    {
        match &self.slots[place] {
            Slot::Held(left, right) => (left, right),
            Slot::Free(_) => unreachable!(),
        }
    }

    /// Moves a pair into a free place, and returns that place. Some place must be free. Never allocates.
    pub fn put(&mut self, left: L, right: R) -> usize
        requires free { pair_count self.old < length self.old }
        ensures there { result < length self.old }
        ensures was_free { pair_at self.old result ≡ None }
        ensures now { self.new ≡ slice_set self.old result (Some (left, right)) }
        ensures count { pair_count self.new ≡ pair_count self.old + 1 }
    {
        let place = self.next;
        match mem::replace(&mut self.slots[place], Slot::Held(left, right)) {
            Slot::Free(next) => {
                self.len += 1;
                self.next = next;
                place
            }
            Slot::Held(_, _) => unreachable!(),
        }
    }

    /// Replaces the pair at a place with another pair, and returns the old pair. Never allocates.
    pub fn swap_in(&mut self, place: usize, left: L, right: R) -> (L, R)
        requires live { IsLive self.old place }
        ensures was { pair_at self.old place ≡ Some result }
        ensures now { self.new ≡ slice_set self.old place (Some (left, right)) }
        ensures count { pair_count self.new ≡ pair_count self.old }
    {
        match mem::replace(&mut self.slots[place], Slot::Held(left, right)) {
            Slot::Held(old_left, old_right) => (old_left, old_right),
            Slot::Free(_) => unreachable!(),
        }
    }

    /// Removes the pair at a place, and returns it. The place is free afterwards.
    pub fn take(&mut self, place: usize) -> (L, R)
        requires live { IsLive self.old place }
        ensures was { pair_at self.old place ≡ Some result }
        ensures now { self.new ≡ slice_set self.old place None }
        ensures count { pair_count self.new + 1 ≡ pair_count self.old }
    {
        let free = Slot::Free(self.next);
        match mem::replace(&mut self.slots[place], free) {
            Slot::Held(left, right) => {
                self.len -= 1;
                self.next = place;
                (left, right)
            }
            Slot::Free(_) => unreachable!(),
        }
    }

    /// Adds exactly the missing places below `to`. Allocates only if places are missing. If it runs out of memory, nothing
    /// changes.
    pub fn grow(&mut self, to: usize) -> Result<(), NoMemory>
        ensures ok { OnOk result (length self.new ≡ max to (length self.old)) }
        ensures kept { (place : _) → pair_at self.new place ≡ pair_at self.old place }
        ensures count { pair_count self.new ≡ pair_count self.old }
        ensures succeeds { to ≤ length self.old → IsOk result }
        ensures unchanged { to ≤ length self.old → self.new ≡ self.old }
        ensures err { OnErr result (self.new ≡ self.old) }
    {
        let places = self.slots.len();
        if to <= places {
            return Ok(());
        }
        if self.slots.try_reserve_exact(to - places).is_err() {
            return Err(NoMemory);
        }
        push_free(&mut self.slots, to);
        Ok(())
    }

    /// Moves the pairs to the first of exactly `to` places, in their order. If it runs out of memory, nothing changes.
    pub fn compact(&mut self, to: usize) -> Result<(), NoMemory>
    where
        L: Drop,
        R: Drop,
        requires fits { pair_count self.old ≤ to }
        ensures ok { OnOk result (self.new ≡ compacted (pairs_in self.old) to) }
        ensures err { OnErr result (self.new ≡ self.old) }
    {
        let alloc = *self.slots.allocator();
        let Ok(kept) = Vec::with_capacity(alloc, to) else {
            return Err(NoMemory);
        };
        let slots = mem::replace(&mut self.slots, kept);
        for slot in slots {
            match slot {
                Slot::Held(left, right) => self.slots.push_reserved(Slot::Held(left, right)),
                Slot::Free(_) => {}
            }
        }
        self.next = self.slots.len();
        push_free(&mut self.slots, to);
        Ok(())
    }

    /// Drops all pairs. The places stay.
    pub fn clear(&mut self)
    where
        L: Drop,
        R: Drop,
        ensures places { length self.new ≡ length self.old }
        ensures free { (place : _) → pair_at self.new place ≡ None }
        ensures count { pair_count self.new ≡ 0 }
    {
        let places = self.slots.len();
        self.slots.clear();
        self.len = 0;
        self.next = 0;
        push_free(&mut self.slots, places);
    }
}
