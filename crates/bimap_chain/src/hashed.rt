//! `Hashed` and its calls. Each call finds out once which width the links have. Nothing here knows values.
ghost use Rattle.std.specs.Prelude.{◌≡◌, ◌<◌, ◌≤◌, ◌-◌, ℕ, [], ◌++◌, length, None, Some, replicate, is_some, option_map, slice_set, IfSome, IfNone, IfOk, OnOk, OnErr, IsOk, IsSome};
ghost use Rattle.bimap_base.specs.Places.{pairs_in, compacted};
ghost use Rattle.bimap_chain.specs.Chains.{number_at, IsListed, AreNumbered, Matches};
ghost use Rattle.bimap_chain.specs.Threads.{numbers_of, IsSound};

use crate::chains::MOST;
use crate::link::Link;
use crate::threads::Threads;
use bimap_base::{NoMemory, Spread};
use std::alloc::Global;
use std::marker::Model;

// From this count of places on, links of four bytes are too narrow.
const WIDE: usize = 4_294_967_295;

// The threads. The links have four bytes while fewer than `WIDE` places have cells. From then on they have eight.
#[derive(Drop)]
enum ByWidth {
    Narrow(Threads<u32>),
    Wide(Threads<usize>),
}

/// A set of places, each listed under the hash number of its key.
///
/// A contract sees a list with one entry for each cell. The entry is the hash number under which the place of the cell is
/// listed, or `None`.
///
/// A call that is handed keys requires that each listed place has a key, and is listed under the present hash number of this
/// key. Remove a place before its key changes to an unequal key, and insert it afterwards.
#[derive(Drop)]
pub struct Hashed {
    by_width: ByWidth,
}

impl Model for Hashed {
    ghost use Rattle.std.specs.Prelude.{ℕ, List, Option};

    ghost Value = { List (Option ℕ) };

    ghost use Rattle.bimap_chain.specs.Threads.{numbers_of, IsSound};
    ghost use Rattle.bimap_chain.specs.ByWidth.{threads_in};

    ghost view = { λ h. numbers_of (threads_in h.by_width) };

    ghost invariant = { λ h. IsSound (threads_in h.by_width) };
}

// Returns the listed places moved to the first of `to` cells. The links get the width that fits `to`.
fn compacted_of<L: Link>(threads: &Threads<L>, to: usize) -> Result<Hashed, NoMemory>
    requires sound { IsSound threads.now }
    requires fits { length (pairs_in (numbers_of threads.now)) ≤ to }
    ensures { IfOk result (λ h. h ≡ compacted (pairs_in (numbers_of threads.now)) to) }
{
    let by_width = if to < WIDE {
        ByWidth::Narrow(threads.compacted(to)?)
    } else if to <= MOST {
        ByWidth::Wide(threads.compacted(to)?)
    } else {
        return Err(NoMemory);
    };
    Ok(Hashed { by_width })
}

impl Hashed {
    /// Returns an index without places and without cells. Never allocates.
    pub fn new(alloc: Global) -> Self
        ensures { result ≡ [] }
    {
        Hashed {
            by_width: ByWidth::Narrow(Threads::new(alloc)),
        }
    }

    /// Returns the listed place whose key is equal to the query, or `None`. Hashes the query once, and follows one chain.
    #[inline(always)]
    pub fn find<S: Spread>(&self, spread: &S, query: S::Query) -> Option<usize>
        requires { AreNumbered (S.key_at spread.now) (S.number_of spread.now) self.now }
        ensures found { IfSome result (Matches (S.key_at spread.now)
            (λ k. S.same_key k query) self.now) }
        ensures absent { IfNone result ((p : ℕ) →
            ¬ Matches (S.key_at spread.now) (λ k. S.same_key k query) self.now p) }
    {
        self.find_numbered(spread, spread.hash_query(query), query)
    }

    /// Does what `find` does, with the hash number of the query from the caller.
    #[inline(always)]
    pub fn find_numbered<S: Spread>(
        &self,
        spread: &S,
        number: u32,
        query: S::Query,
    ) -> Option<usize>
        requires numbered { AreNumbered (S.key_at spread.now) (S.number_of spread.now) self.now }
        requires number { number ≡ S.query_number spread.now query }
        ensures found { IfSome result (Matches (S.key_at spread.now)
            (λ k. S.same_key k query) self.now) }
        ensures absent { IfNone result ((p : ℕ) →
            ¬ Matches (S.key_at spread.now) (λ k. S.same_key k query) self.now p) }
    {
        match &self.by_width {
            ByWidth::Narrow(threads) => threads.find_numbered(spread, number, query),
            ByWidth::Wide(threads) => threads.find_numbered(spread, number, query),
        }
    }

    /// Lists the place under the present hash number of its key. It is for a caller that has only the keys. An index of a side
    /// has the number from its search. Never allocates.
    pub fn insert<S: Spread>(&mut self, spread: &S, place: usize)
        requires live { IsSome (S.key_at spread.now place) }
        requires cell { place < length self.old }
        requires free { number_at self.old place ≡ None }
        ensures { IfSome (S.key_at spread.now place)
            (λ k. self.new ≡ slice_set self.old place (Some (S.number_of spread.now k))) }
    {
        self.insert_numbered(place, spread.hash_place(place));
    }

    /// Lists the place under a number. Never allocates.
    #[inline(always)]
    pub fn insert_numbered(&mut self, place: usize, number: u32)
        requires cell { place < length self.old }
        requires free { number_at self.old place ≡ None }
        ensures { self.new ≡ slice_set self.old place (Some number) }
    {
        match &mut self.by_width {
            ByWidth::Narrow(threads) => threads.insert_numbered(place, number),
            ByWidth::Wide(threads) => threads.insert_numbered(place, number),
        }
    }

    /// Removes a place. Never allocates, and hashes nothing.
    #[inline(always)]
    pub fn remove(&mut self, place: usize)
        requires { IsListed self.old place }
        ensures { self.new ≡ slice_set self.old place None }
    {
        match &mut self.by_width {
            ByWidth::Narrow(threads) => threads.remove(place),
            ByWidth::Wide(threads) => threads.remove(place),
        }
    }

    /// Removes the place whose key is equal to the query, and returns it. Hashes the query once, and follows the chain once.
    /// Never allocates.
    #[inline(always)]
    pub fn take<S: Spread>(&mut self, spread: &S, query: S::Query) -> Option<usize>
        requires { AreNumbered (S.key_at spread.now) (S.number_of spread.now) self.old }
        ensures found { IfSome result (Matches (S.key_at spread.now)
            (λ k. S.same_key k query) self.old) }
        ensures value { IfSome result (λ p. self.new ≡ slice_set self.old p None) }
        ensures absent { IfNone result ((p : ℕ) →
            ¬ Matches (S.key_at spread.now) (λ k. S.same_key k query) self.old p) }
        ensures unchanged { IfNone result (self.new ≡ self.old) }
    {
        let number = spread.hash_query(query);
        match &mut self.by_width {
            ByWidth::Narrow(threads) => threads.take_numbered(spread, number, query),
            ByWidth::Wide(threads) => threads.take_numbered(spread, number, query),
        }
    }

    /// Makes a cell for each place below `to` that has none, and no further cell. Hashes nothing, and does not read the keys. It
    /// is for a caller that hands its keys to each call. An index of a side has no keys at hand.
    ///
    /// Allocates only if cells are missing. If it runs out of memory, nothing changes.
    pub fn grow<S: Spread>(&mut self, _spread: &S, to: usize) -> Result<(), NoMemory>
        ensures ok { OnOk result (self.new ≡ self.old ++ replicate (to - length self.old) None) }
        ensures err { OnErr result (self.new ≡ self.old) }
        ensures succeeds { to ≤ length self.old → IsOk result }
    {
        self.grow_to(to)
    }

    /// Does what `grow` does, without keys.
    pub fn grow_to(&mut self, to: usize) -> Result<(), NoMemory>
        ensures ok { OnOk result (self.new ≡ self.old ++ replicate (to - length self.old) None) }
        ensures err { OnErr result (self.new ≡ self.old) }
        ensures succeeds { to ≤ length self.old → IsOk result }
    {
        if to <= self.cells() {
            return Ok(());
        }
        if to > MOST {
            return Err(NoMemory);
        }
        match &mut self.by_width {
            ByWidth::Narrow(threads) => {
                if to < WIDE {
                    return threads.grow(to);
                }
                let wide = threads.widened(to)?;
                self.by_width = ByWidth::Wide(wide);
                Ok(())
            }
            ByWidth::Wide(threads) => threads.grow(to),
        }
    }

    // Returns the number of cells.
    fn cells(&self) -> usize
        ensures { result ≡ length self.now }
    {
        match &self.by_width {
            ByWidth::Narrow(threads) => threads.len(),
            ByWidth::Wide(threads) => threads.len(),
        }
    }

    /// Returns an index of exactly `to` cells. Its first cells list the numbers of the listed places, in ascending order of
    /// place. Hashes nothing. If it runs out of memory, it returns no index.
    pub fn compacted(&self, to: usize) -> Result<Self, NoMemory>
        requires { length (pairs_in self.now) ≤ to }
        ensures { IfOk result (λ h. h ≡ compacted (pairs_in self.now) to) }
    {
        match &self.by_width {
            ByWidth::Narrow(threads) => compacted_of(threads, to),
            ByWidth::Wide(threads) => compacted_of(threads, to),
        }
    }

    /// Returns an index of as many cells, which lists the same places. Each is listed under the present hash number of its key.
    /// Hashes each key once, and compares none. Takes time linear in the number of cells.
    ///
    /// Allocates all cells at once. If it runs out of memory, it returns no index.
    pub fn rehashed<S: Spread>(&self, spread: &S) -> Result<Self, NoMemory>
        requires { (place : ℕ) → is_some (S.key_at spread.now place)
            ≡ is_some (number_at self.now place) }
        ensures cells { IfOk result (λ h. length h ≡ length self.now) }
        ensures numbers { IfOk result (λ h. (place : ℕ) → number_at h place
            ≡ option_map (S.number_of spread.now) (S.key_at spread.now place)) }
    {
        let by_width = match &self.by_width {
            ByWidth::Narrow(threads) => ByWidth::Narrow(threads.rehashed(spread)?),
            ByWidth::Wide(threads) => ByWidth::Wide(threads.rehashed(spread)?),
        };
        Ok(Hashed { by_width })
    }

    /// Removes all places. The cells stay.
    pub fn clear(&mut self)
        ensures { self.new ≡ replicate (length self.old) None }
    {
        match &mut self.by_width {
            ByWidth::Narrow(threads) => threads.clear(),
            ByWidth::Wide(threads) => threads.clear(),
        }
    }
}
