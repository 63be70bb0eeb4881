//! The calls that follow a chain. They know keys only through `Spread`.
ghost use Rattle.std.specs.Prelude.{◌≡◌, ℕ, ◌+◌, ◌*◌, ◌<◌, ◌≤◌, ◌-◌, ◌%◌, ◌^◌, ◌++◌, length, None, Some, replicate, is_some, option_map, slice_set, slice_index_or, OnOk, OnErr, IfSome, IfNone, IfOk};
ghost use Rattle.std.specs.Int.{IsPowerOfTwo};
ghost use Rattle.bimap_base.specs.Places.{pairs_in, compacted};
ghost use Rattle.bimap_chain.specs.Chains.{IsThreaded, IsListed, GoesOver, AreNumbered, Matches, link_or_head, number_at};
ghost use Rattle.bimap_chain.specs.Threads.{numbers_of, links_of, IsSized, IsSound};

use crate::link::Link;
use crate::threads::Threads;
use bimap_base::{NoMemory, Spread};

/// No memory has space for more cells than this.
pub(crate) const MOST: usize = usize::MAX / 4 + 1;

// Up to this many cells, each cell has four heads. These heads still fit into the processor's cache. With four heads a cell, a
// head leads less often to an unequal key, which costs a mispredicted branch.
const FEW: usize = 4_096;

// Returns how many heads there are to be for `cells` cells, if there are `heads` now.
fn heads_for(heads: usize, cells: usize) -> usize
    requires few { cells ≤ 2 ^ 62 }
    requires power { 0 < heads → IsPowerOfTwo heads }
    ensures sized { IsSized cells result }
    ensures not_fewer { heads ≤ result }
{
    let wanted = 2 * cells.max(2 * cells.min(FEW));
    if wanted <= heads {
        heads
    } else {
        wanted.next_power_of_two()
    }
}

impl<L: Link> Threads<L> {
    /// Returns the bucket of a number.
    #[inline(always)]
    fn bucket(&self, number: u32) -> usize
        requires some { 0 < length self.now.heads }
        requires power { 0 < length self.now.heads → IsPowerOfTwo (length self.now.heads) }
        ensures value { result ≡ number % length self.now.heads }
        ensures bound { result < length self.now.heads }
    {
        number as usize & (self.buckets() - 1)
    }

    /// Returns the place just before `place` in the chain of the bucket, whether `place` is listed or not. Returns `None` if only
    /// the head is before it.
    #[inline(always)]
    fn over(&self, bucket: usize, place: usize) -> Option<usize>
        requires threaded { IsThreaded (numbers_of self.now) (links_of self.now) self.now.heads }
        requires bucket { bucket < length self.now.heads }
        requires place { place < length (numbers_of self.now) }
        ensures { GoesOver (numbers_of self.now) (length self.now.heads) bucket place result }
    {
        let mut over = None;
        let mut end = self.len();
        let mut at = self.head(bucket);
        while let Some(next) = at {
            if next <= place {
                break;
            }
            over = at;
            end = next;
            at = self.next(next);
        }
        over
    }

    /// Returns the place that the link of the place `over` leads to. If `over` is `None`, that is the place at the head.
    #[inline(always)]
    fn link(&self, bucket: usize, over: Option<usize>) -> Option<usize>
        requires bucket { bucket < length self.now.heads }
        requires over { IfSome over (λ p. p < length (numbers_of self.now)) }
        requires listed { IfSome over (λ p. IsListed (numbers_of self.now) p) }
        ensures { result ≡ link_or_head (links_of self.now) self.now.heads bucket over }
    {
        match over {
            None => self.head(bucket),
            Some(place) => self.next(place),
        }
    }

    /// Follows the chain of a bucket to the listed place whose key is equal to the query. Returns that place and the place before
    /// it in the chain.
    #[inline(always)]
    fn seek<S: Spread>(
        &self,
        bucket: usize,
        spread: &S,
        number: u32,
        query: S::Query,
    ) -> (Option<usize>, Option<usize>)
        requires threaded { IsThreaded (numbers_of self.now) (links_of self.now) self.now.heads }
        requires bucket { bucket ≡ number % length self.now.heads }
        requires bound { bucket < length self.now.heads }
        requires numbered { AreNumbered (S.key_at spread.now) (S.number_of spread.now)
            (numbers_of self.now) }
        requires number { number ≡ S.query_number spread.now query }
        ensures found { IfSome result.0 (Matches (S.key_at spread.now) (λ k. S.same_key k query)
            (numbers_of self.now)) }
        ensures over { IfSome result.0 (λ p. GoesOver (numbers_of self.now)
            (length self.now.heads) bucket p result.1) }
        ensures absent { IfNone result.0 ((p : ℕ) →
            ¬ Matches (S.key_at spread.now) (λ k. S.same_key k query) (numbers_of self.now) p) }
    {
        let mut over = None;
        let mut end = self.len();
        let mut at = self.head(bucket);
        while let Some(place) = at {
            if self.has_number(place, number) && spread.same(place, query) {
                return (at, over);
            }
            over = at;
            end = place;
            at = self.next(place);
        }
        (None, over)
    }

    /// Returns the listed place whose key is equal to the query, or `None`. The caller passes the hash number of the query.
    #[inline(always)]
    pub(crate) fn find_numbered<S: Spread>(
        &self,
        spread: &S,
        number: u32,
        query: S::Query,
    ) -> Option<usize>
        requires sound { IsSound self.now }
        requires numbered { AreNumbered (S.key_at spread.now) (S.number_of spread.now)
            (numbers_of self.now) }
        requires number { number ≡ S.query_number spread.now query }
        ensures found { IfSome result (Matches (S.key_at spread.now) (λ k. S.same_key k query)
            (numbers_of self.now)) }
        ensures absent { IfNone result ((p : ℕ) →
            ¬ Matches (S.key_at spread.now) (λ k. S.same_key k query) (numbers_of self.now) p) }
    {
        if self.buckets() == 0 {
            return None;
        }
        self.seek(self.bucket(number), spread, number, query).0
    }

    /// Lists the place under a number. Never allocates.
    #[inline(always)]
    pub(crate) fn insert_numbered(&mut self, place: usize, number: u32)
        requires sound { IsSound self.old }
        requires cell { place < length (numbers_of self.old) }
        requires free { number_at (numbers_of self.old) place ≡ None }
        ensures sound { IsSound self.new }
        ensures numbers { numbers_of self.new ≡ slice_set
            (numbers_of self.old) place (Some number) }
    {
        let bucket = self.bucket(number);
        let over = self.over(bucket, place);
        let next = self.link(bucket, over);
        self.list(place, number, next);
        self.set_link(bucket, over, Some(place));
    }

    /// Removes a place. The link that led to it now leads to the next place of the chain. Never allocates.
    #[inline(always)]
    fn cut(&mut self, bucket: usize, over: Option<usize>, place: usize)
        requires sound { IsSound self.old }
        requires listed { (number : ℕ) × (number_at (numbers_of self.old) place ≡ Some number)
            × (bucket ≡ number % length self.old.heads) }
        requires over { GoesOver (numbers_of self.old) (length self.old.heads) bucket place over }
        ensures sound { IsSound self.new }
        ensures numbers { numbers_of self.new ≡ slice_set (numbers_of self.old) place None }
    {
        let next = self.next(place);
        self.unlist(place);
        self.set_link(bucket, over, next);
    }

    /// Removes a place. Never allocates.
    #[inline(always)]
    pub(crate) fn remove(&mut self, place: usize)
        requires sound { IsSound self.old }
        requires listed { IsListed (numbers_of self.old) place }
        ensures sound { IsSound self.new }
        ensures numbers { numbers_of self.new ≡ slice_set (numbers_of self.old) place None }
    {
        let Some(number) = self.number(place) else {
            unreachable!()
        };
        let bucket = self.bucket(number);
        self.cut(bucket, self.over(bucket, place), place);
    }

    /// Removes the place whose key is equal to the query, and returns it. Follows the chain once. Never allocates.
    #[inline(always)]
    pub(crate) fn take_numbered<S: Spread>(
        &mut self,
        spread: &S,
        number: u32,
        query: S::Query,
    ) -> Option<usize>
        requires sound { IsSound self.old }
        requires numbered { AreNumbered (S.key_at spread.now) (S.number_of spread.now)
            (numbers_of self.old) }
        requires number { number ≡ S.query_number spread.now query }
        ensures sound { IsSound self.new }
        ensures found { IfSome result (Matches (S.key_at spread.now) (λ k. S.same_key k query)
            (numbers_of self.old)) }
        ensures numbers { IfSome result (λ p. numbers_of self.new
            ≡ slice_set (numbers_of self.old) p None) }
        ensures absent { IfNone result ((p : ℕ) →
            ¬ Matches (S.key_at spread.now) (λ k. S.same_key k query) (numbers_of self.old) p) }
        ensures unchanged { IfNone result (self.new ≡ self.old) }
    {
        if self.buckets() == 0 {
            return None;
        }
        let bucket = self.bucket(number);
        let (at, over) = self.seek(bucket, spread, number, query);
        self.cut(bucket, over, at?);
        at
    }

    /// Makes cells for all places below `to`, and links all chains again. If it runs out of memory, nothing changes.
    pub(crate) fn grow(&mut self, to: usize) -> Result<(), NoMemory>
        requires sound { IsSound self.old }
        requires above { length (numbers_of self.old) ≤ to }
        requires most { to ≤ 2 ^ 62 }
        requires few { to < L.width.free }
        ensures sound { IsSound self.new }
        ensures ok { OnOk result (numbers_of self.new ≡ numbers_of self.old
            ++ replicate (to - length (numbers_of self.old)) None) }
        ensures err { OnErr result (numbers_of self.new ≡ numbers_of self.old) }
    {
        let heads = heads_for(self.buckets(), to);
        self.extend(to, heads)?;
        self.thread();
        Ok(())
    }

    /// Returns threads of `to` cells with links of another width. They list the same places under the same numbers. If it runs
    /// out of memory, it returns no threads.
    pub(crate) fn widened<M: Link>(&self, to: usize) -> Result<Threads<M>, NoMemory>
        requires above { length (numbers_of self.now) ≤ to }
        requires most { to ≤ 2 ^ 62 }
        requires few { to < M.width.free }
        ensures sound { IfOk result (λ t. IsSound t) }
        ensures numbers { IfOk result (λ t. numbers_of t ≡ numbers_of self.now
            ++ replicate (to - length (numbers_of self.now)) None) }
    {
        let mut wide: Threads<M> = Threads::new(self.allocator());
        wide.grow(to)?;
        let cells = self.len();
        for place in 0..cells {
            if let Some(number) = self.number(place) {
                wide.insert_numbered(place, number);
            }
        }
        Ok(wide)
    }

    /// Returns threads of exactly `to` cells. Their first cells list the numbers of the listed places, in ascending order of
    /// place. Hashes nothing. If it runs out of memory, it returns no threads.
    pub(crate) fn compacted<M: Link>(&self, to: usize) -> Result<Threads<M>, NoMemory>
        requires fits { length (pairs_in (numbers_of self.now)) ≤ to }
        requires most { to ≤ 2 ^ 62 }
        requires few { to < M.width.free }
        ensures sound { IfOk result (λ t. IsSound t) }
        ensures numbers { IfOk result (λ t. numbers_of t
            ≡ compacted (pairs_in (numbers_of self.now)) to) }
    {
        let mut kept: Threads<M> = Threads::new(self.allocator());
        kept.grow(to)?;
        let mut next = 0;
        for place in 0..self.len() {
            if let Some(number) = self.number(place) {
                kept.insert_numbered(next, number);
                next += 1;
            }
        }
        Ok(kept)
    }

    /// Returns threads of as many cells, which list the same places. Each is listed under the number of its key. Hashes each key
    /// once, and compares none. If it runs out of memory, it returns no threads.
    pub(crate) fn rehashed<S: Spread>(&self, spread: &S) -> Result<Threads<L>, NoMemory>
        requires sound { IsSound self.now }
        requires keys { (place : ℕ) → is_some (S.key_at spread.now place)
            ≡ is_some (number_at (numbers_of self.now) place) }
        ensures sound { IfOk result (λ t. IsSound t) }
        ensures cells { IfOk result (λ t. length (numbers_of t) ≡ length (numbers_of self.now)) }
        ensures numbers { IfOk result (λ t. (place : ℕ) → number_at (numbers_of t) place
            ≡ option_map (S.number_of spread.now) (S.key_at spread.now place)) }
    {
        let mut copy = self.blank()?;
        for place in 0..self.len() {
            if self.number(place).is_some() {
                copy.list(place, spread.hash_place(place), None);
            }
        }
        copy.thread();
        Ok(copy)
    }

    /// Links all chains again by the numbers that the cells store. All heads must be empty before.
    pub(crate) fn thread(&mut self)
        requires sized { IsSized (length self.old.cells) (length self.old.heads) }
        requires empty { self.old.heads ≡ replicate (length self.old.heads) None }
        ensures numbers { numbers_of self.new ≡ numbers_of self.old }
        ensures sound { IsSound self.new }
    {
        let cells = self.len();
        for place in 0..cells {
            if let Some(number) = self.number(place) {
                let bucket = self.bucket(number);
                let next = self.head(bucket);
                self.list(place, number, next);
                self.set_link(bucket, None, Some(place));
            }
        }
    }

    /// Removes all places.
    pub(crate) fn clear(&mut self)
        requires { IsSound self.old }
        ensures numbers { numbers_of self.new ≡ replicate (length (numbers_of self.old)) None }
        ensures sound { IsSound self.new }
    {
        self.empty();
        self.thread();
    }
}
