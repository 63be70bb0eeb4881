//! The cells and the heads of a hashed index, and the reads and writes of each. The code here knows no keys, and follows no
//! chain.
ghost use Rattle.std.specs.Prelude.{◌≡◌, ◌<◌, ◌≤◌, ◌-◌, ◌++◌, [], length, None, Some, replicate, slice_set, slice_index_or, vec_capacity, OnOk, OnErr, IfOk, IfSome, nat_eq};
ghost use Rattle.std.specs.Option.{option_eq};
ghost use Rattle.bimap_chain.specs.Cells.{free_cell};
ghost use Rattle.bimap_chain.specs.Chains.{IsListed, Links, number_at};
ghost use Rattle.bimap_chain.specs.Threads.{numbers_of, links_of};

use crate::cells::ChainCell;
use crate::link::{Link, link_to, place_of};
use bimap_base::NoMemory;
use std::alloc::Global;
use std::marker::Model;

/// A cell for each place, and a head for each bucket. The head leads to the first place of the bucket's chain. All links have
/// the same width. There are few enough cells that a link can lead to each place.
#[derive(Drop)]
pub(crate) struct Threads<L: Link> {
    cells: Vec<ChainCell<L>>,
    heads: Vec<L>,
}

impl<L: Link> Model for Threads<L> {
    ghost use Rattle.std.specs.Prelude.{◌<◌, length, map};
    ghost use Rattle.bimap_chain.specs.Threads.{Threading};

    ghost Value = { Threading };

    ghost use Rattle.bimap_chain.specs.Width.{target};
    ghost use Rattle.bimap_chain.specs.Cells.{cell_of};

    ghost view = { λ t. record {
      cells = map (cell_of L.width) t.cells.items;
      heads =
          map (target L.width) t.heads.items;
    } };

    ghost invariant = { λ t. length t.cells.items < L.width.free };
}

// Replaces all items with `to` copies of one item. The capacity must suffice for them.
fn refill<T: Copy>(items: &mut Vec<T>, to: usize, item: T)
    requires { to ≤ vec_capacity items.old }
    ensures { items.new.items ≡ replicate to item }
{
    items.clear();
    let Ok(()) = items.resize(to, item) else {
        unreachable!()
    };
}

impl<L: Link> Threads<L> {
    /// Returns threads without cells and without heads. Never allocates.
    pub(crate) fn new(alloc: Global) -> Self
        ensures cells { result.cells ≡ [] }
        ensures heads { result.heads ≡ [] }
    {
        Threads {
            cells: Vec::new(alloc),
            heads: Vec::new(alloc),
        }
    }

    /// Returns threads of as many cells and heads as these. No place is listed, and all heads are empty. Allocates once for the cells
    /// and once for the heads. If it runs out of memory, it returns no threads.
    pub(crate) fn blank(&self) -> Result<Self, NoMemory>
        ensures cells { IfOk result (λ t. t.cells ≡ replicate (length self.now.cells) free_cell) }
        ensures heads { IfOk result (λ t. t.heads ≡ replicate (length self.now.heads) None) }
    {
        let mut threads = Threads::new(self.allocator());
        threads.extend(self.cells.len(), self.heads.len())?;
        Ok(threads)
    }

    /// Returns the number of cells.
    #[inline(always)]
    pub(crate) fn len(&self) -> usize
        ensures { result ≡ length self.now.cells }
    {
        self.cells.len()
    }

    /// Returns the number of heads.
    #[inline(always)]
    pub(crate) fn buckets(&self) -> usize
        ensures { result ≡ length self.now.heads }
    {
        self.heads.len()
    }

    /// Returns the allocator of the cells and the heads.
    pub(crate) fn allocator(&self) -> Global {
        *self.cells.allocator()
    }

    /// Returns the number under which the place is listed, or `None` if it isn't listed.
    #[inline(always)]
    pub(crate) fn number(&self, place: usize) -> Option<u32>
        requires { place < length (numbers_of self.now) }
        ensures { result ≡ number_at (numbers_of self.now) place }
    {
        self.cells[place].number()
    }

    /// Returns whether a place is listed under this number. The place must be listed.
    #[inline(always)]
    pub(crate) fn has_number(&self, place: usize, number: u32) -> bool
        requires place { place < length (numbers_of self.now) }
        requires listed { IsListed (numbers_of self.now) place }
        ensures { result ≡ option_eq nat_eq (number_at (numbers_of self.now) place) (Some number) }
    {
        self.cells[place].has_number(number)
    }

    /// Returns the place after a listed place in its chain, or `None` at the end of the chain.
    #[inline(always)]
    pub(crate) fn next(&self, place: usize) -> Option<usize>
        requires place { place < length (numbers_of self.now) }
        requires listed { IsListed (numbers_of self.now) place }
        ensures { result ≡ slice_index_or (links_of self.now) place None }
    {
        self.cells[place].next()
    }

    /// Returns the first place of the bucket's chain, or `None` if the chain is empty.
    #[inline(always)]
    pub(crate) fn head(&self, bucket: usize) -> Option<usize>
        requires { bucket < length self.now.heads }
        ensures { result ≡ slice_index_or self.now.heads bucket None }
    {
        place_of(self.heads[bucket])
    }

    /// Makes the link of the listed place `over` lead to `to`. If `over` is `None`, makes the head of the bucket lead to `to`.
    #[inline(always)]
    pub(crate) fn set_link(&mut self, bucket: usize, over: Option<usize>, to: Option<usize>)
        requires bucket { bucket < length self.old.heads }
        requires over { IfSome over (λ p. p < length (numbers_of self.old)) }
        requires listed { IfSome over (λ p. IsListed (numbers_of self.old) p) }
        requires to { IfSome to (λ p. p < length (numbers_of self.old)) }
        ensures numbers { numbers_of self.new ≡ numbers_of self.old }
        ensures links { Links bucket over to (links_of self.old) self.old.heads
            (links_of self.new) self.new.heads }
        ensures cells { length self.new.cells ≡ length self.old.cells }
        ensures heads { length self.new.heads ≡ length self.old.heads }
    {
        match over {
            None => self.heads[bucket] = link_to(to),
            Some(place) => self.cells[place] = self.cells[place].with_next(to),
        }
    }

    /// Lists a place under a number, with a link to the place `next`.
    #[inline(always)]
    pub(crate) fn list(&mut self, place: usize, number: u32, next: Option<usize>)
        requires place { place < length (numbers_of self.old) }
        requires next { IfSome next (λ p. p < length (numbers_of self.old)) }
        ensures numbers { numbers_of self.new ≡ slice_set
            (numbers_of self.old) place (Some number) }
        ensures links { links_of self.new ≡ slice_set (links_of self.old) place next }
        ensures cells { length self.new.cells ≡ length self.old.cells }
        ensures heads { self.new.heads ≡ self.old.heads }
    {
        let cells = &mut self.cells;
        cells[place] = ChainCell::of(number, next);
    }

    /// Marks a place as not listed, and clears its own link. Links that lead to the place stay.
    #[inline(always)]
    pub(crate) fn unlist(&mut self, place: usize)
        requires { place < length (numbers_of self.old) }
        ensures numbers { numbers_of self.new ≡ slice_set (numbers_of self.old) place None }
        ensures links { links_of self.new ≡ slice_set (links_of self.old) place None }
        ensures cells { length self.new.cells ≡ length self.old.cells }
        ensures heads { self.new.heads ≡ self.old.heads }
    {
        self.cells[place] = ChainCell::free();
    }

    /// Makes exactly the missing cells for all places below `cells`, and exactly `heads` heads, all of them empty. Allocates at
    /// most once for the cells and once for the heads. If it runs out of memory, nothing changes.
    pub(crate) fn extend(&mut self, cells: usize, heads: usize) -> Result<(), NoMemory>
        requires cells { length self.old.cells ≤ cells }
        requires few { cells < L.width.free }
        requires heads { length self.old.heads ≤ heads }
        ensures cells { OnOk result (self.new.cells ≡ self.old.cells
            ++ replicate (cells - length self.old.cells) free_cell) }
        ensures heads { OnOk result (self.new.heads ≡ replicate heads None) }
        ensures err { OnErr result (self.new ≡ self.old) }
    {
        let more_cells = cells - self.cells.len();
        if self.cells.try_reserve_exact(more_cells).is_err() {
            return Err(NoMemory);
        }
        let more_heads = heads - self.heads.len();
        if self.heads.try_reserve_exact(more_heads).is_err() {
            return Err(NoMemory);
        }
        let Ok(()) = self.cells.resize(cells, ChainCell::free()) else {
            unreachable!()
        };
        refill(&mut self.heads, heads, L::of(0));
        Ok(())
    }

    /// Marks all places as not listed, and empties all heads.
    pub(crate) fn empty(&mut self)
        ensures cells { self.new.cells ≡ replicate (length self.old.cells) free_cell }
        ensures heads { self.new.heads ≡ replicate (length self.old.heads) None }
    {
        let cells = self.cells.len();
        refill(&mut self.cells, cells, ChainCell::free());
        let heads = self.heads.len();
        refill(&mut self.heads, heads, L::of(0));
    }
}
