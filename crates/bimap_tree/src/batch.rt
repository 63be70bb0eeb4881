//! The places of a few ranks, read by one descent. The code here knows no key.
ghost use Rattle.std.specs.Prelude.{◌≡◌, ◌↔◌, ℕ, ◌+◌, ◌*◌, ◌<◌, ◌≤◌, IsTrue, Some, length, slice_get};
ghost use Rattle.bimap_base.specs.Digits.{most_height};

use crate::ordered::Ordered;
use bimap_base::Meter;

/// The places of some consecutive ranks. An iterator with a batch descends the tree once for many items. Never allocates.
#[derive(Clone, Copy, Drop)]
pub struct Batch {
    // The first rank.
    from: usize,
    count: usize,
    places: [usize; 128],
}

impl Batch {
    ghost use Rattle.bimap_tree.specs.Batches.{HasRank, IsBatch};

    /// Returns a batch of this index that contains no place.
    pub fn new(index: &Ordered) -> Batch
        ensures { IsBatch index.now.places result }
    {
        // Only the contract uses the index.
        let _ = index;
        Batch {
            from: 0,
            count: 0,
            places: [0; 128],
        }
    }

    #[inline(always)]
    fn has(&self, rank: usize) -> bool
        ensures { IsTrue result ↔ HasRank self.now rank }
    {
        self.from <= rank && rank - self.from < self.count
    }

    // Returns how many places the subtree of the next read may have. The first two reads are small, because many iterations are
    // short. Not many more places are read than the caller may still need.
    fn wanted(&self, left: usize) -> usize
        ensures least { 2 ≤ result }
        ensures most { result ≤ 124 }
    {
        let most = match self.count {
            0 if left > 15 => 7,
            1..=9 => 60,
            _ => 124,
        };
        most.min(left.max(7))
    }

    // Reads the places of some ranks, with this rank among them. It is never inlined, because most calls of `place` skip it.
    #[inline(never)]
    fn fill<M: Meter>(&mut self, index: &Ordered, rank: usize, left: usize, meter: &mut M)
        requires { rank < length index.now.places }
        ensures batch { IsBatch index.now.places self.new }
        ensures has { HasRank self.new rank }
        ensures comparisons { M.comparisons meter.new ≡ M.comparisons meter.old }
        ensures touches { M.touches meter.new ≤ M.touches meter.old + 376
            + 2 * most_height (length index.now.places) }
    {
        let (from, count) = index.places_around(rank, self.wanted(left), &mut self.places, meter);
        self.from = from;
        self.count = count;
    }

    /// Returns the place at a rank. If the batch does not contain it, first fills the batch with places around this rank, by one
    /// descent. `left` is about how many places the caller may still need. If it is small, few places are read.
    #[inline(always)]
    pub fn place<M: Meter>(
        &mut self,
        index: &Ordered,
        rank: usize,
        left: usize,
        meter: &mut M,
    ) -> usize
        requires batch { IsBatch index.now.places self.old }
        requires listed { rank < length index.now.places }
        ensures place { slice_get index.now.places rank ≡ Some result }
        ensures batch { IsBatch index.now.places self.new }
        ensures comparisons { M.comparisons meter.new ≡ M.comparisons meter.old }
        ensures touches { M.touches meter.new ≤ M.touches meter.old + 376
            + 2 * most_height (length index.now.places) }
        ensures has { HasRank self.new rank }
        ensures kept { HasRank self.old rank → self.new ≡ self.old }
        ensures held { HasRank self.old rank → M.touches meter.new ≡ M.touches meter.old }
    {
        if !self.has(rank) {
            self.fill(index, rank, left, meter);
        }
        self.at(index, rank)
    }

    /// Returns the place at a rank that the batch contains.
    #[inline(always)]
    pub fn at(&self, index: &Ordered, rank: usize) -> usize
        requires batch { IsBatch index.now.places self.now }
        requires has { HasRank self.now rank }
        ensures { slice_get index.now.places rank ≡ Some result }
    {
        // Only the contract uses the index.
        let _ = index;
        self.places[rank - self.from]
    }

    /// Returns the first rank of the batch, and the rank behind its last one.
    pub fn ranks(&self, index: &Ordered) -> (usize, usize)
        requires { IsBatch index.now.places self.now }
        ensures { (rank : ℕ) → HasRank self.now rank ↔ ((result.0 ≤ rank) × (rank < result.1)) }
    {
        // This establishes that the sum fits.
        let len = index.len();
        prove!(self.from <= len && self.count <= len - self.from);
        (self.from, self.from + self.count)
    }
}
