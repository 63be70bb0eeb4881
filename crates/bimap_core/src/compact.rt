//! Exact shrinking. This module knows the places, and which of them each index will list.
ghost use Rattle.std.specs.Prelude.{◌≡◌, ◌+◌, ◌*◌, ◌≤◌, length, OnOk, OnErr};
ghost use Rattle.bimap_any.specs.Capacity.{IsShrink};
ghost use Rattle.bimap_base.specs.PairsAt.{pairs_at};
ghost use Rattle.bimap_base.specs.Places.{pairs_in};
ghost use Rattle.bimap_base.specs.Slots.{pair_count};

use crate::table::Table;
use bimap_base::{LeftSide, Meter, NoMemory, RightSide};
use bimap_index::CompactedIndex;

impl<L: Eq, R: Eq, I: CompactedIndex<L>, J: CompactedIndex<R>> Table<L, R, I, J> {
    ghost use Rattle.bimap_core.specs.Store.{holding_of};

    /// Shrinks the room to exactly `least`, or to the number of pairs if that is larger. The room never grows. If it
    /// would not shrink, nothing changes and nothing is allocated. If it runs out of memory, nothing changes.
    pub fn shrink_to<M: Meter>(&mut self, least: usize, meter: &mut M) -> Result<(), NoMemory>
    where
        L: Drop,
        R: Drop,
        ensures answer { IsShrink (holding_of self.old.pairs) least result
            (holding_of self.new.pairs) }
        ensures walk { pairs_at self.new.pairs (I.places self.new.left)
            ≡ pairs_at self.old.pairs (I.places self.old.left) }
        ensures comparisons { let lefts = length (I.places self.old.left) in
            let rights = length (J.places self.old.right) in
            M.comparisons meter.new ≤ M.comparisons meter.old + lefts * I.effort lefts
            + rights * J.effort rights }
        ensures touches { let lefts = length (I.places self.old.left) in
            let rights = length (J.places self.old.right) in
            M.touches meter.new ≤ M.touches meter.old + lefts * (64 * (I.effort lefts + 1))
            + rights * (64 * (J.effort rights + 1)) }
    {
        let room = self.room();
        let to = self.len().max(least.min(room));
        if to == room {
            return Ok(());
        }
        self.compact(to, meter)
    }

    // Shrinks the table to exactly this many places, and moves the pairs to the first ones. It allocates everything
    // before it changes anything. If it runs out of memory, nothing changes.
    fn compact<M: Meter>(&mut self, to: usize, meter: &mut M) -> Result<(), NoMemory>
    where
        L: Drop,
        R: Drop,
        requires room { pair_count self.old.pairs ≤ to }
        ensures ok { OnOk result (length self.new.pairs ≡ to) }
        ensures pairs { pairs_in self.new.pairs ≡ pairs_in self.old.pairs }
        ensures err { OnErr result (self.new.pairs ≡ self.old.pairs) }
        ensures walk { pairs_at self.new.pairs (I.places self.new.left)
            ≡ pairs_at self.old.pairs (I.places self.old.left) }
        ensures comparisons { let lefts = length (I.places self.old.left) in
            let rights = length (J.places self.old.right) in
            M.comparisons meter.new ≤ M.comparisons meter.old + lefts * I.effort lefts
            + rights * J.effort rights }
        ensures touches { let lefts = length (I.places self.old.left) in
            let rights = length (J.places self.old.right) in
            M.touches meter.new ≤ M.touches meter.old + lefts * (64 * (I.effort lefts + 1))
            + rights * (64 * (J.effort rights + 1)) }
    {
        let alloc = self.pairs.allocator();
        let left = self.left.compacted(alloc, to)?;
        let right = self.right.compacted(alloc, to)?;
        self.pairs.compact(to)?;
        self.left.adopt(left, LeftSide::new(&self.pairs), meter);
        self.right.adopt(right, RightSide::new(&self.pairs), meter);
        Ok(())
    }
}
