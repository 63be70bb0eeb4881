//! Pairs kept, or moved out, by the answers of a closure.
ghost use Rattle.std.specs.Prelude.{◌≡◌, ◌+◌, ◌≤◌, ◌++◌, [], length, IsOk, OnOk, OnErr, vec_len, vec_capacity};
ghost use Rattle.bimap_base.specs.Holding.{IsRetention, IsRetentionInOrder};
ghost use Rattle.bimap_base.specs.Kept.{MayTest, MayTestInOrder};
ghost use Rattle.bimap_kinds.specs.Extraction.{IsExtraction};

use crate::map::BijectiveMap;
use crate::walked_index::WalkedIndex;
use bimap_base::{Count, NoMemory};
use bimap_core::Dropped;
use bimap_index::Index;

impl<L: Eq + Drop, R: Eq + Drop, I: WalkedIndex<L>, J: Index<R>> BijectiveMap<L, R, I, J> {
    ghost use Rattle.bimap_kinds.specs.Held.{holding};

    /// Keeps the pairs for which the closure returns true, and asks it in the order of [`iter`](Self::iter).
    ///
    /// The closure is called once on each pair. `Bijection::retain` calls it in no set order. The pairs that stay keep
    /// their order, and the capacity stays.
    ///
    /// Condition: Any condition of the closure holds at each pair, in the order of [`iter`](Self::iter).
    ///
    /// Time: That of iterating, and of a removal for each pair that goes.
    ///
    ///     seats.retain(|_: &char, seat: &u32| *seat >= 2);
    ///     seats.len(); // 2
    pub fn retain<F: FnMut(&L, &R) -> bool>(&mut self, f: F)
        requires may { MayTestInOrder F.FnMut f (holding self.old).pairs }
        ensures { IsRetentionInOrder F.FnMut (holding self.old) f (holding self.new) }
    {
        I::partition_ordered(&mut self.table, false, f, &mut Dropped, &mut Count::new());
    }

    /// Moves to the end of a `Vec` the pairs for which the closure returns true.
    ///
    /// The closure is called once on each pair, in the order of [`iter`](Self::iter). The capacity of the map stays.
    ///
    /// Condition: Any condition of the closure holds at each pair, in the order of [`iter`](Self::iter).
    ///
    /// Time: That of iterating, and of a removal for each pair that goes.
    ///
    /// Memory: It allocates space in the `Vec` for all pairs of the map, unless the `Vec` has it.
    ///
    /// `Err`: Out of memory. The closure was not called, and the map and the items of the `Vec` are as before.
    ///
    ///     let mut early = Vec::new(alloc);
    ///     seats.extract_into(&mut early, |_: &char, seat: &u32| *seat < 3); // Ok(())
    ///     early.as_slice() == [('b', 1), ('c', 2)].as_slice(); // true
    pub fn extract_into<F: FnMut(&L, &R) -> bool>(
        &mut self,
        pairs: &mut Vec<(L, R)>,
        f: F,
    ) -> Result<(), NoMemory>
        requires may { MayTestInOrder F.FnMut f (holding self.old).pairs }
        ensures extracted { OnOk result (IsExtraction F.FnMut (holding self.old) f pairs.old.items
            (holding self.new) pairs.new.items) }
        ensures had_room { vec_len pairs.old + length (holding self.old).pairs
            ≤ vec_capacity pairs.old → IsOk result }
        ensures unchanged { OnErr result (holding self.new ≡ holding self.old) }
        ensures untouched { OnErr result (pairs.new.items ≡ pairs.old.items) }
    {
        pairs.try_reserve(self.len())?;
        I::partition_ordered(&mut self.table, true, f, pairs, &mut Count::new());
        Ok(())
    }

    /// Moves all pairs to the end of a `Vec`, in the order of [`iter`](Self::iter).
    ///
    /// The capacity of the map stays.
    ///
    /// Time: That of iterating, and of a removal for each pair.
    ///
    /// Memory: It allocates space in the `Vec` for all pairs of the map, unless the `Vec` has it.
    ///
    /// `Err`: Out of memory. The map and the items of the `Vec` are as before.
    ///
    ///     let mut all = Vec::new(alloc);
    ///     seats.drain_into(&mut all); // Ok(())
    ///     all.as_slice() == [('a', 3), ('b', 1), ('c', 2)].as_slice(); // true
    ///     (seats.len(), seats.capacity()); // (0, 4)
    pub fn drain_into(&mut self, pairs: &mut Vec<(L, R)>) -> Result<(), NoMemory>
        ensures drained { OnOk result (pairs.new.items ≡ pairs.old.items
            ++ (holding self.old).pairs) }
        ensures empty { OnOk result ((holding self.new).pairs ≡ []) }
        ensures room { (holding self.new).room ≡ (holding self.old).room }
        ensures had_room { vec_len pairs.old + length (holding self.old).pairs
            ≤ vec_capacity pairs.old → IsOk result }
        ensures unchanged { OnErr result (holding self.new ≡ holding self.old) }
        ensures untouched { OnErr result (pairs.new.items ≡ pairs.old.items) }
    {
        self.extract_into(pairs, |_: &L, _: &R| true)
    }
}

impl<L: Eq, R: Eq, I: Index<L>, J: Index<R>> BijectiveMap<L, R, I, J> {
    ghost use Rattle.bimap_kinds.specs.Held.{holding};

    // Keeps the pairs for which the closure returns true, and asks it in the order of the places.
    pub(crate) fn retain_by_place<F: FnMut(&L, &R) -> bool>(&mut self, f: F)
    where
        L: Drop,
        R: Drop,
        requires may { MayTest F.FnMut f (holding self.old).pairs }
        ensures { IsRetention F.FnMut (holding self.old) f (holding self.new) }
    {
        self.table
            .partition(false, f, &mut Dropped, &mut Count::new());
    }
}
