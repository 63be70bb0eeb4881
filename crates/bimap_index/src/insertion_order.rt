//! An index that iterates in the order in which its places were listed. It consists of a list of places and another
//! index, which finds them.
ghost use Rattle.std.specs.Prelude.{◌≡◌, ◌≢◌, ◌≤◌, ◌+◌, ◌*◌, ⊤, ℕ, Option, [], min, length, refl, IfSome, IfNone};
ghost use Rattle.std.specs.List.{AllPairs, Contains};
ghost use Rattle.std.specs.declared.cmp.Ordering.TheVariants.{Less};
ghost use Rattle.bimap_index.specs.ByInsertion.{ListsByInsertion};
ghost use Rattle.bimap_index.specs.Listed.{IsFoundBy, IsWithout};
ghost use Rattle.bimap_index.specs.Moves.{ComesFirst};
ghost use Rattle.bimap_base.specs.Positions.{ComesLast, IsTakenOut};
ghost use Rattle.bimap_list.specs.Ranks.{AreRanks};
ghost use Rattle.bimap_index.specs.InsertionLaws.{insertion_respects, insertion_settled};

use crate::constructors::{CompactedIndex, CopiedIndex, DefaultIndex, EmptyIndex};
use crate::index::Index;
use crate::lookup::Lookup;
use bimap_base::{Meter, NoMemory, Query, Side};
use bimap_list::LinkedList;
use std::alloc::Global;

/// An index of any kind, together with its places in the order in which they were listed. The list takes eight more
/// bytes for each place, or sixteen if there are 2^32 places or more.
///
/// A place that is linked goes to the end of the list. So does a place that is relinked.
#[derive(Drop)]
pub struct InsertionOrder<I> {
    index: I,
    list: LinkedList,
}

impl<I> InsertionOrder<I> {
    /// Returns this index with an empty list, for an index that lists no place. Never allocates.
    pub fn new(alloc: Global, index: I) -> Self
        ensures index { result.index ≡ index }
        ensures places { result.list.places ≡ [] }
        ensures cells { result.list.cells ≡ 0 }
    {
        InsertionOrder {
            index,
            list: LinkedList::new(alloc),
        }
    }

    /// Returns the list of places, in the order in which they were listed.
    pub fn list(&self) -> &LinkedList
        ensures { result.now ≡ self.now.list }
    {
        &self.list
    }

    /// Returns the list of places, in the order in which they were listed, and drops the index.
    pub fn into_list(self) -> LinkedList
    where
        I: Drop,
        ensures { result ≡ self.list }
    {
        let InsertionOrder {
            index: _index,
            list,
        } = self;
        list
    }
}

impl<I> InsertionOrder<I> {
    /// Puts a listed place before all others. The index that finds it stays as it is.
    pub fn to_front(&mut self, place: usize)
        requires { Contains self.old.list.places place }
        ensures moved { ComesFirst self.old.list.places place self.new.list.places }
        ensures distinct { AllPairs (λ a b. a ≢ b) self.new.list.places }
        ensures index { self.new.index ≡ self.old.index }
        ensures cells { self.new.list.cells ≡ self.old.list.cells }
    {
        self.list.to_front(place);
    }

    /// Puts a listed place after all others. The index that finds it stays as it is.
    pub fn to_back(&mut self, place: usize)
        requires { Contains self.old.list.places place }
        ensures moved { ComesLast self.old.list.places place place self.new.list.places }
        ensures distinct { AllPairs (λ a b. a ≢ b) self.new.list.places }
        ensures index { self.new.index ≡ self.old.index }
        ensures cells { self.new.list.cells ≡ self.old.list.cells }
    {
        self.list.to_back(place);
    }

    /// Returns the place whose key the look-up asks for, if there is one.
    pub fn find_listed<K: Eq, S: Side<K>, Q: Query<K>, M: Meter>(
        &self,
        side: S,
        query: Q,
        meter: &mut M,
    ) -> Option<usize>
    where
        I: Lookup<K, Q>,
        requires { ListsByInsertion I.is_listing self.now.index self.now.list.places
            (S.key_at side) }
        ensures found { IsFoundBy (S.key_at side) Q.same query result }
        ensures comparisons { M.comparisons meter.new ≤ M.comparisons meter.old
            + I.effort (length self.now.list.places) }
        ensures touches { M.touches meter.new ≤ M.touches meter.old
            + I.effort (length self.now.list.places) }
    {
        self.index.find_by(side, query, meter)
    }

    // Removes the place whose key the look-up asks for from the list and returns it, if there is one.
    pub(crate) fn unlink_listed<K: Eq, S: Side<K>, Q: Query<K>, M: Meter>(
        &mut self,
        side: S,
        query: Q,
        meter: &mut M,
    ) -> Option<usize>
    where
        I: Lookup<K, Q>,
        requires { ListsByInsertion I.is_listing self.old.index self.old.list.places
            (S.key_at side) }
        ensures found { IsFoundBy (S.key_at side) Q.same query result }
        ensures listing { IfSome result (λ place. (f : ℕ → Option K) →
            IsWithout f (S.key_at side) place →
            ListsByInsertion I.is_listing self.new.index self.new.list.places f) }
        ensures others { IfSome result (λ place. IsTakenOut self.old.list.places place
            self.new.list.places) }
        ensures unchanged { IfNone result (self.new ≡ self.old) }
        ensures finds_by { I.finds_by self.new.index ≡ I.finds_by self.old.index }
        ensures cells { I.cells self.new.index ≡ I.cells self.old.index }
        ensures list_cells { self.new.list.cells ≡ self.old.list.cells }
        ensures comparisons { M.comparisons meter.new ≤ M.comparisons meter.old
            + I.effort (length self.old.list.places) }
        ensures touches { M.touches meter.new ≤ M.touches meter.old
            + 64 * (I.effort (length self.old.list.places) + 1) }
    {
        let place = self.index.unlink_by(side, query, meter)?;
        self.list.remove(place);
        Some(place)
    }
}

impl<K: Eq, I: Index<K>> Index<K> for InsertionOrder<I> {
    type Spot = I::Spot;

    // The search has no steps: `finish` does all of it.
    type Search = ();

    ghost is_listing = { λ o. ListsByInsertion I.is_listing o.index o.list.places };

    ghost leads = { λ o. I.leads o.index };

    ghost is_for = { λ o. I.is_for o.index };

    ghost under_way = { λ o f key search spot. ⊤ };

    ghost ahead = { λ o search. I.effort (length o.list.places) };

    ghost places = { λ o. o.list.places };

    ghost walk_order = { λ o k l. Less };

    ghost appends = { ⊤ };

    ghost cells = { λ o. min (I.cells o.index) o.list.cells };

    ghost effort = { I.effort };

    ghost Finder = { I.Finder };

    ghost finds_by = { λ o. I.finds_by o.index };

    fn spot(&self) -> I::Spot {
        self.index.spot()
    }

    fn spot_for(&self, key: &K) -> I::Spot {
        self.index.spot_for(key)
    }

    fn find<S: Side<K>, M: Meter>(&self, side: S, key: &K, meter: &mut M) -> Option<usize> {
        self.find_listed(side, key, meter)
    }

    fn start(&self) {}

    fn finish<S: Side<K>, M: Meter>(
        &self,
        side: S,
        key: &K,
        _search: (),
        spot: &mut I::Spot,
        meter: &mut M,
    ) -> Option<usize> {
        self.index
            .finish(side, key, self.index.start(), spot, meter)
    }

    fn is_known<S: Side<K>, M: Meter>(
        &self,
        side: S,
        place: usize,
        key: &K,
        meter: &mut M,
    ) -> bool {
        self.index.is_known(side, place, key, meter)
    }

    fn link<S: Side<K>, M: Meter>(&mut self, side: S, place: usize, spot: &I::Spot, meter: &mut M) {
        self.index.link(side, place, spot, meter);
        self.list.push_back(place);
    }

    fn relink<S: Side<K>, M: Meter>(
        &mut self,
        side: S,
        place: usize,
        spot: &I::Spot,
        meter: &mut M,
    ) {
        self.index.relink(side, place, spot, meter);
        self.list.push_back(place);
    }

    fn unlink<S: Side<K>, M: Meter>(&mut self, side: S, place: usize, meter: &mut M) {
        self.index.unlink(side, place, meter);
        self.list.remove(place);
    }

    fn unlink_key<S: Side<K>, M: Meter>(
        &mut self,
        side: S,
        key: &K,
        meter: &mut M,
    ) -> Option<usize> {
        self.unlink_listed(side, key, meter)
    }

    fn grow(&mut self, to: usize) -> Result<(), NoMemory> {
        let cells = self.list.cells();
        self.list.grow(to)?;
        let grown = self.index.grow(to);
        if grown.is_err() {
            self.list.shrink(cells);
        }
        grown
    }

    fn clear(&mut self) {
        self.index.clear();
        self.list.clear();
    }

    ghost listed = { λ o f h. h.lists };

    ghost distinct = { λ o f h. h.distinct };

    ghost in_order = { λ o f h i j d before inside k l first second. refl };

    ghost respects = { λ o. insertion_respects K.eq I.is_listing I.respects o.index o.list.places };

    ghost settled = { λ o. insertion_settled K.eq I.is_listing I.settled o.index o.list.places };
}

impl<K: Eq, I: EmptyIndex<K>> EmptyIndex<K> for InsertionOrder<I> {
    fn empty(alloc: Global) -> Self {
        InsertionOrder::new(alloc, I::empty(alloc))
    }
}

impl<K: Eq, I: DefaultIndex<K>> DefaultIndex<K> for InsertionOrder<I> {}

impl<K: Eq, I: CopiedIndex<K> + Drop> CopiedIndex<K> for InsertionOrder<I> {
    ghost finds_as = { λ o copy. I.finds_as o.index copy.index };

    ghost finds_on = { λ o copy later same finds. I.finds_on o.index copy.index later.index same
        finds };

    fn copied<S: Side<K>>(&self, side: S) -> Result<Self, NoMemory> {
        let index = self.index.copied(side)?;
        let list = self.list.clone()?;
        Ok(InsertionOrder { index, list })
    }
}

impl<K: Eq, I: CompactedIndex<K>> CompactedIndex<K> for InsertionOrder<I> {
    type Compacted = InsertionOrder<I::Compacted>;

    ghost is_compacted = { λ o to new. I.is_compacted o.index to new.index
        × AreRanks o.list.places new.list.places × (new.list.cells ≡ to)
        × AllPairs (λ a b. a ≢ b) new.list.places };

    fn compacted(
        &self,
        alloc: Global,
        to: usize,
    ) -> Result<InsertionOrder<I::Compacted>, NoMemory> {
        let index = self.index.compacted(alloc, to)?;
        let list = self.list.ranks(alloc, to)?;
        Ok(InsertionOrder { index, list })
    }

    fn adopt<S: Side<K>, M: Meter>(
        &mut self,
        compacted: InsertionOrder<I::Compacted>,
        side: S,
        meter: &mut M,
    ) {
        let InsertionOrder { index, list } = compacted;
        self.index.adopt(index, side, meter);
        self.list = list;
    }
}
