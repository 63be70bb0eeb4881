//! The calls on a table of two numbers, as values. A function over any indexes performs each of them. So the three
//! kinds of map are named here alone, once for the calls that read and once for those that change.
ghost use Rattle.std.specs.Prelude.{◌≡◌};
ghost use Rattle.bimap.specs.BTree.{holding};
ghost use Rattle.bimap_c.specs.Calls.{Changes, IsWritten, Reads};
ghost use Rattle.bimap_c.specs.Tables.{u64_u64};
ghost use Rattle.bimap_c.specs.U64U64Calls.{Performs, Answers};

use crate::calls;
use crate::handle::Handle;
use crate::u64_u64::{self, Overwritten, Pair, tell_pair, tell_value};
use bimap::{BijectiveMap, Index};
use bimap_index::CompactedIndex;
use std::alloc::Global;

/// A call that reads a table.
#[derive(Clone, Copy, Drop)]
pub(crate) enum NumbersReading {
    Len,
    Capacity,
    GetByLeft(u64),
    GetByRight(u64),
    ContainsLeft(u64),
    ContainsRight(u64),
}

/// A call that may change a table.
#[derive(Clone, Copy, Drop)]
pub(crate) enum NumbersChange<'a> {
    Reserve(usize),
    ShrinkTo(usize),
    Insert(u64, u64),
    InsertNoOverwrite(u64, u64),
    InsertWith(u64, u64, u8, u8),
    InsertMany(&'a [Pair]),
    RemoveByLeft(u64),
    RemoveByRight(u64),
    Clear,
}

impl Handle {
    /// Performs a call that reads. It writes the number that it counts, or the value that it finds.
    #[inline(always)]
    pub(crate) fn read_numbers(
        &mut self,
        alloc: Global,
        call: NumbersReading,
        count: &mut usize,
        value: &mut u64,
    ) -> u32
        ensures answer { Reads u64_u64 self.old.table.value result self.new.table.value
            (λ held. Answers call held result count.new value.new) }
        ensures count { IsWritten result count.old count.new }
        ensures value { IsWritten result value.old value.new }
    {
        on_table!(self, alloc, U64U64, map => read(map, call, count, value))
    }

    /// Performs a call that may change the table. It writes what it overwrote, the pair that it removed, or how many
    /// pairs it inserted.
    #[inline(always)]
    pub(crate) fn change_numbers(
        &mut self,
        alloc: Global,
        call: NumbersChange,
        overwritten: &mut Overwritten,
        pair: &mut Pair,
        taken: &mut usize,
    ) -> u32
        ensures change { Changes u64_u64 self.old.table.value result self.new.table.value
            (λ old new. Performs call.entry old result new overwritten.new pair.new taken.new) }
        ensures overwritten { IsWritten result overwritten.old overwritten.new }
        ensures pair { IsWritten result pair.old pair.new }
        ensures taken { result ≡ 2 → taken.new ≡ taken.old }
    {
        on_table!(self, alloc, U64U64, map => change(map, call, overwritten, pair, taken))
    }
}

#[inline(always)]
fn read<I: Index<u64>, J: Index<u64>>(
    map: &BijectiveMap<u64, u64, I, J>,
    call: NumbersReading,
    count: &mut usize,
    value: &mut u64,
) -> u32
    ensures answer { Answers call (holding map.now) result count.new value.new }
    ensures count { IsWritten result count.old count.new }
    ensures value { IsWritten result value.old value.new }
{
    match call {
        NumbersReading::Len => calls::len(map, count),
        NumbersReading::Capacity => calls::capacity(map, count),
        NumbersReading::GetByLeft(left) => tell_value(map.get_by_left(&left), value),
        NumbersReading::GetByRight(right) => tell_value(map.get_by_right(&right), value),
        NumbersReading::ContainsLeft(left) => calls::found(map.contains_left(&left)),
        NumbersReading::ContainsRight(right) => calls::found(map.contains_right(&right)),
    }
}

#[inline(always)]
fn change<I: CompactedIndex<u64>, J: CompactedIndex<u64>>(
    map: &mut BijectiveMap<u64, u64, I, J>,
    call: NumbersChange,
    overwritten: &mut Overwritten,
    pair: &mut Pair,
    taken: &mut usize,
) -> u32
    ensures change { Performs call.entry (holding map.old) result (holding map.new) overwritten.new
        pair.new taken.new }
    ensures overwritten { IsWritten result overwritten.old overwritten.new }
    ensures pair { IsWritten result pair.old pair.new }
    ensures taken { result ≡ 2 → taken.new ≡ taken.old }
{
    match call {
        NumbersChange::Reserve(more) => calls::reserve(map, more),
        NumbersChange::ShrinkTo(least) => calls::shrink_to(map, least),
        NumbersChange::Insert(left, right) => u64_u64::insert(map, left, right, overwritten),
        NumbersChange::InsertNoOverwrite(left, right) => {
            u64_u64::insert_no_overwrite(map, left, right)
        }
        NumbersChange::InsertWith(left, right, left_refuses, right_refuses) => {
            u64_u64::insert_with(map, left, right, left_refuses, right_refuses, overwritten)
        }
        NumbersChange::InsertMany(pairs) => u64_u64::insert_many(map, pairs, taken),
        NumbersChange::RemoveByLeft(left) => tell_pair(map.remove_by_left(&left), pair),
        NumbersChange::RemoveByRight(right) => tell_pair(map.remove_by_right(&right), pair),
        NumbersChange::Clear => calls::clear(map),
    }
}
