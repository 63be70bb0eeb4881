//! The calls on a table whose lefts are byte strings, as values. A function over any indexes performs each of them. So
//! the three kinds of map are named here alone, once for the calls that read and once for those that change.
ghost use Rattle.std.specs.Prelude.{◌≡◌, ◌+◌, [], ⊤, nat_eq, option_map};
ghost use Rattle.std.specs.Map.Iter.{deref};
ghost use Rattle.bimap.specs.BTree.{holding};
ghost use Rattle.bimap_c.specs.Bytes.{has_bytes, kept, same_bytes, AreBytesOut, IsLengthWritten};
ghost use Rattle.bimap_c.specs.BytesCalls.{Answers, Performs};
ghost use Rattle.bimap_c.specs.Calls.{Changes, IsWritten, Reads, Tells};
ghost use Rattle.bimap_c.specs.Packed.{bytes_of, bytes_row, u64_row};
ghost use Rattle.bimap_c.specs.Tables.{bytes_bytes, bytes_u64};

use crate::byte_string::ByteString;
use crate::bytes::{self, BytesTable, GivenRight, strike, tell_bytes};
use crate::fill::RightOfRow;
use crate::handle::Handle;
use crate::unpack::insert_many;
use crate::{bytes_bytes, bytes_u64, calls};
use bimap::{BijectiveMap, Policy, Query};
use bimap_index::{By, CompactedIndex, Lookup};
use std::alloc::Global;

/// A call that reads a table. It looks up a right by a `Q`.
#[derive(Drop)]
pub(crate) enum BytesReading<'a, Q> {
    Len,
    Capacity,
    GetByLeft(&'a [u8]),
    GetByRight(Q),
    ContainsLeft(&'a [u8]),
    ContainsRight(Q),
}

/// A call that may change a table. It looks up a right by a `Q`. C gives a right as a `G`, and a row as a `W`.
#[derive(Drop)]
pub(crate) enum BytesChange<'a, W, G, Q> {
    Reserve(usize),
    ShrinkTo(usize),
    Insert(&'a [u8], G, Policy),
    InsertWith(&'a [u8], G, u8, u8),
    InsertMany(&'a [u8], &'a [W]),
    RemoveByLeft(&'a [u8]),
    RemoveByRight(Q),
    Clear,
}

impl Handle {
    /// Performs a call that reads a table of byte strings and numbers. It writes the number that it counts, or the right
    /// or the bytes of the left that it finds.
    #[inline(always)]
    pub(crate) fn read_bytes_u64(
        &mut self,
        alloc: Global,
        call: BytesReading<'_, &u64>,
        count: &mut usize,
        number: &mut u64,
        buf: &mut [u8],
        len: &mut usize,
    ) -> u32
        ensures answer { Reads bytes_u64 self.old.table.value result self.new.table.value
            (λ kept. Answers (λ right wanted. nat_eq right wanted.now)
            (λ found status number old new len. Tells (option_map deref found) status number)
            call.entry kept.held result count.new number.new buf.old buf.new len.new) }
        ensures count { IsWritten result count.old count.new }
        ensures number { IsWritten result number.old number.new }
        ensures buf { IsWritten result buf.old buf.new }
        ensures len { IsLengthWritten result len.old len.new }
    {
        on_table!(self, alloc, BytesU64, table => read(&table.map, call, count, number, buf, len))
    }

    /// Performs a call that reads a table of two byte strings, as `read_bytes_u64` does.
    #[inline(always)]
    pub(crate) fn read_bytes_bytes(
        &mut self,
        alloc: Global,
        call: BytesReading<'_, By<&[u8]>>,
        count: &mut usize,
        buf: &mut [u8],
        len: &mut usize,
    ) -> u32
        ensures answer { Reads bytes_bytes self.old.table.value result self.new.table.value
            (λ kept. Answers (λ right wanted. has_bytes right wanted.0.now)
            (λ found status number old new len. AreBytesOut
            (option_map (λ right. right.now.bytes.items) found) status old new len)
            call.entry kept.held result count.new 0 buf.old buf.new len.new) }
        ensures count { IsWritten result count.old count.new }
        ensures buf { IsWritten result buf.old buf.new }
        ensures len { IsLengthWritten result len.old len.new }
    {
        on_table!(self, alloc, BytesBytes, table => read(&table.map, call, count, &mut 0, buf, len))
    }

    /// Performs a call that may change a table of byte strings and numbers. It writes how many pairs it inserted, or the
    /// number of what an insertion overwrote.
    #[inline(always)]
    pub(crate) fn change_bytes_u64(
        &mut self,
        alloc: Global,
        call: BytesChange<'_, bytes_u64::Row, u64, &u64>,
        taken: &mut usize,
        kind: &mut u32,
    ) -> u32
        ensures change { Changes bytes_u64 self.old.table.value result self.new.table.value
            (λ old new. Performs nat_eq (λ right wanted. nat_eq right wanted.now) ⊥
            (λ given right. right ≡ given) u64_row (bytes_of (λ _. [])) (λ row. row.left_len)
            call.entry old result new taken.new kind.new) }
        ensures taken { (result ≡ 0 → ⊥) → (result ≡ 1 → ⊥) → taken.new ≡ taken.old }
        ensures kind { IsWritten result kind.old kind.new }
    {
        on_table!(self, alloc, BytesU64, table => change(alloc, table, call, taken, kind))
    }

    /// Performs a call that may change a table of two byte strings, as `change_bytes_u64` does.
    #[inline(always)]
    pub(crate) fn change_bytes_bytes(
        &mut self,
        alloc: Global,
        call: BytesChange<'_, bytes_bytes::Row, &[u8], By<&[u8]>>,
        taken: &mut usize,
        kind: &mut u32,
    ) -> u32
        ensures change { Changes bytes_bytes self.old.table.value result self.new.table.value
            (λ old new. Performs same_bytes (λ right wanted. has_bytes right wanted.0.now) ⊤
            (λ given right. right.bytes.items ≡ given.now) bytes_row
            (bytes_of (λ right. right.bytes.items)) (λ row. row.left_len + row.right_len) call.entry
            old result new taken.new kind.new) }
        ensures taken { (result ≡ 0 → ⊥) → (result ≡ 1 → ⊥) → taken.new ≡ taken.old }
        ensures kind { IsWritten result kind.old kind.new }
    {
        on_table!(self, alloc, BytesBytes, table => change(alloc, table, call, taken, kind))
    }
}

#[inline(always)]
fn read<
    'a,
    R: RightOfRow + Eq + Drop,
    Q: Query<R> + Drop,
    I: Lookup<ByteString, By<&'a [u8]>>,
    J: Lookup<R, Q>,
>(
    map: &BijectiveMap<ByteString, R, I, J>,
    call: BytesReading<'a, Q>,
    count: &mut usize,
    number: &mut u64,
    buf: &mut [u8],
    len: &mut usize,
) -> u32
    ensures answer { Answers Q.same R.told call.entry (holding map.now) result count.new number.new
        buf.old buf.new len.new }
    ensures count { IsWritten result count.old count.new }
    ensures number { IsWritten result number.old number.new }
    ensures buf { IsWritten result buf.old buf.new }
    ensures len { IsLengthWritten result len.old len.new }
{
    match call {
        BytesReading::Len => calls::len(map, count),
        BytesReading::Capacity => calls::capacity(map, count),
        BytesReading::GetByLeft(left) => { R::tell(map.get_by_left(By(left)), number, buf, len) }
        BytesReading::GetByRight(right) => tell_bytes(map.get_by_right(right), buf, len),
        BytesReading::ContainsLeft(left) => calls::found(map.contains_left(By(left))),
        BytesReading::ContainsRight(right) => calls::found(map.contains_right(right)),
    }
}

#[inline(always)]
fn change<
    'a,
    R: RightOfRow + Eq + Drop,
    G: GivenRight<R> + Drop,
    Q: Query<R> + Drop,
    I: CompactedIndex<ByteString> + Lookup<ByteString, By<&'a [u8]>>,
    J: CompactedIndex<R> + Lookup<R, Q>,
>(
    alloc: Global,
    table: &mut BytesTable<R, BijectiveMap<ByteString, R, I, J>>,
    call: BytesChange<'a, R::Row, G, Q>,
    taken: &mut usize,
    kind: &mut u32,
) -> u32
    ensures change { Performs R.eq Q.same G.may_fail G.stands_for R.row_of (bytes_of R.right_bytes)
        R.row_len call.entry (kept holding table.old) result (kept holding table.new) taken.new
        kind.new }
    ensures taken { (result ≡ 0 → ⊥) → (result ≡ 1 → ⊥) → taken.new ≡ taken.old }
    ensures kind { IsWritten result kind.old kind.new }
{
    match call {
        BytesChange::Reserve(more) => calls::reserve(&mut table.map, more),
        BytesChange::ShrinkTo(least) => calls::shrink_to(&mut table.map, least),
        BytesChange::Insert(left, right, policy) => {
            bytes::insert_given(alloc, table, left, right, policy, kind)
        }
        BytesChange::InsertWith(left, right, left_refuses, right_refuses) => {
            bytes::insert_flagged(alloc, table, left, right, left_refuses, right_refuses, kind)
        }
        BytesChange::InsertMany(bytes, rows) => insert_many(alloc, table, bytes, rows, taken),
        BytesChange::RemoveByLeft(left) => {
            strike(&mut table.struck, table.map.remove_by_left(By(left)))
        }
        BytesChange::RemoveByRight(right) => {
            strike(&mut table.struck, table.map.remove_by_right(right))
        }
        BytesChange::Clear => bytes::clear(table),
    }
}
