//! The tables whose lefts are byte strings, and the bodies of their calls. They work on any map.
ghost use Rattle.std.specs.Prelude.{◌≡◌, ◌≤◌, [], ◌∷◌, option_map, slice_get, IfSome, IfNone};
ghost use Rattle.std.specs.Map.Iter.{deref, deref_pair};
ghost use Rattle.bimap.specs.BTree.{holding};
ghost use Rattle.bimap_c.specs.Calls.{IsWritten};
ghost use Rattle.bimap_c.specs.Bytes.{kept, named_pairs, kind_of, IsCopiedOut, AreBytesOut, IsStruck, ClearsAll, Inserts, InsertsFlagged, IsKind, IsLengthWritten, WithRight};
ghost use Rattle.bimap.specs.Hash.{lefts_hashed_by, rights_hashed_by};
ghost use Rattle.bimap_c.specs.Kinds.{IsOfKind, map_kinds};
ghost use Rattle.bimap_c.specs.Tables.{AreSeeded};

use crate::byte_string::ByteString;
use crate::calls::{new_map, policy, refused};
use crate::status::{BUFFER_TOO_SHORT, DONE, NO_MEMORY, NOT_FOUND, REFUSED};
use bimap::{BiBTreeMap, BiHashMap, BiInsertionOrderMap, Bijection, Overwritten, Policy, Seeded};
use bimap_dynamic::AnyOf;
use std::alloc::Global;
use std::hash::Hash;

/// A map whose lefts are byte strings, with what its calls keep beside it.
#[derive(Drop)]
pub struct BytesTable<R, B> {
    /// The map.
    pub map: B,
    /// The pairs that the last change overwrote or removed.
    pub struck: Overwritten<ByteString, R>,
    /// The seed of the hashes, for a map that replaces this one.
    pub seed: u64,
}

/// A table whose kind is chosen when it is made.
pub type AnyBytesTable<R> = AnyOf<
    BytesTable<R, BiBTreeMap<ByteString, R>>,
    BytesTable<R, BiHashMap<ByteString, R, Seeded, Seeded>>,
    BytesTable<R, BiInsertionOrderMap<ByteString, R, Seeded, Seeded>>,
>;

/// Returns an empty table of a kind, or `None` if there is no such kind.
pub(crate) fn new_table<R: Ord + Hash + Drop>(
    alloc: Global,
    kind: u32,
    seed: u64,
) -> Option<AnyBytesTable<R>>
    ensures some { IfSome result (λ table. (kind ≤ 2) × IsOfKind kind
        (map_kinds (kept holding) (kept holding) (kept holding) table)
        (λ it. (it.held.pairs ≡ []) × (it.held.room ≡ 0) × (it.struck ≡ Overwritten.Neither))) }
    ensures seeded { IfSome result (λ table. IsOfKind kind
        (map_kinds (λ t. []) (λ t. lefts_hashed_by t.map ∷ rights_hashed_by t.map ∷ [])
        (λ t. lefts_hashed_by t.map ∷ rights_hashed_by t.map ∷ []) table) (AreSeeded seed)) }
    ensures none { IfNone result (kind ≤ 2 → ⊥) }
{
    match new_map(alloc, kind, seed) {
        Some(AnyOf::Ordered(map)) => Some(AnyOf::Ordered(table_of(map, seed))),
        Some(AnyOf::Hashed(map)) => Some(AnyOf::Hashed(table_of(map, seed))),
        Some(AnyOf::InsertionOrder(map)) => Some(AnyOf::InsertionOrder(table_of(map, seed))),
        None => None,
    }
}

/// Returns a new table with this map.
pub(crate) fn table_of<R, B>(map: B, seed: u64) -> BytesTable<R, B>
    ensures map { result.map ≡ map }
    ensures struck { result.struck ≡ Overwritten.Neither }
{
    BytesTable {
        map,
        struck: Overwritten::Neither,
        seed,
    }
}

/// Copies the bytes to the front of the buffer if they fit. Writes how many they are, and returns the status.
pub(crate) fn copy_out(bytes: &[u8], buf: &mut [u8], len: &mut usize) -> u32
    ensures out { IsCopiedOut bytes.now result buf.old buf.new len.new }
    ensures buf { IsWritten result buf.old buf.new }
{
    *len = bytes.len();
    if buf.len() < bytes.len() {
        return BUFFER_TOO_SHORT;
    }
    buf[..bytes.len()].copy_from_slice(bytes);
    DONE
}

/// Copies the bytes to the buffer if there are some, and returns the status.
pub(crate) fn tell_bytes(found: Option<&ByteString>, buf: &mut [u8], len: &mut usize) -> u32
    ensures out { AreBytesOut (option_map (λ v. v.now.bytes.items) found.entry) result buf.old
        buf.new len.new }
    ensures buf { IsWritten result buf.old buf.new }
    ensures len { IsLengthWritten result len.old len.new }
{
    match found {
        Some(found) => copy_out(&found.bytes, buf, len),
        None => NOT_FOUND,
    }
}

/// Keeps the pair that a removal took out, and returns the status.
pub(crate) fn strike<R: Drop>(
    struck: &mut Overwritten<ByteString, R>,
    taken: Option<(ByteString, R)>,
) -> u32
    ensures { IsStruck struck.old taken result struck.new }
{
    match taken {
        Some((left, right)) => {
            *struck = Overwritten::Pair(left, right);
            DONE
        }
        None => NOT_FOUND,
    }
}

// Returns the pair at this index among the overwritten pairs.
fn named_at<L, R>(answer: &Overwritten<L, R>, index: usize) -> Option<(&L, &R)>
    ensures { option_map deref_pair result ≡ slice_get (named_pairs answer.now) index }
{
    match (answer, index) {
        (Overwritten::Left(left, right), 0) => Some((left, right)),
        (Overwritten::Right(left, right), 0) => Some((left, right)),
        (Overwritten::Pair(left, right), 0) => Some((left, right)),
        (Overwritten::Both(first, _), 0) => Some((&first.0, &first.1)),
        (Overwritten::Both(_, second), 1) => Some((&second.0, &second.1)),
        _ => None,
    }
}

/// Returns the left of the pair at this index among the overwritten pairs.
pub(crate) fn left_at<L, R>(answer: &Overwritten<L, R>, index: usize) -> Option<&L>
    ensures { option_map deref result
        ≡ option_map (λ p. p.0) (slice_get (named_pairs answer.now) index) }
{
    match named_at(answer, index) {
        Some((left, _)) => Some(left),
        None => None,
    }
}

/// Returns the right of the pair at this index among the overwritten pairs.
pub(crate) fn right_at<L, R>(answer: &Overwritten<L, R>, index: usize) -> Option<&R>
    ensures { option_map deref result
        ≡ option_map (λ p. p.1) (slice_get (named_pairs answer.now) index) }
{
    match named_at(answer, index) {
        Some((_, right)) => Some(right),
        None => None,
    }
}

// Returns the number by which C knows what an insertion overwrote.
fn kind_of<L, R>(answer: &Overwritten<L, R>) -> u32
    ensures { result ≡ kind_of answer.now }
{
    match answer {
        Overwritten::Neither => 0,
        Overwritten::Left(_, _) => 1,
        Overwritten::Right(_, _) => 2,
        Overwritten::Pair(_, _) => 3,
        Overwritten::Both(_, _) => 4,
    }
}

/// Inserts a copy of the left with the right, under a policy. If that was done, it writes the number by which C knows
/// what was overwritten.
pub(crate) fn insert_under<R: Eq + Drop, B: Bijection<ByteString, R>>(
    alloc: Global,
    table: &mut BytesTable<R, B>,
    left: &[u8],
    right: R,
    policy: Policy,
    kind: &mut u32,
) -> u32
    ensures inserted { Inserts R.eq (kept B.holding table.old) left.now right policy result
        (kept B.holding table.new) }
    ensures kind { IsKind result kind.new (kept B.holding table.new) }
    ensures out { IsWritten result kind.old kind.new }
{
    let Some(left) = ByteString::copy_of(alloc, left) else {
        return NO_MEMORY;
    };
    match table.map.insert_with(left, right, policy) {
        Ok(answer) => {
            *kind = kind_of(&answer);
            table.struck = answer;
            DONE
        }
        Err(why) => refused(&why),
    }
}

/// What C gives for a right that is to be inserted.
pub(crate) trait GivenRight<R> {
    /// The value stands for this right.
    ghost stands_for: { Self → R → Type 0 };

    /// Memory may run out for the right.
    ghost may_fail: { Type 0 };

    /// Returns the right, or `None` if there is no memory for it.
    fn into_right(self, alloc: Global) -> Option<R>
        ensures some { IfSome result (λ right. stands_for self right) }
        ensures none { IfNone result may_fail };
}

/// Inserts a copy of the left with the given right, under a policy.
pub(crate) fn insert_given<R: Eq + Drop, G: GivenRight<R>, B: Bijection<ByteString, R>>(
    alloc: Global,
    table: &mut BytesTable<R, B>,
    left: &[u8],
    right: G,
    policy: Policy,
    kind: &mut u32,
) -> u32
    ensures inserted { WithRight G.may_fail G.stands_for (kept B.holding table.old) right result
        (kept B.holding table.new) (λ right. Inserts R.eq (kept B.holding table.old) left.now right
        policy result (kept B.holding table.new)) }
    ensures kind { IsKind result kind.new (kept B.holding table.new) }
    ensures out { IsWritten result kind.old kind.new }
{
    let Some(right) = right.into_right(alloc) else {
        return NO_MEMORY;
    };
    insert_under(alloc, table, left, right, policy, kind)
}

/// Inserts a copy of the left with the given right, under a policy of two flags.
pub(crate) fn insert_flagged<R: Eq + Drop, G: GivenRight<R>, B: Bijection<ByteString, R>>(
    alloc: Global,
    table: &mut BytesTable<R, B>,
    left: &[u8],
    right: G,
    left_refuses: u8,
    right_refuses: u8,
    kind: &mut u32,
) -> u32
    ensures inserted { WithRight G.may_fail G.stands_for (kept B.holding table.old) right result
        (kept B.holding table.new) (λ right. InsertsFlagged R.eq (kept B.holding table.old)
        left.now right left_refuses right_refuses result (kept B.holding table.new)) }
    ensures kind { IsKind result kind.new (kept B.holding table.new) }
    ensures out { IsWritten result kind.old kind.new }
{
    let Some(right) = right.into_right(alloc) else {
        return NO_MEMORY;
    };
    match policy(left_refuses, right_refuses) {
        Some(policy) => insert_under(alloc, table, left, right, policy, kind),
        None => REFUSED,
    }
}

/// Removes all pairs, and forgets which pairs the last change overwrote or removed.
pub(crate) fn clear<R: Eq + Drop, B: Bijection<ByteString, R>>(table: &mut BytesTable<R, B>) -> u32
    ensures { ClearsAll (kept B.holding table.old) result (kept B.holding table.new) }
{
    table.map.clear();
    table.struck = Overwritten::Neither;
    DONE
}
