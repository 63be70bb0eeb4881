//! The bodies of the calls that do not depend on the types of the sides. They work on any map.
ghost use Rattle.std.specs.Prelude.{◌≡◌, ◌≤◌, [], ◌∷◌, length, if◌then◌else◌, IfSome, IfNone};
ghost use Rattle.bimap.specs.BTree.{holding};
ghost use Rattle.bimap_c.specs.Calls.{made, refused, Reserves, Shrinks, Clears, AreFlags, ByRight, IsRank, on_held};
ghost use Rattle.bimap.specs.Hash.{lefts_hashed_by, rights_hashed_by};
ghost use Rattle.bimap_c.specs.Kinds.{IsOfKind, map_kinds};
ghost use Rattle.bimap_c.specs.Tables.{AreSeeded};

use crate::kind::{HASHED, INSERTION_ORDER, ORDERED};
use crate::status::{DONE, NO_MEMORY, NOT_FOUND, REFUSED};
use bimap::{
    BiBTreeMap, BiHashMap, BiInsertionOrderMap, Bijection, BijectiveMap, Index, NoMemory,
    NotInsertedWith, OnHeld, OrderQuery, Ordered, Policy, Seeded,
};
use bimap_dynamic::{AnyMap, AnyOf};
use bimap_index::CompactedIndex;
use std::alloc::Global;
use std::hash::Hash;

/// Contained values are overwritten.
pub(crate) const OVERWRITE_BOTH: Policy = Policy {
    left: OnHeld::Overwrite,
    right: OnHeld::Overwrite,
};

/// A contained value refuses the insertion.
pub(crate) const REFUSE_BOTH: Policy = Policy {
    left: OnHeld::Refuse,
    right: OnHeld::Refuse,
};

/// Returns an empty map of a kind, or `None` if there is no such kind.
pub(crate) fn new_map<L: Ord + Hash, R: Ord + Hash>(
    alloc: Global,
    kind: u32,
    seed: u64,
) -> Option<AnyMap<L, R, Seeded, Seeded>>
    ensures some { IfSome result (λ map. (kind ≤ 2) × IsOfKind kind
        (map_kinds holding holding holding map) (λ held. (held.pairs ≡ []) × (held.room ≡ 0))) }
    ensures seeded { IfSome result (λ map. IsOfKind kind
        (map_kinds (λ m. []) (λ m. lefts_hashed_by m ∷ rights_hashed_by m ∷ [])
        (λ m. lefts_hashed_by m ∷ rights_hashed_by m ∷ []) map) (AreSeeded seed)) }
    ensures none { IfNone result (kind ≤ 2 → ⊥) }
{
    let builder = Seeded::new(seed);
    match kind {
        ORDERED => Some(AnyOf::Ordered(BiBTreeMap::new(alloc))),
        HASHED => Some(AnyOf::Hashed(BiHashMap::with_hashers(alloc, builder, builder))),
        INSERTION_ORDER => Some(AnyOf::InsertionOrder(BiInsertionOrderMap::with_hashers(
            alloc, builder, builder,
        ))),
        _ => None,
    }
}

pub(crate) fn len<L: Eq + Drop, R: Eq + Drop, B: Bijection<L, R>>(map: &B, len: &mut usize) -> u32
    ensures { (result ≡ 0) × (len.new ≡ length (B.holding map.now).pairs) }
{
    *len = map.len();
    DONE
}

pub(crate) fn capacity<L: Eq + Drop, R: Eq + Drop, B: Bijection<L, R>>(
    map: &B,
    capacity: &mut usize,
) -> u32
    ensures { (result ≡ 0) × (capacity.new ≡ (B.holding map.now).room) }
{
    *capacity = map.capacity();
    DONE
}

pub(crate) fn reserve<L: Eq + Drop, R: Eq + Drop, B: Bijection<L, R>>(
    map: &mut B,
    more: usize,
) -> u32
    ensures { Reserves (B.holding map.old) more result (B.holding map.new) }
{
    made(map.reserve(more))
}

pub(crate) fn shrink_to<L: Eq + Drop, R: Eq + Drop, I: CompactedIndex<L>, J: CompactedIndex<R>>(
    map: &mut BijectiveMap<L, R, I, J>,
    least: usize,
) -> u32
    ensures { Shrinks (holding map.old) least result (holding map.new) }
{
    made(map.shrink_to(least))
}

// Returns the status of a call that was done or ran out of memory.
fn made(answer: Result<(), NoMemory>) -> u32
    ensures { result ≡ made answer }
{
    match answer {
        Ok(()) => DONE,
        Err(_) => NO_MEMORY,
    }
}

pub(crate) fn clear<L: Eq + Drop, R: Eq + Drop, B: Bijection<L, R>>(map: &mut B) -> u32
    ensures { Clears (B.holding map.old) result (B.holding map.new) }
{
    map.clear();
    DONE
}

/// Writes how many lefts are less than this one.
pub(crate) fn left_rank<L: Ord + Drop, R: Eq + Drop, J: Index<R>, Q: OrderQuery<L>>(
    map: &BijectiveMap<L, R, Ordered, J>,
    left: Q,
    rank: &mut usize,
) -> u32
    ensures { IsRank (λ p. Q.order p.0 left) (holding map.now).pairs result rank.new }
{
    *rank = map.left_rank(left);
    DONE
}

/// Writes how many rights are less than this one.
pub(crate) fn right_rank<L: Eq + Drop, R: Ord + Drop, I: Index<L>, Q: OrderQuery<R>>(
    map: &BijectiveMap<L, R, I, Ordered>,
    right: Q,
    rank: &mut usize,
) -> u32
    ensures { ByRight R.cmp (holding map.now).pairs
        (λ sorted. IsRank (λ p. Q.order p.1 right) sorted result rank.new) }
{
    *rank = map.right_rank(right);
    DONE
}

/// Returns the status that says whether a value is contained.
pub(crate) fn found(contained: bool) -> u32
    ensures { result ≡ (if contained then 0 else 5) }
{
    if contained { DONE } else { NOT_FOUND }
}

/// Returns the status of an insertion that was refused.
pub(crate) fn refused<L, R>(why: &NotInsertedWith<L, R>) -> u32
    ensures { result ≡ refused why.now }
{
    match why {
        NotInsertedWith::LeftHeld(_, _) | NotInsertedWith::RightHeld(_, _) => REFUSED,
        NotInsertedWith::Memory(_, _) => NO_MEMORY,
    }
}

/// Returns the policy of two flags, or `None` if one is above 1.
pub(crate) fn policy(left_refuses: u8, right_refuses: u8) -> Option<Policy>
    ensures some { IfSome result (λ policy. AreFlags left_refuses right_refuses
        × (policy.left ≡ on_held left_refuses) × (policy.right ≡ on_held right_refuses)) }
    ensures none { IfNone result (AreFlags left_refuses right_refuses → ⊥) }
{
    if left_refuses > 1 || right_refuses > 1 {
        return None;
    }
    Some(Policy {
        left: on_held(left_refuses),
        right: on_held(right_refuses),
    })
}

fn on_held(flag: u8) -> OnHeld
    ensures { result ≡ on_held flag }
{
    if flag == 0 {
        OnHeld::Overwrite
    } else {
        OnHeld::Refuse
    }
}
