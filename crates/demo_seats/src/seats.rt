//! Guests with their seats. A guest has one seat, and a seat has one guest.
//!
//! This file calls the facade `bimap` alone, and it has no proof of its own.
ghost use Rattle.std.specs.Prelude.{◌≡◌, ◌≤◌, ◌-◌, ◌&&◌, nat_le, nat_lt, length, slice_get, option_map, Contains, IfOk, IfErr, OnOk, OnErr};
ghost use Rattle.std.specs.List.{filter};
ghost use Rattle.std.specs.Map.Iter.{deref_pair};
ghost use Rattle.bimap.specs.Answer.{IsAnswer, IsRefusalUnder};
ghost use Rattle.bimap.specs.BTree.{holding, by_right, IsByRight};
ghost use Rattle.bimap.specs.Holding.{IsFull, IsFoundByLeft, IsFoundByRight, IsInsertion, IsRemovalByLeft};
ghost use Rattle.bimap.specs.Sets.{IsWithPut, LacksRight};

use bimap::btree::RightRange;
use bimap::{BiHashBTreeMap, NoRoom, NotInsertedWith, OnHeld, Overwritten, Policy};
use std::hash::Hash;

/// Gives a guest a seat, and takes it from the guest who has it. Returns who lost which seat.
///
/// The function allocates only if nobody loses a seat and the ledger has no spare capacity. If it runs out of memory,
/// nothing changes.
pub fn take<G: Eq + Hash + Drop, S: Ord + Drop>(
    seats: &mut BiHashBTreeMap<G, S>,
    guest: G,
    seat: S,
) -> Result<Overwritten<G, S>, NoRoom<G, S>>
    ensures { IsInsertion G.eq S.eq (holding seats.old) (guest, seat) result (holding seats.new) }
{
    seats.insert(guest, seat)
}

/// Gives a guest a seat that nobody has. If the guest has another seat, the guest leaves it, and the function returns
/// it.
///
/// The function allocates when `take` does. An `Err` says whether the seat is taken, and nothing changes.
pub fn move_to<G: Eq + Hash + Drop, S: Ord + Drop>(
    seats: &mut BiHashBTreeMap<G, S>,
    guest: G,
    seat: S,
) -> Result<Overwritten<G, S>, NotInsertedWith<G, S>>
    ensures was_free { OnOk result (LacksRight S.eq (Contains (holding seats.old).pairs) seat) }
    ensures left { IfOk result (IsAnswer G.eq S.eq (Contains (holding seats.old).pairs)
        (guest, seat)) }
    ensures seated { OnOk result (IsWithPut G.eq S.eq (Contains (holding seats.old).pairs)
        (guest, seat) (Contains (holding seats.new).pairs)) }
    ensures refused { IfErr result (IsRefusalUnder G.eq S.eq (Contains (holding seats.old).pairs)
        (IsFull (holding seats.old)) (guest, seat)
        (record { left = OnHeld.Overwrite; right = OnHeld.Refuse })) }
    ensures unchanged { OnErr result (holding seats.new ≡ holding seats.old) }
{
    let free = Policy {
        left: OnHeld::Overwrite,
        right: OnHeld::Refuse,
    };
    seats.insert_with(guest, seat, free)
}

/// Removes a guest, and returns the guest with the seat.
pub fn leave<G: Eq + Hash + Drop, S: Ord + Drop>(
    seats: &mut BiHashBTreeMap<G, S>,
    guest: &G,
) -> Option<(G, S)>
    ensures { IsRemovalByLeft G.eq (holding seats.old) guest.now result (holding seats.new) }
{
    seats.remove_by_left(guest)
}

/// Returns the seat of a guest. It is a look-up by the hash of the guest.
pub fn seat_of<'a, G: Eq + Hash, S: Ord>(
    seats: &'a BiHashBTreeMap<G, S>,
    guest: &G,
) -> Option<&'a S>
    ensures { IsFoundByLeft G.eq (holding seats.now) guest.now result }
{
    seats.get_by_left(guest)
}

/// Returns the guest on a seat. It is one search in the order of the seats.
pub fn guest_on<'a, G: Eq + Hash, S: Ord>(
    seats: &'a BiHashBTreeMap<G, S>,
    seat: &S,
) -> Option<&'a G>
    ensures { IsFoundByRight S.eq (holding seats.now) seat.now result }
{
    seats.get_by_right(seat)
}

/// Returns the guests on the seats from `first` to before `end`, in ascending order of the seats. It takes two
/// searches, and it allocates nothing.
pub fn row<G: Eq + Hash>(
    seats: &BiHashBTreeMap<G, u32>,
    first: u32,
    end: u32,
) -> RightRange<'_, G, u32>
    requires ordered { first ≤ end }
    ensures { result ≡ filter (λ p. nat_le first p.1 && nat_lt p.1 end) (by_right seats.now) }
{
    seats.right_range(first..end)
}

/// Returns the first seat that is taken, with its guest. It takes logarithmic time, and it allocates nothing.
pub fn first_taken<G: Eq + Hash, S: Ord>(seats: &BiHashBTreeMap<G, S>) -> Option<(&G, &S)>
    ensures pair { option_map deref_pair result ≡ slice_get (by_right seats.now) 0 }
    ensures sorted { IsByRight S.cmp (holding seats.now).pairs (by_right seats.now) }
{
    seats.first_by_right()
}

/// Returns the last seat that is taken, with its guest. It takes logarithmic time, and it allocates nothing.
pub fn last_taken<G: Eq + Hash, S: Ord>(seats: &BiHashBTreeMap<G, S>) -> Option<(&G, &S)>
    ensures pair { option_map deref_pair result
        ≡ slice_get (by_right seats.now) (length (by_right seats.now) - 1) }
    ensures sorted { IsByRight S.cmp (holding seats.now).pairs (by_right seats.now) }
{
    seats.last_by_right()
}
