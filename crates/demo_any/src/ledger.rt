//! A ledger of guests and their seats, which says who lost a seat.
ghost use Rattle.std.specs.Prelude.{◌≡◌, ◌+◌, ◌<◌, ◌≤◌, true, false, length, max, Contains, IfSome, IfNone, IfOk, OnOk, OnErr};
ghost use Rattle.bimap.specs.Sets.{shares, IsWithPut, LacksRight};
ghost use Rattle.bimap.specs.Answer.{IsAnswer};
ghost use Rattle.bimap.specs.Exchange.{IsReplacementOfLeft};
ghost use Rattle.bimap.specs.Visited.{MayVisit, IsVisited};

use bimap::{Bijection, NoMemory, NoRoom, NotReplaced, Overwritten, replace_left};

/// Gives a guest a seat, whoever has it, and returns who lost it, with the very seat.
///
/// Costs an insertion. It takes memory only where nobody loses a seat and no place is free. An `Err` changes nothing.
pub fn take<G: Eq + Drop, S: Eq + Drop, B: Bijection<G, S>>(
    ledger: &mut B,
    guest: G,
    seat: S,
) -> Result<Option<(G, S)>, NoRoom<G, S>>
    ensures lost { IfOk result (λ lost. IfSome lost (λ pair.
        Contains (B.holding ledger.old).pairs pair × (S.eq pair.1 seat ≡ true))) }
    ensures nobody { IfOk result (λ lost. IfNone lost ((p : G × S) →
        Contains (B.holding ledger.old).pairs p → S.eq p.1 seat ≡ true → G.eq p.0 guest ≡ true)) }
    ensures seated { OnOk result (IsWithPut G.eq S.eq (Contains (B.holding ledger.old).pairs)
        (guest, seat) (Contains (B.holding ledger.new).pairs)) }
    ensures unchanged { OnErr result (B.holding ledger.new ≡ B.holding ledger.old) }
{
    match ledger.insert(guest, seat)? {
        Overwritten::Right(other, its) => Ok(Some((other, its))),
        Overwritten::Both(_, other) => Ok(Some(other)),
        _ => Ok(None),
    }
}

/// Frees a seat, and returns who had it. Costs a removal, and no memory.
pub fn vacate<G: Eq + Drop, S: Eq + Drop, B: Bijection<G, S>>(ledger: &mut B, seat: &S) -> Option<G>
    ensures lost { IfSome result (λ guest. (its : S)
        × Contains (B.holding ledger.old).pairs (guest, its) × (S.eq its seat.now ≡ true)) }
    ensures nobody { IfNone result (LacksRight S.eq (Contains (B.holding ledger.old).pairs)
        seat.now) }
    ensures free { LacksRight S.eq (Contains (B.holding ledger.new).pairs) seat.now }
    ensures others { (p : G × S) → Contains (B.holding ledger.old).pairs p →
        S.eq p.1 seat.now ≡ false → Contains (B.holding ledger.new).pairs p }
{
    let (guest, _) = ledger.remove_by_right(seat)?;
    Some(guest)
}

/// Gives the seat of a guest to another guest, who has none. All others keep theirs.
///
/// Costs a replacement, and no memory. An `Err` hands the other guest back, and changes nothing.
pub fn hand_over<G: Eq + Drop, S: Eq + Drop, B: Bijection<G, S>>(
    ledger: &mut B,
    from: &G,
    to: G,
) -> Result<G, NotReplaced<G>>
    ensures replaced { IsReplacementOfLeft G.eq (B.holding ledger.old) from.now to result
        (B.holding ledger.new) }
    ensures others { (p : G × S) → Contains (B.holding ledger.old).pairs p →
        G.eq p.0 from.now ≡ false → Contains (B.holding ledger.new).pairs p }
{
    replace_left(ledger, from, to)
}

/// Shows each guest with the seat to a visitor once. The order is not specified.
pub fn show_seats<G: Eq + Drop, S: Eq + Drop, B: Bijection<G, S>, F: FnMut(&G, &S)>(
    ledger: &B,
    visitor: F,
)
    requires may { MayVisit F.FnMut visitor (B.holding ledger.now).pairs }
    ensures { IsVisited F.FnMut visitor (B.holding ledger.now).pairs }
{
    ledger.for_each(visitor)
}

/// Seats a guest while there is spare capacity. It never fails.
pub fn seat_in_free_place<G: Eq + Drop, S: Eq + Drop, B: Bijection<G, S>>(
    ledger: &mut B,
    guest: G,
    seat: S,
) -> Overwritten<G, S>
    requires room { length (B.holding ledger.old).pairs < (B.holding ledger.old).room }
    ensures left { IsAnswer G.eq S.eq (Contains (B.holding ledger.old).pairs) (guest, seat) result }
    ensures seated { IsWithPut G.eq S.eq (Contains (B.holding ledger.old).pairs) (guest, seat)
        (Contains (B.holding ledger.new).pairs) }
    ensures count { length (B.holding ledger.new).pairs ≤ length (B.holding ledger.old).pairs + 1 }
    ensures room { (B.holding ledger.new).room ≡ (B.holding ledger.old).room }
{
    match ledger.insert(guest, seat) {
        Ok(answer) => answer,
        Err(_) => unreachable!(),
    }
}

/// Seats two guests while there is spare capacity for both. It never fails.
#[tactic(auto, using(bimap::proofs::LookUps::other_stays))]
fn seat_both_in_free_places<G: Eq + Drop, S: Eq + Drop, B: Bijection<G, S>>(
    ledger: &mut B,
    first: (G, S),
    second: (G, S),
)
    requires room { length (B.holding ledger.old).pairs + 2 ≤ (B.holding ledger.old).room }
    ensures room { (B.holding ledger.new).room ≡ (B.holding ledger.old).room }
    ensures second { Contains (B.holding ledger.new).pairs second }
    ensures first { shares G.eq S.eq first second ≡ false →
        Contains (B.holding ledger.new).pairs first }
    ensures others { (p : G × S) → Contains (B.holding ledger.old).pairs p →
        shares G.eq S.eq p first ≡ false → shares G.eq S.eq p second ≡ false →
        Contains (B.holding ledger.new).pairs p }
{
    let _ = seat_in_free_place(ledger, first.0, first.1);
    let _ = seat_in_free_place(ledger, second.0, second.1);
}

/// Seats two guests, or neither. It makes sure of capacity for both first. After that neither can be refused.
///
/// The function allocates only if there is spare capacity for fewer than two guests. Then it adds no more capacity than
/// needed. An `Err` changes nothing.
pub fn seat_both<G: Eq + Drop, S: Eq + Drop, B: Bijection<G, S>>(
    ledger: &mut B,
    first: (G, S),
    second: (G, S),
) -> Result<(), NoMemory>
    ensures room { OnOk result ((B.holding ledger.new).room
        ≡ max (B.holding ledger.old).room (length (B.holding ledger.old).pairs + 2)) }
    ensures second { OnOk result (Contains (B.holding ledger.new).pairs second) }
    ensures first { OnOk result (shares G.eq S.eq first second ≡ false →
        Contains (B.holding ledger.new).pairs first) }
    ensures others { OnOk result ((p : G × S) → Contains (B.holding ledger.old).pairs p →
        shares G.eq S.eq p first ≡ false → shares G.eq S.eq p second ≡ false →
        Contains (B.holding ledger.new).pairs p) }
    ensures unchanged { OnErr result (B.holding ledger.new ≡ B.holding ledger.old) }
{
    ledger.reserve(2)?;
    seat_both_in_free_places(ledger, first, second);
    Ok(())
}
