//! What a caller knows about a pair that it inserted, and about how many pairs there are then.
ghost use Rattle.std.specs.Prelude.{◌≡◌, ◌+◌, length, Contains, IfErr, OnOk, OnErr};
ghost use Rattle.bimap.specs.Answer.{IsRefusal};
ghost use Rattle.bimap.specs.Holding.{IsFull};
ghost use Rattle.bimap.specs.Sets.{IsWithPut, NoneShares};

use bimap::{Bijection, NotInserted};

/// Seats a new guest in a new seat. All other guests keep their seats.
///
/// The function makes one insertion. It allocates only if there is no spare capacity. An `Err` contains the guest and
/// the seat, and nothing has changed. It says that the ledger contains one of them, or that there was no memory.
#[tactic(auto, using(bimap::proofs::LookUps::put_is_held))]
pub fn seat_new<G: Eq + Drop, S: Eq + Drop, B: Bijection<G, S>>(
    ledger: &mut B,
    guest: G,
    seat: S,
) -> Result<(), NotInserted<G, S>>
    ensures seated { OnOk result (Contains (B.holding ledger.new).pairs (guest, seat)) }
    ensures alone { OnOk result (NoneShares G.eq S.eq (Contains (B.holding ledger.old).pairs)
        (guest, seat)) }
    ensures stay { (p : G × S) → Contains (B.holding ledger.old).pairs p →
        Contains (B.holding ledger.new).pairs p }
    ensures others { OnOk result (IsWithPut G.eq S.eq (Contains (B.holding ledger.old).pairs)
        (guest, seat) (Contains (B.holding ledger.new).pairs)) }
    ensures refused { IfErr result (IsRefusal G.eq S.eq (Contains (B.holding ledger.old).pairs)
        (IsFull (B.holding ledger.old)) (guest, seat)) }
    ensures unchanged { OnErr result (B.holding ledger.new ≡ B.holding ledger.old) }
    ensures count { OnOk result (length (B.holding ledger.new).pairs
        ≡ length (B.holding ledger.old).pairs + 1) }
{
    ledger.insert_no_overwrite(guest, seat)
}
