//! An insertion that is undone at once.
ghost use Rattle.std.specs.Prelude.{Contains, OnOk};
ghost use Rattle.bimap.specs.Sets.{IsSameSet};

use bimap::{Bijection, NoRoom};

/// Seats a guest and undoes it. Every guest has the seat of before.
///
/// Costs an insertion and undoing it. Only the insertion can run out of memory. An `Err` says so, and nothing has
/// changed.
pub fn seat_and_undo<B: Bijection<u32, u32>>(
    ledger: &mut B,
    guest: u32,
    seat: u32,
) -> Result<(), NoRoom<u32, u32>>
    ensures { OnOk result (IsSameSet (Contains (B.holding ledger.old).pairs)
        (Contains (B.holding ledger.new).pairs)) }
{
    let answer = ledger.insert(guest, seat)?;
    match ledger.undo_insert(&guest, answer) {
        Ok(_) => Ok(()),
        Err(_) => unreachable!(),
    }
}
