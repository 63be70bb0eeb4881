//! Pairs that a loop inserts.
ghost use Rattle.std.specs.Prelude.{Contains};

use bimap::{Bijection, NotInserted};

/// Seats new guests in new seats, in the order of the slice. All other guests keep their seats.
///
/// The function makes one insertion for each pair. An `Err` contains the first pair that was not inserted. The pairs
/// before it stay.
pub fn seat_all<G: Copy + Eq + Drop, S: Copy + Eq + Drop, B: Bijection<G, S>>(
    ledger: &mut B,
    pairs: &[(G, S)],
) -> Result<(), NotInserted<G, S>>
    ensures { (p : G × S) → Contains (B.holding ledger.old).pairs p →
        Contains (B.holding ledger.new).pairs p }
{
    for &(guest, seat) in pairs {
        ledger.insert_no_overwrite(guest, seat)?;
    }
    Ok(())
}
