//! What a look-up finds right after an insertion, and right after a removal.
ghost use Rattle.std.specs.Prelude.{◌≡◌, Some, None, IfOk};

use bimap::{Bijection, NoRoom};

/// Seats a guest, looks the guest up again, and returns what the look-up found. It is the seat that was given.
///
/// Costs an insertion and a look-up. An `Err` says that there was no memory, and nothing has changed.
pub fn seat_and_find<G: Copy + Eq + Drop, S: Copy + Eq + Drop, B: Bijection<G, S>>(
    ledger: &mut B,
    guest: G,
    seat: S,
) -> Result<Option<S>, NoRoom<G, S>>
    ensures { IfOk result (λ found. found ≡ Some seat) }
{
    ledger.insert(guest, seat)?;
    Ok(ledger.get_by_left(&guest).copied())
}

/// Removes a guest, looks the guest up again, and returns what the look-up found, which is nothing.
///
/// Costs a removal and a look-up, and no memory.
pub fn leave_and_find<G: Eq + Drop, S: Copy + Eq + Drop, B: Bijection<G, S>>(
    ledger: &mut B,
    guest: &G,
) -> Option<S>
    ensures { result ≡ None }
{
    ledger.remove_by_left(guest);
    ledger.get_by_left(guest).copied()
}
