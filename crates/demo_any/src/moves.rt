//! Moves that are tried and undone.
ghost use Rattle.std.specs.Prelude.{◌≤◌, length, Contains};
ghost use Rattle.bimap.specs.Sets.{IsSameSet};
ghost use Rattle.bimap_undo.specs.Marks.{KeepsMarks};

use bimap::{Bijection, OnHeld, Policy};
use bimap_undo::{CopyLeft, Undoable};

// Moves a guest to a seat that nobody has, and returns whether that was done. All marks of before are kept.
fn move_to<L: CopyLeft + Drop, R: Eq + Drop, B: Bijection<L, R> + Drop>(
    seats: &mut Undoable<B, L, R>,
    guest: L,
    seat: R,
) -> bool
    ensures recorded { length seats.old.entries ≤ length seats.new.entries }
    ensures kept { KeepsMarks L.eq R.eq seats.old (length seats.old.entries) seats.new }
{
    let free = Policy {
        left: OnHeld::Overwrite,
        right: OnHeld::Refuse,
    };
    seats.insert_with(guest, seat, free).is_ok()
}

/// Whether each of three guests can move, one after the other. Afterwards every guest has the seat of before.
///
/// Costs three insertions, and undoing them. It takes memory, and without any it returns `false` for a move.
pub fn can_move<L: CopyLeft + Drop, R: Eq + Drop, B: Bijection<L, R> + Drop>(
    seats: &mut Undoable<B, L, R>,
    first: (L, R),
    second: (L, R),
    third: (L, R),
) -> (bool, bool, bool)
    ensures { IsSameSet (Contains seats.old.held.pairs) (Contains seats.new.held.pairs) }
{
    let mark = seats.mark();
    let first = move_to(seats, first.0, first.1);
    let second = move_to(seats, second.0, second.1);
    let third = move_to(seats, third.0, third.1);
    seats.back_to(mark);
    (first, second, third)
}
