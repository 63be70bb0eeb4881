//! Code over any map, proved from the contracts of `bimap` and `bimap_undo` alone. docs/PROVING.md shows most of it.
#![tactic(auto)]

mod found;
mod held;
mod keys;
mod ledger;
mod looks;
mod loops;
mod moves;
mod names;
mod queue;
mod retained;
mod texts;
mod undone;

pub use found::{leave_and_find, seat_and_find};
pub use held::seat_new;
pub use keys::TableSeat;
pub use ledger::{hand_over, seat_both, seat_in_free_place, show_seats, take, vacate};
pub use looks::{Shown, run_and_look, run_and_look_ordered};
pub use loops::seat_all;
pub use moves::can_move;
pub use names::{intern, name_of, number_of};
pub use queue::in_front;
pub use retained::free_below;
pub use texts::seat_named;
pub use undone::seat_and_undo;
