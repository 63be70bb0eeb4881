//! Which pairs a `retain` leaves whose closure captures a number.
ghost use Rattle.std.specs.Prelude.{◌≤◌, ◌↔◌, Contains};

use bimap::Bijection;

/// Frees each seat below `least`. All other guests keep their seats.
///
/// Costs a `retain`, and no memory.
pub fn free_below<G: Eq + Drop, B: Bijection<G, u32>>(seats: &mut B, least: u32)
    ensures { (p : _) → Contains (B.holding seats.new).pairs p ↔
        (Contains (B.holding seats.old).pairs p × (least ≤ p.1)) }
{
    Bijection::retain(seats, |_: &G, seat: &u32| *seat >= least)
}
