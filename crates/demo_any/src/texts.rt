//! What a look-up by a text says of the name that it found.
ghost use Rattle.std.specs.Prelude.{◌≡◌, ◌≢◌, Contains, IfSome, IfNone, string_bytes};
ghost use Rattle.bimap.specs.BTree.{holding};

use bimap::BiBTreeMap;

/// The seat of a guest whose name is given as a `&str`. No `String` is built to ask.
pub fn seat_named(seats: &BiBTreeMap<String, u32>, name: &str) -> Option<u32>
    ensures seated { IfSome result (λ seat. (guest : _)
        × Contains (holding seats.now).pairs (guest, seat) × (string_bytes guest ≡ name.now)) }
    ensures unknown { IfNone result ((p : _) → Contains (holding seats.now).pairs p →
        string_bytes p.0 ≢ name.now) }
{
    match seats.get_by_left(name) {
        Some(seat) => Some(*seat),
        None => None,
    }
}
