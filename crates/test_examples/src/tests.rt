//! What the examples share: the map with which they begin.
mod any;
mod changes;
mod constructors;
mod dynamic;
mod inverse;
mod json;
mod looks;
mod marks;
mod queries;
mod refusals;
mod sides;

use bimap::BiBTreeMap;
use std::process::Abort;

type Seats = BiBTreeMap<char, u32>;

const PAIRS: [(char, u32); 3] = [('a', 3), ('b', 1), ('c', 2)];

// Returns the map with which an example begins.
fn ordered(rt: &(impl Abort + AllocGlobal)) -> Seats {
    Seats::from_iter(rt.alloc(), PAIRS)
        .ok()
        .expect(rt, "no memory")
}

// Returns whether the map contains exactly these pairs.
fn holds(seats: &Seats, pairs: &[(char, u32)]) -> bool {
    for (left, right) in pairs {
        if seats.get_by_left(left) != Some(right) || seats.get_by_right(right) != Some(left) {
            return false;
        }
    }
    seats.len() == pairs.len()
}
