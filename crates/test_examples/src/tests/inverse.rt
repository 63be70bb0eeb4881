//! A map seen from its other side.
ghost use Rattle.std.specs.Prelude.{◌≡◌, [], nat_eq};
ghost use Rattle.bimap.specs.BTree.{holding};
ghost use Rattle.bimap.specs.Holding.{IsInsertion};
ghost use Rattle.bimap.specs.Exchanged.{inverse_holding};

use super::{Seats, holds, ordered};
use bimap::{Bijection, Inverse, NoRoom, Overwritten};

// Inserts a seat from the other side.
fn give(
    seats: &mut Seats,
    seat: u32,
    guest: char,
) -> Result<Overwritten<u32, char>, NoRoom<u32, char>>
    ensures { IsInsertion nat_eq nat_eq (inverse_holding (holding seats.old)) (seat, guest) result
        (inverse_holding (holding seats.new)) }
{
    let mut rooms = Inverse::new(seats);
    rooms.insert(seat, guest)
}

// Removes one seat from the other side, and then all others.
fn clear(seats: Seats, seat: u32) -> (Option<(u32, char)>, Seats)
    ensures { (holding result.1).pairs ≡ [] }
{
    let mut seats = seats;
    let mut rooms = Inverse::new(&mut seats);
    let emptied = rooms.remove_by_left(&seat);
    rooms.clear();
    (emptied, seats)
}

#[test]
fn looks_from_the_other_side(rt: HostRuntime) {
    let mut seats = ordered(&rt);
    let mut rooms = Inverse::new(&mut seats);
    assert!(&rt; rooms.get_by_left(&3) == Some(&'a'));
    assert!(&rt; rooms.remove_by_left(&3) == Some((3, 'a')));
    assert!(&rt; seats.get_by_left(&'a') == None);
    assert!(&rt; holds(&seats, &[('b', 1), ('c', 2)]));
}
