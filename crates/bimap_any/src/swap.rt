//! Two pairs that swap their rights, in any map. It uses calls of `Bijection` alone.
ghost use Rattle.std.specs.Prelude.{◌≡◌, false, OnOk};
ghost use Rattle.bimap_any.specs.Exchange.{IsSwap};
ghost use Rattle.bimap_base.specs.Positions.{ComeLastSwapped};

use crate::bijection::Bijection;
use bimap_base::NotSwapped;

/// Gives each of two lefts the right of the other.
///
/// If the two lefts are equal, nothing changes. The capacity stays. In insertion order both pairs go to the end, the
/// pair of `other` first.
///
/// Time: That of two look-ups, two removals and two insertions.
///
/// `Err`: The map does not contain the first left (`FirstMissing`), or not the second (`SecondMissing`). The map is as
/// before.
///
///     // ann and bob change seats, and zoe has none
///     swap_partners(&mut seats, &"ann", &"bob"); // Ok(())
///     swap_partners(&mut seats, &"ann", &"zoe"); // Err(NotSwapped::SecondMissing)
pub fn swap_partners<L: Eq + Drop, R: Eq + Drop, B: Bijection<L, R>>(
    bimap: &mut B,
    left: &L,
    other: &L,
) -> Result<(), NotSwapped>
    ensures answer { IsSwap L.eq (B.holding bimap.old) left.now other.now result
        (B.holding bimap.new) }
    ensures position { B.appends → L.eq left.now other.now ≡ false → OnOk result
        (ComeLastSwapped L.eq (B.holding bimap.old).pairs left.now other.now
        (B.holding bimap.new).pairs) }
    ensures lenders { B.lenders bimap.new ≡ B.lenders bimap.old }
{
    if !bimap.contains_left(left) {
        return Err(NotSwapped::FirstMissing);
    }
    if !bimap.contains_left(other) {
        return Err(NotSwapped::SecondMissing);
    }
    if *left == *other {
        return Ok(());
    }
    let Some(first) = bimap.remove_by_left(left) else {
        unreachable!()
    };
    let Some(second) = bimap.remove_by_left(other) else {
        unreachable!()
    };
    match (
        bimap.insert(second.0, first.1),
        bimap.insert(first.0, second.1),
    ) {
        (Ok(_), Ok(_)) => Ok(()),
        _ => unreachable!(),
    }
}
