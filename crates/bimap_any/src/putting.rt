//! A pair that may be contained already, in any map. It uses calls of `Bijection` alone.
ghost use Rattle.std.specs.Prelude.{◌≡◌, ◌↔◌, IsTrue, Contains};
ghost use Rattle.bimap_any.specs.Put.{IsPutting};
ghost use Rattle.bimap_any.specs.Same.{HasEqual};

use crate::bijection::Bijection;
use bimap_base::{NotInsertedWith, OnHeld, Overwritten, Policy};

/// Returns whether the map contains a pair that equals this one on both sides.
///
/// Time: That of a look-up by left.
///
///     let is_hers = contains_pair(&seats, &"ann", &12);
pub fn contains_pair<L: Eq + Drop, R: Eq + Drop, B: Bijection<L, R>>(
    bimap: &B,
    left: &L,
    right: &R,
) -> bool
    ensures { IsTrue result ↔ HasEqual L.eq R.eq (Contains (B.holding bimap.now).pairs)
        (left.now, right.now) }
{
    match bimap.get_by_left(left) {
        Some(held) => *right == *held,
        None => false,
    }
}

/// Inserts a pair as `insert_with` does, and overwrites an equal pair under any policy.
///
/// Time: That of a look-up by left, and of an insertion.
///
/// Memory: It allocates only if it overwrites nothing and the capacity is used up.
///
/// `Err`: Another pair shares a value, and the policy refuses to overwrite it (`LeftHeld`, `RightHeld`), or out of
/// memory (`Memory`). It hands the pair back, and the map is as before.
///
///     // each left and each right once; ann has the seat 12
///     let once = Policy { left: OnHeld::Refuse, right: OnHeld::Refuse };
///     put(&mut seats, "ann", 12, once); // Ok(Overwritten::Pair("ann", 12))
///     put(&mut seats, "bob", 12, once); // Err(NotInsertedWith::RightHeld("bob", 12))
pub fn put<L: Eq + Drop, R: Eq + Drop, B: Bijection<L, R>>(
    bimap: &mut B,
    left: L,
    right: R,
    policy: Policy,
) -> Result<Overwritten<L, R>, NotInsertedWith<L, R>>
    ensures answer { IsPutting L.eq R.eq (B.holding bimap.old) (left, right) policy result
        (B.holding bimap.new) }
    ensures lenders { B.lenders bimap.new ≡ B.lenders bimap.old }
{
    if contains_pair(bimap, &left, &right) {
        let overwriting = Policy {
            left: OnHeld::Overwrite,
            right: OnHeld::Overwrite,
        };
        return bimap.insert_with(left, right, overwriting);
    }
    bimap.insert_with(left, right, policy)
}
