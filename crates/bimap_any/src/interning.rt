//! The partner of a value, inserted if there is none, in any map. It uses calls of `Bijection` alone.
ghost use Rattle.std.specs.Prelude.{◌≡◌, Contains};
ghost use Rattle.bimap_base.specs.Sets.{LacksLeft};
ghost use Rattle.bimap_base.specs.Holding.{IsInterning};
ghost use Rattle.bimap_any.specs.InterningByRight.{IsInterningByRight};

use crate::bijection::Bijection;
use bimap_base::NotInserted;

// Interning on one side. The parameters are the bimap, its look-up, the value that is looked up, the partner that is returned if
// there is none yet, the expression that makes this partner, and the pair to insert.
macro_rules! interned {
    ($bimap:ident, $get:ident, $value:ident => $partner:ident, $made:expr; $left:ident, $right:ident) => {{
        if let Some(held) = $bimap.$get(&$value) {
            return Ok(*held);
        }
        let $partner = $made;
        match $bimap.insert_no_overwrite($left, $right) {
            Ok(()) => Ok($partner),
            Err(refused) => Err(refused),
        }
    }};
}

/// A map whose rights are `Copy`, as numbers are.
pub trait Interning<L: Eq + Drop, R: Copy + Eq + Drop>: Bijection<L, R> {
    /// Returns the right of the left, and first inserts the pair if the map does not contain the left.
    ///
    /// A map may implement it with fewer searches, as the five maps do.
    ///
    /// Time: That of a look-up, and of an insertion if it inserts.
    ///
    /// Memory: It allocates only if it inserts and the capacity is used up.
    ///
    /// `Err`: Another pair has the right (`Occupied`), or out of memory (`Memory`). It hands the pair back, and the map
    /// is as before.
    ///
    ///     // the number of a name: the one that it has, or else the next
    ///     let number = numbers.get_by_left_or_insert("ann", next)?;
    fn get_by_left_or_insert(&mut self, left: L, right: R) -> Result<R, NotInserted<L, R>>
        ensures answer { IsInterning L.eq R.eq (Self.holding self.old) (left, right) result
            (Self.holding self.new) }
        ensures lenders { Self.lenders self.new ≡ Self.lenders self.old }
    {
        interned!(self, get_by_left, left => right, right; left, right)
    }
}

/// Returns the right of the left, and first inserts the left with a right from the closure if the map does not contain
/// the left.
///
/// The closure is called only if the map does not contain the left.
///
/// Condition: Any condition of the closure holds, unless the map contains the left.
///
/// Time: That of a look-up, and of an insertion if it inserts.
///
/// Memory: It allocates only if it inserts and the capacity is used up.
///
/// `Err`: Another pair has the right (`Occupied`), or out of memory (`Memory`). It hands the pair back, and the map is
/// as before.
///
///     // a number is made for a new name alone
///     get_by_left_or_insert_with(&mut numbers, "ann", || 12); // Ok(12)
///     get_by_left_or_insert_with(&mut numbers, "ann", || 13); // Ok(12)
pub fn get_by_left_or_insert_with<
    L: Eq + Drop,
    R: Copy + Eq + Drop,
    B: Bijection<L, R>,
    F: FnOnce() -> R + Drop,
>(bimap: &mut B, left: L, make: F) -> Result<R, NotInserted<L, R>>
    requires may { LacksLeft L.eq (Contains (B.holding bimap.old).pairs) left → F.pre make }
    ensures answer { (right : R) × IsInterning L.eq R.eq (B.holding bimap.old) (left, right) result
        (B.holding bimap.new)
        × (LacksLeft L.eq (Contains (B.holding bimap.old).pairs) left → F.post make right) }
    ensures lenders { B.lenders bimap.new ≡ B.lenders bimap.old }
{
    interned!(bimap, get_by_left, left => right, make(); left, right)
}

/// Returns the left of the right, and first inserts the pair if the map does not contain the right.
///
/// Time: That of a look-up, and of an insertion if it inserts.
///
/// Memory: It allocates only if it inserts and the capacity is used up.
///
/// `Err`: Another pair has the left (`Occupied`), or out of memory (`Memory`). It hands the pair back, and the map is
/// as before.
///
///     // ann has the seat 12, and nobody the seat 7
///     get_by_right_or_insert(&mut seats, "bob", 12); // Ok("ann")
///     get_by_right_or_insert(&mut seats, "bob", 7); // Ok("bob")
pub fn get_by_right_or_insert<L: Copy + Eq + Drop, R: Eq + Drop, B: Bijection<L, R>>(
    bimap: &mut B,
    left: L,
    right: R,
) -> Result<L, NotInserted<L, R>>
    ensures answer { IsInterningByRight L.eq R.eq (B.holding bimap.old) (left, right) result
        (B.holding bimap.new) }
    ensures lenders { B.lenders bimap.new ≡ B.lenders bimap.old }
{
    interned!(bimap, get_by_right, right => left, left; left, right)
}
