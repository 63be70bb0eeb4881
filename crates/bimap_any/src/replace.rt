//! One value of a pair replaced, in any map. It uses calls of `Bijection` alone.
ghost use Rattle.std.specs.Prelude.{◌≡◌, IfOk};
ghost use Rattle.bimap_any.specs.Exchange.{IsReplacementOfLeft, IsReplacementOfRight};
ghost use Rattle.bimap_base.specs.Positions.{ComesLastWith};

use crate::bijection::Bijection;
use bimap_base::NotReplaced;

// A replacement on one side. The parameters are the bimap, the old and the new value, the two calls of this side, the removed
// pair, the value that is returned, and the pair to insert.
macro_rules! replaced {
    ($bimap:ident, $from:ident => $to:ident; $contains:ident, $remove:ident; $left:ident, $right:ident => $old:ident, $new_left:ident, $new_right:ident) => {{
        if !$bimap.$contains($from) {
            return Err(NotReplaced::Missing($to));
        }
        if $to != *$from && $bimap.$contains(&$to) {
            return Err(NotReplaced::Held($to));
        }
        match $bimap.$remove($from) {
            Some(($left, $right)) => match $bimap.insert($new_left, $new_right) {
                Ok(_) => Ok($old),
                Err(_) => unreachable!(),
            },
            None => unreachable!(),
        }
    }};
}

/// Replaces the left of a pair and returns the old left.
///
/// The new left may equal the old one. The capacity stays. In insertion order the pair goes to the end.
///
/// Time: That of two look-ups, a removal and an insertion.
///
/// `Err`: No pair has the old left (`Missing`), or another pair has the new left (`Held`). It hands the new left back,
/// and the map is as before.
///
///     // a user gets another name, and keeps the number
///     let old = replace_left(&mut users, &"ann", "anna")?;
pub fn replace_left<L: Eq + Drop, R: Eq + Drop, B: Bijection<L, R>>(
    bimap: &mut B,
    from: &L,
    to: L,
) -> Result<L, NotReplaced<L>>
    ensures answer { IsReplacementOfLeft L.eq (B.holding bimap.old) from.now to result
        (B.holding bimap.new) }
    ensures position { B.appends → IfOk result (λ taken. ComesLastWith (λ (l : L) (r : R). (l, r))
        (B.holding bimap.old).pairs taken to (B.holding bimap.new).pairs) }
    ensures lenders { B.lenders bimap.new ≡ B.lenders bimap.old }
{
    replaced!(bimap, from => to; contains_left, remove_by_left; left, right => left, to, right)
}

/// Replaces the right of a pair and returns the old right.
///
/// The new right may equal the old one. The capacity stays. In insertion order the pair goes to the end.
///
/// Time: That of two look-ups, a removal and an insertion.
///
/// `Err`: No pair has the old right (`Missing`), or another pair has the new right (`Held`). It hands the new right
/// back, and the map is as before.
///
///     // a user moves to another seat
///     let old = replace_right(&mut seats, &12, 31)?;
pub fn replace_right<L: Eq + Drop, R: Eq + Drop, B: Bijection<L, R>>(
    bimap: &mut B,
    from: &R,
    to: R,
) -> Result<R, NotReplaced<R>>
    ensures answer { IsReplacementOfRight R.eq (B.holding bimap.old) from.now to result
        (B.holding bimap.new) }
    ensures position { B.appends → IfOk result (λ taken. ComesLastWith (λ (r : R) (l : L). (l, r))
        (B.holding bimap.old).pairs taken to (B.holding bimap.new).pairs) }
    ensures lenders { B.lenders bimap.new ≡ B.lenders bimap.old }
{
    replaced!(bimap, from => to; contains_right, remove_by_right; left, right => right, left, to)
}
