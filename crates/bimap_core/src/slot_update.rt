//! What one index does when the pair at a place is overwritten. The index changes only if the key is new.
ghost use Rattle.std.specs.Prelude.{◌≡◌, ◌<◌, ◌≤◌, ◌+◌, ◌*◌, ◌++◌, ◌∷◌, [], ℕ, Option, IsSome, IsSomeAnd, IfSome, MatchBool, MatchOption, is_some, true, false, length, if◌then◌else◌};
ghost use Rattle.bimap_index.specs.Listed.{IsWithout, MayLink};
ghost use Rattle.bimap_base.specs.Positions.{IsTakenOut};

use bimap_base::{Meter, Side};
use bimap_index::Index;

// Returns a spot of the key if the key is new at this place. Returns `None` if the place already has an equal key.
pub(crate) fn renew<K: Eq, I: Index<K>, S: Side<K>, M: Meter>(
    index: &I,
    side: S,
    place: usize,
    key: &K,
    meter: &mut M,
) -> Option<I::Spot>
    requires listing { I.is_listing index.now (S.key_at side) }
    requires live { IsSome (S.key_at side place) }
    ensures is_for { MatchOption result
        (IsSomeAnd (S.key_at side place) (λ k. K.eq k key.now ≡ true))
        (I.is_for index.now key.now) }
    ensures is_new { IfSome result (λ _. IsSomeAnd (S.key_at side place)
        (λ k. K.eq k key.now ≡ false)) }
    ensures comparisons { M.comparisons meter.new ≤ M.comparisons meter.old
        + I.effort (length (I.places index.now)) }
    ensures touches { M.touches meter.new ≡ M.touches meter.old }
{
    if index.is_known(side, place, key, meter) {
        None
    } else {
        Some(index.spot_for(key))
    }
}

// Removes the place from the list if its key will be new.
pub(crate) fn unlist<K: Eq, I: Index<K>, S: Side<K>, M: Meter>(
    index: &mut I,
    is_new: bool,
    side: S,
    place: usize,
    meter: &mut M,
)
    requires listing { I.is_listing index.old (S.key_at side) }
    requires live { IsSome (S.key_at side place) }
    ensures listing { MatchBool is_new ((f : ℕ → Option K) → IsWithout f (S.key_at side) place →
        I.is_listing index.new f) (I.is_listing index.new (S.key_at side)) }
    ensures is_for { (key : K) (spot : I.Spot) → I.is_for index.old key spot →
        I.is_for index.new key spot }
    ensures places { MatchBool is_new
        (I.appends → IsTakenOut (I.places index.old) place (I.places index.new))
        (I.places index.new ≡ I.places index.old) }
    ensures finds_by { I.finds_by index.new ≡ I.finds_by index.old }
    ensures cells { I.cells index.new ≡ I.cells index.old }
    ensures effort { I.effort (length (I.places index.new))
        ≤ I.effort (length (I.places index.old)) }
    ensures comparisons { M.comparisons meter.new ≤ M.comparisons meter.old
        + (if is_new then I.effort (length (I.places index.old)) else 0) }
    ensures touches { M.touches meter.new ≤ M.touches meter.old
        + (if is_new then 64 * (I.effort (length (I.places index.old)) + 1) else 0) }
{
    if is_new {
        index.unlink(side, place, meter);
    }
}

// Lists the place again by a spot of its key, if there is a spot. There is one if the key is new.
pub(crate) fn relist<K: Eq, I: Index<K>, S: Side<K>, M: Meter>(
    index: &mut I,
    side: S,
    place: usize,
    spot: Option<&I::Spot>,
    meter: &mut M,
)
    requires may { MatchOption spot (I.is_listing index.old (S.key_at side)) (λ s. (key : K)
        × MayLink I.is_listing K.eq index.old (S.key_at side) place key
        × I.is_for index.old key s.now) }
    requires cell { place < I.cells index.old }
    ensures listing { I.is_listing index.new (S.key_at side) }
    ensures places { MatchOption spot.entry (I.places index.new ≡ I.places index.old)
        (λ _. I.appends → I.places index.new ≡ I.places index.old ++ place ∷ []) }
    ensures finds_by { I.finds_by index.new ≡ I.finds_by index.old }
    ensures cells { I.cells index.new ≡ I.cells index.old }
    ensures comparisons { M.comparisons meter.new ≤ M.comparisons meter.old
        + (if is_some spot.entry then I.effort (length (I.places index.old)) else 0) }
    ensures touches { M.touches meter.new ≤ M.touches meter.old
        + (if is_some spot.entry then 64 * (I.effort (length (I.places index.old)) + 1) else 0) }
{
    if let Some(spot) = spot {
        index.relink(side, place, spot, meter);
    }
}
