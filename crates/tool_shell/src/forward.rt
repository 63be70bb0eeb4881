//! Ranges that do not run backwards.
ghost use Rattle.std.specs.Prelude.{IfSome};
ghost use Rattle.std.specs.BTreeMap.Range.{IsLeBy, IsLtBy};
ghost use Rattle.std.specs.Range.Bound.{IsForward};

use std::ops::Bound;

/// Returns the range, or `None` if its start is greater than its end. If both ends are excluded, the start must be less
/// than the end.
pub fn forward<K: Copy + Ord>(range: (Bound<K>, Bound<K>)) -> Option<(Bound<K>, Bound<K>)>
    ensures { IfSome result (λ r. IsForward (IsLeBy K.cmp) (IsLtBy K.cmp) r.0 r.1) }
{
    let goes = match (&range.0, &range.1) {
        (Bound::Unbounded, _) | (_, Bound::Unbounded) => true,
        (Bound::Excluded(low), Bound::Excluded(high)) => low < high,
        (
            Bound::Included(low) | Bound::Excluded(low),
            Bound::Included(high) | Bound::Excluded(high),
        ) => low <= high,
    };
    goes.then_some(range)
}
