//! What a map contains.
use bimap::Bijection;

/// Returns whether the map contains exactly these pairs. It looks each of them up by both sides.
pub fn shows<L: Eq + Drop, R: Eq + Drop, B: Bijection<L, R>>(bimap: &B, pairs: &[(L, R)]) -> bool {
    for (left, right) in pairs {
        if bimap.get_by_left(left) != Some(right) || bimap.get_by_right(right) != Some(left) {
            return false;
        }
    }
    bimap.len() == pairs.len()
}
