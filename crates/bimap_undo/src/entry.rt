//! What the record says of one change of a map.
use bimap::Overwritten;

/// A change of a map, with what takes it back: the exact values that were overwritten, replaced or removed.
///
/// The left of an inserted pair is a copy, equal to the pair's left. The pair's right is in the map, or in the entry of
/// a later change that removed it.
#[derive(Debug, Drop, Eq, PartialEq)]
pub enum Entry<L, R> {
    /// A pair of this left was inserted, and overwrote these pairs.
    Inserted(L, Overwritten<L, R>),
    /// A pair got the first left in place of the second. An `Operation::ReplaceLeft` has them the other way round.
    LeftReplaced(L, L),
    /// The pair of this left got another right in place of this one.
    RightReplaced(L, R),
    /// This pair was removed.
    Removed(L, R),
}
