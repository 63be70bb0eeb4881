//! The calls of a run and their replies. Nothing here performs them.
use bimap_base::{Overwritten, Policy};
use thiserror::Error;

/// A call on a map. `K` is the type of the key in a `Retain`, which the closure gets with each pair.
#[derive(Debug, Drop, Eq, PartialEq)]
pub enum Call<L, R, K> {
    /// `insert`, which replies `Inserted` or `NoRoom`.
    Insert(L, R),
    /// `insert_no_overwrite`, which replies `Put`, `Occupied` or `NoRoom`.
    InsertNoOverwrite(L, R),
    /// `insert_with`, which replies `Inserted`, `LeftHeld`, `RightHeld` or `NoRoom`.
    InsertWith(L, R, Policy),
    /// `remove_by_left`, which replies `Removed`.
    RemoveByLeft(L),
    /// `remove_by_right`, which replies `Removed`.
    RemoveByRight(R),
    /// `contains_left`, which replies `Holds`.
    ContainsLeft(L),
    /// `contains_right`, which replies `Holds`.
    ContainsRight(R),
    /// `retain` of the pairs for which the closure returns true with this key. It replies `Done`.
    Retain(K),
    /// `clear`, which replies `Done`.
    Clear,
}

/// What a call returned.
#[derive(Debug, Drop, Eq, PartialEq)]
pub enum Reply<L, R> {
    /// The pair was inserted, and overwrote these pairs.
    Inserted(Overwritten<L, R>),
    /// The map contains neither value, and there was no memory. The pair is handed back.
    NoRoom(L, R),
    /// `insert_no_overwrite` inserted the pair.
    Put,
    /// The map contains one of the values, or both. The pair is handed back.
    Occupied(L, R),
    /// The map contains the left, and the policy refuses to overwrite it. The pair is handed back.
    LeftHeld(L, R),
    /// The map contains the right, and the policy refuses to overwrite it. The pair is handed back.
    RightHeld(L, R),
    /// The pair that was removed, if there was one.
    Removed(Option<(L, R)>),
    /// Whether the map contains the value.
    Holds(bool),
    /// The call returns nothing.
    Done,
}

/// Out of memory for the replies. No call was performed. It hands the calls back.
#[derive(Debug, Drop, Eq, Error, PartialEq)]
#[error("out of memory for the replies")]
pub struct RunRefused<L, R, K> {
    pub calls: Vec<Call<L, R, K>>,
}
