//! Why a call did nothing, or not all, and what it hands back. The text of a refusal names no value, so that it needs
//! no `Display` of the sides.
use crate::overwritten::Overwritten;
use std::alloc::AllocError;
use thiserror::Error;

/// Out of memory. The documentation of each call says what it leaves then.
#[derive(Clone, Copy, Debug, Eq, Error, PartialEq)]
#[error("out of memory")]
pub struct NoMemory;

impl From<AllocError> for NoMemory {
    fn from(_: AllocError) -> NoMemory {
        NoMemory
    }
}

/// Out of memory for a pair, which it hands back. Nothing has changed. If a map returned it, the pair would overwrite
/// nothing. An `Undoable` gives no such promise.
#[derive(Debug, Drop, Eq, Error, PartialEq)]
#[error("out of memory for the pair")]
pub struct NoRoom<L, R> {
    pub left: L,
    pub right: R,
}

/// Why `insert_no_overwrite` or a `get_by_.._or_insert` did not insert a pair. It hands the pair back, and nothing has
/// changed.
#[derive(Debug, Drop, Eq, Error, PartialEq)]
pub enum NotInserted<L, R> {
    /// The map contains one of the values, or both.
    #[error("the left or the right is already contained")]
    Occupied(L, R),
    /// The map contains neither value, and there was no memory.
    #[error("out of memory for the pair")]
    Memory(L, R),
}

/// Why `insert_with` did not insert a pair. It hands the pair back, and nothing has changed.
#[derive(Debug, Drop, Eq, Error, PartialEq)]
pub enum NotInsertedWith<L, R> {
    /// The map contains the left, and the policy refuses to overwrite it. The call checks the left first.
    #[error("the left is already contained")]
    LeftHeld(L, R),
    /// The map contains the right, and the policy refuses to overwrite it.
    #[error("the right is already contained")]
    RightHeld(L, R),
    /// Out of memory for the pair. If a map returned it, the map contains neither value. An `Undoable` gives no such
    /// promise.
    #[error("out of memory for the pair")]
    Memory(L, R),
}

/// Out of memory for an item that would overwrite nothing. It hands the item back. The items before it were inserted.
#[derive(Debug, Drop, Eq, Error, PartialEq)]
#[error("item {taken}: out of memory for the pair")]
pub struct ExtendStopped<L, R> {
    /// How many items were inserted, or `usize::MAX` if more were.
    pub taken: usize,
    pub left: L,
    pub right: R,
}

/// Why a value was not replaced. It hands the new value back, and nothing has changed.
#[derive(Debug, Drop, Eq, Error, PartialEq)]
pub enum NotReplaced<V> {
    /// The map does not contain the old value. The call looks for the old value first.
    #[error("the old value is not contained")]
    Missing(V),
    /// Another pair has the new value.
    #[error("another pair has the new value")]
    Held(V),
}

/// Why two lefts did not swap their rights. Nothing has changed.
#[derive(Clone, Copy, Debug, Eq, Error, PartialEq)]
pub enum NotSwapped {
    /// The map does not contain the first left.
    #[error("the first left is not contained")]
    FirstMissing,
    /// The map contains the first left, and not the second.
    #[error("the second left is not contained")]
    SecondMissing,
}

/// Out of memory for the inverse of a map. It hands the map back as it was.
#[derive(Debug, Drop, Eq, Error, PartialEq)]
#[error("out of memory for the inverse")]
pub struct NotInverted<B> {
    pub given: B,
}

/// An item that the policy refused, or for which memory ran out. `why` is a `NotInsertedWith`. The call says what
/// became of the items before it.
#[derive(Debug, Drop, Eq, Error, PartialEq)]
#[error("item {taken}: {why}")]
pub struct ItemRefused<L, R> {
    /// The item's number, from 0. If the number is above `usize::MAX`, this is `usize::MAX`.
    pub taken: usize,
    /// The reason, which hands the item back.
    pub why: NotInsertedWith<L, R>,
}

/// Out of memory for putting two pairs back. It hands the answer back, and nothing has changed.
#[derive(Debug, Drop, Eq, Error, PartialEq)]
#[error("out of memory for putting two pairs back")]
pub struct UndoStopped<L, R> {
    pub answer: Overwritten<L, R>,
}
