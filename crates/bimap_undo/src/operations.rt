//! Lists of operations on a map with a record, and the way back from them.
ghost use Rattle.std.specs.Prelude.{◌≡◌, ◌≤◌, length, Contains, IfOk};
ghost use Rattle.bimap_undo.specs.Marks.{KeepsMarks, IsReturn};
ghost use Rattle.bimap_undo.specs.Operations.{StaysAbove, IsPerformed, ArePerformed};

use crate::copy_left::CopyLeft;
use crate::refusal::NotRecorded;
use crate::undoable::Undoable;
use bimap::{Bijection, NoMemory, NoRoom, NotInsertedWith, Policy};
use std::alloc::Global;

/// What is done to a map with a record.
///
/// There is no operation for `insert_all`, since an operation that owns its items could not be copied. An `undo_last`
/// is the `BackTo` of its mark. There is none for `forget`, which would forget the mark.
#[derive(Clone, Copy, Debug, Drop, Eq, PartialEq)]
pub enum Operation<L, R> {
    /// A call of [`insert`](Undoable::insert).
    Insert(L, R),
    /// A call of [`insert_with`](Undoable::insert_with).
    InsertWith(L, R, Policy),
    /// A call of [`replace_left`](Undoable::replace_left), with the left to replace and the new one.
    ReplaceLeft(L, L),
    /// A call of [`replace_right`](Undoable::replace_right), with the right to replace and the new one.
    ReplaceRight(R, R),
    /// A call of [`remove_by_left`](Undoable::remove_by_left).
    RemoveByLeft(L),
    /// A call of [`remove_by_right`](Undoable::remove_by_right).
    RemoveByRight(R),
    /// A call of [`back_to`](Undoable::back_to) with this mark. If the mark is above the number of recorded changes,
    /// nothing is done.
    BackTo(usize),
}

/// What an operation returned: the result of the method of [`Undoable`] that performed it. `BackTo` has a `bool`, since
/// `back_to` returns nothing.
#[derive(Debug, Drop, Eq, PartialEq)]
pub enum Outcome<L, R> {
    /// What [`insert`](Undoable::insert) returned.
    Insert(Result<bool, NoRoom<L, R>>),
    /// What [`insert_with`](Undoable::insert_with) returned.
    InsertWith(Result<bool, NotInsertedWith<L, R>>),
    /// What [`replace_left`](Undoable::replace_left) returned.
    ReplaceLeft(Result<(), NotRecorded<L>>),
    /// What [`replace_right`](Undoable::replace_right) returned.
    ReplaceRight(Result<(), NotRecorded<R>>),
    /// What [`remove_by_left`](Undoable::remove_by_left) returned.
    RemoveByLeft(Result<bool, NoMemory>),
    /// What [`remove_by_right`](Undoable::remove_by_right) returned.
    RemoveByRight(Result<bool, NoMemory>),
    /// Whether the mark was at most the number of recorded changes. If it was above, nothing changed.
    BackTo(bool),
}

// Performs one operation. Going back to a mark above the number of recorded changes changes nothing.
fn perform<B: Bijection<L, R> + Drop, L: CopyLeft + Drop, R: Eq + Drop>(
    undoable: &mut Undoable<B, L, R>,
    operation: Operation<L, R>,
    mark: usize,
) -> Outcome<L, R>
    requires recorded { mark ≤ length undoable.old.entries }
    requires above { StaysAbove mark operation }
    ensures performed { IsPerformed L.eq R.eq undoable.old operation result undoable.new }
    ensures recorded { mark ≤ length undoable.new.entries }
    ensures kept { KeepsMarks L.eq R.eq undoable.old mark undoable.new }
    ensures room { undoable.old.held.room ≤ undoable.new.held.room }
{
    match operation {
        Operation::Insert(left, right) => Outcome::Insert(undoable.insert(left, right)),
        Operation::InsertWith(left, right, policy) => {
            Outcome::InsertWith(undoable.insert_with(left, right, policy))
        }
        Operation::ReplaceLeft(from, to) => Outcome::ReplaceLeft(undoable.replace_left(&from, to)),
        Operation::ReplaceRight(from, to) => {
            Outcome::ReplaceRight(undoable.replace_right(&from, to))
        }
        Operation::RemoveByLeft(left) => Outcome::RemoveByLeft(undoable.remove_by_left(&left)),
        Operation::RemoveByRight(right) => {
            Outcome::RemoveByRight(undoable.remove_by_right(&right))
        }
        Operation::BackTo(to) => {
            if to > undoable.mark() {
                return Outcome::BackTo(false);
            }
            undoable.back_to(to);
            Outcome::BackTo(true)
        }
    }
}

// Performs the operations in order. It allocates for all outcomes first, so an `Err` has performed none.
fn perform_all<B: Bijection<L, R> + Drop, L: CopyLeft + Drop, R: Eq + Drop>(
    alloc: Global,
    undoable: &mut Undoable<B, L, R>,
    operations: Vec<Operation<L, R>>,
    mark: usize,
) -> Result<Vec<Outcome<L, R>>, NoMemory>
    requires recorded { mark ≤ length undoable.old.entries }
    requires above { (operation : Operation L R) → Contains operations.items operation →
        StaysAbove mark operation }
    ensures performed { IfOk result (λ outcomes. ArePerformed L.eq R.eq undoable.old
        operations.items outcomes.items undoable.new) }
    ensures recorded { mark ≤ length undoable.new.entries }
    ensures kept { KeepsMarks L.eq R.eq undoable.old mark undoable.new }
    ensures room { undoable.old.held.room ≤ undoable.new.held.room }
{
    let mut outcomes = Vec::with_capacity(alloc, operations.len())?;
    for operation in operations {
        let outcome = perform(undoable, operation, mark);
        outcomes.push_reserved(outcome);
    }
    Ok(outcomes)
}

/// Performs the operations in order, goes back to the mark, and returns what each operation returned.
///
/// Afterwards the map contains what the mark stands for, whichever operations were refused. An operation that goes back
/// to a mark above the number of recorded changes changes nothing.
///
/// Condition: `mark` is at most the number of recorded changes. No operation goes back to a lower mark.
///
/// Time: That of the operations, and of [`back_to`](Undoable::back_to).
///
/// Memory: It allocates for all outcomes first, and then as each operation does.
///
/// `Err`: Out of memory for the outcomes. It performed no operation, and also went back to the mark.
pub fn there_and_back<B: Bijection<L, R> + Drop, L: CopyLeft + Drop, R: Eq + Drop>(
    alloc: Global,
    undoable: &mut Undoable<B, L, R>,
    mark: usize,
    operations: Vec<Operation<L, R>>,
) -> Result<Vec<Outcome<L, R>>, NoMemory>
    requires recorded { mark ≤ length undoable.old.entries }
    requires above { (operation : Operation L R) → Contains operations.items operation →
        StaysAbove mark operation }
    ensures performed { IfOk result (λ outcomes. (there : _) × ArePerformed L.eq R.eq undoable.old
        operations.items outcomes.items there) }
    ensures gone_back { IsReturn L.eq R.eq undoable.old mark undoable.new }
    ensures room { undoable.old.held.room ≤ undoable.new.held.room }
{
    let outcomes = perform_all(alloc, undoable, operations, mark);
    undoable.back_to(mark);
    outcomes
}
