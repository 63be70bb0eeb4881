//! The line of each kind of change, and groups of one line or two. It does not know the file.
ghost use Rattle.std.specs.Prelude.{◌≡◌, ◌≤◌, ◌++◌, ◌∷◌, [], ℕ, List, Contains, IfOk};
ghost use Rattle.serde_json.specs.Data.{depth};
ghost use Rattle.serde_json.specs.Read.{max_depth};
ghost use Rattle.serde_json.specs.View.{view};
ghost use Rattle.bimap_journal.specs.Changes.{IsGroupOf};
ghost use Rattle.bimap_journal.specs.Batches.{IsLineFor, IsGroupOfTwo};
ghost use Rattle.bimap_journal.specs.Texts.{Says};
ghost use Rattle.bimap_journal.specs.declared.change.Change.TheVariants.{Insert, RemoveByLeft, RemoveByRight, Clear};

use crate::change::{clearing, insertion, removal_by_left, removal_by_right};
use crate::stored::Stored;
use crate::text::{NotWritten, push_line};
use serde_json::Value;
use std::alloc::Global;
use std::marker::PhantomData;

// Returns the line of a value. It lacks its first byte, as the first line of a group does.
fn line_of(alloc: Global, value: &Value) -> Result<Vec<u8>, NotWritten>
    requires { depth (view value.now) ≤ max_depth }
    ensures { IfOk result (λ line. (text : List ℕ) × Says text (view value.now)
        × (¬ Contains text 10) × (line.items ≡ text ++ 10 ∷ [])) }
{
    let mut line = Vec::new(alloc);
    push_line(alloc, &mut line, value)?;
    Ok(line)
}

/// Returns the line of an insertion.
pub fn insertion_line<L: Stored, R: Stored>(
    alloc: Global,
    left: &L,
    right: &R,
) -> Result<Vec<u8>, NotWritten>
    ensures { IfOk result (λ line. IsLineFor L.eq R.eq L.reads R.reads
        (Insert left.now right.now) line.items) }
{
    match insertion(alloc, left, right) {
        Ok(value) => line_of(alloc, &value),
        Err(_) => Err(NotWritten::Memory),
    }
}

/// Returns the line of a removal by left.
pub fn left_line<L: Stored, R: Stored>(
    alloc: Global,
    left: &L,
    _sides: PhantomData<R>,
) -> Result<Vec<u8>, NotWritten>
    ensures { IfOk result (λ line. IsLineFor L.eq R.eq L.reads R.reads
        (RemoveByLeft left.now) line.items) }
{
    match removal_by_left(alloc, left) {
        Ok(value) => line_of(alloc, &value),
        Err(_) => Err(NotWritten::Memory),
    }
}

/// Returns the line of a removal by right.
pub fn right_line<L: Stored, R: Stored>(
    alloc: Global,
    right: &R,
    _sides: PhantomData<L>,
) -> Result<Vec<u8>, NotWritten>
    ensures { IfOk result (λ line. IsLineFor L.eq R.eq L.reads R.reads
        (RemoveByRight right.now) line.items) }
{
    match removal_by_right(alloc, right) {
        Ok(value) => line_of(alloc, &value),
        Err(_) => Err(NotWritten::Memory),
    }
}

/// Returns the line of a removal of all pairs.
pub fn clear_line<L: Stored, R: Stored>(
    alloc: Global,
    _sides: PhantomData<(L, R)>,
) -> Result<Vec<u8>, NotWritten>
    ensures { IfOk result (λ line. IsLineFor L.eq R.eq L.reads R.reads Clear line.items) }
{
    match clearing(alloc) {
        Ok(value) => line_of(alloc, &value),
        Err(_) => Err(NotWritten::Memory),
    }
}

// Returns the group of these lines.
fn closed(lines: Vec<u8>) -> Result<Vec<u8>, NotWritten>
    ensures { IfOk result (λ group. group.items ≡ lines.items ++ 45 ∷ []) }
{
    let mut group = lines;
    group.push(b'-')?;
    Ok(group)
}

/// Returns the group of an insertion.
pub fn insertion_group<L: Stored, R: Stored>(
    alloc: Global,
    left: &L,
    right: &R,
) -> Result<Vec<u8>, NotWritten>
    ensures { IfOk result (λ group. IsGroupOf L.eq R.eq L.reads R.reads
        (Insert left.now right.now) group.items) }
{
    closed(insertion_line(alloc, left, right)?)
}

/// Returns the group of a removal by left.
pub fn left_group<L: Stored, R: Stored>(
    alloc: Global,
    left: &L,
    sides: PhantomData<R>,
) -> Result<Vec<u8>, NotWritten>
    ensures { IfOk result (λ group. IsGroupOf L.eq R.eq L.reads R.reads
        (RemoveByLeft left.now) group.items) }
{
    closed(left_line(alloc, left, sides)?)
}

/// Returns the group of a removal by right.
pub fn right_group<L: Stored, R: Stored>(
    alloc: Global,
    right: &R,
    sides: PhantomData<L>,
) -> Result<Vec<u8>, NotWritten>
    ensures { IfOk result (λ group. IsGroupOf L.eq R.eq L.reads R.reads
        (RemoveByRight right.now) group.items) }
{
    closed(right_line(alloc, right, sides)?)
}

/// Returns the group of a removal of all pairs.
pub fn clear_group<L: Stored, R: Stored>(
    alloc: Global,
    sides: PhantomData<(L, R)>,
) -> Result<Vec<u8>, NotWritten>
    ensures { IfOk result (λ group. IsGroupOf L.eq R.eq L.reads R.reads Clear group.items) }
{
    closed(clear_line(alloc, sides)?)
}

// Returns the group of two lines.
fn joined(first: Vec<u8>, second: &Vec<u8>) -> Result<Vec<u8>, NotWritten>
    ensures { IfOk result (λ group. group.items
        ≡ first.items ++ 43 ∷ second.now.items ++ 45 ∷ []) }
{
    let mut lines = first;
    lines.push(b'+')?;
    lines.extend_from_slice(second)?;
    closed(lines)
}

/// Returns the group of a removal by left and an insertion.
pub fn left_replacement<L: Stored, R: Stored>(
    alloc: Global,
    from: &L,
    to: &L,
    right: &R,
) -> Result<Vec<u8>, NotWritten>
    ensures { IfOk result (λ group. IsGroupOfTwo L.eq R.eq L.reads R.reads
        (RemoveByLeft from.now) (Insert to.now right.now) group.items) }
{
    let removal = left_line(alloc, from, PhantomData::<R>)?;
    joined(removal, &insertion_line(alloc, to, right)?)
}

/// Returns the group of a removal by right and an insertion.
pub fn right_replacement<L: Stored, R: Stored>(
    alloc: Global,
    from: &R,
    left: &L,
    to: &R,
) -> Result<Vec<u8>, NotWritten>
    ensures { IfOk result (λ group. IsGroupOfTwo L.eq R.eq L.reads R.reads
        (RemoveByRight from.now) (Insert left.now to.now) group.items) }
{
    let removal = right_line(alloc, from, PhantomData::<L>)?;
    joined(removal, &insertion_line(alloc, left, to)?)
}
