//! The lines of a list of calls, and the group of those that changed a map. It does not know the file.
ghost use Rattle.std.specs.Prelude.{◌≡◌, ◌≤◌, ◌+◌, ◌++◌, ◌∷◌, [], List, ℕ, Contains, drop, IfOk, IfErr, OnErr, length, vec_len};
ghost use Rattle.std.specs.List.{AllZip, zip};
ghost use Rattle.std.specs.Vec.{vec_capacity};
ghost use Rattle.std.specs.declared.convert.Infallible.{Infallible};
ghost use Rattle.bimap.specs.History.{IsHistory};
ghost use Rattle.bimap.specs.Holding.{Holding};
ghost use Rattle.bimap.specs.declared.call.Call.{Call};
ghost use Rattle.bimap_journal.specs.Batches.{has_changed as is_change, space, IsRun, IsLineOfCall, IsRecorded};
ghost use Rattle.bimap_journal.specs.Changes.{AreKept};
ghost use Rattle.bimap_journal.specs.Lines.{lines as lines_of_texts};

use crate::group::{clear_line, insertion_line, left_line, right_line};
use crate::stored::Stored;
use crate::text::NotWritten;
use bimap::{Bijection, Call, Reply, RunRefused, run};
use std::alloc::Global;
use std::convert::Infallible;
use std::marker::PhantomData;

// Returns the line that a call adds if it changes the map. For a call that only looks, it is empty.
fn line_of_call<L: Stored, R: Stored>(
    alloc: Global,
    call: &Call<L, R, Infallible>,
) -> Result<Vec<u8>, NotWritten>
    ensures { IfOk result (λ line. IsLineOfCall L.eq R.eq L.reads R.reads call.now line.items) }
{
    match call {
        Call::Insert(left, right) => insertion_line(alloc, left, right),
        Call::InsertNoOverwrite(left, right) => insertion_line(alloc, left, right),
        Call::InsertWith(left, right, _) => insertion_line(alloc, left, right),
        Call::RemoveByLeft(left) => left_line(alloc, left, PhantomData::<R>),
        Call::RemoveByRight(right) => right_line(alloc, right, PhantomData::<L>),
        Call::Clear => clear_line(alloc, PhantomData::<(L, R)>),
        _ => Ok(Vec::new(alloc)),
    }
}

// Returns the line of each call.
fn lines_of<L: Stored + Drop, R: Stored + Drop>(
    alloc: Global,
    calls: &Vec<Call<L, R, Infallible>>,
) -> Result<Vec<Vec<u8>>, NotWritten>
    ensures { IfOk result (λ lines. AllZip (λ call line. IsLineOfCall L.eq R.eq L.reads R.reads
        call line.items) calls.now.items lines.items) }
{
    let mut lines = Vec::with_capacity(alloc, calls.len())?;
    for call in calls.iter() {
        lines.push(line_of_call(alloc, call)?)?;
    }
    Ok(lines)
}

// Returns an empty group with space for all these lines.
fn space_for(alloc: Global, lines: &Vec<Vec<u8>>) -> Result<Vec<u8>, NotWritten>
    ensures empty { IfOk result (λ group. group.items ≡ []) }
    ensures space { IfOk result (λ group. space lines.now.items ≤ vec_capacity group) }
{
    let mut long = 1usize;
    for line in lines.iter() {
        let Some(more) = long.checked_add(line.len() + 1) else {
            return Err(NotWritten::Memory);
        };
        long = more;
    }
    Ok(Vec::with_capacity(alloc, long)?)
}

// Returns whether the call that got this reply changed the map.
fn has_changed<L, R>(reply: &Reply<L, R>) -> bool
    ensures { result ≡ is_change reply.now }
{
    matches!(
        reply,
        Reply::Inserted(_) | Reply::Put | Reply::Removed(Some(_)) | Reply::Done
    )
}

/// Returns the line of each call, and an empty group with space for all of them.
pub fn prepare<L: Stored + Drop, R: Stored + Drop>(
    alloc: Global,
    calls: &Vec<Call<L, R, Infallible>>,
) -> Result<(Vec<Vec<u8>>, Vec<u8>), NotWritten>
    ensures lines { IfOk result (λ made. AllZip (λ call line. IsLineOfCall L.eq R.eq L.reads R.reads
        call line.items) calls.now.items made.0.items) }
    ensures empty { IfOk result (λ made. made.1.items ≡ []) }
    ensures space { IfOk result (λ made. space made.0.items ≤ vec_capacity made.1) }
{
    let lines = lines_of(alloc, calls)?;
    let group = space_for(alloc, &lines)?;
    Ok((lines, group))
}

// Performs calls in order. If the type of the keys has no value, no call is a `Retain`. The function is over any such
// type, since nobody could call a closure that takes an `Infallible`.
fn run_all<L: Stored + Drop, R: Stored + Drop, K: Drop, B: Bijection<L, R>>(
    alloc: Global,
    map: &mut B,
    calls: Vec<Call<L, R, K>>,
) -> Result<Vec<Reply<L, R>>, RunRefused<L, R, K>>
    ensures one_each { IfOk result (λ replies. vec_len replies ≡ vec_len calls) }
    ensures ran { IfOk result (λ replies. (K → ⊥) → IsHistory L.eq R.eq (λ key pair kept. ⊥)
        (B.holding map.old) (zip calls.items replies.items) (B.holding map.new)) }
    ensures handed_back { IfErr result (λ e. e.calls.items ≡ calls.items) }
    ensures unchanged { OnErr result (B.holding map.new ≡ B.holding map.old) }
{
    run(alloc, map, calls, |_: &K, _: &L, _: &R| true)
}

/// Performs the calls in order, as `run` does.
pub fn perform_all<L: Stored + Drop, R: Stored + Drop, B: Bijection<L, R>>(
    alloc: Global,
    map: &mut B,
    calls: Vec<Call<L, R, Infallible>>,
) -> Result<Vec<Reply<L, R>>, RunRefused<L, R, Infallible>>
    ensures ran { IfOk result (λ replies. IsRun L.eq R.eq (B.holding map.old) calls.items
        replies.items (B.holding map.new)) }
    ensures handed_back { IfErr result (λ e. e.calls.items ≡ calls.items) }
    ensures unchanged { OnErr result (B.holding map.new ≡ B.holding map.old) }
{
    run_all(alloc, map, calls)
}

// Appends a line to a group. It does not allocate.
fn push(group: &mut Vec<u8>, line: &Vec<u8>)
    requires { vec_len group.old + vec_len line.now + 1 ≤ vec_capacity group.old }
    ensures capacity { vec_capacity group.old ≤ vec_capacity group.new }
    ensures len { vec_len group.new ≤ vec_len group.old + vec_len line.now + 1 }
    ensures pushed { (text : List ℕ) (texts : List (List ℕ))
        → line.now.items ≡ text ++ 10 ∷ [] → group.old.items ≡ drop 1 (lines_of_texts texts)
        → group.new.items ≡ drop 1 (lines_of_texts (texts ++ text ∷ [])) }
{
    if !group.is_empty() {
        group.push_reserved(b'+');
    }
    let Ok(()) = group.extend_from_slice(line) else {
        unreachable!()
    };
}

/// Fills a group with the lines of the calls that changed the map. It stays empty if there are none.
///
/// It does not allocate.
pub fn fill<L: Stored + Drop, R: Stored + Drop>(
    group: Vec<u8>,
    lines: &Vec<Vec<u8>>,
    replies: &Vec<Reply<L, R>>,
) -> Vec<u8>
    requires one_each { length lines.now.items ≡ length replies.now.items }
    requires empty { group.items ≡ [] }
    requires space { space lines.now.items ≤ vec_capacity group }
    ensures { (old new : Holding L R) (calls : List (Call L R Infallible)) (texts : List (List ℕ))
        → AllZip (λ call line. IsLineOfCall L.eq R.eq L.reads R.reads call line.items)
        calls lines.now.items → IsRun L.eq R.eq old calls replies.now.items new
        → AreKept L.eq R.eq L.reads R.reads texts (Contains old.pairs)
        → IsRecorded L.eq R.eq L.reads R.reads texts (Contains new.pairs) result.items }
{
    let mut group = group;
    for i in 0..lines.len() {
        if has_changed(&replies[i]) {
            push(&mut group, &lines[i]);
        }
    }
    if !group.is_empty() {
        group.push_reserved(b'-');
    }
    group
}
