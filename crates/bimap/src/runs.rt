//! A list of calls, performed in order on any map. It uses calls of `Bijection` alone.
ghost use Rattle.std.specs.Prelude.{◌≡◌, ◌≤◌, [], length, Contains, IfOk, IfErr, OnErr, vec_len};
ghost use Rattle.std.specs.List.{zip};
ghost use Rattle.bimap.specs.Test.{Answers, IsDecided, IsTestOf};
ghost use Rattle.bimap.specs.History.{IsNoRoom, IsRight, IsHistory, IsWholeHistory};
ghost use Rattle.bimap.specs.Step.{MayRetain, IsStep, IsRoomAfterCall};

use crate::call::{Call, Reply, RunRefused};
use bimap_any::Bijection;
use bimap_base::{NoRoom, NotInserted, NotInsertedWith};
use std::alloc::Global;

/// Performs one call and returns its reply.
///
/// A `Retain` keeps the pairs for which `test` returns true. A refused call leaves the pairs as they were.
///
/// Condition: For the key of a `Retain` and each pair of the map, any condition of `test` holds, and `test` returns
/// the same value each time.
///
/// Time: That of the call.
///
/// Memory: It allocates only for an insertion that overwrites nothing when the capacity is used up. The capacity then
/// doubles, to at least 4.
///
///     let reply = perform(&mut seats, Call::InsertNoOverwrite('a', 1), &|_: &u32, _: &char, _: &u32| true);
///     // Reply::Put, or Reply::Occupied('a', 1)
pub fn perform<L: Eq + Drop, R: Eq + Drop, K: Drop, B: Bijection<L, R>, F: Fn(&K, &L, &R) -> bool>(
    bimap: &mut B,
    call: Call<L, R, K>,
    test: &F,
) -> Reply<L, R>
    requires may { MayRetain (IsDecided F.Fn test.now) (Contains (B.holding bimap.old).pairs) call }
    ensures right { IsRight L.eq R.eq (Contains (B.holding bimap.old).pairs) (call, result) }
    ensures step { IsStep L.eq R.eq (Answers F.Fn test.now) (Contains (B.holding bimap.old).pairs)
        (call, result) (Contains (B.holding bimap.new).pairs) }
    ensures not_lower { (B.holding bimap.old).room ≤ (B.holding bimap.new).room }
    ensures room { IsRoomAfterCall L.eq R.eq (B.holding bimap.old) (call, result)
        (B.holding bimap.new) }
    ensures full { IsNoRoom (call, result) →
        (B.holding bimap.old).room ≤ length (B.holding bimap.old).pairs }
    ensures lenders { B.lenders bimap.new ≡ B.lenders bimap.old }
{
    match call {
        Call::Insert(left, right) => match bimap.insert(left, right) {
            Ok(answer) => Reply::Inserted(answer),
            Err(NoRoom { left, right }) => Reply::NoRoom(left, right),
        },
        Call::InsertNoOverwrite(left, right) => match bimap.insert_no_overwrite(left, right) {
            Ok(()) => Reply::Put,
            Err(NotInserted::Occupied(left, right)) => Reply::Occupied(left, right),
            Err(NotInserted::Memory(left, right)) => Reply::NoRoom(left, right),
        },
        Call::InsertWith(left, right, policy) => match bimap.insert_with(left, right, policy) {
            Ok(answer) => Reply::Inserted(answer),
            Err(NotInsertedWith::LeftHeld(left, right)) => Reply::LeftHeld(left, right),
            Err(NotInsertedWith::RightHeld(left, right)) => Reply::RightHeld(left, right),
            Err(NotInsertedWith::Memory(left, right)) => Reply::NoRoom(left, right),
        },
        Call::RemoveByLeft(left) => Reply::Removed(bimap.remove_by_left(&left)),
        Call::RemoveByRight(right) => Reply::Removed(bimap.remove_by_right(&right)),
        Call::ContainsLeft(left) => Reply::Holds(bimap.contains_left(&left)),
        Call::ContainsRight(right) => Reply::Holds(bimap.contains_right(&right)),
        Call::Retain(key) => {
            let kept = &key;
            bimap.retain(
                |left: &L, right: &R| -> bool
                    requires { F.pre test.now kept left right }
                    ensures { F.post test.entry.now kept.entry left.entry right.entry result }
                { test(kept, left, right) },
            );
            Reply::Done
        }
        Call::Clear => {
            bimap.clear();
            Reply::Done
        }
    }
}

/// Performs the calls in order, as [`perform`] does, and returns a reply for each.
///
/// `run` reserves no capacity for pairs ahead. A reply `NoRoom` does not end it.
///
/// Condition: For each key of a `Retain` and each pair of the map or a call, any condition of `test` holds, and `test`
/// returns the same value each time.
///
/// Time: That of the calls.
///
/// Memory: It allocates for all replies first, and then as each call does.
///
/// `Err`: Out of memory for the replies. It hands the calls back, and performed none.
///
///     // the key of a `Retain` is the least seat to keep
///     let calls = vec![in alloc; Call::Insert('d', 4), Call::Retain(2), Call::ContainsLeft('b')]?;
///     let replies = run(alloc, &mut seats, calls, |least: &u32, _: &char, seat: &u32| *seat >= *least)?;
///     // Reply::Inserted(Overwritten::Neither), Reply::Done, Reply::Holds(false)
pub fn run<L: Eq + Drop, R: Eq + Drop, K: Drop, B: Bijection<L, R>, F: Fn(&K, &L, &R) -> bool>(
    alloc: Global,
    bimap: &mut B,
    calls: Vec<Call<L, R, K>>,
    test: F,
) -> Result<Vec<Reply<L, R>>, RunRefused<L, R, K>>
    requires test { IsTestOf F.Fn test (B.holding bimap.old).pairs calls.items }
    ensures one_each { IfOk result (λ replies. vec_len replies ≡ vec_len calls) }
    ensures history { IfOk result (λ replies. IsHistory L.eq R.eq (Answers F.Fn test)
        (B.holding bimap.old) (zip calls.items replies.items) (B.holding bimap.new)) }
    ensures from_empty { IfOk result (λ replies. (B.holding bimap.old).pairs ≡ [] →
        IsWholeHistory L.eq R.eq (Answers F.Fn test) (zip calls.items replies.items)
        (B.holding bimap.new)) }
    ensures handed_back { IfErr result (λ e. e.calls.items ≡ calls.items) }
    ensures unchanged { OnErr result (B.holding bimap.new ≡ B.holding bimap.old) }
    ensures lenders { B.lenders bimap.new ≡ B.lenders bimap.old }
{
    let Ok(mut replies) = Vec::with_capacity(alloc, calls.len()) else {
        return Err(RunRefused { calls });
    };
    for call in calls {
        let reply = perform(bimap, call, &test);
        replies.push_reserved(reply);
    }
    Ok(replies)
}
