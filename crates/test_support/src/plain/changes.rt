//! What changes the pairs of the vector. No two pairs share a value.
ghost use Rattle.std.specs.Prelude.{◌≡◌, ◌≤◌, ◌<◌, ◌+◌, ◌*◌, ◌⊎◌, max, Contains, OnOk, OnErr, vec_len, vec_capacity};
ghost use Rattle.bimap_base.specs.Sets.{IsApart};
ghost use Rattle.bimap_base.specs.Answer.{IsAnswer, named_count};
ghost use Rattle.bimap_any.specs.Capacity.{IsReservation};
ghost use Rattle.bimap_base.specs.Holding.{IsInsertion, IsInsertionUnder, IsUndoing};
ghost use Rattle.bimap_base.specs.Kept.{MayTest, MayTestPair, TestedAt, IsKept};
ghost use Rattle.bimap_base.specs.Undoing.{IsUndoable};
ghost use Rattle.test_support.specs.Plain.{shown, IsCleared};

use crate::plain::scan::{has_left, has_right, take_left, take_right};
use bimap_base::{NoMemory, NoRoom, NotInsertedWith, Overwritten, Policy, UndoStopped};

/// Makes room for one more pair if no place is free. Allocates only in that case.
fn make_place<T>(items: &mut Vec<T>) -> Result<(), NoMemory>
    ensures items { items.new.items ≡ items.old.items }
    ensures ok { OnOk result (vec_len items.new < vec_capacity items.new) }
    ensures full { OnErr result (vec_len items.old ≡ vec_capacity items.old) }
    ensures unchanged { OnErr result (vec_capacity items.new ≡ vec_capacity items.old) }
    ensures not_lower { vec_capacity items.old ≤ vec_capacity items.new }
    ensures at_most { vec_capacity items.new ≤ max 4 (2 * vec_capacity items.old) }
    ensures had_place { vec_len items.old < vec_capacity items.old →
        vec_capacity items.new ≡ vec_capacity items.old }
{
    if items.len() < items.capacity() {
        return Ok(());
    }
    items.reserve_exact(1).map_err(|_| NoMemory)
}

/// Makes room for exactly this many more pairs.
pub fn reserve<L, R>(pairs: &mut Vec<(L, R)>, more: usize) -> Result<(), NoMemory>
    ensures { IsReservation (shown pairs.old.items (vec_capacity pairs.old)) more result
        (shown pairs.new.items (vec_capacity pairs.new)) }
{
    pairs.reserve_exact(more).map_err(|_| NoMemory)
}

/// Inserts a pair. Removes the pairs that share a value with it, and returns them.
fn insert<L: Eq + Drop, R: Eq + Drop>(
    pairs: &mut Vec<(L, R)>,
    left: L,
    right: R,
) -> Result<Overwritten<L, R>, NoRoom<L, R>>
    requires { IsApart L.eq R.eq pairs.old.items }
    ensures insertion { IsInsertion L.eq R.eq (shown pairs.old.items (vec_capacity pairs.old))
        (left, right) result (shown pairs.new.items (vec_capacity pairs.new)) }
    ensures apart { IsApart L.eq R.eq pairs.new.items }
{
    let answer = strike(pairs, &left, &right);
    if make_place(pairs).is_err() {
        return Err(NoRoom { left, right });
    }
    pairs.push_reserved((left, right));
    Ok(answer)
}

/// Inserts a pair if the policy allows it to overwrite the pairs that share a value with it. Returns the overwritten
/// pairs.
pub fn insert_with<L: Eq + Drop, R: Eq + Drop>(
    pairs: &mut Vec<(L, R)>,
    left: L,
    right: R,
    policy: Policy,
) -> Result<Overwritten<L, R>, NotInsertedWith<L, R>>
    requires { IsApart L.eq R.eq pairs.old.items }
    ensures insertion { IsInsertionUnder L.eq R.eq (shown pairs.old.items (vec_capacity pairs.old))
        (left, right) policy result (shown pairs.new.items (vec_capacity pairs.new)) }
    ensures apart { IsApart L.eq R.eq pairs.new.items }
{
    if policy.left.refuses() && has_left(pairs, &left) {
        return Err(NotInsertedWith::LeftHeld(left, right));
    }
    if policy.right.refuses() && has_right(pairs, &right) {
        return Err(NotInsertedWith::RightHeld(left, right));
    }
    match insert(pairs, left, right) {
        Ok(answer) => Ok(answer),
        Err(NoRoom { left, right }) => Err(NotInsertedWith::Memory(left, right)),
    }
}

/// Removes the pairs that share a value with this left or this right, and returns them.
fn strike<L: Eq + Drop, R: Eq + Drop>(
    pairs: &mut Vec<(L, R)>,
    left: &L,
    right: &R,
) -> Overwritten<L, R>
    requires { IsApart L.eq R.eq pairs.old.items }
    ensures answer { IsAnswer L.eq R.eq (Contains pairs.old.items) (left.now, right.now) result }
    ensures cleared { IsCleared L.eq R.eq pairs.old.items (left.now, right.now) pairs.new.items }
    ensures count { vec_len pairs.new + named_count result ≡ vec_len pairs.old }
    ensures apart { IsApart L.eq R.eq pairs.new.items }
    ensures spare { (vec_len pairs.new < vec_capacity pairs.new)
        ⊎ ((result ≡ Overwritten.Neither) × (pairs.new.items ≡ pairs.old.items)) }
    ensures capacity { vec_capacity pairs.new ≡ vec_capacity pairs.old }
{
    let by_left = take_left(pairs, left);
    let by_right = take_right(pairs, right);
    match (by_left, by_right) {
        (None, None) => Overwritten::Neither,
        (Some((l, r)), None) => {
            if r == *right {
                Overwritten::Pair(l, r)
            } else {
                Overwritten::Left(l, r)
            }
        }
        (None, Some((l, r))) => Overwritten::Right(l, r),
        (Some(p), Some(q)) => Overwritten::Both(p, q),
    }
}

/// Removes the pair with this left and returns it. Puts the overwritten pairs back that `answer` contains.
pub fn undo<L: Eq + Drop, R: Eq + Drop>(
    pairs: &mut Vec<(L, R)>,
    left: &L,
    answer: Overwritten<L, R>,
) -> Result<(L, R), UndoStopped<L, R>>
    requires apart { IsApart L.eq R.eq pairs.old.items }
    requires undoable { IsUndoable L.eq R.eq (Contains pairs.old.items) left.now answer }
    ensures undoing { IsUndoing L.eq R.eq (shown pairs.old.items (vec_capacity pairs.old)) left.now
        answer result (shown pairs.new.items (vec_capacity pairs.new)) }
    ensures apart { IsApart L.eq R.eq pairs.new.items }
{
    match answer {
        Overwritten::Neither => match take_left(pairs, left) {
            Some(old) => Ok(old),
            None => unreachable!(),
        },
        Overwritten::Left(l, r) | Overwritten::Right(l, r) | Overwritten::Pair(l, r) => {
            match take_left(pairs, left) {
                Some(old) => {
                    pairs.push_reserved((l, r));
                    Ok(old)
                }
                None => unreachable!(),
            }
        }
        Overwritten::Both(first, second) => {
            let Ok(()) = make_place(pairs) else {
                return Err(UndoStopped {
                    answer: Overwritten::Both(first, second),
                });
            };
            match take_left(pairs, left) {
                Some(old) => {
                    pairs.push_reserved(first);
                    pairs.push_reserved(second);
                    Ok(old)
                }
                None => unreachable!(),
            }
        }
    }
}

/// Keeps the pairs on which the closure returns `true`, and drops the others.
pub fn keep<L: Eq + Drop, R: Eq + Drop, F: FnMut(&L, &R) -> bool>(pairs: &mut Vec<(L, R)>, mut f: F)
    requires apart { IsApart L.eq R.eq pairs.old.items }
    requires may_test { MayTest F.FnMut f pairs.old.items }
    ensures kept { IsKept F.FnMut f pairs.old.items pairs.new.items }
    ensures apart { IsApart L.eq R.eq pairs.new.items }
    ensures capacity { vec_capacity pairs.new ≡ vec_capacity pairs.old }
{
    let mut kept = 0;
    while kept < pairs.len() {
        if ask(&mut f, &pairs[kept]) {
            kept += 1;
        } else {
            drop(pairs.remove(kept));
        }
    }
}

/// Calls the closure on the two values of a pair.
fn ask<L, R, F: FnMut(&L, &R) -> bool>(f: &mut F, pair: &(L, R)) -> bool
    requires { MayTestPair F.FnMut f.old pair.now }
    ensures { TestedAt F.FnMut f.old pair.now result f.new }
{
    f(&pair.0, &pair.1)
}
