//! Calls that change several pairs, or none: the changes of a call are stored as one group.
use crate::batch::{fill, perform_all, prepare};
use crate::fault::NotStored;
use crate::group::{left_replacement, right_replacement};
use crate::journaled::Journaled;
use crate::storage::Storage;
use crate::stored::Stored;
use crate::text::NotWritten;
use bimap::{
    Bijection, Call, NotInserted, NotInsertedWith, NotReplaced, OnHeld, Policy, Reply, RunRefused,
    replace_left, replace_right,
};
use std::convert::Infallible;

impl<B: Bijection<L, R> + Drop, L: Stored + Drop, R: Stored + Drop, S: Storage + Drop> Journaled<
    B,
    L,
    R,
    S,
> {
    ghost use Rattle.std.specs.Prelude.{◌≡◌, ◌⊎◌, ◌∷◌, [], Ok, Some, false, Contains, OnOk, IfOk, IfErr, IfSome};
    ghost use Rattle.bimap.specs.Holding.{IsInsertionWithoutOverwriting};
    ghost use Rattle.bimap.specs.Exchange.{IsReplacementOfLeft, IsReplacementOfRight};
    ghost use Rattle.bimap_journal.specs.Batches.{IsRun};
    ghost use Rattle.bimap_journal.specs.State.{KeepsOneOf, Acknowledges, IsNotStored};

    /// Inserts a pair if the map contains neither of its values, as `Bijection::insert_no_overwrite` does.
    ///
    /// Time: That of the call of the map, and two syncs if it changes the map.
    ///
    /// Memory: It allocates the line, and as the call of the map does.
    ///
    /// `Err`: The change is not known to be in the file. [`NotStored`] says why.
    pub fn insert_no_overwrite(
        &mut self,
        left: L,
        right: R,
    ) -> Result<Result<(), NotInserted<L, R>>, NotStored<(L, R), ()>>
        ensures reply { IfOk result (λ reply. IsInsertionWithoutOverwriting L.eq R.eq self.old.held
            (left, right) reply self.new.held) }
        ensures running { OnOk result (self.new.is_stopped ≡ false) }
        ensures acknowledged { OnOk result (Acknowledges L.eq R.eq L.reads R.reads self.new) }
        ensures any_moment { self.old.is_stopped ≡ false
            → KeepsOneOf L.eq R.eq L.reads R.reads self.old self.new }
        ensures fault { IfErr result (IsNotStored (λ given. given ≡ (left, right))
            (λ made. IsInsertionWithoutOverwriting L.eq R.eq self.old.held (left, right)
            (Ok made) self.new.held) self.old self.new) }
    {
        let policy = Policy {
            left: OnHeld::Refuse,
            right: OnHeld::Refuse,
        };
        match self.insert_with(left, right, policy) {
            Ok(Ok(_)) => Ok(Ok(())),
            Ok(Err(NotInsertedWith::LeftHeld(left, right))) => {
                Ok(Err(NotInserted::Occupied(left, right)))
            }
            Ok(Err(NotInsertedWith::RightHeld(left, right))) => {
                Ok(Err(NotInserted::Occupied(left, right)))
            }
            Ok(Err(NotInsertedWith::Memory(left, right))) => {
                Ok(Err(NotInserted::Memory(left, right)))
            }
            Err(NotStored::Memory(given)) => Err(NotStored::Memory(given)),
            Err(NotStored::LineBreak(given)) => Err(NotStored::LineBreak(given)),
            Err(NotStored::Stopped(given)) => Err(NotStored::Stopped(given)),
            Err(NotStored::Failed(_, error)) => Err(NotStored::Failed((), error)),
        }
    }

    /// Replaces the left of a pair and returns the old left, as `replace_left` does.
    ///
    /// Time: That of the call of the map, a look-up, and two syncs if it changes the map.
    ///
    /// Memory: It allocates two lines.
    ///
    /// `Err`: The change is not known to be in the file. [`NotStored`] says why.
    pub fn replace_left(
        &mut self,
        from: &L,
        to: L,
    ) -> Result<Result<L, NotReplaced<L>>, NotStored<L, L>>
        ensures reply { IfOk result (λ reply. IsReplacementOfLeft L.eq self.old.held from.now to
            reply self.new.held) }
        ensures running { OnOk result (self.new.is_stopped ≡ false) }
        ensures acknowledged { OnOk result (Acknowledges L.eq R.eq L.reads R.reads self.new) }
        ensures any_moment { self.old.is_stopped ≡ false
            → KeepsOneOf L.eq R.eq L.reads R.reads self.old self.new }
        ensures fault { IfErr result (IsNotStored (λ given. given ≡ to)
            (λ taken. IsReplacementOfLeft L.eq self.old.held from.now to (Ok taken) self.new.held)
            self.old self.new) }
    {
        if self.is_stopped {
            return Err(NotStored::Stopped(to));
        }
        let group = match self.map.get_by_left(from) {
            Some(right) => left_replacement(self.alloc, from, &to, right),
            None => return Ok(Err(NotReplaced::Missing(to))),
        };
        match group {
            Ok(group) => match replace_left(&mut self.map, from, to) {
                Ok(taken) => match self.journal.commit(&group) {
                    Ok(()) => Ok(Ok(taken)),
                    Err(error) => {
                        self.is_stopped = true;
                        Err(NotStored::Failed(taken, error))
                    }
                },
                Err(refusal) => Ok(Err(refusal)),
            },
            Err(NotWritten::Memory) => Err(NotStored::Memory(to)),
            Err(NotWritten::LineBreak) => Err(NotStored::LineBreak(to)),
        }
    }

    /// Replaces the right of a pair and returns the old right, as `replace_right` does.
    ///
    /// Time: That of the call of the map, a look-up, and two syncs if it changes the map.
    ///
    /// Memory: It allocates two lines.
    ///
    /// `Err`: The change is not known to be in the file. [`NotStored`] says why.
    pub fn replace_right(
        &mut self,
        from: &R,
        to: R,
    ) -> Result<Result<R, NotReplaced<R>>, NotStored<R, R>>
        ensures reply { IfOk result (λ reply. IsReplacementOfRight R.eq self.old.held from.now to
            reply self.new.held) }
        ensures running { OnOk result (self.new.is_stopped ≡ false) }
        ensures acknowledged { OnOk result (Acknowledges L.eq R.eq L.reads R.reads self.new) }
        ensures any_moment { self.old.is_stopped ≡ false
            → KeepsOneOf L.eq R.eq L.reads R.reads self.old self.new }
        ensures fault { IfErr result (IsNotStored (λ given. given ≡ to)
            (λ taken. IsReplacementOfRight R.eq self.old.held from.now to (Ok taken) self.new.held)
            self.old self.new) }
    {
        if self.is_stopped {
            return Err(NotStored::Stopped(to));
        }
        let group = match self.map.get_by_right(from) {
            Some(left) => right_replacement(self.alloc, from, left, &to),
            None => return Ok(Err(NotReplaced::Missing(to))),
        };
        match group {
            Ok(group) => match replace_right(&mut self.map, from, to) {
                Ok(taken) => match self.journal.commit(&group) {
                    Ok(()) => Ok(Ok(taken)),
                    Err(error) => {
                        self.is_stopped = true;
                        Err(NotStored::Failed(taken, error))
                    }
                },
                Err(refusal) => Ok(Err(refusal)),
            },
            Err(NotWritten::Memory) => Err(NotStored::Memory(to)),
            Err(NotWritten::LineBreak) => Err(NotStored::LineBreak(to)),
        }
    }

    /// Performs the calls in order, as `run` does, and stores their changes as one group.
    ///
    /// After a crash the file has the changes of all calls, or of none. It has a line for each call that changed the
    /// map. A call that was refused, or that removed nothing, has no line. A call that runs out of memory replies
    /// `NoRoom`, and the next one follows. `Infallible` has no value, so no call is a `Retain`.
    ///
    /// Time: That of the calls, and two syncs if they change the map.
    ///
    /// Memory: It allocates the lines and the replies before it changes the map, and then as the calls of the map do.
    ///
    /// `Err`: The changes are not known to be in the file. [`NotStored`] says why.
    pub fn apply(
        &mut self,
        calls: Vec<Call<L, R, Infallible>>,
    ) -> Result<Vec<Reply<L, R>>, NotStored<Vec<Call<L, R, Infallible>>, Vec<Reply<L, R>>>>
        ensures reply { IfOk result (λ replies. IsRun L.eq R.eq self.old.held calls.items
            replies.items self.new.held) }
        ensures running { OnOk result (self.new.is_stopped ≡ false) }
        ensures acknowledged { OnOk result (Acknowledges L.eq R.eq L.reads R.reads self.new) }
        ensures any_moment { self.old.is_stopped ≡ false
            → KeepsOneOf L.eq R.eq L.reads R.reads self.old self.new }
        ensures fault { IfErr result (IsNotStored (λ given. given.items ≡ calls.items)
            (λ replies. IsRun L.eq R.eq self.old.held calls.items replies.items self.new.held)
            self.old self.new) }
    {
        if self.is_stopped {
            return Err(NotStored::Stopped(calls));
        }
        match prepare(self.alloc, &calls) {
            Ok((lines, group)) => match perform_all(self.alloc, &mut self.map, calls) {
                Ok(replies) => {
                    let group = fill(group, &lines, &replies);
                    if group.is_empty() {
                        return Ok(replies);
                    }
                    match self.journal.commit(&group) {
                        Ok(()) => Ok(replies),
                        Err(error) => {
                            self.is_stopped = true;
                            Err(NotStored::Failed(replies, error))
                        }
                    }
                }
                Err(RunRefused { calls }) => Err(NotStored::Memory(calls)),
            },
            Err(NotWritten::Memory) => Err(NotStored::Memory(calls)),
            Err(NotWritten::LineBreak) => Err(NotStored::LineBreak(calls)),
        }
    }

    /// Returns the map and the file.
    ///
    /// Time: O(1).
    pub fn into_parts(self) -> (B, S)
        ensures { B.holding result.0 ≡ self.held }
    {
        (self.map, self.journal.disk.into_storage())
    }
}
