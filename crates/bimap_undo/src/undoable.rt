//! A map with a record of its changes. It does not know which map it is.
ghost use Rattle.std.specs.Prelude.{◌≡◌, ◌≤◌, ◌<◌, ◌-◌, List, [], length, drop, slice_get, Contains, OnOk, IfErr};
ghost use Rattle.std.specs.Option.{option_copied};
ghost use Rattle.std.specs.Iterator.{IsFiniteIterable};
ghost use Rattle.bimap.specs.Sets.{IsApart, IsSameSet, IsWithPut};
ghost use Rattle.bimap_undo.specs.Marks.{IsChange, IsBefore, IsRecordedInsertion, IsRecordedInsertionUnder, IsRecordedReplacementOfLeft, IsRecordedReplacementOfRight, IsRecordedRemovalByLeft, IsRecordedRemovalByRight, IsReturn};
ghost use Rattle.bimap_undo.specs.AllOrNone.{AreAllRecorded, AreNoneRecorded};

use crate::copy_left::CopyLeft;
use crate::entry::Entry;
use crate::refusal::NotRecorded;
use bimap::{
    Bijection, ItemRefused, NoMemory, NoRoom, NotInsertedWith, NotReplaced, OnHeld, Policy,
    replace_left, replace_right,
};
use std::alloc::Global;
use std::fmt;
use std::marker::Model;

/// A map that records its changes and goes back to marks.
///
/// It records each insertion, replacement and removal that is not refused. A mark is a number of recorded changes. It
/// stands for the pairs at that time, with their exact values. The record grows by one [`Entry`] for each change.
/// [`back_to`](Undoable::back_to) shortens it, and [`forget`](Undoable::forget) empties it.
///
/// A call costs what the map's own call costs, and a removal costs a look-up more. Each change first allocates for its
/// entry. So a call may run out of memory even if it overwrites a pair or would be refused. An `Err` changes neither
/// the pairs nor the record.
///
///     let mut seats = Undoable::new(alloc, BiBTreeMap::new(alloc));
///     seats.insert('a', 1)?;
///     let mark = seats.mark();
///     seats.insert('a', 2)?;
///     seats.remove_by_left(&'a')?;
///     seats.back_to(mark);
///     seats.held().get_by_left(&'a'); // Some(&1)
///
/// There is no `retain` and no `clear`. Those of a map drop the pairs, and the record has to own them. Remove the pairs
/// one by one, as here:
///
///     // takes out the first pair of an ordered left
///     if let Some((&left, _)) = seats.held().first_by_left() {
///         seats.remove_by_left(&left)?;
///     }
#[derive(Drop)]
pub struct Undoable<B: Bijection<L, R> + Drop, L: CopyLeft + Drop, R: Eq + Drop> {
    alloc: Global,
    bimap: B,
    changes: Vec<Entry<L, R>>,
}

impl<B: Bijection<L, R> + Drop, L: CopyLeft + Drop, R: Eq + Drop> Model for Undoable<B, L, R> {
    ghost use Rattle.bimap_undo.specs.Marks.{Marked, marked, HasMarks};

    ghost Value = { Marked L R };

    ghost view = { λ u. marked (B.holding u.bimap) u.changes.items };

    // It can go back to each mark.
    ghost invariant = { λ u. HasMarks L.eq R.eq (marked (B.holding u.bimap) u.changes.items) };
}

impl<B: Bijection<L, R> + Drop, L: CopyLeft + Drop, R: Eq + Drop> Undoable<B, L, R> {
    /// Returns the map with an empty record.
    ///
    /// Time: O(1).
    pub fn new(alloc: Global, bimap: B) -> Self
        ensures held { result.held ≡ B.holding bimap }
        ensures nothing_recorded { result.entries ≡ [] }
    {
        let changes = Vec::new(alloc);
        Undoable {
            alloc,
            bimap,
            changes,
        }
    }

    /// Inserts a pair and returns whether it overwrote any.
    ///
    /// [`last_change`](Undoable::last_change) shows which pairs it overwrote.
    ///
    /// Time: That of the map's `insert`, and of a copy of the left.
    ///
    /// Memory: It allocates for the record and the copy of the left, and for capacity as the map's `insert` does.
    ///
    /// `Err`: Out of memory. It hands the pair back, and nothing has changed.
    ///
    ///     seats.insert('a', 1); // Ok(false)
    ///     seats.insert('a', 2); // Ok(true)
    pub fn insert(&mut self, left: L, right: R) -> Result<bool, NoRoom<L, R>>
        ensures { IsRecordedInsertion L.eq R.eq self.old (left, right) result self.new }
    {
        let policy = Policy {
            left: OnHeld::Overwrite,
            right: OnHeld::Overwrite,
        };
        match self.insert_with(left, right, policy) {
            Ok(overwrote) => Ok(overwrote),
            Err(NotInsertedWith::Memory(left, right)) => Err(NoRoom { left, right }),
            Err(NotInsertedWith::LeftHeld(_, _)) => unreachable!(),
            Err(NotInsertedWith::RightHeld(_, _)) => unreachable!(),
        }
    }

    /// Inserts a pair if the policy allows it, and returns whether it overwrote any.
    ///
    /// Time: That of the map's `insert_with`, and of a copy of the left.
    ///
    /// Memory: It allocates for the record and the copy of the left, and for capacity as the map's `insert_with` does.
    ///
    /// `Err`: The policy refuses to overwrite a contained value (`LeftHeld`, `RightHeld`), or out of memory (`Memory`).
    /// It hands the pair back, and nothing has changed.
    ///
    ///     let keep = Policy { left: OnHeld::Refuse, right: OnHeld::Refuse };
    ///     seats.insert_with('a', 1, keep)?;
    ///     seats.insert_with('b', 1, keep)
    ///     // Err(NotInsertedWith::RightHeld('b', 1)), and nothing is recorded
    pub fn insert_with(
        &mut self,
        left: L,
        right: R,
        policy: Policy,
    ) -> Result<bool, NotInsertedWith<L, R>>
        ensures { IsRecordedInsertionUnder L.eq R.eq self.old (left, right) policy result self.new }
    {
        let Ok(copy) = left.copy_left(self.alloc) else {
            return Err(NotInsertedWith::Memory(left, right));
        };
        let Ok(()) = self.changes.reserve(1) else {
            return Err(NotInsertedWith::Memory(left, right));
        };
        let answer = self.bimap.insert_with(left, right, policy)?;
        let overwrote = answer.did_overwrite();
        self.changes.push_reserved(Entry::Inserted(copy, answer));
        Ok(overwrote)
    }

    /// Inserts all items in order under the policy, or none of them.
    ///
    /// Each is recorded as an [`insert_with`](Undoable::insert_with), so a mark may lie between them. It asks the
    /// iterator for no item after a refused one. [`back_to`](Undoable::back_to) then takes back those before it. So in
    /// insertion order the positions may change, and the capacity may have grown.
    ///
    /// Condition: The iterator ends. If its `next` has a condition, it is true at each call of `next`.
    ///
    /// Time: That of `insert_with` for each item. After a refusal, that of `back_to` is added.
    ///
    /// Memory: It allocates as `insert_with` does for each item.
    ///
    /// `Err`: The first item that the policy refuses, or for which memory runs out, with its number. Pairs and marks are
    /// as before, and capacity and positions may have changed.
    ///
    ///     let keep = Policy { left: OnHeld::Refuse, right: OnHeld::Refuse };
    ///     seats.insert('a', 1)?;
    ///     let refused = seats.insert_all([('b', 2), ('c', 3), ('d', 1)], keep);
    ///     // Err(ItemRefused { taken: 2, why: NotInsertedWith::RightHeld('d', 1) }), and ('a', 1) alone is in
    pub fn insert_all<I: IntoIterator<Item = (L, R)>>(
        &mut self,
        items: I,
        policy: Policy,
    ) -> Result<(), ItemRefused<L, R>>
        requires ends { IsFiniteIterable I.into_iter_gives I.IntoIter.can_next
            I.IntoIter.remaining items }
        ensures all { OnOk result (AreAllRecorded L.eq R.eq
            (I.into_iter_gives items) I.IntoIter.next_gives self.old policy self.new) }
        ensures none { IfErr result (λ e. AreNoneRecorded L.eq R.eq
            (I.into_iter_gives items) I.IntoIter.next_gives self.old policy e self.new) }
    {
        let mark = self.mark();
        // The borrow gives the proof two facts of every map: no two pairs share a value, and each has a place.
        let _before = self.held();
        let mut taken = 0usize;
        for (left, right) in items {
            if let Err(why) = self.insert_with(left, right, policy) {
                self.back_to(mark);
                return Err(ItemRefused { taken, why });
            }
            let _held = self.held();
            taken = taken.saturating_add(1);
        }
        Ok(())
    }

    /// Replaces the left of a pair, which keeps its right.
    ///
    /// The new left may equal the old one. The record keeps the old left.
    ///
    /// Time: That of two look-ups, a removal and an insertion, and of a copy of the new left.
    ///
    /// Memory: It allocates for the record and the copy of the new left.
    ///
    /// `Err`: No pair has the old left, or another pair has the new left (`Refused`), or out of memory (`Memory`). It
    /// hands the new left back, and nothing has changed.
    ///
    ///     seats.insert('a', 1)?;
    ///     seats.replace_left(&'a', 'b'); // Ok(())
    ///     seats.replace_left(&'a', 'c'); // Err(NotRecorded::Refused(NotReplaced::Missing('c')))
    pub fn replace_left(&mut self, from: &L, to: L) -> Result<(), NotRecorded<L>>
        ensures { IsRecordedReplacementOfLeft L.eq R.eq self.old from.now to result self.new }
    {
        let Ok(copy) = to.copy_left(self.alloc) else {
            return Err(NotRecorded::Memory(to));
        };
        let Ok(()) = self.changes.reserve(1) else {
            return Err(NotRecorded::Memory(to));
        };
        match replace_left(&mut self.bimap, from, to) {
            Ok(old) => {
                self.changes.push_reserved(Entry::LeftReplaced(copy, old));
                Ok(())
            }
            Err(why) => Err(NotRecorded::Refused(why)),
        }
    }

    /// Replaces the right of a pair, which keeps its left.
    ///
    /// The new right may equal the old one. The record keeps the old right, and a copy of the left.
    ///
    /// Time: That of three look-ups, a removal and an insertion, and of a copy of the left.
    ///
    /// Memory: It allocates for the record and the copy of the left.
    ///
    /// `Err`: No pair has the old right, or another pair has the new right (`Refused`), or out of memory (`Memory`). It
    /// hands the new right back, and nothing has changed.
    ///
    ///     seats.insert('a', 1)?;
    ///     seats.replace_right(&1, 2); // Ok(())
    pub fn replace_right(&mut self, from: &R, to: R) -> Result<(), NotRecorded<R>>
        ensures { IsRecordedReplacementOfRight L.eq R.eq self.old from.now to result self.new }
    {
        let Some(left) = self.bimap.get_by_right(from) else {
            return Err(NotRecorded::Refused(NotReplaced::Missing(to)));
        };
        let Ok(copy) = left.copy_left(self.alloc) else {
            return Err(NotRecorded::Memory(to));
        };
        let Ok(()) = self.changes.reserve(1) else {
            return Err(NotRecorded::Memory(to));
        };
        match replace_right(&mut self.bimap, from, to) {
            Ok(old) => {
                self.changes.push_reserved(Entry::RightReplaced(copy, old));
                Ok(())
            }
            Err(why) => Err(NotRecorded::Refused(why)),
        }
    }

    /// Removes the pair of a left and returns whether there was one.
    ///
    /// If there was none, nothing is recorded.
    ///
    /// Time: That of a look-up and a removal.
    ///
    /// Memory: It allocates for the record, if there is a pair to remove.
    ///
    /// `Err`: Out of memory. Nothing has changed.
    ///
    ///     seats.remove_by_left(&'a'); // Ok(true)
    pub fn remove_by_left(&mut self, left: &L) -> Result<bool, NoMemory>
        ensures { IsRecordedRemovalByLeft L.eq R.eq self.old left.now result self.new }
    {
        if !self.bimap.contains_left(left) {
            return Ok(false);
        }
        self.changes.reserve(1)?;
        let (left, right) = self.bimap.remove_by_left(left).unwrap();
        self.changes.push_reserved(Entry::Removed(left, right));
        Ok(true)
    }

    /// Removes the pair of a right and returns whether there was one.
    ///
    /// If there was none, nothing is recorded.
    ///
    /// Time: That of a look-up and a removal.
    ///
    /// Memory: It allocates for the record, if there is a pair to remove.
    ///
    /// `Err`: Out of memory. Nothing has changed.
    ///
    ///     seats.remove_by_right(&2); // Ok(false)
    pub fn remove_by_right(&mut self, right: &R) -> Result<bool, NoMemory>
        ensures { IsRecordedRemovalByRight L.eq R.eq self.old right.now result self.new }
    {
        if !self.bimap.contains_right(right) {
            return Ok(false);
        }
        self.changes.reserve(1)?;
        let (left, right) = self.bimap.remove_by_right(right).unwrap();
        self.changes.push_reserved(Entry::Removed(left, right));
        Ok(true)
    }

    /// Returns the number of recorded changes, which is the mark of the present state.
    ///
    /// Each lower number is a mark too.
    ///
    /// Time: O(1).
    ///
    ///     // after three changes
    ///     seats.mark(); // 3
    pub fn mark(&self) -> usize
        ensures recorded { result ≡ length self.now.entries }
        ensures stands_for_what_is_held { IsBefore L.eq R.eq self.now result self.now.held.pairs }
        ensures stands_for_a_set { (mark : _) → mark ≤ result →
            (A : _) × IsBefore L.eq R.eq self.now mark A }
        ensures for_one_set { (mark : _) (A B : _) → mark ≤ result →
            IsBefore L.eq R.eq self.now mark A → IsBefore L.eq R.eq self.now mark B →
            IsSameSet (Contains A) (Contains B) }
    {
        // The borrow gives the proof two facts of every map: no two pairs share a value, and each has a place.
        let _bimap = &self.bimap;
        self.changes.len()
    }

    /// Returns the newest recorded change, or `None` if none is recorded.
    ///
    /// Time: O(1).
    ///
    ///     seats.insert('a', 1)?;
    ///     seats.insert('a', 2)?;
    ///     seats.last_change(); // Some(&Entry::Inserted('a', Overwritten::Left('a', 1)))
    pub fn last_change(&self) -> Option<&Entry<L, R>>
        ensures { option_copied result ≡ slice_get self.now.entries (length self.now.entries - 1) }
    {
        self.changes.as_slice().last()
    }

    /// Returns the changes recorded since a mark, the newest last.
    ///
    /// Condition: `mark` is at most the number of recorded changes, which `mark()` returns.
    ///
    /// Time: O(1).
    ///
    ///     seats.insert('a', 1)?;
    ///     let mark = seats.mark();
    ///     seats.remove_by_left(&'a')?;
    ///     seats.changes_since(mark); // [Entry::Removed('a', 1)]
    pub fn changes_since(&self, mark: usize) -> &[Entry<L, R>]
        requires recorded { mark ≤ length self.now.entries }
        ensures { result.now ≡ drop mark self.now.entries }
    {
        &self.changes.as_slice()[mark..]
    }

    /// Goes back to a mark, so that the map contains exactly what the mark stands for.
    ///
    /// The changes since the mark are taken back and leave the record. All later marks end. It is never refused. In
    /// insertion order the pairs come back, and their positions may change.
    ///
    /// Condition: `mark` is at most the number of recorded changes, which `mark()` returns.
    ///
    /// Time: For each insertion since the mark, that of an `undo_insert`. For each other change, at most that of a removal
    /// and an insertion.
    pub fn back_to(&mut self, mark: usize)
        requires recorded { mark ≤ length self.old.entries }
        ensures gone_back { IsReturn L.eq R.eq self.old mark self.new }
        ensures room { self.new.held.room ≡ self.old.held.room }
    {
        while self.changes.len() > mark {
            let entry = self.changes.pop().unwrap();
            take_back(&mut self.bimap, entry);
        }
    }

    /// Takes the last `n` changes back, as [`back_to`](Undoable::back_to) does.
    ///
    /// Condition: `n` is at most the number of recorded changes, which `mark()` returns.
    ///
    /// Time: That of [`back_to`](Undoable::back_to) for `n` changes.
    ///
    ///     seats.insert('a', 1)?;
    ///     seats.insert('a', 2)?;
    ///     seats.undo_last(1);
    ///     seats.get_by_left(&'a'); // Some(&1)
    pub fn undo_last(&mut self, n: usize)
        requires recorded { n ≤ length self.old.entries }
        ensures gone_back { IsReturn L.eq R.eq self.old (length self.old.entries - n) self.new }
        ensures room { self.new.held.room ≡ self.old.held.room }
    {
        let mark = self.mark() - n;
        self.back_to(mark);
    }

    /// Empties the record, so that mark 0 stands for the pairs of now.
    ///
    /// All values that the record owns are dropped. The record keeps its memory. All earlier marks end. A number above
    /// 0 is a mark again when as many changes are recorded, and then it stands for the pairs after these changes.
    ///
    /// Time: O(number of recorded changes), each of which is dropped.
    ///
    ///     seats.insert('a', 1)?;
    ///     seats.forget();
    ///     seats.mark(); // 0
    pub fn forget(&mut self)
        ensures held { self.new.held ≡ self.old.held }
        ensures nothing_recorded { self.new.entries ≡ [] }
    {
        self.changes.clear();
    }

    /// Returns a reference to the map.
    ///
    /// Time: O(1).
    pub fn held(&self) -> &B
        ensures { B.holding result.now ≡ self.now.held }
    {
        &self.bimap
    }

    /// Returns the map and drops the record.
    ///
    /// Time: O(number of recorded changes), each of which is dropped.
    pub fn into_inner(self) -> B
        ensures { B.holding result ≡ self.held }
    {
        let Undoable { bimap, .. } = self;
        bimap
    }
}

/// Writes the map and the recorded changes, as `Undoable { held: {'a' <> 1}, changes: [Inserted('a', Neither)] }`.
///
/// Time: That of writing the map and each change.
///
/// `Err`: The formatter failed. A part may be written.
impl<
    B: Bijection<L, R> + fmt::Debug + Drop,
    L: CopyLeft + fmt::Debug + Drop,
    R: Eq + fmt::Debug + Drop,
> fmt::Debug for Undoable<B, L, R> {
    fn fmt<W: fmt::Write>(&self, f: &mut fmt::Formatter<W>) -> fmt::Result {
        f.debug_struct("Undoable")
            .field("held", &self.bimap)
            .field("changes", &self.changes)
            .finish()
    }
}

// Takes one change back. The map has a place for each pair from before the change, so nothing is allocated.
fn take_back<B: Bijection<L, R>, L: Eq + Drop, R: Eq + Drop>(bimap: &mut B, entry: Entry<L, R>)
    requires { (A : List (L × R)) × IsApart L.eq R.eq A × (length A ≤ (B.holding bimap.old).room)
        × IsChange L.eq R.eq A entry (B.holding bimap.old).pairs }
    ensures taken_back { (A : List (L × R)) → IsApart L.eq R.eq A →
        IsChange L.eq R.eq A entry (B.holding bimap.old).pairs →
        IsSameSet (Contains A) (Contains (B.holding bimap.new).pairs) }
    ensures room { (B.holding bimap.new).room ≡ (B.holding bimap.old).room }
{
    match entry {
        Entry::Inserted(left, answer) => match bimap.undo_insert(&left, answer) {
            Ok(_) => {}
            Err(_) => unreachable!(),
        },
        Entry::LeftReplaced(left, old) => {
            let (_, right) = bimap.remove_by_left(&left).unwrap();
            put_back(bimap, old, right);
        }
        Entry::RightReplaced(left, old) => {
            let (left, _) = bimap.remove_by_left(&left).unwrap();
            put_back(bimap, left, old);
        }
        Entry::Removed(left, right) => put_back(bimap, left, right),
    }
}

// Inserts a pair while a place is free.
fn put_back<B: Bijection<L, R>, L: Eq + Drop, R: Eq + Drop>(bimap: &mut B, left: L, right: R)
    requires free { length (B.holding bimap.old).pairs < (B.holding bimap.old).room }
    ensures put { IsWithPut L.eq R.eq (Contains (B.holding bimap.old).pairs) (left, right)
        (Contains (B.holding bimap.new).pairs) }
    ensures room { (B.holding bimap.new).room ≡ (B.holding bimap.old).room }
{
    match bimap.insert(left, right) {
        Ok(_) => {}
        Err(_) => unreachable!(),
    }
}
