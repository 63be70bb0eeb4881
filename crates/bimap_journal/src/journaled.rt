//! A map with a file that has each of its changes. It does not know which map it is, nor where the file is.
mod compaction;
mod groups;

use crate::disk::Disk;
use crate::fault::{NotOpened, NotStored};
use crate::group::{clear_group, insertion_group, left_group, right_group};
use crate::journal::Journal;
use crate::progress::{Progress, Silent};
use crate::reading::read_into;
use crate::storage::Storage;
use crate::stored::Stored;
use crate::text::NotWritten;
use bimap::{Bijection, NoMemory, NoRoom, NotInsertedWith, OnHeld, Overwritten, Policy};
use std::alloc::Global;
use std::marker::{Model, PhantomData};

/// A map whose changes are in a file before they are acknowledged.
///
/// The map is any [`Bijection`]. The file is any [`Storage`], such as a [`File`](crate::File). `docs/JOURNAL.md` shows
/// what stands in it. A call first changes the map. If that succeeds, it adds a line to the file, and returns once the
/// line is on the disk. So a crash during a call leaves a file that stands for the pairs from before the call, or for
/// those after it. After a call that returned `Ok`, a crash leaves a file that stands for the pairs of the map. A pair
/// that is read back is equal to the pair that was inserted. It is the same pair if equality is identity.
///
/// After a write has failed, the map may have a change that the file has not. Then each further change is refused, and
/// [`is_stopped`](Journaled::is_stopped) returns true. Open the file again to go on.
///
/// A change costs what the call of the map costs, and two syncs. It allocates for its line, also if it overwrites a
/// pair. The file grows by one line for each change.
///
///     let file = File::open(&rt, "seats.journal")?;
///     let empty: BiBTreeMap<String, u64> = BiBTreeMap::new(alloc);
///     let Ok(mut seats) = Journaled::open(alloc, empty, file) else {
///         return Err(..);
///     };
///     seats.insert(ann, 12)?; // Ok(Overwritten::Neither), and the pair is on the disk
///     seats.map().get_by_right(&12); // Some(&ann)
#[derive(Drop)]
pub struct Journaled<
    B: Bijection<L, R> + Drop,
    L: Stored + Drop,
    R: Stored + Drop,
    S: Storage + Drop,
> {
    alloc: Global,
    map: B,
    journal: Journal<S>,
    is_stopped: bool,
    of: PhantomData<(L, R)>,
}

impl<B: Bijection<L, R> + Drop, L: Stored + Drop, R: Stored + Drop, S: Storage + Drop> Model
    for Journaled<B, L, R, S> {
    ghost use Rattle.bimap_journal.specs.State.{State, IsKept};

    ghost Value = { State L R };

    ghost view = { λ j. record {
      held = B.holding j.map;
      calls = j.journal.disk;
      end = j.journal.end;
      is_stopped = j.is_stopped;
    } };

    // Unless a write has failed, every change of the map is on the disk.
    ghost invariant = { λ j. IsKept L.eq R.eq L.reads R.reads (record {
      held = B.holding j.map;
      calls = j.journal.disk;
      end = j.journal.end;
      is_stopped = j.is_stopped;
    }) };
}

impl<B: Bijection<L, R> + Drop, L: Stored + Drop, R: Stored + Drop, S: Storage + Drop> Journaled<
    B,
    L,
    R,
    S,
> {
    ghost use Rattle.std.specs.Prelude.{◌≡◌, ◌∷◌, [], Ok, Some, false, Contains, OnOk, IfOk, IfErr, IfSome};
    ghost use Rattle.bimap.specs.Capacity.{IsReservation};
    ghost use Rattle.bimap.specs.Holding.{IsInsertion, IsInsertionUnder, IsRemovalByLeft, IsRemovalByRight};
    ghost use Rattle.bimap_journal.specs.Reading.{IsOpened, IsNotOpened};
    ghost use Rattle.bimap_journal.specs.State.{KeepsOneOf, Acknowledges, IsNotStored};

    /// Inserts a pair under a policy, as `Bijection::insert_with` does.
    ///
    /// Time: That of the call of the map, and two syncs if it changes the map.
    ///
    /// Memory: It allocates the line, and as the call of the map does.
    ///
    /// `Err`: The change is not known to be in the file. [`NotStored`] says why.
    pub fn insert_with(
        &mut self,
        left: L,
        right: R,
        policy: Policy,
    ) -> Result<
        Result<Overwritten<L, R>, NotInsertedWith<L, R>>,
        NotStored<(L, R), Overwritten<L, R>>,
    >
        ensures reply { IfOk result (λ reply. IsInsertionUnder L.eq R.eq self.old.held
            (left, right) policy reply self.new.held) }
        ensures running { OnOk result (self.new.is_stopped ≡ false) }
        ensures acknowledged { OnOk result (Acknowledges L.eq R.eq L.reads R.reads self.new) }
        ensures any_moment { self.old.is_stopped ≡ false
            → KeepsOneOf L.eq R.eq L.reads R.reads self.old self.new }
        ensures fault { IfErr result (IsNotStored (λ given. given ≡ (left, right))
            (λ answer. IsInsertionUnder L.eq R.eq self.old.held (left, right) policy (Ok answer)
            self.new.held) self.old self.new) }
    {
        if self.is_stopped {
            return Err(NotStored::Stopped((left, right)));
        }
        match insertion_group(self.alloc, &left, &right) {
            Ok(group) => match self.map.insert_with(left, right, policy) {
                Ok(answer) => match self.journal.commit(&group) {
                    Ok(()) => Ok(Ok(answer)),
                    Err(error) => {
                        self.is_stopped = true;
                        Err(NotStored::Failed(answer, error))
                    }
                },
                Err(refusal) => Ok(Err(refusal)),
            },
            Err(NotWritten::Memory) => Err(NotStored::Memory((left, right))),
            Err(NotWritten::LineBreak) => Err(NotStored::LineBreak((left, right))),
        }
    }

    /// Inserts a pair, as `Bijection::insert` does.
    ///
    /// Time: That of the call of the map, and two syncs if it changes the map.
    ///
    /// Memory: It allocates the line, and as the call of the map does.
    ///
    /// `Err`: The change is not known to be in the file. [`NotStored`] says why.
    pub fn insert(
        &mut self,
        left: L,
        right: R,
    ) -> Result<Result<Overwritten<L, R>, NoRoom<L, R>>, NotStored<(L, R), Overwritten<L, R>>>
        ensures reply { IfOk result (λ reply. IsInsertion L.eq R.eq self.old.held (left, right)
            reply self.new.held) }
        ensures running { OnOk result (self.new.is_stopped ≡ false) }
        ensures acknowledged { OnOk result (Acknowledges L.eq R.eq L.reads R.reads self.new) }
        ensures any_moment { self.old.is_stopped ≡ false
            → KeepsOneOf L.eq R.eq L.reads R.reads self.old self.new }
        ensures fault { IfErr result (IsNotStored (λ given. given ≡ (left, right))
            (λ answer. IsInsertion L.eq R.eq self.old.held (left, right) (Ok answer)
            self.new.held) self.old self.new) }
    {
        let policy = Policy {
            left: OnHeld::Overwrite,
            right: OnHeld::Overwrite,
        };
        match self.insert_with(left, right, policy) {
            Ok(Ok(answer)) => Ok(Ok(answer)),
            Ok(Err(NotInsertedWith::Memory(left, right))) => Ok(Err(NoRoom { left, right })),
            Ok(Err(_)) => unreachable!(),
            Err(fault) => Err(fault),
        }
    }

    /// Removes the pair of a left, as `Bijection::remove_by_left` does.
    ///
    /// Time: That of the call of the map, and two syncs if it changes the map.
    ///
    /// Memory: It allocates the line, and as the call of the map does.
    ///
    /// `Err`: The change is not known to be in the file. [`NotStored`] says why.
    pub fn remove_by_left(&mut self, left: &L) -> Result<Option<(L, R)>, NotStored<(), (L, R)>>
        ensures reply { IfOk result (λ reply. IsRemovalByLeft L.eq self.old.held left.now reply
            self.new.held) }
        ensures running { OnOk result (self.new.is_stopped ≡ false) }
        ensures acknowledged { OnOk result (Acknowledges L.eq R.eq L.reads R.reads self.new) }
        ensures any_moment { self.old.is_stopped ≡ false
            → KeepsOneOf L.eq R.eq L.reads R.reads self.old self.new }
        ensures fault { IfErr result (IsNotStored (λ given. Unit {0})
            (λ pair. IsRemovalByLeft L.eq self.old.held left.now (Some pair) self.new.held)
            self.old self.new) }
    {
        if self.is_stopped {
            return Err(NotStored::Stopped(()));
        }
        match left_group(self.alloc, left, PhantomData::<R>) {
            Ok(group) => match self.map.remove_by_left(left) {
                Some(pair) => match self.journal.commit(&group) {
                    Ok(()) => Ok(Some(pair)),
                    Err(error) => {
                        self.is_stopped = true;
                        Err(NotStored::Failed(pair, error))
                    }
                },
                None => Ok(None),
            },
            Err(NotWritten::Memory) => Err(NotStored::Memory(())),
            Err(NotWritten::LineBreak) => Err(NotStored::LineBreak(())),
        }
    }

    /// Removes the pair of a right, as `Bijection::remove_by_right` does.
    ///
    /// Time: That of the call of the map, and two syncs if it changes the map.
    ///
    /// Memory: It allocates the line, and as the call of the map does.
    ///
    /// `Err`: The change is not known to be in the file. [`NotStored`] says why.
    pub fn remove_by_right(&mut self, right: &R) -> Result<Option<(L, R)>, NotStored<(), (L, R)>>
        ensures reply { IfOk result (λ reply. IsRemovalByRight R.eq self.old.held right.now reply
            self.new.held) }
        ensures running { OnOk result (self.new.is_stopped ≡ false) }
        ensures acknowledged { OnOk result (Acknowledges L.eq R.eq L.reads R.reads self.new) }
        ensures any_moment { self.old.is_stopped ≡ false
            → KeepsOneOf L.eq R.eq L.reads R.reads self.old self.new }
        ensures fault { IfErr result (IsNotStored (λ given. Unit {0})
            (λ pair. IsRemovalByRight R.eq self.old.held right.now (Some pair) self.new.held)
            self.old self.new) }
    {
        if self.is_stopped {
            return Err(NotStored::Stopped(()));
        }
        match right_group(self.alloc, right, PhantomData::<L>) {
            Ok(group) => match self.map.remove_by_right(right) {
                Some(pair) => match self.journal.commit(&group) {
                    Ok(()) => Ok(Some(pair)),
                    Err(error) => {
                        self.is_stopped = true;
                        Err(NotStored::Failed(pair, error))
                    }
                },
                None => Ok(None),
            },
            Err(NotWritten::Memory) => Err(NotStored::Memory(())),
            Err(NotWritten::LineBreak) => Err(NotStored::LineBreak(())),
        }
    }

    /// Removes all pairs, as `Bijection::clear` does.
    ///
    /// Time: That of the call of the map, and two syncs if it changes the map.
    ///
    /// Memory: It allocates the line, and as the call of the map does.
    ///
    /// `Err`: The change is not known to be in the file. [`NotStored`] says why.
    pub fn clear(&mut self) -> Result<(), NotStored<(), ()>>
        ensures reply { OnOk result (((self.new.held).pairs ≡ [])
            × ((self.new.held).room ≡ (self.old.held).room)) }
        ensures running { OnOk result (self.new.is_stopped ≡ false) }
        ensures acknowledged { OnOk result (Acknowledges L.eq R.eq L.reads R.reads self.new) }
        ensures any_moment { self.old.is_stopped ≡ false
            → KeepsOneOf L.eq R.eq L.reads R.reads self.old self.new }
        ensures fault { IfErr result (IsNotStored (λ given. Unit {0})
            (λ made. (self.new.held).pairs ≡ []) self.old self.new) }
    {
        if self.is_stopped {
            return Err(NotStored::Stopped(()));
        }
        match clear_group(self.alloc, PhantomData::<(L, R)>) {
            Ok(group) => {
                self.map.clear();
                match self.journal.commit(&group) {
                    Ok(()) => Ok(()),
                    Err(error) => {
                        self.is_stopped = true;
                        Err(NotStored::Failed((), error))
                    }
                }
            }
            Err(NotWritten::Memory) => Err(NotStored::Memory(())),
            Err(NotWritten::LineBreak) => Err(NotStored::LineBreak(())),
        }
    }

    /// Grows the capacity of the map, as `Bijection::reserve` does. The file does not change.
    ///
    /// Time: That of the call of the map.
    ///
    /// Memory: It allocates as the call of the map does.
    ///
    /// `Err`: Out of memory. Pairs and capacity are as before.
    pub fn reserve(&mut self, more: usize) -> Result<(), NoMemory>
        ensures reply { IsReservation self.old.held more result self.new.held }
        ensures file { self.new.calls ≡ self.old.calls }
        ensures stopped { self.new.is_stopped ≡ self.old.is_stopped }
    {
        self.map.reserve(more)
    }

    /// Returns the map. All look-ups and iterators are those of the map.
    ///
    /// Time: O(1).
    pub fn map(&self) -> &B
        ensures { B.holding result.now ≡ self.now.held }
    {
        &self.map
    }

    /// Returns whether a write has failed. Then no change is stored until the journal is opened again.
    ///
    /// Time: O(1).
    pub fn is_stopped(&self) -> bool
        ensures { result ≡ self.now.is_stopped }
    {
        self.is_stopped
    }

    /// Opens a journal, and returns the map of its changes.
    ///
    /// An empty file becomes a journal without changes. What a crash has left behind the last line is cut off. A crash
    /// during the call leaves a file with the same lines.
    ///
    /// Condition: `empty` contains no pair.
    ///
    /// Time: That of reading the file and of making each of its changes.
    ///
    /// Memory: It allocates for the whole file, and as the changes of the map do.
    ///
    /// `Err`: [`NotOpened`] says why, and the file is handed back. It has the same lines as before.
    pub fn open(alloc: Global, empty: B, storage: S) -> Result<Self, (NotOpened, Disk<S>)>
        requires empty { (B.holding empty).pairs ≡ [] }
        ensures running { IfOk result (λ journaled. journaled.is_stopped ≡ false) }
        ensures opened { IfOk result (λ journaled. IsOpened L.eq R.eq L.reads R.reads []
            journaled.calls journaled.end (Contains journaled.held.pairs)) }
        ensures refused { IfErr result (λ fault. IsNotOpened L.reads R.reads []
            fault.1 fault.0) }
    {
        Journaled::open_with(alloc, empty, storage, &mut Silent)
    }

    /// Opens a journal as [`open`](Journaled::open) does, and shows how far the reading is.
    ///
    /// It calls [`Progress::at`] before the first line, and again after each 10,000 lines.
    ///
    /// Condition: `empty` contains no pair.
    ///
    /// Time: That of `open`.
    ///
    /// Memory: It allocates as `open` does.
    ///
    /// `Err`: [`NotOpened`] says why, and the file is handed back. It has the same lines as before.
    pub fn open_with<P: Progress>(
        alloc: Global,
        empty: B,
        storage: S,
        progress: &mut P,
    ) -> Result<Self, (NotOpened, Disk<S>)>
        requires empty { (B.holding empty).pairs ≡ [] }
        ensures running { IfOk result (λ journaled. journaled.is_stopped ≡ false) }
        ensures opened { IfOk result (λ journaled. IsOpened L.eq R.eq L.reads R.reads []
            journaled.calls journaled.end (Contains journaled.held.pairs)) }
        ensures refused { IfErr result (λ fault. IsNotOpened L.reads R.reads []
            fault.1 fault.0) }
    {
        let mut map = empty;
        let mut disk = Disk::new(alloc, storage);
        match read_into(alloc, &mut map, &mut disk, progress) {
            Ok(end) => Ok(Journaled {
                alloc,
                map,
                journal: Journal { disk, end },
                is_stopped: false,
                of: PhantomData,
            }),
            Err(fault) => Err((fault, disk)),
        }
    }
}
