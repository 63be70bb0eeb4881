//! A list of insertions, undone from its end on any map. It uses calls of `Bijection` alone.
ghost use Rattle.std.specs.Prelude.{◌≡◌, List, Contains, IsOk, OnOk, IfErr};
ghost use Rattle.bimap_base.specs.Sets.{IsSameSet};
ghost use Rattle.bimap.specs.Trail.{Leads, LeadsWithin, IsStopped, IsRoomAfterUndoing};

use bimap_any::Bijection;
use bimap_base::Overwritten;
use thiserror::Error;

/// Out of memory for putting two pairs back. It hands back the entries that are not undone, in order. The last of them
/// is the one for which memory ran out.
#[derive(Debug, Drop, Eq, Error, PartialEq)]
#[error("out of memory for putting two pairs back, {} left to undo", .rest.len())]
pub struct UndoRunStopped<L, R> {
    pub rest: Vec<(L, Overwritten<L, R>)>,
}

/// Undoes a list of insertions, the last one first.
///
/// An entry is a left with what its insertion returned. In insertion order the positions may change, as
/// [`undo_insert`](Bijection::undo_insert) says. After an `Err`, the condition holds for the entries in `rest`.
///
/// Condition: The insertions of the list, made in this order, led to the pairs that the map contains.
///
/// Time: That of an `undo_insert` for each entry.
///
/// Memory: It allocates only to put back two pairs when the capacity is used up. The capacity then doubles, to at least
/// 4.
///
/// `Err`: Out of memory. It hands back the entries that it did not undo, which are the first of the list, in order.
///
///     // `entries` of the insertion of 'a' with 1: [('a', Overwritten::Both(('a', 3), ('b', 1)))]
///     undo_run(&mut seats, entries)?;
///     // ('a', 3) and ('b', 1) are back
pub fn undo_run<L: Eq + Drop, R: Eq + Drop, B: Bijection<L, R>>(
    bimap: &mut B,
    mut entries: Vec<(L, Overwritten<L, R>)>,
) -> Result<(), UndoRunStopped<L, R>>
    requires leads { (first : List (L × R)) × Leads L.eq R.eq first entries.items
        (B.holding bimap.old).pairs }
    ensures undone { OnOk result ((first : List (L × R)) →
        Leads L.eq R.eq first entries.items (B.holding bimap.old).pairs →
        IsSameSet (Contains first) (Contains (B.holding bimap.new).pairs)) }
    ensures stopped { IfErr result (λ e. IsStopped L.eq R.eq
        (B.holding bimap.old) entries.items e.rest.items (B.holding bimap.new)) }
    ensures room { IsRoomAfterUndoing (B.holding bimap.old) entries.items (B.holding bimap.new) }

    // If no set of pairs on the way back needs more capacity, all is undone and the capacity stays.
    ensures fits { (first : List (L × R)) →
        LeadsWithin L.eq R.eq (B.holding bimap.old).room first entries.items
        (B.holding bimap.old).pairs →
        IsOk result × ((B.holding bimap.new).room ≡ (B.holding bimap.old).room) }
    ensures lenders { B.lenders bimap.new ≡ B.lenders bimap.old }
{
    while let Some((left, answer)) = entries.pop() {
        match bimap.undo_insert(&left, answer) {
            Ok(_) => {}
            Err(stopped) => {
                entries.push_reserved((left, stopped.answer));
                return Err(UndoRunStopped { rest: entries });
            }
        }
    }
    Ok(())
}
