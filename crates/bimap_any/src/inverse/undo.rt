//! An insertion undone by a removal and by insertions, with the sides of the map exchanged. The map's own `undo_insert`
//! takes the left of a pair, and here its right is given.
ghost use Rattle.std.specs.Prelude.{◌≡◌, ◌<◌, length, Contains, Some, OnOk, OnErr};
ghost use Rattle.bimap_base.specs.Holding.{IsFull, IsRoomAfter, IsRemovalByLeft, IsUndoing};
ghost use Rattle.bimap_base.specs.Sets.{HasLeft, NoneShares};
ghost use Rattle.bimap_base.specs.Undoing.{IsUndoable};
ghost use Rattle.bimap_any.specs.Added.{IsAdded};
ghost use Rattle.bimap_any.specs.Exchanged.{inverse_holding};

use crate::bijection::Bijection;
use crate::inverse::exchanged::exchange_pair;
use bimap_base::{NoMemory, Overwritten, UndoStopped};

// Makes sure that a place is free. If none is, the capacity doubles.
fn make_place<L: Eq + Drop, R: Eq + Drop, B: Bijection<L, R>>(bimap: &mut B) -> Result<(), NoMemory>
    ensures ok { OnOk result (length (B.holding bimap.new).pairs < (B.holding bimap.new).room) }
    ensures pairs { (B.holding bimap.new).pairs ≡ (B.holding bimap.old).pairs }
    ensures room { IsRoomAfter (B.holding bimap.old) ⊥ (B.holding bimap.new) }
    ensures full { OnErr result (IsFull (B.holding bimap.old)) }
    ensures err { OnErr result (B.holding bimap.new ≡ B.holding bimap.old) }
    ensures lenders { B.lenders bimap.new ≡ B.lenders bimap.old }
{
    let len = bimap.len();
    if len < bimap.capacity() {
        return Ok(());
    }
    bimap.reserve(len.max(1))
}

// Removes the pair of a left that the map contains, and returns it.
fn take<L: Eq + Drop, R: Eq + Drop, B: Bijection<L, R>>(bimap: &mut B, left: &R) -> (R, L)
    requires held { HasLeft R.eq (Contains (inverse_holding (B.holding bimap.old)).pairs)
        left.now }
    ensures answer { IsRemovalByLeft R.eq (inverse_holding (B.holding bimap.old)) left.now
        (Some result) (inverse_holding (B.holding bimap.new)) }
    ensures lenders { B.lenders bimap.new ≡ B.lenders bimap.old }
{
    match exchange_pair(bimap.remove_by_right(left)) {
        Some(pair) => pair,
        None => unreachable!(),
    }
}

// Inserts a pair that shares no value with any other, while a place is free.
fn put_back<L: Eq + Drop, R: Eq + Drop, B: Bijection<L, R>>(bimap: &mut B, left: R, right: L)
    requires free { length (B.holding bimap.old).pairs < (B.holding bimap.old).room }
    requires alone { NoneShares R.eq L.eq (Contains (inverse_holding (B.holding bimap.old)).pairs)
        (left, right) }
    ensures added { IsAdded (inverse_holding (B.holding bimap.old)) (left, right)
        (inverse_holding (B.holding bimap.new)) }
    ensures lenders { B.lenders bimap.new ≡ B.lenders bimap.old }
{
    match bimap.insert(right, left) {
        Ok(_) => {}
        Err(_) => unreachable!(),
    }
}

// Removes the pair of the left, and inserts the pairs of the answer.
pub(crate) fn undo<L: Eq + Drop, R: Eq + Drop, B: Bijection<L, R>>(
    bimap: &mut B,
    left: &R,
    answer: Overwritten<R, L>,
) -> Result<(R, L), UndoStopped<R, L>>
    requires undoable { IsUndoable R.eq L.eq
        (Contains (inverse_holding (B.holding bimap.old)).pairs) left.now answer }
    ensures answer { IsUndoing R.eq L.eq (inverse_holding (B.holding bimap.old)) left.now answer
        result (inverse_holding (B.holding bimap.new)) }
    ensures lenders { B.lenders bimap.new ≡ B.lenders bimap.old }
{
    match answer {
        Overwritten::Neither => Ok(take(bimap, left)),
        Overwritten::Left(l, r) | Overwritten::Right(l, r) | Overwritten::Pair(l, r) => {
            let taken = take(bimap, left);
            put_back(bimap, l, r);
            Ok(taken)
        }
        Overwritten::Both(first, second) => {
            if make_place(bimap).is_err() {
                return Err(UndoStopped {
                    answer: Overwritten::Both(first, second),
                });
            }
            let taken = take(bimap, left);
            put_back(bimap, first.0, first.1);
            put_back(bimap, second.0, second.1);
            Ok(taken)
        }
    }
}
