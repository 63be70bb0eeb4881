//! The room of a table: how many pairs it has places for.
ghost use Rattle.std.specs.Prelude.{◌≡◌, [], length};
ghost use Rattle.bimap_any.specs.Capacity.{IsReservation};
ghost use Rattle.bimap_base.specs.Slots.{pair_at};

use crate::table::Table;
use bimap_base::NoMemory;
use bimap_index::Index;

impl<L: Eq, R: Eq, I: Index<L>, J: Index<R>> Table<L, R, I, J> {
    ghost use Rattle.bimap_core.specs.Store.{holding_of};

    /// Makes room for exactly this many more pairs. If the room is there already, nothing changes and nothing is
    /// allocated. If it runs out of memory, nothing changes, except that an index may keep the cells that it got.
    pub fn reserve(&mut self, more: usize) -> Result<(), NoMemory>
        ensures answer { IsReservation (holding_of self.old.pairs) more result
            (holding_of self.new.pairs) }
        ensures kept { (place : _) → pair_at self.new.pairs place ≡ pair_at self.old.pairs place }
        ensures left_places { I.places self.new.left ≡ I.places self.old.left }
        ensures right_places { J.places self.new.right ≡ J.places self.old.right }
    {
        let room = self.room();
        let Some(wanted) = self.len().checked_add(more) else {
            return Err(NoMemory);
        };
        if wanted <= room {
            return Ok(());
        }
        self.grow(wanted)
    }

    /// Drops all pairs. The room stays.
    pub fn clear(&mut self)
    where
        L: Drop,
        R: Drop,
        ensures pairs { (holding_of self.new.pairs).pairs ≡ [] }
        ensures room { length self.new.pairs ≡ length self.old.pairs }
    {
        self.left.clear();
        self.right.clear();
        self.pairs.clear();
    }
}
