//! A clone of a table. This module looks up no key and compares none.
ghost use Rattle.std.specs.Prelude.{◌≡◌, IfOk};
ghost use Rattle.bimap_any.specs.Copies.{AreClonesEqual};
ghost use Rattle.bimap_base.specs.Clones.{AreCloned};
ghost use Rattle.bimap_base.specs.Places.{pairs_in};

use crate::table::Table;
use bimap_base::{LeftSide, NoMemory, RightSide};
use bimap_index::CopiedIndex;

impl<L, R, I, J> Table<L, R, I, J>
where
    L: Eq + Clone + Drop,
    R: Eq + Clone + Drop,
    I: CopiedIndex<L> + Drop,
    J: CopiedIndex<R> + Drop,
{
    /// Returns a table of the clones of the pairs. Each clone has the place of its pair, and free places stay free. The
    /// indexes list the same places in the same order, and find keys as the indexes of this table do. It allocates the
    /// whole room at once. If it runs out of memory, it makes no table.
    pub fn clone(&self) -> Result<Self, NoMemory>
        requires equal { AreClonesEqual L.is_clone R.is_clone L.eq R.eq (pairs_in self.now.pairs) }
        ensures pairs { IfOk result (λ copy. AreCloned L.is_clone R.is_clone self.now.pairs
            copy.pairs) }
        ensures left_places { IfOk result (λ copy. I.places copy.left ≡ I.places self.now.left) }
        ensures right_places { IfOk result (λ copy. J.places copy.right
            ≡ J.places self.now.right) }
        ensures left_finds { IfOk result (λ copy. I.finds_as self.now.left copy.left) }
        ensures right_finds { IfOk result (λ copy. J.finds_as self.now.right copy.right) }
    {
        let pairs = self.pairs.clone()?;
        let left = self.left.copied(LeftSide::new(&pairs))?;
        let right = self.right.copied(RightSide::new(&pairs))?;
        Ok(Table {
            pairs,
            left,
            right,
            is_left_first: self.is_left_first,
        })
    }
}
