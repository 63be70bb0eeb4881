//! A clone of a map.
ghost use Rattle.std.specs.Prelude.{◌≡◌, IfOk};
ghost use Rattle.std.specs.List.{AllZip};
ghost use Rattle.bimap_any.specs.Copies.{AreClonesEqual, IsCopy};
ghost use Rattle.bimap_base.specs.Clones.{IsPairClone};

use crate::map::BijectiveMap;
use crate::walked_index::WalkedIndex;
use bimap_base::NoMemory;
use bimap_index::CopiedIndex;

impl<
    L: Eq + Clone + Drop,
    R: Eq + Clone + Drop,
    I: CopiedIndex<L> + WalkedIndex<L> + Drop,
    J: CopiedIndex<R> + Drop,
> BijectiveMap<L, R, I, J> {
    ghost use Rattle.bimap_kinds.specs.Held.{holding, by_right};

    /// Returns a map of the clones of the pairs, which equals this map and has its capacity.
    ///
    /// The hash builders of the clone are clones of this map's builders. The clone iterates over the clones in the order of
    /// their pairs.
    ///
    /// Condition: Each clone of a value equals the value.
    ///
    /// Time: O(capacity), and that of cloning each value and hashing those of hashed sides. It compares no values.
    ///
    /// Memory: It allocates for the whole capacity, and what the clones of values and hash builders allocate.
    ///
    /// `Err`: Out of memory. There is no clone.
    ///
    ///     seats.clone()? == seats; // true
    pub fn clone(&self) -> Result<Self, NoMemory>
        requires equal { AreClonesEqual L.is_clone R.is_clone L.eq R.eq (holding self.now).pairs }
        ensures pairs { IfOk result (λ copy. IsCopy L.is_clone R.is_clone L.eq R.eq
            (holding self.now).pairs (holding copy).pairs) }
        ensures position { IfOk result (λ copy. AllZip
            (IsPairClone L.is_clone R.is_clone) (holding self.now).pairs (holding copy).pairs) }
        ensures right_position { IfOk result (λ copy. AllZip
            (IsPairClone L.is_clone R.is_clone) (by_right self.now) (by_right copy)) }
        ensures room { IfOk result (λ copy. (holding copy).room ≡ (holding self.now).room) }
        ensures left_finds { IfOk result (λ copy. I.finds_as self.now.table.left copy.table.left) }
        ensures right_finds { IfOk result (λ copy. J.finds_as self.now.table.right
            copy.table.right) }
    {
        let table = self.table.clone()?;
        Ok(BijectiveMap { table })
    }
}
