//! A clone of a store.
ghost use Rattle.bimap_base.specs.Clones.{AreCloned};
ghost use Rattle.bimap_base.specs.CloneSlots.{IsSlotClone};

use super::{Pairs, Slot};
use std::alloc::AllocError;

impl<L: Clone, R: Clone> Clone for Slot<L, R> {
    ghost is_clone = { IsSlotClone L.is_clone R.is_clone };

    fn clone(&self) -> Result<Self, AllocError> {
        match self {
            Slot::Free(next) => Ok(Slot::Free(*next)),
            Slot::Held(left, right) => Ok(Slot::Held(left.clone()?, right.clone()?)),
        }
    }
}

impl<L: Clone, R: Clone> Clone for Pairs<L, R> {
    ghost is_clone = { AreCloned L.is_clone R.is_clone };

    /// Returns a store of the clones of the pairs. Each clone has the place of its pair. Free places stay free, and are taken in the
    /// same order.
    ///
    /// Allocates all places at once, and what the clones of values allocate. If it runs out of memory, it returns no store.
    fn clone(&self) -> Result<Self, AllocError> {
        let slots = self.slots.clone()?;
        Ok(Pairs {
            slots,
            len: self.len,
            next: self.next,
        })
    }
}
