//! Exchanges the sides of the pairs in a store.
ghost use Rattle.std.specs.Prelude.{◌≡◌, IfOk, IfErr, map, option_map};
ghost use Rattle.bimap_base.specs.Inverse.{inverse_pair};
ghost use Rattle.bimap_base.specs.InverseSlots.{inverse_slot};

use super::{Pairs, Slot};
use crate::refusal::NotInverted;

impl<L, R> Slot<L, R> {
    // Returns the slot with the sides of its pair exchanged. A free slot still stores the same next place.
    fn into_inverse(self) -> Slot<R, L>
        ensures { result ≡ inverse_slot self }
    {
        match self {
            Slot::Free(next) => Slot::Free(next),
            Slot::Held(left, right) => Slot::Held(right, left),
        }
    }
}

impl<L: Drop, R: Drop> Pairs<L, R> {
    /// Returns the store with the sides of each pair exchanged. Each pair keeps its place.
    ///
    /// Allocates the places of the new store before it moves a pair. If it runs out of memory, it hands this store back.
    pub fn into_inverse(self) -> Result<Pairs<R, L>, NotInverted<Self>>
        ensures ok { IfOk result (λ inverse. inverse ≡ map (option_map inverse_pair) self) }
        ensures err { IfErr result (λ e. e.given ≡ self) }
    {
        let alloc = *self.slots.allocator();
        let Ok(mut turned) = Vec::with_capacity(alloc, self.slots.len()) else {
            return Err(NotInverted { given: self });
        };
        let Pairs { slots, len, next } = self;
        for slot in slots {
            turned.push_reserved(slot.into_inverse());
        }
        Ok(Pairs {
            slots: turned,
            len,
            next,
        })
    }
}
