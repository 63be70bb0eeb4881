//! The keys of a side of a store, in their order.
ghost use Rattle.std.specs.Prelude.{◌≡◌};

use crate::keys::{Keys, Sought};
use crate::meter::Meter;
use crate::query::OrderQuery;
use crate::side::Side;
use std::cmp::Ordering;
use std::marker::PhantomData;

/// The keys of a side, as an ordered index compares them.
#[derive_where(Clone, Copy; S)]
pub struct ByOrder<K, S> {
    // The side is stored by value. A comparison then follows one reference less.
    side: S,
    of: PhantomData<K>,
}

impl<K, S: Copy> ByOrder<K, S> {
    /// Returns the keys of this side. Never allocates.
    pub fn new(side: S) -> Self
        ensures { result.side ≡ side }
    {
        ByOrder {
            side,
            of: PhantomData,
        }
    }
}

impl<K: Ord, S: Side<K>> Keys for ByOrder<K, S> {
    type Key = K;

    ghost key_at = { λ s. S.key_at s.side };

    ghost order = { K.cmp };

    ghost total = { K.total };

    fn compare<M: Meter>(&self, place: usize, key: &K, meter: &mut M) -> Ordering {
        meter.compared();
        self.side.key(place).cmp(key)
    }

    fn compare_places<M: Meter>(&self, a: usize, b: usize, meter: &mut M) -> Ordering {
        meter.compared();
        self.side.key(a).cmp(self.side.key(b))
    }
}

impl<K: Ord, S: Side<K>, Q: OrderQuery<K>> Sought<ByOrder<K, S>> for Q {
    ghost order = { Q.order };

    ghost follows = { Q.follows };

    fn compare<M: Meter>(&self, keys: &ByOrder<K, S>, place: usize, meter: &mut M) -> Ordering {
        meter.compared();
        self.order(keys.side.key(place))
    }
}
