//! A meter whose number of comparisons can be read.
use bimap::btree::{Count, Meter};

/// A meter that counts as `M` does, and also counts the comparisons at run time.
#[derive(Drop)]
pub struct Counter<M: Meter> {
    inner: M,
    compared: u64,
}

/// Returns a meter that has counted nothing.
pub fn at_zero() -> Counter<Count> {
    Counter {
        inner: Count::new(),
        compared: 0,
    }
}

impl<M: Meter> Counter<M> {
    /// Returns the number of comparisons that were counted. It stops at the greatest `u64`.
    pub fn comparisons(&self) -> u64 {
        self.compared
    }
}

impl<M: Meter> Meter for Counter<M> {
    ghost comparisons = { λ s. M.comparisons s.inner };

    ghost touches = { λ s. M.touches s.inner };

    fn compared(&mut self) {
        self.inner.compared();
        self.compared = self.compared.saturating_add(1);
    }

    fn touched(&mut self) {
        self.inner.touched();
    }
}
