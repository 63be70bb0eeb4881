//! The keys of a run. They are random or rising numbers, and each occurs once.

/// The keys of a run.
#[derive(Clone, Copy)]
pub struct Keys {
    pairs: u64,
    // Every left is a multiple of `lefts`, and every right is a multiple of `rights`. An odd factor makes them all
    // different.
    lefts: u64,
    rights: u64,
    // The distance from one looked-up number to the next.
    step: u64,
}

impl Keys {
    /// Returns the keys for a number of pairs. Rising keys are inserted and looked up in ascending order.
    ///
    /// Otherwise the keys are random, and they are looked up in another order. Each is looked up once: 7919 and 7907
    /// are primes, and at least one of them does not divide a number of pairs.
    pub fn new(pairs: u64, is_rising: bool) -> Self {
        if is_rising {
            return Keys {
                pairs,
                lefts: 1,
                rights: 1,
                step: 1,
            };
        }
        let prime = if pairs % 7919 == 0 { 7907u64 } else { 7919 };
        Keys {
            pairs,
            lefts: 0x9E37_79B9_7F4A_7C15,
            rights: 0xD1B5_4A32_D192_ED03,
            step: prime.checked_rem(pairs).unwrap_or(0),
        }
    }

    /// Returns the number of pairs.
    pub fn pairs(&self) -> u64 {
        self.pairs
    }

    /// Returns the left of a number.
    pub fn left(&self, number: u64) -> u64 {
        number.wrapping_mul(self.lefts)
    }

    /// Returns the right of a number.
    pub fn right(&self, number: u64) -> u64 {
        number.wrapping_mul(self.rights)
    }

    /// Returns the number that is looked up after this one.
    pub fn after(&self, number: u64) -> u64 {
        let next = number.wrapping_add(self.step);
        if next < self.pairs {
            next
        } else {
            next.wrapping_sub(self.pairs)
        }
    }
}
