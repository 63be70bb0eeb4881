//! The number of a cell, which a link stores in four bytes or in eight.
ghost use Rattle.std.specs.Prelude.{◌≡◌, ℕ, ◌+◌, ◌<◌, ◌≤◌};

/// The number of a cell in the form that a link stores.
pub(crate) trait CellNumber: Copy + Drop {
    /// The number that is stored.
    ghost value: { Self → ℕ };

    /// The count of cells that can have a number. Their numbers are those below this one.
    ghost count: { ℕ };

    /// Returns the stored form of a number.
    fn of(number: usize) -> Self
        requires { number < count }
        ensures { value result ≡ number };

    /// Returns the number that is stored.
    fn get(self) -> usize
        ensures { result ≡ value self };

    /// At least cell 0 can have a number.
    ghost some: { 0 < count };
}

impl CellNumber for u32 {
    ghost use Rattle.std.specs.Prelude.{ℕ};
    ghost use Rattle.std.proofs.Common.{arith};

    ghost value = { λ n. n };

    ghost count = { 4294967296 };

    ghost some = { omega arith };

    #[inline(always)]
    fn of(number: usize) -> Self {
        number as u32
    }

    #[inline(always)]
    fn get(self) -> usize {
        self as usize
    }
}

impl CellNumber for usize {
    ghost use Rattle.std.specs.Prelude.{ℕ};
    ghost use Rattle.std.proofs.Common.{arith};

    ghost value = { λ n. n };

    ghost count = { 18446744073709551616 };

    ghost some = { omega arith };

    #[inline(always)]
    fn of(number: usize) -> Self {
        number
    }

    #[inline(always)]
    fn get(self) -> usize {
        self
    }
}
