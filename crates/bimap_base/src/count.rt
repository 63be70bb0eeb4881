//! A meter that stores no number at run time. It is for the calls that are passed no meter.
ghost use Rattle.std.specs.Prelude.{◌≡◌, ℕ, ◌+◌};
ghost use Rattle.std.specs.Coded.{coded_ℕ};
ghost use base.Fml.{ftrue};

use crate::meter::Meter;
use std::marker::Model;

// A number that exists only in contracts.
#[derive(Drop)]
pub struct Tally {
    pub ghost number: { ℕ } by { coded_ℕ },
}

impl Model for Tally {
    ghost also_owns = { λ _. ftrue };
}

impl Tally {
    fn new() -> Tally
        ensures { result.number ≡ 0 }
    {
        Tally {}
    }

    fn more(&self) -> Tally
        ensures { result.number ≡ self.now.number + 1 }
    {
        Tally {}
    }
}

/// A meter whose counts exist only in contracts. It takes no bytes.
#[derive(Drop)]
pub struct Count {
    compared: Tally,
    touched: Tally,
}

impl Count {
    /// Returns a meter whose two counts are 0.
    pub fn new() -> Self
        ensures compared { result.compared.number ≡ 0 }
        ensures touched { result.touched.number ≡ 0 }
    {
        Count {
            compared: Tally::new(),
            touched: Tally::new(),
        }
    }
}

impl Meter for Count {
    ghost comparisons = { λ s. s.compared.number };

    ghost touches = { λ s. s.touched.number };

    fn compared(&mut self) {
        self.compared = self.compared.more();
    }

    fn touched(&mut self) {
        self.touched = self.touched.more();
    }
}
