//! A key type whose comparisons are written by hand.
ghost use Rattle.std.proofs.Common.{rules};
ghost use Rattle.std.specs.Cmp.{partial_order_from_own_ties};
ghost use Rattle.std.specs.Cmp.Rules.{comparing, hashing};
ghost use Rattle.std.specs.Hash as fed;
ghost use Rattle.std.specs.Ordering.{nat_cmp, on, as_partial_cmp};
ghost use Rattle.std.specs.Prelude.{◌==◌, ◌/◌};

use bimap::NoMemory;
use bimap_undo::CopyLeft;
use std::alloc::Global;
use std::cmp::Ordering;
use std::hash::{Hash, Hasher};

/// A seat at a table of ten. Two seats are equal if they are at the same table.
#[derive(Clone, Copy)]
pub struct TableSeat {
    pub number: u8,
}

impl PartialEq for TableSeat {
    ghost eq = { on (λ s. s.number / 10) ◌==◌ };

    ghost laws = { Prim.search (comparing, rules) };

    fn eq(&self, other: &Self) -> bool {
        self.number / 10 == other.number / 10
    }
}

impl Eq for TableSeat {
    ghost laws = { Prim.search (comparing, rules) };
}

impl PartialOrd for TableSeat {
    ghost partial_cmp = { as_partial_cmp (on (λ s. s.number / 10) nat_cmp) };

    ghost laws = { partial_order_from_own_ties (Prim.search (comparing, rules))
        (Prim.search (comparing, rules)) };

    fn partial_cmp(&self, other: &Self) -> Option<Ordering> {
        Some(self.cmp(other))
    }
}

impl Ord for TableSeat {
    ghost cmp = { on (λ s. s.number / 10) nat_cmp };

    ghost total = { Prim.search (comparing, rules) };

    ghost matches_partial_cmp = { Prim.search (comparing, rules) };

    ghost matches_eq = { Prim.search (comparing, rules) };

    fn cmp(&self, other: &Self) -> Ordering {
        (self.number / 10).cmp(&(other.number / 10))
    }
}

impl Hash for TableSeat {
    ghost hash_input = { λ s. fed.u8 (s.number / 10) };

    ghost respects_eq = { Prim.search (hashing, rules) };

    fn hash<H: Hasher>(&self, state: &mut H) {
        (self.number / 10).hash(state);
    }
}

impl CopyLeft for TableSeat {
    fn copy_left(&self, _alloc: Global) -> Result<TableSeat, NoMemory> {
        Ok(*self)
    }
}
