//! A number that counts how often it is compared.
ghost use Rattle.std.proofs.Common.{rules};
ghost use Rattle.std.specs.Cmp.{partial_order_from_own_ties};
ghost use Rattle.std.specs.Cmp.Rules.{comparing, hashing};
ghost use Rattle.std.specs.Hash as fed;
ghost use Rattle.std.specs.Ordering.{nat_cmp, on, as_partial_cmp};
ghost use Rattle.std.specs.Prelude.{◌≡◌, ◌==◌};

use std::cell::Cell;
use std::cmp::Ordering;
use std::hash::{Hash, Hasher};

/// A number whose comparisons are counted, both for equality and for order.
#[derive(Clone, Copy, Drop)]
pub struct Counted<'a> {
    pub number: u32,
    compared: &'a Cell<u64>,
}

impl PartialEq for Counted<'_> {
    ghost eq = { λ x y. x.number == y.number };

    ghost laws = { Prim.search (comparing, rules) };

    fn eq(&self, other: &Self) -> bool {
        self.compared.set(self.compared.get().wrapping_add(1));
        self.number == other.number
    }
}

impl Eq for Counted<'_> {
    ghost laws = { Prim.search (comparing, rules) };
}

impl PartialOrd for Counted<'_> {
    ghost partial_cmp = { as_partial_cmp (on (λ x. x.number) nat_cmp) };

    ghost laws = { partial_order_from_own_ties (Prim.search (comparing, rules))
        (Prim.search (comparing, rules)) };

    fn partial_cmp(&self, other: &Self) -> Option<Ordering> {
        Some(self.cmp(other))
    }
}

impl Ord for Counted<'_> {
    ghost cmp = { on (λ x. x.number) nat_cmp };

    ghost total = { Prim.search (comparing, rules) };

    ghost matches_partial_cmp = { Prim.search (comparing, rules) };

    ghost matches_eq = { Prim.search (comparing, rules) };

    fn cmp(&self, other: &Self) -> Ordering {
        self.compared.set(self.compared.get().wrapping_add(1));
        self.number.cmp(&other.number)
    }
}

impl Hash for Counted<'_> {
    ghost hash_input = { λ x. fed.u32 x.number };

    ghost respects_eq = { Prim.search (hashing, rules) };

    fn hash<H: Hasher>(&self, state: &mut H) {
        self.number.hash(state);
    }
}

/// Returns the number, which counts its comparisons in this cell.
pub fn counted_at(number: u32, compared: &Cell<u64>) -> Counted<'_>
    ensures { result.number ≡ number }
{
    Counted { number, compared }
}
