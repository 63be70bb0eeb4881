//! Removing a place, and the place of a query.
ghost use Rattle.std.specs.Prelude.{◌≡◌, ℕ, ◌+◌, ◌*◌, ◌≤◌, length, Some, IfSome, IfNone};
ghost use Rattle.std.specs.List.{Contains};
ghost use Rattle.std.specs.declared.cmp.Ordering.TheVariants.{Equal};
ghost use Rattle.bimap_base.specs.Digits.{most_height};
ghost use Rattle.bimap_base.specs.Keyed.{standing, Ascends, Drops};

use super::Ordered;
use crate::by_width::{route_ahead, take_at};
use crate::end_changes::take_first;
use crate::ends::{found_first, keeps_first, let_go, note_first, scratch};
use crate::search_key::{ToPlace, ToQuery};
use crate::upper::NoUpper;
use bimap_base::{Keys, Meter, Sought};

impl Ordered {
    /// Removes a place. Takes time logarithmic in the length. Never allocates.
    pub fn remove<K: Keys, M: Meter>(&mut self, keys: &K, place: usize, meter: &mut M)
        requires ascends { Ascends (K.key_at keys.now) K.order self.old.places }
        requires listed { Contains self.old.places place }
        ensures len { length self.new.places + 1 ≡ length self.old.places }
        ensures drops { Drops self.old.places place self.new.places }
        ensures ascends { Ascends (K.key_at keys.now) K.order self.new.places }
        ensures cells { length self.new.nodes ≡ length self.old.nodes }
        ensures comparisons { M.comparisons meter.new ≤ M.comparisons meter.old
            + most_height (length self.old.places) }
        ensures touches { M.touches meter.new ≤ M.touches meter.old
            + 64 * (most_height (length self.old.places) + 1) }
    {
        let is_wanted = self.takes_first;
        note_first(&mut self.kept, &self.cells, self.root, is_wanted, meter);
        if keeps_first(&self.kept, place) {
            self.root = take_first(&mut self.kept, &mut self.cells, self.root, place, meter);
            self.len -= 1;
            return;
        }
        let mut fresh = None;
        let noted = scratch(&mut self.kept, &mut fresh);
        // The search finds `place` itself.
        let _ = route_ahead(
            &self.cells,
            self.root,
            &ToPlace { keys, place },
            noted,
            meter,
        );
        self.takes_first = noted.goes(false);
        self.seen = noted.seen();
        self.root = take_at(
            &mut self.cells,
            self.root,
            noted,
            place,
            &mut NoUpper,
            meter,
        );
        self.len -= 1;
        let_go(&mut self.kept);
    }

    /// Removes the place whose key is equal to the query, and returns it. If there is no such place, nothing changes.
    pub fn remove_key<K: Keys, Q: Sought<K>, M: Meter>(
        &mut self,
        keys: &K,
        query: Q,
        meter: &mut M,
    ) -> Option<usize>
        requires { Ascends (K.key_at keys.now) K.order self.old.places }
        ensures found { IfSome result (λ p. Contains self.old.places p
            × (standing Q.order (K.key_at keys.now p) (Some query) ≡ Equal)) }
        ensures none { IfNone result ((p : ℕ) → Contains self.old.places p →
            standing Q.order (K.key_at keys.now p) (Some query) ≡ Equal → ⊥) }
        ensures len { IfSome result (λ _. length self.new.places + 1 ≡ length self.old.places) }
        ensures drops { IfSome result (λ p. Drops self.old.places p self.new.places) }
        ensures unchanged { IfNone result (self.new ≡ self.old) }
        ensures ascends { Ascends (K.key_at keys.now) K.order self.new.places }
        ensures cells { length self.new.nodes ≡ length self.old.nodes }
        ensures comparisons { M.comparisons meter.new ≤ M.comparisons meter.old
            + most_height (length self.old.places) }
        ensures touches { M.touches meter.new ≤ M.touches meter.old
            + 64 * (most_height (length self.old.places) + 1) }
    {
        let is_wanted = self.takes_first;
        note_first(&mut self.kept, &self.cells, self.root, is_wanted, meter);
        let sought = ToQuery { keys, query };
        if let Some(found) = found_first(&self.kept, &sought, meter) {
            self.root = take_first(&mut self.kept, &mut self.cells, self.root, found, meter);
            self.len -= 1;
            return Some(found);
        }
        let mut fresh = None;
        let noted = scratch(&mut self.kept, &mut fresh);
        let Some(found) = route_ahead(&self.cells, self.root, &sought, noted, meter) else {
            let_go(&mut self.kept);
            return None;
        };
        self.takes_first = noted.goes(false);
        self.seen = noted.seen();
        self.root = take_at(
            &mut self.cells,
            self.root,
            noted,
            found,
            &mut NoUpper,
            meter,
        );
        self.len -= 1;
        let_go(&mut self.kept);
        Some(found)
    }
}
