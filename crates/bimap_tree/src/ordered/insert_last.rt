//! Searches that try the last place first, insertions past it, and insertions at a known route.
ghost use Rattle.std.specs.Prelude.{◌≡◌, ℕ, ◌+◌, ◌*◌, ◌≤◌, ◌<◌, None, Some, IsSome, IfSome, IfNone, length};
ghost use Rattle.std.specs.List.{Contains};
ghost use Rattle.std.specs.declared.cmp.Ordering.TheVariants.{Equal};
ghost use Rattle.bimap_base.specs.Digits.{most_height};
ghost use Rattle.bimap_base.specs.Keyed.{standing, Ascends, Adds};
ghost use Rattle.bimap_tree.specs.IndexView.{height_at};
ghost use Rattle.bimap_tree.specs.Route.{IsNotedRoute, IsPast, IsRoute};

use super::Ordered;
use crate::by_width::{note_end, put_at, route_in_tree};
use crate::end_changes::put_at_end;
use crate::ends::{Ends, is_past_last, keeps_last, renew_last, seems_last};
use crate::route::Route;
use crate::search_key::ToKey;
use crate::upper::NoUpper;
use bimap_base::{Keys, Meter};

impl Ordered {
    // Searches for a key from the root, after a comparison with the last place, if the route there is kept. Does what `finish` does,
    // and is never inlined, because few searches come here.
    #[inline(never)]
    pub(crate) fn find_from_last<K: Keys, M: Meter>(
        &self,
        keys: &K,
        key: &K::Key,
        route: &mut Route,
        meter: &mut M,
    ) -> Option<usize>
        requires { Ascends (K.key_at keys.now) K.order self.now.places }
        ensures found { IfSome result (λ p. Contains self.now.places p
            × (standing K.order (K.key_at keys.now p) (Some key.now) ≡ Equal)) }
        ensures none { IfNone result ((p : ℕ) → Contains self.now.places p →
            standing K.order (K.key_at keys.now p) (Some key.now) ≡ Equal → ⊥) }
        ensures route { IfNone result (IsRoute self.now
            (λ q. standing K.order (K.key_at keys.now q) (Some key.now)) route.new) }
        ensures comparisons { M.comparisons meter.new
            ≤ M.comparisons meter.old + height_at self.now.nodes self.now.root + 1 }
        ensures empty { self.now.root ≡ None →
            M.comparisons meter.new ≤ M.comparisons meter.old }
        ensures touches { M.touches meter.new
            ≤ M.touches meter.old + height_at self.now.nodes self.now.root }
    {
        let sought = ToKey { keys, key };
        if is_past_last(&self.kept, &sought, meter) {
            route.is_past = true;
            return None;
        }
        let found = route_in_tree(&self.cells, self.root, 0, &sought, route, meter);
        route.is_past = false;
        found
    }

    // Lists a place at the end of its key's route, whose entries lead there.
    #[inline(always)]
    pub(crate) fn insert_along<K: Keys, M: Meter>(
        &mut self,
        keys: &K,
        route: &Route,
        place: usize,
        meter: &mut M,
    )
        requires ascends { Ascends (K.key_at keys.now) K.order self.old.places }
        requires live { IsSome (K.key_at keys.now place) }
        requires cell { place < length self.old.nodes }
        requires unlisted { Contains self.old.places place → ⊥ }
        requires route { (k : _) → K.key_at keys.now place ≡ Some k →
            IsNotedRoute self.old (λ q. standing K.order (K.key_at keys.now q) (Some k)) route.now }
        ensures len { length self.new.places ≡ length self.old.places + 1 }
        ensures adds { Adds self.old.places place self.new.places }
        ensures ascends { Ascends (K.key_at keys.now) K.order self.new.places }
        ensures cells { length self.new.nodes ≡ length self.old.nodes }
        ensures comparisons { M.comparisons meter.new ≡ M.comparisons meter.old }
        ensures touches { M.touches meter.new ≤ M.touches meter.old
            + 16 * (most_height (length self.old.places) + 1) }
    {
        // The contract of this call says that there are fewer than 2^64 cells.
        let _ = self.cells.places();
        self.root = put_at(
            &mut self.cells,
            self.root,
            route,
            place,
            &mut NoUpper,
            meter,
        );
        self.len += 1;
        let wants_last = seems_last(place, route);
        renew_last(&mut self.kept, &self.cells, self.root, wants_last, meter);
    }

    // Lists a place whose key is above all listed keys.
    #[inline(never)]
    pub(crate) fn insert_last<K: Keys, M: Meter>(&mut self, keys: &K, place: usize, meter: &mut M)
        requires ascends { Ascends (K.key_at keys.now) K.order self.old.places }
        requires live { IsSome (K.key_at keys.now place) }
        requires cell { place < length self.old.nodes }
        requires unlisted { Contains self.old.places place → ⊥ }
        requires past { (k : _) → K.key_at keys.now place ≡ Some k →
            IsPast self.old (λ q. standing K.order (K.key_at keys.now q) (Some k)) }
        ensures len { length self.new.places ≡ length self.old.places + 1 }
        ensures adds { Adds self.old.places place self.new.places }
        ensures ascends { Ascends (K.key_at keys.now) K.order self.new.places }
        ensures cells { length self.new.nodes ≡ length self.old.nodes }
        ensures comparisons { M.comparisons meter.new ≡ M.comparisons meter.old }
        ensures touches { M.touches meter.new ≤ M.touches meter.old
            + 20 * (most_height (length self.old.places) + 1) }
    {
        // The contract of this call says that there are fewer than 2^64 cells.
        let _ = self.cells.places();
        if !keeps_last(&self.kept) {
            let mut route = Route::new();
            let _ = note_end(&self.cells, self.root, 0, true, &mut route, meter);
            self.insert_along(keys, &route, place, meter);
            return;
        }
        let Some(ends) = &mut self.kept.ends else {
            unreachable!();
        };
        let Ends { first, last } = &mut **ends;
        self.root = put_at_end(&mut self.cells, self.root, true, last, first, place, meter);
        self.len += 1;
    }
}
