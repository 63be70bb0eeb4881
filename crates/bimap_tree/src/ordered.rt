//! The listed places in the order of their keys. The code here knows places, ranks and counts, and no key's value.
ghost use Rattle.std.specs.Prelude.{◌≡◌, ◌≢◌, ℕ, ◌+◌, ◌-◌, ◌*◌, ◌<◌, ◌≤◌, [], length, max, slice_get, Some, None, true, IsOk, OnOk, OnErr, IsSome, IfSome, IfNone};
ghost use Rattle.std.specs.List.{AllPairs, Contains};
ghost use Rattle.std.specs.declared.cmp.Ordering.{Ordering};
ghost use Rattle.std.specs.declared.cmp.Ordering.TheVariants.{Equal};
ghost use Rattle.bimap_base.specs.Digits.{most_height};
ghost use Rattle.bimap_base.specs.Keyed.{standing, Ascends, Adds};
ghost use Rattle.bimap_tree.specs.Descent.{IsUnderWay, levels_left};
ghost use Rattle.bimap_tree.specs.Filled.{IsRow};
ghost use Rattle.bimap_tree.specs.Order.{count_below};
ghost use Rattle.bimap_tree.specs.Ranges.{is_from_start};
ghost use Rattle.bimap_tree.specs.Tree.{Tree, height};
ghost use Rattle.bimap_tree.specs.IndexView.{IsBalancedIndex};
ghost use Rattle.bimap_tree.specs.Route.{IsRoute};
ghost use Rattle.bimap_tree.specs.Spans.{IsCut};

mod copy;
mod insert_last;
mod remove;

use crate::by_width::{
    fill_around, finish_in_tree, place_in_tree, put_at, rank_in_tree, route_in_tree, step_in_tree,
};
use crate::descent::Descent;
use crate::ends::{
    Kept, is_past_last, keeps_last, let_go, make_ends, renew_last, scratch, seems_last,
};
use crate::route::Route;
use crate::search::find_in_tree;
use crate::search_key::{AfterQuery, ToKey, ToPlace, ToQuery};
use crate::upper::NoUpper;
use bimap_base::{Cells, Keys, Meter, NoMemory, Sought};
use std::alloc::Global;
use std::marker::Model;
use std::ops::Bound;

/// Places in the strictly ascending order of their keys. It is a balanced tree with a cell for each place.
///
/// Each call that compares keys is passed the keys. They must be those by which the places were listed.
#[derive(Drop)]
pub struct Ordered {
    cells: Cells,
    root: Option<usize>,
    len: usize,
    // Whether the last removed place was probably the first one. If it was, the next removal tries the first place before it
    // searches, and keeps the route there from then on.
    takes_first: bool,
    // What the last removal has read ahead, as a number that means nothing. The compiler keeps the reads because it is stored.
    seen: usize,
    // The routes to the first place and to the last one, if they are kept. The first place is then removed without a search, and a
    // place past the last one is inserted without a search.
    kept: Kept,
    alloc: Global,
}

impl Model for Ordered {
    ghost use Rattle.bimap_tree.specs.IndexView.{IndexView, IsWhole, index_of, tree_in};
    ghost use Rattle.bimap_tree.specs.Ends.{KeepsEnds};

    ghost Value = { IndexView };

    ghost use Rattle.bimap_base.specs.NodesInCells.{nodes_in};

    ghost view = { λ o. index_of (nodes_in o.cells) o.root };

    ghost invariant = { λ o. IsWhole (nodes_in o.cells) o.root o.len
        × KeepsEnds o.kept (tree_in (nodes_in o.cells) o.root) };
}

impl Ordered {
    /// Returns an index that lists no place and has no cells. Never allocates.
    pub fn new(alloc: Global) -> Self
        ensures places { result.places ≡ [] }
        ensures nodes { result.nodes ≡ [] }
        ensures root { result.root ≡ None }
    {
        Ordered {
            cells: Cells::new(alloc),
            root: None,
            len: 0,
            takes_first: false,
            seen: 0,
            kept: Kept::new(),
            alloc,
        }
    }

    /// Returns the number of listed places, in constant time.
    pub fn len(&self) -> usize
        ensures len { result ≡ length self.now.places }

        // The following is true of every index.
        ensures balanced { (t : Tree) × IsBalancedIndex self.now t
            × (height t ≤ most_height (length self.now.places)) }
        ensures distinct { AllPairs (λ a b. a ≢ b) self.now.places }
        ensures cells { (p : ℕ) → Contains self.now.places p → p < length self.now.nodes }
    {
        self.len
    }

    /// Makes a cell for each place below `to` that has none, and no further cell.
    ///
    /// Allocates only if cells are missing. With the 64th cell it also makes the routes that the index keeps. If it runs out of
    /// memory, nothing changes.
    pub fn grow(&mut self, to: usize) -> Result<(), NoMemory>
        ensures places { self.new.places ≡ self.old.places }
        ensures cells { length self.old.nodes ≤ length self.new.nodes }
        ensures ok { OnOk result (length self.new.nodes ≡ max (length self.old.nodes) to) }
        ensures enough { to ≤ length self.old.nodes → IsOk result }
        ensures unchanged { to ≤ length self.old.nodes → self.new ≡ self.old }
        ensures err { OnErr result (self.new ≡ self.old) }
        ensures routes { (go : _) (route : _) → IsRoute self.old go route →
            IsRoute self.new go route }
    {
        make_ends(&mut self.kept, self.alloc, self.cells.places(), to)?;
        self.cells.grow(to)
    }

    /// Removes all places, in constant time. The cells stay.
    pub fn clear(&mut self)
        ensures places { self.new.places ≡ [] }
        ensures nodes { self.new.nodes ≡ self.old.nodes }
    {
        self.root = None;
        self.len = 0;
        let_go(&mut self.kept);
    }

    /// Returns the listed place whose key is equal to the query, or `None`. Takes time logarithmic in the length.
    pub fn find<K: Keys, Q: Sought<K>, M: Meter>(
        &self,
        keys: &K,
        query: Q,
        meter: &mut M,
    ) -> Option<usize>
        requires { Ascends (K.key_at keys.now) K.order self.now.places }
        ensures found { IfSome result (λ p. Contains self.now.places p
            × (standing Q.order (K.key_at keys.now p) (Some query) ≡ Equal)) }
        ensures none { IfNone result ((p : ℕ) → Contains self.now.places p →
            standing Q.order (K.key_at keys.now p) (Some query) ≡ Equal → ⊥) }
        ensures comparisons { M.comparisons meter.new ≤ M.comparisons meter.old
            + most_height (length self.now.places) }
        ensures touches { M.touches meter.new ≤ M.touches meter.old
            + most_height (length self.now.places) }
    {
        match &self.cells {
            Cells::Narrow(nodes) => find_in_tree(nodes, self.root, keys, query, meter),
            Cells::Wide(nodes) => find_in_tree(nodes, self.root, keys, query, meter),
        }
    }

    /// Returns a search that has not gone down yet. It is for `step` and `finish`.
    pub fn start(&self) -> Descent
        ensures under_way { (go : ℕ → Ordering) (route : Route) →
            IsUnderWay self.now go result route }
        ensures left { levels_left self.now.nodes result ≤ most_height (length self.now.places) }
    {
        Descent::new(self.root, keeps_last(&self.kept))
    }

    /// Goes down one level and notes the route, unless the search is over. Returns whether it went down.
    pub fn step<K: Keys, M: Meter>(
        &self,
        keys: &K,
        key: &K::Key,
        descent: &mut Descent,
        route: &mut Route,
        meter: &mut M,
    ) -> bool
        requires ascends { Ascends (K.key_at keys.now) K.order self.now.places }
        requires under_way { IsUnderWay self.now (λ q. standing K.order
            (K.key_at keys.now q) (Some key.now)) descent.old route.old }
        ensures under_way { IsUnderWay self.now (λ q. standing K.order
            (K.key_at keys.now q) (Some key.now)) descent.new route.new }
        ensures went { result ≡ true → levels_left self.now.nodes descent.new
            < levels_left self.now.nodes descent.old }
        ensures comparisons { M.comparisons meter.new
            + levels_left self.now.nodes descent.new ≤ M.comparisons meter.old
            + levels_left self.now.nodes descent.old }
        ensures touches { M.touches meter.new + levels_left self.now.nodes descent.new
            ≤ M.touches meter.old + levels_left self.now.nodes descent.old }
    {
        let sought = ToKey { keys, key };
        step_in_tree(&self.cells, &sought, descent, route, meter)
    }

    /// Completes a search from where it has come. Returns the listed place with an equal key, or `None`. If it returns `None`,
    /// the route leads to where a place with this key belongs.
    pub fn finish<K: Keys, M: Meter>(
        &self,
        keys: &K,
        key: &K::Key,
        descent: Descent,
        route: &mut Route,
        meter: &mut M,
    ) -> Option<usize>
        requires ascends { Ascends (K.key_at keys.now) K.order self.now.places }
        requires under_way { IsUnderWay self.now (λ q. standing K.order
            (K.key_at keys.now q) (Some key.now)) descent route.old }
        ensures found { IfSome result (λ p. Contains self.now.places p
            × (standing K.order (K.key_at keys.now p) (Some key.now) ≡ Equal)) }
        ensures none { IfNone result ((p : ℕ) → Contains self.now.places p →
            standing K.order (K.key_at keys.now p) (Some key.now) ≡ Equal → ⊥) }
        ensures route { IfNone result (IsRoute self.now
            (λ q. standing K.order (K.key_at keys.now q) (Some key.now)) route.new) }
        ensures comparisons { M.comparisons meter.new ≤ M.comparisons meter.old
            + levels_left self.now.nodes descent }
        ensures touches { M.touches meter.new ≤ M.touches meter.old
            + levels_left self.now.nodes descent }
    {
        if descent.is_whole() {
            return self.find_from_last(keys, key, route, meter);
        }
        let sought = ToKey { keys, key };
        let found = finish_in_tree(&self.cells, &sought, descent, route, meter);
        route.is_past = false;
        found
    }

    /// Lists a place at the end of its key's route. Takes no comparison, and time logarithmic in the length. Never allocates.
    pub fn insert_at<K: Keys, M: Meter>(
        &mut self,
        keys: &K,
        route: &Route,
        place: usize,
        meter: &mut M,
    )
        requires ascends { Ascends (K.key_at keys.now) K.order self.old.places }
        requires live { IsSome (K.key_at keys.now place) }
        requires cell { place < length self.old.nodes }
        requires unlisted { Contains self.old.places place → ⊥ }
        requires unequal { (p : ℕ) (k : _) → Contains self.old.places p →
            K.key_at keys.now place ≡ Some k →
            standing K.order (K.key_at keys.now p) (Some k) ≡ Equal → ⊥ }
        requires route { (k : _) → K.key_at keys.now place ≡ Some k →
            IsRoute self.old (λ q. standing K.order (K.key_at keys.now q) (Some k)) route.now }
        ensures len { length self.new.places ≡ length self.old.places + 1 }
        ensures adds { Adds self.old.places place self.new.places }
        ensures ascends { Ascends (K.key_at keys.now) K.order self.new.places }
        ensures cells { length self.new.nodes ≡ length self.old.nodes }
        ensures comparisons { M.comparisons meter.new ≡ M.comparisons meter.old }
        ensures touches { M.touches meter.new ≤ M.touches meter.old
            + 64 * (most_height (length self.old.places) + 1) }
    {
        if route.is_past {
            self.insert_last(keys, place, meter);
        } else {
            self.insert_along(keys, route, place, meter);
        }
    }

    /// Lists a place at its key's position. Takes time logarithmic in the length. Never allocates.
    pub fn insert<K: Keys, M: Meter>(&mut self, keys: &K, place: usize, meter: &mut M)
        requires ascends { Ascends (K.key_at keys.now) K.order self.old.places }
        requires live { IsSome (K.key_at keys.now place) }
        requires cell { place < length self.old.nodes }
        requires unlisted { Contains self.old.places place → ⊥ }
        requires unequal { (p : ℕ) (k : _) → Contains self.old.places p →
            K.key_at keys.now place ≡ Some k →
            standing K.order (K.key_at keys.now p) (Some k) ≡ Equal → ⊥ }
        ensures len { length self.new.places ≡ length self.old.places + 1 }
        ensures adds { Adds self.old.places place self.new.places }
        ensures ascends { Ascends (K.key_at keys.now) K.order self.new.places }
        ensures cells { length self.new.nodes ≡ length self.old.nodes }
        ensures comparisons { M.comparisons meter.new ≤ M.comparisons meter.old
            + most_height (length self.old.places) }
        ensures touches { M.touches meter.new ≤ M.touches meter.old
            + 64 * (most_height (length self.old.places) + 1) }
    {
        let sought = ToPlace { keys, place };
        if is_past_last(&self.kept, &sought, meter) {
            self.insert_last(keys, place, meter);
            return;
        }
        // The contract of this call says that there are fewer than 2^64 cells.
        let _ = self.cells.places();
        let mut fresh = None;
        let noted = scratch(&mut self.kept, &mut fresh);
        // The search finds no place, because no listed key is equal.
        let _ = route_in_tree(&self.cells, self.root, 0, &sought, noted, meter);
        self.root = put_at(
            &mut self.cells,
            self.root,
            noted,
            place,
            &mut NoUpper,
            meter,
        );
        self.len += 1;
        let wants_last = seems_last(place, noted);
        renew_last(&mut self.kept, &self.cells, self.root, wants_last, meter);
    }

    /// Returns the number of listed places whose key is below the query. Takes time logarithmic in the length.
    pub fn rank_of<K: Keys, Q: Sought<K>, M: Meter>(
        &self,
        keys: &K,
        query: Q,
        meter: &mut M,
    ) -> usize
        requires { Ascends (K.key_at keys.now) K.order self.now.places }
        ensures rank { result ≡ count_below (λ p. standing Q.order
            (K.key_at keys.now p) (Some query)) self.now.places }
        ensures comparisons { M.comparisons meter.new ≤ M.comparisons meter.old
            + most_height (length self.now.places) }
        ensures touches { M.touches meter.new ≤ M.touches meter.old
            + 2 * most_height (length self.now.places) }
    {
        rank_in_tree(&self.cells, self.root, &ToQuery { keys, query }, meter)
    }

    /// Returns the rank of the first place in a range that starts at the bound. If no place is in the range, returns the length.
    /// Takes time logarithmic in the length.
    pub fn rank_from<K: Keys, Q: Sought<K>, M: Meter>(
        &self,
        keys: &K,
        bound: Bound<Q>,
        meter: &mut M,
    ) -> usize
        requires { Ascends (K.key_at keys.now) K.order self.now.places }
        ensures cut { IsCut (is_from_start Q.order bound)
            (K.key_at keys.now) self.now.places result }
        ensures comparisons { M.comparisons meter.new ≤ M.comparisons meter.old
            + most_height (length self.now.places) }
        ensures touches { M.touches meter.new ≤ M.touches meter.old
            + 2 * most_height (length self.now.places) }
    {
        match bound {
            Bound::Unbounded => 0,
            Bound::Included(query) => rank_in_tree(
                &self.cells,
                self.root,
                &ToQuery { keys, query },
                meter,
            ),
            Bound::Excluded(query) => rank_in_tree(
                &self.cells,
                self.root,
                &AfterQuery { keys, query },
                meter,
            ),
        }
    }

    /// Returns the place at a rank. Takes time logarithmic in the length.
    pub fn place_at<M: Meter>(&self, rank: usize, meter: &mut M) -> usize
        requires { rank < length self.now.places }
        ensures place { slice_get self.now.places rank ≡ Some result }
        ensures comparisons { M.comparisons meter.new ≡ M.comparisons meter.old }
        ensures touches { M.touches meter.new ≤ M.touches meter.old
            + 2 * most_height (length self.now.places) }
    {
        place_in_tree(&self.cells, self.root, rank, meter)
    }

    /// Reads the places of consecutive ranks into a buffer, with `rank` among them. Returns the first of these ranks and how many
    /// they are.
    ///
    /// The places are those of a subtree, the place before it and the place behind it. The subtree has at most `most` places. One
    /// descent finds them all, in time logarithmic in the length.
    pub fn places_around<M: Meter>(
        &self,
        rank: usize,
        most: usize,
        buffer: &mut [usize; 128],
        meter: &mut M,
    ) -> (usize, usize)
        requires rank { rank < length self.now.places }
        requires least { 2 ≤ most }
        requires most { most ≤ 124 }
        ensures row { IsRow self.now.places rank buffer.new result.0 result.1 }
        ensures comparisons { M.comparisons meter.new ≡ M.comparisons meter.old }
        ensures touches { M.touches meter.new ≤ M.touches meter.old + 376
            + 2 * most_height (length self.now.places) }
    {
        fill_around(&self.cells, self.root, rank, most, buffer, meter)
    }
}
