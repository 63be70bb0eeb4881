//! A search down a tree that can stop at each level. The code here knows how far a search has come, and not what it searches for.
ghost use Rattle.std.specs.Prelude.{◌≡◌, ◌⊎◌, ◌+◌, ◌<◌, ◌≤◌, ℕ, None, Some, false, true};
ghost use Rattle.std.specs.declared.cmp.Ordering.TheVariants.{Equal};
ghost use Rattle.bimap_tree.specs.Descent.{levels_below};
ghost use Rattle.bimap_tree.specs.Order.{first_equal};
ghost use Rattle.bimap_tree.specs.Path.{Path, plug};
ghost use Rattle.bimap_tree.specs.Route.{CanFollow, IsFollowed};
ghost use Rattle.bimap_tree.specs.Tree.{Tree, reading};

use crate::notes::Steps;
use crate::route::{Route, branches_on_direction, route_in_tree};
use crate::search_key::SearchKey;
use bimap_base::{Cell, Meter, Nodes};

/// A search that is under way. It has come down to a place, or to where there is no place.
#[derive(Clone, Copy)]
pub struct Descent {
    root: Option<usize>,
    depth: usize,
    // Whether the key of the place is equal to the key that is searched for. If it is, the search is over.
    is_found: bool,
    // The root of the tree, if the last place is to be tried before any other. Then `root` is `None`, so the search takes no step.
    // Only proofs read this field, so the compiler leaves it out.
    top: Option<usize>,
}

impl Descent {
    // Returns a search that has not gone down from this root yet.
    pub(crate) fn new(root: Option<usize>, tries_last: bool) -> Self
        ensures tries { tries_last ≡ true → (result.root ≡ None) × (result.top ≡ root) }
        ensures goes { tries_last ≡ false → (result.root ≡ root) × (result.top ≡ None) }
        ensures depth { result.depth ≡ 0 }
        ensures is_found { result.is_found ≡ false }
    {
        if tries_last {
            return Descent {
                root: None,
                depth: 0,
                is_found: false,
                top: root,
            };
        }
        Descent {
            root,
            depth: 0,
            is_found: false,
            top: None,
        }
    }

    // Returns whether the search has nothing to go down from the root on. Either the tree is empty, or the last place is to be tried
    // first.
    pub(crate) fn is_whole(&self) -> bool
        ensures whole { result ≡ true → (self.now.root ≡ None) × (self.now.depth ≡ 0) }
        ensures down { result ≡ false → self.now.root ≡ None → self.now.depth ≡ 0 → ⊥ }
    {
        if self.depth > 0 {
            return false;
        }
        self.root.is_none()
    }
}

// Goes down one level and notes the route, unless the search is over. Returns whether it went down.
pub fn step_in_tree<C: Cell, S: SearchKey, M: Meter>(
    cells: &Nodes<C>,
    sought: &S,
    descent: &mut Descent,
    route: &mut Route,
    meter: &mut M,
) -> bool
    requires { (path : Path) × (s : Tree)
        × CanFollow cells.now descent.old.root (S.live sought.now)
        (S.go sought.now) route.old descent.old.depth path s }
    ensures goes { (path : Path) (s : Tree) →
        CanFollow cells.now descent.old.root (S.live sought.now)
        (S.go sought.now) route.old descent.old.depth path s →
        (low : Path) × (e : Tree)
        × IsFollowed (S.go sought.now) route.new descent.new.depth
        descent.new.root (plug path s) low e }
    ensures found { descent.new.is_found ≡ true →
        (descent.new ≡ descent.old)
        ⊎ ((place : ℕ) × (descent.new.root ≡ Some place) × (S.go sought.now place ≡ Equal)) }
    ensures top { descent.new.top ≡ descent.old.top }
    ensures none { descent.old.root ≡ None → descent.new ≡ descent.old }
    ensures went { result ≡ true → levels_below cells.now descent.new
        < levels_below cells.now descent.old }
    ensures comparisons { M.comparisons meter.new
        + levels_below cells.now descent.new ≤ M.comparisons meter.old
        + levels_below cells.now descent.old }
    ensures touches { M.touches meter.new + levels_below cells.now descent.new ≤ M.touches meter.old
        + levels_below cells.now descent.old }
{
    // If directions are branches, the search stays where it is. A mispredicted branch would discard what the processor has begun
    // for the other search.
    if branches_on_direction::<C, S>(cells) {
        return false;
    }
    let (Some(at), false) = (descent.root, descent.is_found) else {
        return false;
    };
    let cell = cells.cell(at, meter);
    let ordering = sought.ordering(at, meter);
    if ordering.is_eq() {
        descent.is_found = true;
        return false;
    }
    let direction = ordering.is_lt();
    route.note(descent.depth, at, direction);
    descent.depth += 1;
    descent.root = cell.child(direction);
    true
}

// Goes down from where the search has come to its end, and notes the route. Returns the place there, or `None`.
pub fn finish_in_tree<C: Cell, S: SearchKey, M: Meter>(
    cells: &Nodes<C>,
    sought: &S,
    descent: Descent,
    route: &mut Route,
    meter: &mut M,
) -> Option<usize>
    requires follows { (path : Path) × (s : Tree)
        × CanFollow cells.now descent.root (S.live sought.now)
        (S.go sought.now) route.old descent.depth path s }
    requires over { descent.is_found ≡ true →
        (place : ℕ) × (descent.root ≡ Some place) × (S.go sought.now place ≡ Equal) }
    ensures found { (path : Path) (s : Tree) →
        CanFollow cells.now descent.root (S.live sought.now)
        (S.go sought.now) route.old descent.depth path s →
        result ≡ first_equal (S.go sought.now) (reading s) }
    ensures follows { (path : Path) (s : Tree) →
        CanFollow cells.now descent.root (S.live sought.now)
        (S.go sought.now) route.old descent.depth path s → result ≡ None →
        (low : Path) × (e : Tree)
        × IsFollowed (S.go sought.now) route.new route.new.depth result
        (plug path s) low e }
    ensures comparisons { M.comparisons meter.new ≤ M.comparisons meter.old
        + levels_below cells.now descent }
    ensures touches { M.touches meter.new ≤ M.touches meter.old + levels_below cells.now descent }
{
    if descent.is_found {
        return descent.root;
    }
    route_in_tree(
        cells,
        descent.root,
        descent.depth,
        sought,
        false,
        route,
        meter,
    )
}
