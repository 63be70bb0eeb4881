//! The routes to the two ends of a tree, which an index keeps between its calls. The code here knows no key.
ghost use Rattle.std.specs.Prelude.{◌≡◌, ℕ, ◌+◌, ◌<◌, ◌≤◌, true, None, IfSome, IsOk};
ghost use Rattle.std.specs.declared.cmp.Ordering.TheVariants.{Equal, Less};
ghost use Rattle.bimap_base.specs.Digits.{most_height};
ghost use Rattle.bimap_base.specs.NodesInCells.{nodes_in};
ghost use Rattle.bimap_tree.specs.Ends.{CanNote, HasFirst, HasLast, IsKept, KeepsEnds};
ghost use Rattle.bimap_tree.specs.Order.{AllStand, IsSplit};
ghost use Rattle.bimap_tree.specs.Path.{Path, plug};
ghost use Rattle.bimap_tree.specs.Tree.{IsBalanced, Stands, Tree, height, occurs, reading, size};

use crate::by_width::note_end;
use crate::route::Route;
use crate::search_key::SearchKey;
use bimap_base::{Cells, Meter};
use std::alloc::{AllocError, Global};

/// The route to one end of a tree.
#[derive(Drop)]
pub struct End {
    pub route: Route,
    // The place at the end, if the route is kept.
    pub place: Option<usize>,
}

/// The routes to the first place and to the last place of a tree. A search may write over the first of them.
#[derive(Drop)]
pub struct Ends {
    pub first: End,
    pub last: End,
}

/// The routes that an index keeps. They are in a box, which a small index lacks.
#[derive(Drop)]
pub struct Kept {
    // Whether a route may be kept. If it is false, neither is, whatever stands in the box.
    any: bool,
    pub ends: Option<Box<Ends>>,
}

impl End {
    // Returns an end whose route is not kept.
    fn new() -> Self
        ensures { result.place ≡ None }
    {
        End {
            route: Route::new(),
            place: None,
        }
    }

    // Notes the route in one direction from this depth on, down from the place `at`. From then on it is kept, unless the tree is
    // empty.
    pub fn note<M: Meter>(
        &mut self,
        cells: &Cells,
        at: Option<usize>,
        depth: usize,
        direction: bool,
        meter: &mut M,
    )
        requires { (path : Path) × (s : Tree)
            × CanNote (nodes_in cells.now) at direction self.old.route depth path s }
        ensures kept { (path : Path) (s : Tree) →
            CanNote (nodes_in cells.now) at direction self.old.route depth path s →
            IsKept direction self.new (plug path s) }
        ensures comparisons { M.comparisons meter.new ≡ M.comparisons meter.old }
        ensures touches { (s : Tree) → Stands (nodes_in cells.now) at s →
            M.touches meter.new ≤ M.touches meter.old + height s }
    {
        self.place = note_end(cells, at, depth, direction, &mut self.route, meter);
    }

    // Notes the route down from the root, unless it is kept.
    fn note_anew<M: Meter>(
        &mut self,
        cells: &Cells,
        root: Option<usize>,
        direction: bool,
        meter: &mut M,
    )
        requires { (t : Tree) × Stands (nodes_in cells.now) root t × (height t ≤ 91) }
        ensures kept { (t : Tree) → Stands (nodes_in cells.now) root t → height t ≤ 91 →
            IsKept direction self.old t → IsKept direction self.new t }
        ensures comparisons { M.comparisons meter.new ≡ M.comparisons meter.old }
        ensures touches { (t : Tree) → Stands (nodes_in cells.now) root t →
            M.touches meter.new ≤ M.touches meter.old + height t }
    {
        if self.place.is_none() {
            self.note(cells, root, 0, direction, meter);
        }
    }
}

impl Kept {
    // Returns no routes. Never allocates.
    pub fn new() -> Self
        ensures { (t : Tree) → KeepsEnds result t }
    {
        Kept {
            any: false,
            ends: None,
        }
    }
}

// From this many cells on, an index keeps the routes to its ends. In a smaller tree each search is short.
const KEEPS: usize = 64;

// Returns whether an insertion at this place and route probably goes to the last place. One insertion in sixteen looks at its
// route, so with random keys this costs next to nothing.
#[inline(always)]
pub fn seems_last(place: usize, route: &Route) -> bool {
    place % 16 == 0 && route.goes(true)
}

// Makes the routes that an index keeps, if it had fewer than `KEEPS` cells and will have as many, and keeps neither of them yet.
pub fn make_ends(kept: &mut Kept, alloc: Global, cells: usize, to: usize) -> Result<(), AllocError>
    ensures enough { to ≤ cells → IsOk result }
    ensures kept { (t : Tree) → KeepsEnds kept.old t → KeepsEnds kept.new t }
{
    if cells >= KEEPS || to < KEEPS {
        return Ok(());
    }
    let made = Ends {
        first: End::new(),
        last: End::new(),
    };
    match Box::new(alloc, made) {
        Ok(boxed) => {
            kept.ends = Some(boxed);
            Ok(())
        }
        Err(refused) => Err(AllocError::from(refused)),
    }
}

// Returns a route for a search to write over. It is that to the first place, or a new one, which it puts into `fresh`. The
// caller then lets go of the ends.
pub fn scratch<'a>(kept: &'a mut Kept, fresh: &'a mut Option<Route>) -> &'a mut Route {
    match &mut kept.ends {
        Some(ends) => &mut ends.first.route,
        None => fresh.insert(Route::new()),
    }
}

// Keeps neither route any more. The box stays as it is.
pub fn let_go(kept: &mut Kept)
    ensures { (t : Tree) → KeepsEnds kept.new t }
{
    kept.any = false;
}

// Makes the box say which routes are kept. If none was kept, it says so.
fn start_keeping(kept: &mut Kept)
    ensures counts { kept.new.any ≡ true }
    ensures kept { (t : Tree) → KeepsEnds kept.old t → KeepsEnds kept.new t }
{
    if kept.any {
        return;
    }
    kept.any = true;
    if let Some(ends) = &mut kept.ends {
        ends.first.place = None;
        ends.last.place = None;
    }
}

// Notes the route to the end in one direction, unless it is kept. It is never inlined, because few calls come here.
#[inline(never)]
fn note_missing<M: Meter>(
    kept: &mut Kept,
    cells: &Cells,
    root: Option<usize>,
    direction: bool,
    meter: &mut M,
)
    requires { (t : Tree) × Stands (nodes_in cells.now) root t × (height t ≤ 91) }
    ensures kept { (t : Tree) → Stands (nodes_in cells.now) root t → height t ≤ 91 →
        KeepsEnds kept.old t → KeepsEnds kept.new t }
    ensures comparisons { M.comparisons meter.new ≡ M.comparisons meter.old }
    ensures touches { (t : Tree) → Stands (nodes_in cells.now) root t →
        M.touches meter.new ≤ M.touches meter.old + height t }
{
    start_keeping(kept);
    if let Some(ends) = &mut kept.ends {
        if direction {
            ends.last.note_anew(cells, root, true, meter);
        } else {
            ends.first.note_anew(cells, root, false, meter);
        }
    }
}

// Notes the route to the first place, if it is wanted and not kept.
#[inline(always)]
pub fn note_first<M: Meter>(
    kept: &mut Kept,
    cells: &Cells,
    root: Option<usize>,
    is_wanted: bool,
    meter: &mut M,
)
    requires { (t : Tree) × Stands (nodes_in cells.now) root t × (height t ≤ 91) }
    ensures kept { (t : Tree) → Stands (nodes_in cells.now) root t → height t ≤ 91 →
        KeepsEnds kept.old t → KeepsEnds kept.new t }
    ensures comparisons { M.comparisons meter.new ≡ M.comparisons meter.old }
    ensures touches { (t : Tree) → Stands (nodes_in cells.now) root t →
        M.touches meter.new ≤ M.touches meter.old + height t }
{
    if is_wanted {
        note_missing(kept, cells, root, false, meter);
    }
}

// Lets go of both routes, and notes the one to the last place anew if it is wanted.
#[inline(always)]
pub fn renew_last<M: Meter>(
    kept: &mut Kept,
    cells: &Cells,
    root: Option<usize>,
    is_wanted: bool,
    meter: &mut M,
)
    requires { (t : Tree) × Stands (nodes_in cells.now) root t × (height t ≤ 91) }
    ensures kept { (t : Tree) → Stands (nodes_in cells.now) root t → height t ≤ 91 →
        KeepsEnds kept.new t }
    ensures comparisons { M.comparisons meter.new ≡ M.comparisons meter.old }
    ensures touches { (t : Tree) → Stands (nodes_in cells.now) root t →
        M.touches meter.new ≤ M.touches meter.old + height t }
{
    let_go(kept);
    if is_wanted {
        note_missing(kept, cells, root, true, meter);
    }
}

// Returns whether the route to the last place is kept.
pub fn keeps_last(kept: &Kept) -> bool
    ensures { result ≡ true → (place : ℕ) × HasLast kept.now place }
{
    if !kept.any {
        return false;
    }
    match &kept.ends {
        Some(ends) => ends.last.place.is_some(),
        None => false,
    }
}

// Returns whether the route to this place is kept, as that to the first place.
pub fn keeps_first(kept: &Kept, place: usize) -> bool
    ensures { result ≡ true → HasFirst kept.now place }
{
    if !kept.any {
        return false;
    }
    match &kept.ends {
        Some(ends) => ends.first.place == Some(place),
        None => false,
    }
}

// Returns the first place, if the route to it is kept and its key is what is searched for.
pub fn found_first<S: SearchKey, M: Meter>(kept: &Kept, sought: &S, meter: &mut M) -> Option<usize>
    requires { (t : Tree) × KeepsEnds kept.now t
        × ((q : ℕ) → 0 < occurs q t → S.live sought.now q) }
    ensures first { IfSome result (λ place. HasFirst kept.now place) }
    ensures equal { IfSome result (λ place. S.go sought.now place ≡ Equal) }
    ensures few { (t : Tree) → KeepsEnds kept.now t → IsBalanced t →
        M.comparisons meter.new + height t ≤ M.comparisons meter.old + most_height (size t) }
    ensures touches { M.touches meter.new ≡ M.touches meter.old }
{
    if !kept.any {
        return None;
    }
    let Some(ends) = &kept.ends else {
        return None;
    };
    let first = ends.first.place?;
    if sought.ordering(first, meter).is_eq() {
        Some(first)
    } else {
        None
    }
}

// Returns whether what is searched for is known to be past the last place. Compares with that place, if the route to it is kept.
pub fn is_past_last<S: SearchKey, M: Meter>(kept: &Kept, sought: &S, meter: &mut M) -> bool
    requires { (t : Tree) × KeepsEnds kept.now t
        × ((q : ℕ) → 0 < occurs q t → S.live sought.now q) }
    ensures past { result ≡ true → (t : Tree) → KeepsEnds kept.now t →
        IsSplit (S.go sought.now) (reading t) → AllStand (S.go sought.now) Less (reading t) }
    ensures one { M.comparisons meter.new ≤ M.comparisons meter.old + 1 }
    ensures few { (t : Tree) → KeepsEnds kept.now t → IsBalanced t →
        M.comparisons meter.new + height t ≤ M.comparisons meter.old + most_height (size t) }
    ensures touches { M.touches meter.new ≡ M.touches meter.old }
{
    if !kept.any {
        return false;
    }
    let Some(ends) = &kept.ends else {
        return false;
    };
    let Some(last) = ends.last.place else {
        return false;
    };
    sought.ordering(last, meter).is_lt()
}
