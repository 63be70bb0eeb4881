//! The route of a search down a tree. The code here knows in which direction a key lies, and not the key.
ghost use Rattle.std.specs.Prelude.{◌≡◌, ℕ, ◌+◌, ◌*◌, ◌<◌, ◌≤◌, false, IfSome};
ghost use Rattle.std.specs.declared.cmp.Ordering.{Ordering};
ghost use Rattle.bimap_tree.specs.Tree.{Tree, leaf, Stands, height, reading};
ghost use Rattle.bimap_tree.specs.Order.{first_equal};
ghost use Rattle.bimap_tree.specs.IndexView.{IndexView, IsBalancedIndex};
ghost use Rattle.bimap_tree.specs.Path.{Path, plug};
ghost use Rattle.bimap_tree.specs.Ends.{CanNote, LeadsDown, LeadsToEnd};
ghost use Rattle.bimap_tree.specs.Route.{CanFollow, IsFollowed, IsRoute};

use crate::ahead::look_ahead;
use crate::notes::{PACKED, Steps};
use crate::search_key::SearchKey;
use bimap_base::{Cell, Meter, Nodes};

/// The route of a search down an index. At each depth it stores a place, and whether the route goes on to the right of it.
///
/// It is long enough for the highest balanced tree of fewer than 2^64 places. Never allocates.
#[derive(Drop)]
pub struct Route {
    // The entry of each depth. It is the place modulo 2^31, times 2, plus 1 if the route goes on to the right of the place.
    steps: [u32; 91],
    pub(crate) depth: usize,
    // What the search has read ahead, as a number that means nothing.
    seen: usize,
    // Whether the route goes past the last place. It then has no entries of its own, because the index keeps them.
    pub(crate) is_past: bool,
}

impl Route {
    /// Returns a route without entries, for `Ordered::step` and `Ordered::finish` to write.
    pub fn new() -> Self
        ensures { (index : IndexView) (go : ℕ → Ordering) → IsBalancedIndex index leaf →
            IsRoute index go result }
    {
        Route {
            steps: [0; 91],
            depth: 0,
            seen: 0,
            is_past: false,
        }
    }

    // Returns whether the route probably goes in this direction alone. Looks at a few entries, without a branch. The result decides
    // where a search begins, and never what it finds.
    pub(crate) fn goes(&self, direction: bool) -> bool {
        let depth = self.depth;
        if depth < 4 || depth > 91 {
            return false;
        }
        let turn = if direction { 1 } else { 0 };
        let steps = &self.steps;
        let first = (steps[0] ^ turn) | (steps[1] ^ turn) | (steps[2] ^ turn);
        (first | (steps[depth / 2] ^ turn) | (steps[depth - 1] ^ turn)) % 2 == 0
    }

    // Returns what the search has read ahead, as a number that means nothing.
    pub(crate) fn seen(&self) -> usize {
        self.seen
    }
}

impl Steps for Route {
    ghost use Rattle.bimap_tree.specs.Notes.{notes_of};

    ghost notes = { notes_of };

    fn depth(&self) -> usize {
        self.depth
    }

    fn step(&self, depth: usize) -> (usize, bool) {
        let step = self.steps[depth] as usize;
        (step / 2, step % 2 == 1)
    }

    fn note(&mut self, depth: usize, place: usize, direction: bool) {
        let to_right = if direction { 1 } else { 0 };
        self.steps[depth] = (place % PACKED * 2 + to_right) as u32;
    }
}

// A tree with this many cells is large. Most of its nodes are outside the cache, and the wait for a node takes longer than a
// mispredicted branch.
const FAR: usize = 16_384;

// Returns whether a search goes to the right by a branch. Its loop has an extra exit on that side, which keeps the compiler
// from using a conditional move. The result is true in a large tree with wide keys.
//
// The processor predicts the branch, and loads the next node while it waits for the keys. A comparison of keys that are not
// wide follows no pointer. For such keys mispredicted branches cost more than the wait.
pub fn branches_on_direction<C: Cell, S: SearchKey>(cells: &Nodes<C>) -> bool {
    S::has_wide_keys() && cells.places() >= FAR
}

// Goes on down to what is searched for, and notes the route. Returns the place there, or `None`. If `ahead` is true, reads the
// nodes of both children on each level before it compares.
#[inline(always)]
pub fn route_in_tree<C: Cell, S: SearchKey, M: Meter>(
    cells: &Nodes<C>,
    root: Option<usize>,
    depth: usize,
    sought: &S,
    ahead: bool,
    route: &mut Route,
    meter: &mut M,
) -> Option<usize>
    requires { (path : Path) × (s : Tree)
        × CanFollow cells.now root (S.live sought.now)
        (S.go sought.now) route.old depth path s }
    ensures found { (path : Path) (s : Tree) →
        CanFollow cells.now root (S.live sought.now)
        (S.go sought.now) route.old depth path s →
        result ≡ first_equal (S.go sought.now) (reading s) }
    ensures follows { (path : Path) (s : Tree) →
        CanFollow cells.now root (S.live sought.now)
        (S.go sought.now) route.old depth path s →
        (low : Path) × (e : Tree)
        × IsFollowed (S.go sought.now) route.new route.new.depth result
        (plug path s) low e }
    ensures comparisons { (s : Tree) → Stands cells.now root s →
        M.comparisons meter.new ≤ M.comparisons meter.old + height s }
    ensures touches { (s : Tree) → Stands cells.now root s →
        M.touches meter.new ≤ M.touches meter.old + 3 * height s }
    ensures alone { ahead ≡ false → (s : Tree) → Stands cells.now root s →
        M.touches meter.new ≤ M.touches meter.old + height s }
{
    let is_far = branches_on_direction::<C, S>(cells);
    let mut root = root;
    let mut depth = depth;
    let mut seen = 0;
    while let Some(at) = root {
        let cell = cells.cell(at, meter);
        seen ^= look_ahead(cells, cell, ahead, meter);
        let ordering = sought.ordering(at, meter);
        if ordering.is_eq() {
            break;
        }
        let direction = ordering.is_lt();
        route.note(depth, at, direction);
        depth += 1;
        if is_far && direction {
            root = cell.child(true);
            if root.is_none() {
                break;
            }
        } else {
            root = cell.child(direction);
        }
    }
    route.depth = depth;
    route.seen = seen;
    root
}

// Notes the route on in one direction, to the end of the tree. Returns the last place there, if the route passes one.
pub fn note_end<C: Cell, M: Meter>(
    cells: &Nodes<C>,
    at: Option<usize>,
    depth: usize,
    direction: bool,
    route: &mut Route,
    meter: &mut M,
) -> Option<usize>
    requires { (path : Path) × (s : Tree) × CanNote cells.now at direction route.old depth path s }
    ensures end { (path : Path) (s : Tree) → CanNote cells.now at direction route.old depth path s →
        IfSome result (λ place. LeadsToEnd direction route.new place (plug path s)) }
    ensures leads { (path : Path) (s : Tree) →
        CanNote cells.now at direction route.old depth path s →
        LeadsDown direction route.new (plug path s) }
    ensures comparisons { M.comparisons meter.new ≡ M.comparisons meter.old }
    ensures touches { (s : Tree) → Stands cells.now at s →
        M.touches meter.new ≤ M.touches meter.old + height s }
{
    let mut root = at;
    let mut depth = depth;
    let mut end = None;
    while let Some(place) = root {
        route.note(depth, place, direction);
        depth += 1;
        end = root;
        let cell = cells.cell(place, meter);
        root = cell.child(direction);
    }
    route.depth = depth;
    end
}
