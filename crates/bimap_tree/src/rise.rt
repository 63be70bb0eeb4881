//! Goes up a route from a tree at its end that has grown or shrunk by one place. The code here knows no key and no order.
ghost use Rattle.std.specs.Prelude.{◌≡◌, ℕ, ◌+◌, ◌*◌, ◌<◌, ◌≤◌};
ghost use Rattle.bimap_tree.specs.Tree.{Tree, Stands, leaf, fork, height, root_of, branch};
ghost use Rattle.bimap_tree.specs.Link.{Measures, IsRebalanced};
ghost use Rattle.bimap_tree.specs.Path.{Path, LeavesUpper, plug, steps, Moves, KeepsWhole, CanRise, CanRejoin, CanPut, IsRisen};
ghost use Rattle.bimap_tree.specs.Notes.{notes_of};

use crate::link::{Subtree, children, link, measure, rebalance};
use crate::notes::{Steps, fits, retraced};
use crate::route::Route;
use crate::upper::Upper;
use bimap_base::{Cell, Meter, Node, Nodes};

// Links a place above a child that has grown or shrunk. Reads the other child only if the height of the place may change.
#[inline(always)]
fn rejoin<C: Cell, M: Meter>(
    cells: &mut Nodes<C>,
    at: usize,
    node: Node,
    direction: bool,
    child: Subtree,
    grew: bool,
    meter: &mut M,
) -> Subtree
    requires { (sister : Tree) × (s : Tree) × (u : Tree)
        × CanRejoin cells.old at direction grew node sister s u × Measures child u }
    ensures tree { (sister s u : Tree) → CanRejoin cells.old at direction grew node sister s u →
        Measures child u → (t : Tree) × Measures result t
        × IsRebalanced cells.old cells.new direction at u sister t
        × Moves grew (branch direction s at sister) t }
    ensures comparisons { M.comparisons meter.new ≡ M.comparisons meter.old }
    ensures touches { M.touches meter.new ≤ M.touches meter.old + 10 }
{
    if grew && child.height < node.height {
        cells.recount(at, direction, child.root, true, meter);
        return Subtree {
            root: Some(at),
            height: node.height,
            size: node.size + 1,
        };
    }
    let (_, root) = children(node, direction);
    let sister = measure(cells, root, meter);
    rebalance(cells, at, direction, child, sister, meter)
}

// Goes up the rest of a route on which no height changes any more. Links the child, and corrects the size in each node of the
// route.
fn recount<C: Cell, W: Steps, M: Meter>(
    cells: &mut Nodes<C>,
    notes: &W,
    depth: usize,
    child: Option<usize>,
    grew: bool,
    meter: &mut M,
) -> Option<usize>
    requires { (path : Path) × (s : Tree) × (u : Tree)
        × CanRise cells.old (W.notes notes.now) path grew s u × (depth ≡ steps path)
        × (depth ≤ 91) × (root_of u ≡ child) × (height u ≡ height s) }
    ensures tree { (path : Path) (s u : Tree) →
        CanRise cells.old (W.notes notes.now) path grew s u → depth ≡ steps path →
        root_of u ≡ child → height u ≡ height s →
        (v : Tree) × IsRisen cells.old cells.new path u result v }
    ensures same_route { (path : Path) (s u : Tree) →
        CanRise cells.old (W.notes notes.now) path grew s u → depth ≡ steps path →
        root_of u ≡ child → height u ≡ height s → Stands cells.new result (plug path u) }
    ensures comparisons { M.comparisons meter.new ≡ M.comparisons meter.old }
    ensures touches { M.touches meter.new ≤ M.touches meter.old + depth }
{
    if depth == 0 {
        return child;
    }
    let (at, direction) = notes.step(depth - 1);
    cells.recount(at, direction, child, grew, meter);
    let mut top = at;
    let mut depth = depth - 1;
    while depth > 0 {
        depth -= 1;
        let (at, _) = notes.step(depth);
        cells.count(at, grew, meter);
        top = at;
    }
    Some(top)
}

// Goes up from a child that has replaced a tree of the height `was`. Returns the new root.
pub fn rise<C: Cell, W: Steps, U: Upper, M: Meter>(
    cells: &mut Nodes<C>,
    notes: &W,
    depth: usize,
    child: Subtree,
    was: usize,
    grew: bool,
    upper: &mut U,
    meter: &mut M,
) -> Option<usize>
    requires { (path : Path) × (s : Tree) × (u : Tree)
        × CanRise cells.old (W.notes notes.now) path grew s u × (depth ≡ steps path)
        × (depth ≤ 91) × Measures child u × (was ≡ height s) }
    ensures tree { (path : Path) (s u : Tree) →
        CanRise cells.old (W.notes notes.now) path grew s u → depth ≡ steps path →
        Measures child u → was ≡ height s →
        (v : Tree) × IsRisen cells.old cells.new path u result v }
    ensures begins { (path : Path) (s u : Tree) →
        CanRise cells.old (W.notes notes.now) path grew s u → depth ≡ steps path →
        Measures child u → was ≡ height s →
        LeavesUpper (U.tells upper.new) cells.new result (W.notes notes.now) path }
    ensures comparisons { M.comparisons meter.new ≡ M.comparisons meter.old }
    ensures touches { M.touches meter.new ≤ M.touches meter.old + 11 * depth }
{
    let mut child = child;
    let mut was = was;
    let mut depth = depth;
    while child.height != was {
        if depth == 0 {
            upper.keep(0, child.root);
            return child.root;
        }
        depth -= 1;
        let (at, direction) = notes.step(depth);
        let node = cells.read(at, meter);
        child = rejoin(cells, at, node, direction, child, grew, meter);
        was = node.height;
    }
    upper.keep(depth, child.root);
    recount(cells, notes, depth, child.root, grew, meter)
}

// Inserts a place at the end of a route that leads to no place. Returns the new root.
#[inline(always)]
fn put_along<C: Cell, W: Steps, U: Upper, M: Meter>(
    cells: &mut Nodes<C>,
    notes: &W,
    place: usize,
    upper: &mut U,
    meter: &mut M,
) -> Option<usize>
    requires put { (path : Path) × CanPut cells.old (W.notes notes.now) path place }
    requires whole { KeepsWhole cells.old (W.notes notes.now) }
    ensures tree { (path : Path) → CanPut cells.old (W.notes notes.now) path place →
        (v : Tree) × IsRisen cells.old cells.new path (fork leaf place leaf) result v }
    ensures begins { (path : Path) → CanPut cells.old (W.notes notes.now) path place →
        LeavesUpper (U.tells upper.new) cells.new result (W.notes notes.now) path }
    ensures comparisons { M.comparisons meter.new ≡ M.comparisons meter.old }
    ensures touches { M.touches meter.new ≤ M.touches meter.old + 11 * (W.notes notes.now).depth +
        1 }
{
    let nothing = Subtree {
        root: None,
        height: 0,
        size: 0,
    };
    let alone = link(cells, place, false, nothing, nothing, meter);
    rise(cells, notes, notes.depth(), alone, 0, true, upper, meter)
}

// Does what `put_along` does, if the entries of the route are too small for the places. It is never inlined, which spares other
// calls the stack space of a `LongRoute`.
#[inline(never)]
fn put_retraced<C: Cell, U: Upper, M: Meter>(
    cells: &mut Nodes<C>,
    root: Option<usize>,
    route: &Route,
    place: usize,
    upper: &mut U,
    meter: &mut M,
) -> Option<usize>
    requires { (path : Path) × CanPut cells.old (notes_of route.now) path place
        × (root_of (plug path leaf) ≡ root) }
    ensures tree { (path : Path) → CanPut cells.old (notes_of route.now) path place →
        root_of (plug path leaf) ≡ root →
        (v : Tree) × IsRisen cells.old cells.new path (fork leaf place leaf) result v }
    ensures begins { (path : Path) → CanPut cells.old (notes_of route.now) path place →
        root_of (plug path leaf) ≡ root →
        LeavesUpper (U.tells upper.new) cells.new result (notes_of route.now) path }
    ensures comparisons { M.comparisons meter.new ≡ M.comparisons meter.old }
    ensures touches { M.touches meter.new ≤ M.touches meter.old + 12 * route.now.depth + 1 }
{
    let notes = retraced(cells, root, route, meter);
    let root = put_along(cells, &notes, place, upper, meter);
    upper.keep(0, root);
    root
}

// Inserts a place at the end of a route that leads to no place. Returns the new root.
#[inline(always)]
pub fn put_at<C: Cell, U: Upper, M: Meter>(
    cells: &mut Nodes<C>,
    root: Option<usize>,
    route: &Route,
    place: usize,
    upper: &mut U,
    meter: &mut M,
) -> Option<usize>
    requires { (path : Path) × CanPut cells.old (notes_of route.now) path place
        × (root_of (plug path leaf) ≡ root) }
    ensures tree { (path : Path) → CanPut cells.old (notes_of route.now) path place →
        root_of (plug path leaf) ≡ root →
        (v : Tree) × IsRisen cells.old cells.new path (fork leaf place leaf) result v }
    ensures begins { (path : Path) → CanPut cells.old (notes_of route.now) path place →
        root_of (plug path leaf) ≡ root →
        LeavesUpper (U.tells upper.new) cells.new result (notes_of route.now) path }
    ensures comparisons { M.comparisons meter.new ≡ M.comparisons meter.old }
    ensures touches { M.touches meter.new ≤ M.touches meter.old + 12 * route.now.depth + 1 }
{
    if fits(cells) {
        return put_along(cells, route, place, upper, meter);
    }
    put_retraced(cells, root, route, place, upper, meter)
}
