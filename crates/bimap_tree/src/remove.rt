//! Removes a place from the tree. The code here knows no key and no order.
ghost use Rattle.std.specs.Prelude.{◌≡◌, ℕ, ◌+◌, ◌*◌, ◌<◌, ◌≤◌, Some, List, length};
ghost use Rattle.bimap_tree.specs.Tree.{Tree, fork, height, root_of, size};
ghost use Rattle.bimap_tree.specs.Path.{Path, LeavesUpper, plug, KeepsWhole};
ghost use Rattle.bimap_tree.specs.Remove.{CanDescend, IsFirst, CanReplace, IsReplaced, CanTake, IsTaken};
ghost use Rattle.bimap_tree.specs.Notes.{notes_of};

use crate::link::measure;
use crate::notes::{Steps, fits, retraced};
use crate::rise::rise;
use crate::route::Route;
use crate::upper::Upper;
use bimap_base::{Cell, Meter, Nodes};

// Notes the route down to a tree's first place. Returns that place and its depth.
pub fn first_in_tree<C: Cell, W: Steps, M: Meter>(
    cells: &Nodes<C>,
    at: usize,
    depth: usize,
    notes: &mut W,
    meter: &mut M,
) -> (usize, usize)
    requires { (s : Tree) × CanDescend cells.now at depth s }
    ensures first { (s : Tree) → CanDescend cells.now at depth s →
        (lefts : List (ℕ × Tree)) × (rest : Tree)
        × IsFirst (W.notes notes.old) (W.notes notes.new) depth s result.0 result.1 lefts rest }
    ensures comparisons { M.comparisons meter.new ≡ M.comparisons meter.old }
    ensures touches { (s : Tree) → CanDescend cells.now at depth s →
        M.touches meter.new ≤ M.touches meter.old + height s }
{
    let mut at = at;
    let mut depth = depth;
    while let Some(left) = cells.read(at, meter).left {
        notes.note(depth, at, false);
        at = left;
        depth += 1;
    }
    (at, depth)
}

// Links `place` as the child of the place above it on the route. At depth 0 no place is above it, and nothing changes.
fn replace_child<C: Cell, W: Steps, M: Meter>(
    cells: &mut Nodes<C>,
    notes: &W,
    depth: usize,
    place: usize,
    meter: &mut M,
)
    requires replace { (path : Path) × (s : Tree)
        × CanReplace cells.old (W.notes notes.now) depth path s }
    requires place { place < length cells.old }
    ensures replaced { (path : Path) (s t : Tree) →
        CanReplace cells.old (W.notes notes.now) depth path s →
        root_of t ≡ Some place → height t ≡ height s → size t ≡ size s →
        IsReplaced cells.old cells.new path t }
    ensures length { length cells.new ≡ length cells.old }
    ensures comparisons { M.comparisons meter.new ≡ M.comparisons meter.old }
    ensures touches { M.touches meter.new ≤ M.touches meter.old + 1 }
{
    if depth > 0 {
        let (above, direction) = notes.step(depth - 1);
        cells.set_child(above, direction, Some(place), meter);
    }
}

// Removes the place at the end of a route. If the place has two children, the first place of its right subtree moves to its
// position. Returns the new root.
#[inline(always)]
fn take_along<C: Cell, W: Steps, U: Upper, M: Meter>(
    cells: &mut Nodes<C>,
    notes: &mut W,
    at: usize,
    upper: &mut U,
    meter: &mut M,
) -> Option<usize>
    requires take { (path : Path) × (l : Tree) × (r : Tree)
        × CanTake cells.old (W.notes notes.old) path l at r }
    requires whole { KeepsWhole cells.old (W.notes notes.old) }
    ensures tree { (path : Path) (l r : Tree) → CanTake cells.old (W.notes notes.old) path l at r →
        (v : Tree) × IsTaken cells.old cells.new path l r result v }
    ensures begins { (path : Path) (l r : Tree) →
        CanTake cells.old (W.notes notes.old) path l at r →
        LeavesUpper (U.tells upper.new) cells.new result (W.notes notes.new) path }
    ensures comparisons { M.comparisons meter.new ≡ M.comparisons meter.old }
    ensures touches { (path : Path) (l r : Tree) →
        CanTake cells.old (W.notes notes.old) path l at r →
        M.touches meter.new ≤ M.touches meter.old + 12 * height (plug path (fork l at r)) + 4 }
{
    let node = cells.read(at, meter);
    let depth = notes.depth();
    if node.left.is_none() {
        let child = measure(cells, node.right, meter);
        return rise(cells, notes, depth, child, node.height, false, upper, meter);
    }
    let Some(right) = node.right else {
        let child = measure(cells, node.left, meter);
        return rise(cells, notes, depth, child, node.height, false, upper, meter);
    };
    let (first, low) = first_in_tree(cells, right, depth + 1, notes, meter);
    let last = cells.read(first, meter);
    let rest = measure(cells, last.right, meter);
    cells.write(first, node, meter);
    replace_child(cells, notes, depth, first, meter);
    notes.note(depth, first, true);
    let root = rise(cells, notes, low, rest, last.height, false, upper, meter);
    upper.keep(0, root);
    root
}

// Does what `take_along` does, if the entries of the route are too small for the places. It is never inlined.
#[inline(never)]
fn take_retraced<C: Cell, U: Upper, M: Meter>(
    cells: &mut Nodes<C>,
    root: Option<usize>,
    route: &Route,
    at: usize,
    upper: &mut U,
    meter: &mut M,
) -> Option<usize>
    requires { (path : Path) × (l : Tree) × (r : Tree)
        × CanTake cells.old (notes_of route.now) path l at r
        × (root_of (plug path (fork l at r)) ≡ root) }
    ensures tree { (path : Path) (l r : Tree) →
        CanTake cells.old (notes_of route.now) path l at r →
        root_of (plug path (fork l at r)) ≡ root →
        (v : Tree) × IsTaken cells.old cells.new path l r result v }
    ensures begins { (path : Path) (l r : Tree) →
        CanTake cells.old (notes_of route.now) path l at r →
        root_of (plug path (fork l at r)) ≡ root →
        LeavesUpper (U.tells upper.new) cells.new result (notes_of route.now) path }
    ensures comparisons { M.comparisons meter.new ≡ M.comparisons meter.old }
    ensures touches { (path : Path) (l r : Tree) →
        CanTake cells.old (notes_of route.now) path l at r →
        root_of (plug path (fork l at r)) ≡ root →
        M.touches meter.new ≤ M.touches meter.old + 13 * height (plug path (fork l at r)) + 4 }
{
    let mut notes = retraced(cells, root, route, meter);
    let root = take_along(cells, &mut notes, at, upper, meter);
    upper.keep(0, root);
    root
}

// Removes the place at the end of a route. Returns the new root.
pub fn take_at<C: Cell, U: Upper, M: Meter>(
    cells: &mut Nodes<C>,
    root: Option<usize>,
    route: &mut Route,
    at: usize,
    upper: &mut U,
    meter: &mut M,
) -> Option<usize>
    requires { (path : Path) × (l : Tree) × (r : Tree)
        × CanTake cells.old (notes_of route.old) path l at r
        × (root_of (plug path (fork l at r)) ≡ root) }
    ensures tree { (path : Path) (l r : Tree) →
        CanTake cells.old (notes_of route.old) path l at r →
        root_of (plug path (fork l at r)) ≡ root →
        (v : Tree) × IsTaken cells.old cells.new path l r result v }
    ensures begins { (path : Path) (l r : Tree) →
        CanTake cells.old (notes_of route.old) path l at r →
        root_of (plug path (fork l at r)) ≡ root →
        LeavesUpper (U.tells upper.new) cells.new result (notes_of route.new) path }
    ensures comparisons { M.comparisons meter.new ≡ M.comparisons meter.old }
    ensures touches { (path : Path) (l r : Tree) →
        CanTake cells.old (notes_of route.old) path l at r →
        root_of (plug path (fork l at r)) ≡ root →
        M.touches meter.new ≤ M.touches meter.old + 13 * height (plug path (fork l at r)) + 4 }
{
    if fits(cells) {
        return take_along(cells, route, at, upper, meter);
    }
    take_retraced(cells, root, route, at, upper, meter)
}
