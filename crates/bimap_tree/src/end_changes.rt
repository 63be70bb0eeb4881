//! Changes of the tree at one of its ends, along the route that is kept there. The code here knows no key.
ghost use Rattle.std.specs.Prelude.{◌≡◌, ◌+◌, ◌*◌, ◌<◌, ◌≤◌, ℕ, not};
ghost use Rattle.bimap_base.specs.NodesInCells.{nodes_in};
ghost use Rattle.bimap_tree.specs.Ends.{HasFirst, IsFirstTaken, IsKept, KeepsEnds};
ghost use Rattle.bimap_tree.specs.IndexView.{IsWhole, tree_in};
ghost use Rattle.bimap_tree.specs.Notes.{notes_before, notes_of};
ghost use Rattle.bimap_tree.specs.Path.{AllGo, Begins, CanPut, IsRisen, Path, plug};
ghost use Rattle.bimap_tree.specs.Remove.{CanTake, IsTaken};
ghost use Rattle.bimap_tree.specs.Tree.{Stands, Tree, fork, height, leaf, root_of};

use crate::by_width::{put_at, take_at};
use crate::ends::{End, Ends, Kept};
use crate::upper::UpperPart;
use bimap_base::{Cells, Meter};

// Notes the route to one end anew, as far as a change along it has changed it. Lets go of the other end if the change came
// as far as the root.
fn settle<M: Meter>(
    cells: &Cells,
    root: Option<usize>,
    upper: UpperPart,
    direction: bool,
    end: &mut End,
    other: &mut End,
    meter: &mut M,
)
    requires { (path : Path) × Begins (nodes_in cells.now) root (notes_of end.old.route) path
        upper.depth upper.at × AllGo direction path
        × ((v : Tree) → Stands (nodes_in cells.now) root v → height v ≤ 91) }
    ensures end { (path : Path) → Begins (nodes_in cells.now) root
        (notes_of end.old.route) path upper.depth upper.at → AllGo direction path →
        (v : Tree) → Stands (nodes_in cells.now) root v → height v ≤ 91 →
        IsKept direction end.new v }
    ensures other { (path : Path) → Begins (nodes_in cells.now) root
        (notes_of end.old.route) path upper.depth upper.at → AllGo direction path →
        (v : Tree) → Stands (nodes_in cells.now) root v → height v ≤ 91 →
        (s : Tree) → IsKept (not direction) other.old (plug path s) →
        IsKept (not direction) other.new v }
    ensures comparisons { M.comparisons meter.new ≡ M.comparisons meter.old }
    ensures touches { (v : Tree) → Stands (nodes_in cells.now) root v →
        M.touches meter.new ≤ M.touches meter.old + height v }
{
    end.note(cells, upper.at, upper.depth, direction, meter);
    if upper.depth == 0 {
        other.place = None;
    }
}

// Inserts a place at the end of the tree in one direction. The route there must be kept, and stays kept.
pub fn put_at_end<M: Meter>(
    cells: &mut Cells,
    root: Option<usize>,
    direction: bool,
    end: &mut End,
    other: &mut End,
    place: usize,
    meter: &mut M,
) -> Option<usize>
    requires { (path : Path) × CanPut (nodes_in cells.old) (notes_of end.old.route) path place
        × (root_of (plug path leaf) ≡ root) × AllGo direction path }
    ensures tree { (path : Path) →
        CanPut (nodes_in cells.old) (notes_of end.old.route) path place →
        root_of (plug path leaf) ≡ root → (v : Tree)
        × IsRisen (nodes_in cells.old) (nodes_in cells.new) path (fork leaf place leaf) result v }
    ensures end { (path : Path) →
        CanPut (nodes_in cells.old) (notes_of end.old.route) path place →
        root_of (plug path leaf) ≡ root → AllGo direction path →
        (v : Tree) → Stands (nodes_in cells.new) result v → IsKept direction end.new v }
    ensures other { (path : Path) →
        CanPut (nodes_in cells.old) (notes_of end.old.route) path place →
        root_of (plug path leaf) ≡ root → AllGo direction path →
        IsKept (not direction) other.old (plug path leaf) →
        (v : Tree) → Stands (nodes_in cells.new) result v → IsKept (not direction) other.new v }
    ensures comparisons { M.comparisons meter.new ≡ M.comparisons meter.old }
    ensures touches { (v : Tree) → Stands (nodes_in cells.new) result v →
        M.touches meter.new ≤ M.touches meter.old + 12 * end.old.route.depth + 1 + height v }
{
    let mut upper = UpperPart { depth: 0, at: None };
    let root = put_at(cells, root, &end.route, place, &mut upper, meter);
    settle(cells, root, upper, direction, end, other, meter);
    root
}

// Removes the place at the end of the tree in one direction. The route there must be kept, and stays kept if a place is left.
pub fn take_at_end<M: Meter>(
    cells: &mut Cells,
    root: Option<usize>,
    direction: bool,
    end: &mut End,
    other: &mut End,
    place: usize,
    meter: &mut M,
) -> Option<usize>
    requires take { (path : Path) × (l : Tree) × (r : Tree)
        × CanTake (nodes_in cells.old) (notes_before end.old.route) path l place r
        × (root_of (plug path (fork l place r)) ≡ root) × AllGo direction path }
    requires some { 0 < end.old.route.depth }
    ensures tree { (path : Path) (l r : Tree) →
        CanTake (nodes_in cells.old) (notes_before end.old.route) path l place r →
        root_of (plug path (fork l place r)) ≡ root → (v : Tree)
        × IsTaken (nodes_in cells.old) (nodes_in cells.new) path l r result v }
    ensures end { (path : Path) (l r : Tree) →
        CanTake (nodes_in cells.old) (notes_before end.old.route) path l place r →
        root_of (plug path (fork l place r)) ≡ root → AllGo direction path →
        (v : Tree) → Stands (nodes_in cells.new) result v → IsKept direction end.new v }
    ensures other { (path : Path) (l r : Tree) →
        CanTake (nodes_in cells.old) (notes_before end.old.route) path l place r →
        root_of (plug path (fork l place r)) ≡ root → AllGo direction path →
        IsKept (not direction) other.old (plug path (fork l place r)) →
        (v : Tree) → Stands (nodes_in cells.new) result v → IsKept (not direction) other.new v }
    ensures comparisons { M.comparisons meter.new ≡ M.comparisons meter.old }
    ensures touches { (path : Path) (l r : Tree) →
        CanTake (nodes_in cells.old) (notes_before end.old.route) path l place r →
        root_of (plug path (fork l place r)) ≡ root → (v : Tree) →
        Stands (nodes_in cells.new) result v → M.touches meter.new
        ≤ M.touches meter.old + 13 * height (plug path (fork l place r)) + 4 + height v }
{
    end.route.depth -= 1;
    let mut upper = UpperPart { depth: 0, at: None };
    let root = take_at(cells, root, &mut end.route, place, &mut upper, meter);
    settle(cells, root, upper, direction, end, other, meter);
    root
}

// Removes the first place. The route there must be kept, and stays kept if a place is left.
#[inline(never)]
pub fn take_first<M: Meter>(
    kept: &mut Kept,
    cells: &mut Cells,
    root: Option<usize>,
    place: usize,
    meter: &mut M,
) -> Option<usize>
    requires first { HasFirst kept.old place }
    requires whole { (len : ℕ) × IsWhole (nodes_in cells.old) root len }
    requires kept { KeepsEnds kept.old (tree_in (nodes_in cells.old) root) }
    ensures taken { IsFirstTaken (nodes_in cells.old) (nodes_in cells.new) root place result }
    ensures kept { (v : Tree) → Stands (nodes_in cells.new) result v → KeepsEnds kept.new v }
    ensures comparisons { M.comparisons meter.new ≡ M.comparisons meter.old }
    ensures touches { (v : Tree) → Stands (nodes_in cells.new) result v →
        M.touches meter.new ≤ M.touches meter.old
        + 13 * height (tree_in (nodes_in cells.old) root) + 4 + height v }
{
    let Some(ends) = &mut kept.ends else {
        unreachable!();
    };
    let Ends { first, last } = &mut **ends;
    take_at_end(cells, root, false, first, last, place, meter)
}
