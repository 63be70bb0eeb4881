//! The calls of a tree over cells of either width. Each call finds out once which width the cells have.
ghost use Rattle.std.specs.Prelude.{ℕ, IfSome, None, Some, true, length, slice_get, ◌⊎◌, ◌*◌, ◌+◌, ◌<◌, ◌^◌, ◌≡◌, ◌≤◌};
ghost use Rattle.bimap_tree.specs.Tree.{IsBalanced, Stands, Tree, fork, height, leaf, reading, root_of, size};
ghost use Rattle.bimap_tree.specs.Search.{CanSeek};
ghost use Rattle.bimap_tree.specs.Order.{count_below, first_equal};
ghost use Rattle.bimap_tree.specs.Path.{CanPut, IsRisen, LeavesUpper, Path, plug, top};
ghost use Rattle.bimap_tree.specs.Route.{CanFollow, IsFollowed};
ghost use Rattle.std.specs.declared.cmp.Ordering.TheVariants.{Equal};
ghost use Rattle.bimap_tree.specs.Descent.{levels_below};
ghost use Rattle.bimap_tree.specs.Ends.{CanNote, LeadsDown, LeadsToEnd};
ghost use Rattle.bimap_tree.specs.Notes.{notes_of};
ghost use Rattle.bimap_tree.specs.Filled.{IsRow};
ghost use Rattle.bimap_tree.specs.Remove.{CanTake, IsTaken};
ghost use Rattle.bimap_base.specs.NodesInCells.{nodes_in};

use crate::ahead::looks_ahead;
use crate::descent::Descent;
use crate::route::Route;
use crate::search_key::SearchKey;
use crate::upper::Upper;
use crate::{descent, remove, rise, route, search, walk};
use bimap_base::{Cells, Meter};

#[inline(always)]
pub fn route_in_tree<S: SearchKey, M: Meter>(
    cells: &Cells,
    root: Option<usize>,
    depth: usize,
    sought: &S,
    route: &mut Route,
    meter: &mut M,
) -> Option<usize>
    requires { (path : Path) × (s : Tree)
        × CanFollow (nodes_in cells.now) root (S.live sought.now)
        (S.go sought.now) route.old depth path s }
    ensures found { (path : Path) (s : Tree) →
        CanFollow (nodes_in cells.now) root (S.live sought.now)
        (S.go sought.now) route.old depth path s →
        result ≡ first_equal (S.go sought.now) (reading s) }
    ensures follows { (path : Path) (s : Tree) →
        CanFollow (nodes_in cells.now) root (S.live sought.now)
        (S.go sought.now) route.old depth path s →
        (low : Path) × (e : Tree)
        × IsFollowed (S.go sought.now) route.new route.new.depth result
        (plug path s) low e }
    ensures comparisons { (s : Tree) → Stands (nodes_in cells.now) root s →
        M.comparisons meter.new ≤ M.comparisons meter.old + height s }
    ensures touches { (s : Tree) → Stands (nodes_in cells.now) root s →
        M.touches meter.new ≤ M.touches meter.old + height s }
{
    match cells {
        Cells::Narrow(nodes) => route::route_in_tree(
            nodes, root, depth, sought, false, route, meter,
        ),
        Cells::Wide(nodes) => route::route_in_tree(nodes, root, depth, sought, false, route, meter),
    }
}

// Looks ahead in a large tree.
#[inline(always)]
pub fn route_ahead<S: SearchKey, M: Meter>(
    cells: &Cells,
    root: Option<usize>,
    sought: &S,
    route: &mut Route,
    meter: &mut M,
) -> Option<usize>
    requires { (t : Tree) × CanFollow (nodes_in cells.now) root (S.live sought.now)
        (S.go sought.now) route.old 0 top t }
    ensures found { (t : Tree) → CanFollow (nodes_in cells.now) root (S.live sought.now)
        (S.go sought.now) route.old 0 top t →
        result ≡ first_equal (S.go sought.now) (reading t) }
    ensures follows { (t : Tree) → CanFollow (nodes_in cells.now) root (S.live sought.now)
        (S.go sought.now) route.old 0 top t → (low : Path) × (e : Tree)
        × IsFollowed (S.go sought.now) route.new route.new.depth result t low e }
    ensures comparisons { (t : Tree) → Stands (nodes_in cells.now) root t →
        M.comparisons meter.new ≤ M.comparisons meter.old + height t }
    ensures touches { (t : Tree) → Stands (nodes_in cells.now) root t →
        M.touches meter.new ≤ M.touches meter.old + 3 * height t }
{
    match cells {
        Cells::Narrow(nodes) => {
            let ahead = looks_ahead(nodes);
            route::route_in_tree(nodes, root, 0, sought, ahead, route, meter)
        }
        Cells::Wide(nodes) => {
            let ahead = looks_ahead(nodes);
            route::route_in_tree(nodes, root, 0, sought, ahead, route, meter)
        }
    }
}

#[inline(always)]
pub fn step_in_tree<S: SearchKey, M: Meter>(
    cells: &Cells,
    sought: &S,
    descent: &mut Descent,
    route: &mut Route,
    meter: &mut M,
) -> bool
    requires { (path : Path) × (s : Tree)
        × CanFollow (nodes_in cells.now) descent.old.root (S.live sought.now)
        (S.go sought.now) route.old descent.old.depth path s }
    ensures goes { (path : Path) (s : Tree) →
        CanFollow (nodes_in cells.now) descent.old.root (S.live sought.now)
        (S.go sought.now) route.old descent.old.depth path s →
        (low : Path) × (e : Tree)
        × IsFollowed (S.go sought.now) route.new descent.new.depth
        descent.new.root (plug path s) low e }
    ensures found { descent.new.is_found ≡ true →
        (descent.new ≡ descent.old)
        ⊎ ((place : ℕ) × (descent.new.root ≡ Some place) × (S.go sought.now place ≡ Equal)) }
    ensures top { descent.new.top ≡ descent.old.top }
    ensures none { descent.old.root ≡ None → descent.new ≡ descent.old }
    ensures went { result ≡ true → levels_below (nodes_in cells.now) descent.new
        < levels_below (nodes_in cells.now) descent.old }
    ensures comparisons { M.comparisons meter.new
        + levels_below (nodes_in cells.now) descent.new ≤ M.comparisons meter.old
        + levels_below (nodes_in cells.now) descent.old }
    ensures touches { M.touches meter.new + levels_below (nodes_in cells.now) descent.new
        ≤ M.touches meter.old + levels_below (nodes_in cells.now) descent.old }
{
    match cells {
        Cells::Narrow(nodes) => descent::step_in_tree(nodes, sought, descent, route, meter),
        Cells::Wide(nodes) => descent::step_in_tree(nodes, sought, descent, route, meter),
    }
}

#[inline(always)]
pub fn finish_in_tree<S: SearchKey, M: Meter>(
    cells: &Cells,
    sought: &S,
    descent: Descent,
    route: &mut Route,
    meter: &mut M,
) -> Option<usize>
    requires follows { (path : Path) × (s : Tree)
        × CanFollow (nodes_in cells.now) descent.root (S.live sought.now)
        (S.go sought.now) route.old descent.depth path s }
    requires over { descent.is_found ≡ true →
        (place : ℕ) × (descent.root ≡ Some place) × (S.go sought.now place ≡ Equal) }
    ensures found { (path : Path) (s : Tree) →
        CanFollow (nodes_in cells.now) descent.root (S.live sought.now)
        (S.go sought.now) route.old descent.depth path s →
        result ≡ first_equal (S.go sought.now) (reading s) }
    ensures follows { (path : Path) (s : Tree) →
        CanFollow (nodes_in cells.now) descent.root (S.live sought.now)
        (S.go sought.now) route.old descent.depth path s → result ≡ None →
        (low : Path) × (e : Tree)
        × IsFollowed (S.go sought.now) route.new route.new.depth result
        (plug path s) low e }
    ensures comparisons { M.comparisons meter.new ≤ M.comparisons meter.old
        + levels_below (nodes_in cells.now) descent }
    ensures touches { M.touches meter.new ≤ M.touches meter.old
        + levels_below (nodes_in cells.now) descent }
{
    match cells {
        Cells::Narrow(nodes) => descent::finish_in_tree(nodes, sought, descent, route, meter),
        Cells::Wide(nodes) => descent::finish_in_tree(nodes, sought, descent, route, meter),
    }
}

#[inline(always)]
pub fn note_end<M: Meter>(
    cells: &Cells,
    at: Option<usize>,
    depth: usize,
    direction: bool,
    route: &mut Route,
    meter: &mut M,
) -> Option<usize>
    requires { (path : Path) × (s : Tree)
        × CanNote (nodes_in cells.now) at direction route.old depth path s }
    ensures end { (path : Path) (s : Tree) →
        CanNote (nodes_in cells.now) at direction route.old depth path s →
        IfSome result (λ place. LeadsToEnd direction route.new place (plug path s)) }
    ensures leads { (path : Path) (s : Tree) →
        CanNote (nodes_in cells.now) at direction route.old depth path s →
        LeadsDown direction route.new (plug path s) }
    ensures comparisons { M.comparisons meter.new ≡ M.comparisons meter.old }
    ensures touches { (s : Tree) → Stands (nodes_in cells.now) at s →
        M.touches meter.new ≤ M.touches meter.old + height s }
{
    match cells {
        Cells::Narrow(nodes) => route::note_end(nodes, at, depth, direction, route, meter),
        Cells::Wide(nodes) => route::note_end(nodes, at, depth, direction, route, meter),
    }
}

#[inline(always)]
pub fn place_in_tree<M: Meter>(
    cells: &Cells,
    root: Option<usize>,
    rank: usize,
    meter: &mut M,
) -> usize
    requires { (t : Tree) × Stands (nodes_in cells.now) root t × (rank < size t) }
    ensures place { (t : Tree) → Stands (nodes_in cells.now) root t → rank < size t →
        slice_get (reading t) rank ≡ Some result }
    ensures comparisons { M.comparisons meter.new ≡ M.comparisons meter.old }
    ensures touches { (t : Tree) → Stands (nodes_in cells.now) root t →
        M.touches meter.new ≤ M.touches meter.old + 2 * height t }
{
    match cells {
        Cells::Narrow(nodes) => search::place_in_tree(nodes, root, rank, meter),
        Cells::Wide(nodes) => search::place_in_tree(nodes, root, rank, meter),
    }
}

#[inline(always)]
pub fn rank_in_tree<S: SearchKey, M: Meter>(
    cells: &Cells,
    root: Option<usize>,
    sought: &S,
    meter: &mut M,
) -> usize
    requires { (t : Tree) × CanSeek (nodes_in cells.now) root (S.live sought.now)
        (S.go sought.now) t }
    ensures rank { (t : Tree) → CanSeek (nodes_in cells.now) root (S.live sought.now)
        (S.go sought.now) t → result ≡ count_below (S.go sought.now) (reading t) }
    ensures comparisons { (t : Tree) → Stands (nodes_in cells.now) root t →
        M.comparisons meter.new ≤ M.comparisons meter.old + height t }
    ensures touches { (t : Tree) → Stands (nodes_in cells.now) root t →
        M.touches meter.new ≤ M.touches meter.old + 2 * height t }
{
    match cells {
        Cells::Narrow(nodes) => search::rank_in_tree(nodes, root, sought, meter),
        Cells::Wide(nodes) => search::rank_in_tree(nodes, root, sought, meter),
    }
}

#[inline(always)]
pub fn fill_around<M: Meter>(
    cells: &Cells,
    root: Option<usize>,
    rank: usize,
    most: usize,
    buffer: &mut [usize; 128],
    meter: &mut M,
) -> (usize, usize)
    requires tree { (t : Tree) × Stands (nodes_in cells.now) root t × IsBalanced t × (rank < size t)
        × (size t < 2 ^ 64) }
    requires least { 2 ≤ most }
    requires most { most ≤ 124 }
    requires long { length buffer.old ≡ 128 }
    ensures row { (t : Tree) → Stands (nodes_in cells.now) root t → IsBalanced t → rank < size t →
        IsRow (reading t) rank buffer.new result.0 result.1 }
    ensures comparisons { M.comparisons meter.new ≡ M.comparisons meter.old }
    ensures touches { (t : Tree) → Stands (nodes_in cells.now) root t → IsBalanced t →
        rank < size t → M.touches meter.new ≤ M.touches meter.old + 376 + 2 * height t }
{
    match cells {
        Cells::Narrow(nodes) => walk::fill_around(nodes, root, rank, most, buffer, meter),
        Cells::Wide(nodes) => walk::fill_around(nodes, root, rank, most, buffer, meter),
    }
}

#[inline(always)]
pub fn put_at<U: Upper, M: Meter>(
    cells: &mut Cells,
    root: Option<usize>,
    route: &Route,
    place: usize,
    upper: &mut U,
    meter: &mut M,
) -> Option<usize>
    requires { (path : Path) × CanPut (nodes_in cells.old) (notes_of route.now) path place
        × (root_of (plug path leaf) ≡ root) }
    ensures tree { (path : Path) → CanPut (nodes_in cells.old) (notes_of route.now) path place →
        root_of (plug path leaf) ≡ root → (v : Tree)
        × IsRisen (nodes_in cells.old) (nodes_in cells.new) path (fork leaf place leaf) result v }
    ensures begins { (path : Path) → CanPut (nodes_in cells.old) (notes_of route.now) path place →
        root_of (plug path leaf) ≡ root →
        LeavesUpper (U.tells upper.new) (nodes_in cells.new) result (notes_of route.now) path }
    ensures comparisons { M.comparisons meter.new ≡ M.comparisons meter.old }
    ensures touches { M.touches meter.new ≤ M.touches meter.old + 12 * route.now.depth + 1 }
{
    match cells {
        Cells::Narrow(nodes) => rise::put_at(nodes, root, route, place, upper, meter),
        Cells::Wide(nodes) => rise::put_at(nodes, root, route, place, upper, meter),
    }
}

#[inline(always)]
pub fn take_at<U: Upper, M: Meter>(
    cells: &mut Cells,
    root: Option<usize>,
    route: &mut Route,
    at: usize,
    upper: &mut U,
    meter: &mut M,
) -> Option<usize>
    requires { (path : Path) × (l : Tree) × (r : Tree)
        × CanTake (nodes_in cells.old) (notes_of route.old) path l at r
        × (root_of (plug path (fork l at r)) ≡ root) }
    ensures tree { (path : Path) (l r : Tree) →
        CanTake (nodes_in cells.old) (notes_of route.old) path l at r →
        root_of (plug path (fork l at r)) ≡ root → (v : Tree)
        × IsTaken (nodes_in cells.old) (nodes_in cells.new) path l r result v }
    ensures begins { (path : Path) (l r : Tree) →
        CanTake (nodes_in cells.old) (notes_of route.old) path l at r →
        root_of (plug path (fork l at r)) ≡ root →
        LeavesUpper (U.tells upper.new) (nodes_in cells.new) result (notes_of route.new) path }
    ensures comparisons { M.comparisons meter.new ≡ M.comparisons meter.old }
    ensures touches { (path : Path) (l r : Tree) →
        CanTake (nodes_in cells.old) (notes_of route.old) path l at r →
        root_of (plug path (fork l at r)) ≡ root →
        M.touches meter.new ≤ M.touches meter.old + 13 * height (plug path (fork l at r)) + 4 }
{
    match cells {
        Cells::Narrow(nodes) => remove::take_at(nodes, root, route, at, upper, meter),
        Cells::Wide(nodes) => remove::take_at(nodes, root, route, at, upper, meter),
    }
}
