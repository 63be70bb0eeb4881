//! Reads places in order, many at a time. The code here knows trees and ranks, and no key.
ghost use Rattle.std.specs.Prelude.{◌≡◌, ℕ, ◌+◌, ◌*◌, ◌<◌, ◌≤◌, ◌^◌, ◌++◌, ◌∷◌, Some, length};
ghost use Rattle.bimap_base.specs.declared.cells.Node.{Node};
ghost use Rattle.bimap_tree.specs.Filled.{CanFill, IsFilled, IsRow, place_in};
ghost use Rattle.bimap_tree.specs.RankedSubtree.{IsRankedSubtree};
ghost use Rattle.bimap_tree.specs.Tree.{Tree, Stands, IsBalanced, node_of, height, size, reading};

use crate::levels::read_by_levels;
use bimap_base::{Cell, Meter, Node, Nodes};

// A subtree of the index. `start` is the rank of its first place. `before` and `behind` are the listed places just before and
// just after its places.
#[derive(Clone, Copy)]
pub struct RankedSubtree {
    start: usize,
    before: Option<usize>,
    behind: Option<usize>,
    at: usize,
    node: Node,
}

// Appends a place to the first `filled` ones of the buffer, if there is a place. Returns how many there are then. It has no
// branch, because without a place it writes 0 and does not count it.
fn put(buffer: &mut [usize; 128], filled: usize, place: Option<usize>) -> usize
    requires room { filled < 127 }
    requires long { length buffer.old ≡ 128 }
    ensures { IsFilled 128 filled buffer.old (place_in place) buffer.new result }
{
    buffer[filled] = place.unwrap_or(0);
    filled + place.is_some() as usize
}

// Appends the places of a tree of at most two levels, whose root has this node.
fn fill_two_levels(buffer: &mut [usize; 128], filled: usize, at: usize, node: Node) -> usize
    requires room { filled < 125 }
    requires long { length buffer.old ≡ 128 }
    ensures { (l r : Tree) → node ≡ node_of l r → height l ≤ 1 → height r ≤ 1 →
        IsFilled 128 filled buffer.old (reading l ++ at ∷ reading r) buffer.new result }
{
    let before = put(buffer, filled, node.left);
    buffer[before] = at;
    put(buffer, before + 1, node.right)
}

// Appends the places of a tree, whose root has this node, to the first `filled` ones of the buffer.
#[cycle(fill)]
#[inline(always)]
fn fill_tree<C: Cell, M: Meter>(
    cells: &Nodes<C>,
    at: usize,
    node: Node,
    buffer: &mut [usize; 128],
    filled: usize,
    meter: &mut M,
)
    requires tree { (t : Tree) × CanFill cells.now at node t × (filled + size t < 126) }
    requires long { length buffer.old ≡ 128 }
    ensures filled { (t : Tree) → CanFill cells.now at node t → filled + size t < 126 →
        IsFilled 128 filled buffer.old (reading t) buffer.new (filled + size t) }
    ensures comparisons { M.comparisons meter.new ≡ M.comparisons meter.old }
    ensures touches { (t : Tree) → CanFill cells.now at node t →
        M.touches meter.new + 1 ≤ M.touches meter.old + size t }
{
    if node.height < 3 {
        fill_two_levels(buffer, filled, at, node);
        return;
    }
    let (Some(left), Some(right)) = (node.left, node.right) else {
        unreachable!();
    };
    fill_high(cells, at, left, right, buffer, filled, meter);
}

// Appends the places of a tree whose root has two children. Reads the nodes of both children first. Neither subtree then waits
// for the other, because the size of the left one says where the places of the right one begin.
#[cycle(fill)]
fn fill_high<C: Cell, M: Meter>(
    cells: &Nodes<C>,
    at: usize,
    left: usize,
    right: usize,
    buffer: &mut [usize; 128],
    filled: usize,
    meter: &mut M,
)
    requires tree { (node : Node) × (t : Tree) × CanFill cells.now at node t
        × (node.left ≡ Some left) × (node.right ≡ Some right) × (filled + size t < 126) }
    requires long { length buffer.old ≡ 128 }
    ensures filled { (node : Node) (t : Tree) → CanFill cells.now at node t →
        node.left ≡ Some left → node.right ≡ Some right → filled + size t < 126 →
        IsFilled 128 filled buffer.old (reading t) buffer.new (filled + size t) }
    ensures comparisons { M.comparisons meter.new ≡ M.comparisons meter.old }
    ensures touches { (node : Node) (t : Tree) → CanFill cells.now at node t →
        node.left ≡ Some left → node.right ≡ Some right →
        M.touches meter.new + 1 ≤ M.touches meter.old + size t }
{
    let left_node = cells.read(left, meter);
    let right_node = cells.read(right, meter);
    let middle = filled + left_node.size;
    fill_tree(cells, left, left_node, buffer, filled, meter);
    buffer[middle] = at;
    fill_tree(cells, right, right_node, buffer, middle + 1, meter);
}

// Descends to a subtree of at most `most` places. The place at `rank` is in it, or it is the place just before or just behind it.
fn subtree_around<C: Cell, M: Meter>(
    cells: &Nodes<C>,
    root: Option<usize>,
    rank: usize,
    most: usize,
    meter: &mut M,
) -> RankedSubtree
    requires tree { (t : Tree) × Stands cells.now root t × IsBalanced t × (rank < size t)
        × (size t < 2 ^ 64) }
    requires most { 2 ≤ most }
    ensures subtree { (t : Tree) → Stands cells.now root t → IsBalanced t → rank < size t →
        (s : Tree) × IsRankedSubtree cells.now (reading t) rank result s
        × (M.touches meter.new + 2 * height s ≤ M.touches meter.old + 2 * height t + 1) }
    ensures few { result.node.size ≤ most }
    ensures comparisons { M.comparisons meter.new ≡ M.comparisons meter.old }
{
    let Some(at) = root else {
        unreachable!();
    };
    let mut subtree = RankedSubtree {
        start: 0,
        before: None,
        behind: None,
        at,
        node: cells.read(at, meter),
    };
    while subtree.node.size > most {
        let (Some(left), Some(right)) = (subtree.node.left, subtree.node.right) else {
            unreachable!();
        };
        let left_node = cells.read(left, meter);
        let middle = subtree.start + left_node.size;
        if rank < middle {
            subtree = RankedSubtree {
                start: subtree.start,
                before: subtree.before,
                behind: Some(subtree.at),
                at: left,
                node: left_node,
            };
        } else {
            let right_node = cells.read(right, meter);
            subtree = RankedSubtree {
                start: middle + 1,
                before: Some(subtree.at),
                behind: subtree.behind,
                at: right,
                node: right_node,
            };
        }
    }
    subtree
}

// Reads the places of consecutive ranks into a buffer, with `rank` among them. Returns the first of these ranks and their number.
// The places are those of a subtree, the place before it and the place behind it. To read a whole subtree mispredicts few
// branches.
pub fn fill_around<C: Cell, M: Meter>(
    cells: &Nodes<C>,
    root: Option<usize>,
    rank: usize,
    most: usize,
    buffer: &mut [usize; 128],
    meter: &mut M,
) -> (usize, usize)
    requires tree { (t : Tree) × Stands cells.now root t × IsBalanced t × (rank < size t)
        × (size t < 2 ^ 64) }
    requires least { 2 ≤ most }
    requires most { most ≤ 124 }
    requires long { length buffer.old ≡ 128 }
    ensures row { (t : Tree) → Stands cells.now root t → IsBalanced t → rank < size t →
        IsRow (reading t) rank buffer.new result.0 result.1 }
    ensures comparisons { M.comparisons meter.new ≡ M.comparisons meter.old }
    ensures touches { (t : Tree) → Stands cells.now root t → IsBalanced t → rank < size t →
        M.touches meter.new ≤ M.touches meter.old + 376 + 2 * height t }
{
    let subtree = subtree_around(cells, root, rank, most, meter);
    read_by_levels(cells, subtree.at, buffer, meter);
    let first = put(buffer, 0, subtree.before);
    fill_tree(cells, subtree.at, subtree.node, buffer, first, meter);
    let count = put(buffer, first + subtree.node.size, subtree.behind);
    (subtree.start - first, count)
}
