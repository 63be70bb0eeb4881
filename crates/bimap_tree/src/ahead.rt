//! Reads the nodes that a search may come to next. The code here knows no key, and decides nothing of where a search goes.
ghost use Rattle.std.specs.Prelude.{◌≡◌, ◌+◌, ◌<◌, ◌≤◌, cond, length};
ghost use Rattle.bimap_base.specs.NodesInCells.{IsThere};

use bimap_base::{Cell, Meter, Nodes};

// From this many cells on, a search for a removal looks ahead. The cells of both trees and their pairs then no longer fit into
// the innermost cache, so that most nodes have to be waited for. In a smaller tree nothing is gained.
const LARGE: usize = 2_048;

// Returns whether a search for a removal looks ahead.
pub fn looks_ahead<C: Cell>(cells: &Nodes<C>) -> bool {
    cells.places() >= LARGE
}

// Reads the nodes of a place's children if `ahead` is true. The processor then loads both while it waits for the keys to compare,
// and the search does not wait for the child to which it goes.
//
// Returns a number that depends on both nodes, and means nothing. The compiler drops a read on which nothing depends, so the
// caller stores the number.
#[inline(always)]
pub fn look_ahead<C: Cell, M: Meter>(cells: &Nodes<C>, cell: C, ahead: bool, meter: &mut M) -> usize
    requires some { 0 < length cells.now }
    requires left { IsThere (length cells.now) (C.node_in cell).left }
    requires right { IsThere (length cells.now) (C.node_in cell).right }
    ensures comparisons { M.comparisons meter.new ≡ M.comparisons meter.old }
    ensures touches { M.touches meter.new ≤ M.touches meter.old + cond ahead 2 0 }
{
    if !ahead {
        return 0;
    }
    // In place of a missing child, the node of the place 0 is read. A link is one more than the place of its child, or 0, so this
    // takes no branch.
    let left = cell.child(false).unwrap_or(0);
    let right = cell.child(true).unwrap_or(0);
    cells.read(left, meter).size ^ cells.read(right, meter).size
}
