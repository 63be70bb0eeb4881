//! Reads the nodes of a subtree level by level, so that the processor waits for many of them at the same time. The code here
//! knows no key, and finds nothing out.
ghost use Rattle.std.specs.Prelude.{◌≡◌, ◌+◌, ◌*◌, ◌-◌, ◌≤◌, Some, length};
ghost use Rattle.bimap_tree.specs.Queued.{AreRooted};
ghost use Rattle.bimap_tree.specs.Tree.{Tree, Stands};

use bimap_base::{Cell, Meter, Nodes};

// From this many cells on, most nodes have to be waited for. In a smaller tree nothing is gained.
const FAR: usize = 262_144;

// Reads the nodes of the children of the queued places from `head` up to `end`, which is excluded. No such read waits for another
// one.
//
// Returns a number that depends on these nodes, and means nothing. The compiler drops a read on which nothing depends, so the
// caller stores the number.
#[inline(always)]
fn read_children<C: Cell, M: Meter>(
    cells: &Nodes<C>,
    queue: &[usize; 128],
    head: usize,
    end: usize,
    meter: &mut M,
) -> usize
    requires rooted { AreRooted cells.now queue.now end }
    requires order { head ≤ end }
    requires few { end ≤ 42 }
    requires long { length queue.now ≡ 128 }
    ensures comparisons { M.comparisons meter.new ≡ M.comparisons meter.old }
    ensures touches { M.touches meter.new + 3 * head ≤ M.touches meter.old + 3 * end }
{
    let mut seen = 0;
    for k in head..end {
        let node = cells.read(queue[k], meter);
        let (Some(left), Some(right)) = (node.left, node.right) else {
            return seen;
        };
        seen ^= cells.read(left, meter).size ^ cells.read(right, meter).size;
    }
    seen
}

// Appends a place to the first `tail` ones of the queue, if its tree has three levels or more. Returns how many there are then.
// It has no branch.
#[inline(always)]
fn enqueue<C: Cell, M: Meter>(
    cells: &Nodes<C>,
    queue: &mut [usize; 128],
    tail: usize,
    place: usize,
    meter: &mut M,
) -> usize
    requires rooted { AreRooted cells.now queue.old tail }
    requires tree { (t : Tree) × Stands cells.now (Some place) t }
    requires room { tail ≤ 126 }
    requires long { length queue.old ≡ 128 }
    ensures rooted { AreRooted cells.now queue.new result }
    ensures least { tail ≤ result }
    ensures most { result ≤ tail + 1 }
    ensures comparisons { M.comparisons meter.new ≡ M.comparisons meter.old }
    ensures touches { M.touches meter.new ≡ M.touches meter.old + 1 }
{
    let height = cells.read(place, meter).height;
    queue[tail] = place;
    tail + (height > 2) as usize
}

// Appends those children of the queued places from `head` up to `end` whose trees have three levels or more. Returns how many
// places are queued then.
#[inline(always)]
fn enqueue_children<C: Cell, M: Meter>(
    cells: &Nodes<C>,
    queue: &mut [usize; 128],
    head: usize,
    end: usize,
    meter: &mut M,
) -> usize
    requires rooted { AreRooted cells.now queue.old end }
    requires order { head ≤ end }
    requires few { end ≤ 42 }
    requires long { length queue.old ≡ 128 }
    ensures rooted { AreRooted cells.now queue.new result }
    ensures least { end ≤ result }
    ensures most { result ≤ 126 }
    ensures comparisons { M.comparisons meter.new ≡ M.comparisons meter.old }
    ensures touches { M.touches meter.new + 3 * head ≤ M.touches meter.old + 3 * end }
{
    let mut tail = end;
    for k in head..end {
        let node = cells.read(queue[k], meter);
        let (Some(left), Some(right)) = (node.left, node.right) else {
            return tail;
        };
        tail = enqueue(cells, queue, tail, left, meter);
        tail = enqueue(cells, queue, tail, right, meter);
    }
    tail
}

// In a large tree, reads the nodes below a place level by level. The queue is for the places whose children are read next. What
// it contains afterwards means nothing.
//
// Each level is read twice. Where a place is queued depends on nodes that are still awaited, so writing the queue holds back
// later reads. The first pass over a level only reads.
#[inline(never)]
pub fn read_by_levels<C: Cell, M: Meter>(
    cells: &Nodes<C>,
    at: usize,
    queue: &mut [usize; 128],
    meter: &mut M,
)
    requires tree { (t : Tree) × Stands cells.now (Some at) t }
    requires long { length queue.old ≡ 128 }
    ensures comparisons { M.comparisons meter.new ≡ M.comparisons meter.old }
    ensures touches { M.touches meter.new ≤ M.touches meter.old + 252 }
{
    if cells.places() < FAR {
        return;
    }
    let mut seen = 0;
    let mut head = 0;
    let mut tail = 1;
    queue[0] = at;
    // The queue has space for two children of each of at most 42 places.
    while head < tail && tail <= 42 {
        let end = tail;
        seen ^= read_children(cells, queue, head, end, meter);
        tail = enqueue_children(cells, queue, head, end, meter);
        head = end;
    }
    queue[tail] = seen;
}
