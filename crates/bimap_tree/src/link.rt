//! Links a place above two trees, with rotations. The code here knows no key and no order.
ghost use Rattle.std.specs.Prelude.{◌≡◌, ℕ, ◌+◌, ◌<◌, ◌≤◌, slice_set, Some};
ghost use Rattle.bimap_tree.specs.Tree.{Tree, Stands, height, root_of, branch, node_on, near_of, far_of};
ghost use Rattle.bimap_tree.specs.Link.{Measures, CanLink, CanRebalance, IsRebalanced};

use bimap_base::{Cell, Meter, Node, Nodes};

/// The root of a tree, with the height and the size that the root's node stores.
#[derive(Clone, Copy)]
pub struct Subtree {
    pub root: Option<usize>,
    pub height: usize,
    pub size: usize,
}

// Returns the child in the direction `direction`, and the other child. The direction is right if `direction` is true.
pub fn children(node: Node, direction: bool) -> (Option<usize>, Option<usize>)
    ensures near { result.0 ≡ near_of direction node }
    ensures far { result.1 ≡ far_of direction node }
{
    if direction {
        (node.right, node.left)
    } else {
        (node.left, node.right)
    }
}

// Returns the child in the direction `direction`, which is right if it is true.
pub fn child(node: Node, direction: bool) -> Option<usize>
    ensures { result ≡ near_of direction node }
{
    if direction { node.right } else { node.left }
}

// Returns the root, the height and the size of the tree at this root.
pub fn measure<C: Cell, M: Meter>(cells: &Nodes<C>, root: Option<usize>, meter: &mut M) -> Subtree
    requires { (t : Tree) × Stands cells.now root t }
    ensures measured { (t : Tree) → Stands cells.now root t → Measures result t }
    ensures comparisons { M.comparisons meter.new ≡ M.comparisons meter.old }
    ensures touches { M.touches meter.new ≤ M.touches meter.old + 1 }
{
    match root {
        None => Subtree {
            root,
            height: 0,
            size: 0,
        },
        Some(place) => {
            let node = cells.read(place, meter);
            Subtree {
                root,
                height: node.height,
                size: node.size,
            }
        }
    }
}

// Writes the node of a place. The tree `near` becomes its child in the direction `direction`, and `far` becomes its other child.
pub fn link<C: Cell, M: Meter>(
    cells: &mut Nodes<C>,
    place: usize,
    direction: bool,
    near: Subtree,
    far: Subtree,
    meter: &mut M,
) -> Subtree
    requires { (n : Tree) × (f : Tree) × CanLink cells.old place n f × Measures near n
        × Measures far f }
    ensures linked { (n f : Tree) → Measures near n → Measures far f →
        cells.new ≡ slice_set cells.old place (node_on direction n f) }
    ensures measured { (n f : Tree) → Measures near n → Measures far f →
        Measures result (branch direction n place f) }
    ensures comparisons { M.comparisons meter.new ≡ M.comparisons meter.old }
    ensures touches { M.touches meter.new ≡ M.touches meter.old + 1 }
{
    let taller = if near.height < far.height {
        far.height
    } else {
        near.height
    };
    let height = taller + 1;
    let size = near.size + far.size + 1;
    let (left, right) = if direction {
        (far.root, near.root)
    } else {
        (near.root, far.root)
    };
    cells.write(
        place,
        Node {
            left,
            right,
            height,
            size,
        },
        meter,
    );
    Subtree {
        root: Some(place),
        height,
        size,
    }
}

// Does what `rotate` does. The parts of the lower tree are handed in one by one, because a `Subtree` is handed in by its address.
// Then the caller would have to store it on each level of a route, though it seldom rotates.
fn rotate_parts<C: Cell, M: Meter>(
    cells: &mut Nodes<C>,
    place: usize,
    direction: bool,
    heavy: usize,
    light_root: Option<usize>,
    light_height: usize,
    light_size: usize,
    meter: &mut M,
) -> Subtree
    requires { (n : Tree) × (f : Tree) × CanRebalance cells.old place n f × (root_of n ≡ Some heavy)
        × Measures record { root = light_root; height = light_height; size = light_size } f
        × (height n ≡ height f + 2) }
    ensures tree { (n f : Tree) → CanRebalance cells.old place n f → root_of n ≡ Some heavy →
        Measures record { root = light_root; height = light_height; size = light_size } f →
        height n ≡ height f + 2 →
        (t : Tree) × Measures result t × IsRebalanced cells.old cells.new direction place n f t }
    ensures comparisons { M.comparisons meter.new ≡ M.comparisons meter.old }
    ensures touches { M.touches meter.new ≤ M.touches meter.old + 9 }
{
    let light = Subtree {
        root: light_root,
        height: light_height,
        size: light_size,
    };
    let upper = cells.read(heavy, meter);
    let (outer_root, inner_root) = children(upper, direction);
    let outer = measure(cells, outer_root, meter);
    let inner = measure(cells, inner_root, meter);
    if inner.height <= outer.height {
        let lower = link(cells, place, direction, inner, light, meter);
        return link(cells, heavy, direction, outer, lower, meter);
    }
    let Some(middle) = inner_root else {
        unreachable!();
    };
    let parts = cells.read(middle, meter);
    let (near_root, far_root) = children(parts, direction);
    let near = measure(cells, near_root, meter);
    let far = measure(cells, far_root, meter);
    let upper_side = link(cells, heavy, direction, outer, near, meter);
    let lower_side = link(cells, place, direction, far, light, meter);
    link(cells, middle, direction, upper_side, lower_side, meter)
}

// Links a place above two trees by one rotation or two. The tree at `heavy`, in the direction `direction`, is two levels higher than
// `light`.
#[inline(always)]
fn rotate<C: Cell, M: Meter>(
    cells: &mut Nodes<C>,
    place: usize,
    direction: bool,
    heavy: usize,
    light: Subtree,
    meter: &mut M,
) -> Subtree
    requires { (n : Tree) × (f : Tree) × CanRebalance cells.old place n f × (root_of n ≡ Some heavy)
        × Measures light f × (height n ≡ height f + 2) }
    ensures tree { (n f : Tree) → CanRebalance cells.old place n f → root_of n ≡ Some heavy →
        Measures light f → height n ≡ height f + 2 →
        (t : Tree) × Measures result t × IsRebalanced cells.old cells.new direction place n f t }
    ensures comparisons { M.comparisons meter.new ≡ M.comparisons meter.old }
    ensures touches { M.touches meter.new ≤ M.touches meter.old + 9 }
{
    let Subtree { root, height, size } = light;
    rotate_parts(cells, place, direction, heavy, root, height, size, meter)
}

// Links a place above two trees whose heights differ by at most two. Rotates if the heights differ by two.
#[inline(always)]
pub fn rebalance<C: Cell, M: Meter>(
    cells: &mut Nodes<C>,
    place: usize,
    direction: bool,
    near: Subtree,
    far: Subtree,
    meter: &mut M,
) -> Subtree
    requires { (n : Tree) × (f : Tree) × CanRebalance cells.old place n f × Measures near n
        × Measures far f }
    ensures tree { (n f : Tree) → CanRebalance cells.old place n f → Measures near n →
        Measures far f → (t : Tree) × Measures result t
        × IsRebalanced cells.old cells.new direction place n f t }
    ensures comparisons { M.comparisons meter.new ≡ M.comparisons meter.old }
    ensures touches { M.touches meter.new ≤ M.touches meter.old + 9 }
{
    if near.height > far.height + 1 {
        let Some(heavy) = near.root else {
            unreachable!();
        };
        return rotate(cells, place, direction, heavy, far, meter);
    }
    if far.height > near.height + 1 {
        let Some(heavy) = far.root else {
            unreachable!();
        };
        return rotate(cells, place, !direction, heavy, near, meter);
    }
    link(cells, place, direction, near, far, meter)
}
