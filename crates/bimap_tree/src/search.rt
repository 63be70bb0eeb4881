//! Searches down the tree. The code here knows trees, and knows keys only through `Keys`.
ghost use Rattle.std.specs.Prelude.{◌≡◌, ℕ, ◌+◌, ◌*◌, ◌<◌, ◌≤◌, IsSome, Some, slice_get};
ghost use Rattle.bimap_base.specs.Keyed.{standing};
ghost use Rattle.bimap_tree.specs.Tree.{Tree, Stands, height, size, reading};
ghost use Rattle.bimap_tree.specs.Search.{CanSeek};
ghost use Rattle.bimap_tree.specs.Order.{first_equal, count_below};

use crate::link::{child, measure};
use crate::route::branches_on_direction;
use crate::search_key::{SearchKey, ToQuery};
use bimap_base::{Cell, Keys, Meter, Nodes, Sought};

// Returns the place whose key is equal to the query, or `None`.
pub fn find_in_tree<C: Cell, K: Keys, Q: Sought<K>, M: Meter>(
    cells: &Nodes<C>,
    root: Option<usize>,
    keys: &K,
    query: Q,
    meter: &mut M,
) -> Option<usize>
    requires { (t : Tree) × CanSeek cells.now root (λ p. IsSome (K.key_at keys.now p))
        (λ p. standing Q.order (K.key_at keys.now p) (Some query)) t }
    ensures found { let go = λ (p : ℕ). standing Q.order (K.key_at keys.now p) (Some query) in
        (t : Tree) → CanSeek cells.now root (λ p. IsSome (K.key_at keys.now p)) go t →
        result ≡ first_equal go (reading t) }
    ensures comparisons { (t : Tree) → Stands cells.now root t →
        M.comparisons meter.new ≤ M.comparisons meter.old + height t }
    ensures touches { (t : Tree) → Stands cells.now root t →
        M.touches meter.new ≤ M.touches meter.old + height t }
{
    let is_far = branches_on_direction::<C, ToQuery<K, Q>>(cells);
    let mut root = root;
    while let Some(at) = root {
        let cell = cells.cell(at, meter);
        let ordering = query.compare(keys, at, meter);
        if ordering.is_eq() {
            return Some(at);
        }
        let direction = ordering.is_lt();
        if is_far && direction {
            root = cell.child(true);
            if root.is_none() {
                break;
            }
        } else {
            root = cell.child(direction);
        }
    }
    None
}

// Returns the place at a rank.
pub fn place_in_tree<C: Cell, M: Meter>(
    cells: &Nodes<C>,
    root: Option<usize>,
    rank: usize,
    meter: &mut M,
) -> usize
    requires { (t : Tree) × Stands cells.now root t × (rank < size t) }
    ensures place { (t : Tree) → Stands cells.now root t → rank < size t →
        slice_get (reading t) rank ≡ Some result }
    ensures comparisons { M.comparisons meter.new ≡ M.comparisons meter.old }
    ensures touches { (t : Tree) → Stands cells.now root t →
        M.touches meter.new ≤ M.touches meter.old + 2 * height t }
{
    let mut root = root;
    let mut rank = rank;
    while let Some(at) = root {
        let node = cells.read(at, meter);
        let before = measure(cells, node.left, meter).size;
        if rank == before {
            return at;
        }
        if rank < before {
            root = node.left;
        } else {
            root = node.right;
            rank -= before + 1;
        }
    }
    unreachable!()
}

// Returns the number of places in the tree whose key is below what is searched for.
pub fn rank_in_tree<C: Cell, S: SearchKey, M: Meter>(
    cells: &Nodes<C>,
    root: Option<usize>,
    sought: &S,
    meter: &mut M,
) -> usize
    requires { (t : Tree) × CanSeek cells.now root (S.live sought.now) (S.go sought.now) t }
    ensures rank { (t : Tree) → CanSeek cells.now root (S.live sought.now) (S.go sought.now) t →
        result ≡ count_below (S.go sought.now) (reading t) }
    ensures comparisons { (t : Tree) → Stands cells.now root t →
        M.comparisons meter.new ≤ M.comparisons meter.old + height t }
    ensures touches { (t : Tree) → Stands cells.now root t →
        M.touches meter.new ≤ M.touches meter.old + 2 * height t }
{
    let mut root = root;
    let mut rank = 0;
    while let Some(at) = root {
        let node = cells.read(at, meter);
        let is_below = sought.ordering(at, meter).is_lt();
        if is_below {
            rank += measure(cells, node.left, meter).size + 1;
        }
        root = child(node, is_below);
    }
    rank
}
