//! The entries of a route down a tree.
ghost use Rattle.std.specs.Prelude.{◌≡◌, ℕ, ◌+◌, ◌<◌, ◌≤◌, ◌^◌, length, true};
ghost use Rattle.bimap_tree.specs.Path.{Path};
ghost use Rattle.bimap_tree.specs.Retraced.{CanRetrace, IsRetraced};
ghost use Rattle.bimap_tree.specs.Notes.{IsNoted, long_notes_of, notes_of};
ghost use Rattle.bimap_tree.specs.Tree.{Tree};

use crate::route::Route;
use bimap_base::{Cell, Meter, Nodes};

// Up to this many places, the entries of a `Route` store places in full.
pub(crate) const PACKED: usize = 2_147_483_648;

// The entries of a route, by depth. An entry is a place, as it is stored, and whether the route goes on to the right of it.
pub trait Steps {
    ghost use Rattle.bimap_tree.specs.Notes.{Notes};

    ghost notes: { Self → Notes };

    // Returns the number of entries.
    fn depth(&self) -> usize
        ensures { result ≡ (notes self.now).depth };

    // Returns the place, as it is stored, and the direction at a depth.
    fn step(&self, depth: usize) -> (usize, bool)
        requires { depth < 91 }
        ensures { result ≡ (notes self.now).step_at depth };

    // Notes the place and the direction at a depth.
    fn note(&mut self, depth: usize, place: usize, direction: bool)
        requires { depth < 91 }
        ensures noted { IsNoted (notes self.old).step_at depth (
          (notes self.old).kept place,
          direction,
        ) (notes self.new).step_at }
        ensures kept { (notes self.new).kept ≡ (notes self.old).kept }
        ensures depth { (notes self.new).depth ≡ (notes self.old).depth };
}

// A route in a tree with more places than the entries of a `Route` can store in full.
#[derive(Drop)]
pub struct LongRoute {
    places: [usize; 91],
    directions: [bool; 91],
    depth: usize,
}

impl Steps for LongRoute {
    ghost notes = { long_notes_of };

    fn depth(&self) -> usize {
        self.depth
    }

    fn step(&self, depth: usize) -> (usize, bool) {
        (self.places[depth], self.directions[depth])
    }

    fn note(&mut self, depth: usize, place: usize, direction: bool) {
        self.places[depth] = place;
        self.directions[depth] = direction;
    }
}

// Returns whether the entries of a `Route` store the places of these nodes in full.
pub fn fits<C: Cell>(cells: &Nodes<C>) -> bool
    ensures { result ≡ true → length cells.now ≤ 2 ^ 31 }
{
    cells.places() <= PACKED
}

// Returns a route with its places in full. Descends again by the directions of the `Route`.
pub fn retraced<C: Cell, M: Meter>(
    cells: &Nodes<C>,
    root: Option<usize>,
    route: &Route,
    meter: &mut M,
) -> LongRoute
    requires { (path : Path) × (s : Tree) × CanRetrace cells.now root (notes_of route.now) path s }
    ensures notes { (path : Path) (s : Tree) → CanRetrace cells.now root (notes_of route.now) path
        s → IsRetraced (long_notes_of result) path }
    ensures comparisons { M.comparisons meter.new ≡ M.comparisons meter.old }
    ensures touches { M.touches meter.new ≤ M.touches meter.old + route.now.depth }
{
    let mut notes = LongRoute {
        places: [0; 91],
        directions: [false; 91],
        depth: route.depth(),
    };
    let mut root = root;
    for depth in 0..notes.depth {
        let Some(at) = root else {
            unreachable!();
        };
        let (_, direction) = route.step(depth);
        notes.note(depth, at, direction);
        root = cells.cell(at, meter).child(direction);
    }
    notes
}
