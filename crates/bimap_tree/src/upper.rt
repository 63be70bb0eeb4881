//! What a change along a route leaves of the route. The code here knows no tree.
ghost use Rattle.std.specs.Prelude.{◌≡◌, ℕ, Option};

/// Where a change along a route notes which first entries of the route still lead down the tree.
pub trait Upper {
    /// Says that the first entries lead down the tree, up to this depth, to a subtree with this root.
    ghost tells: { Self → ℕ → Option ℕ → Type 0 };

    // Notes that the first `depth` entries lead down the tree, to a subtree with the root `at`.
    fn keep(&mut self, depth: usize, at: Option<usize>)
        ensures { tells self.new depth at };
}

/// The first `depth` entries of a route. They lead down the tree to a subtree with the root `at`.
#[derive(Clone, Copy)]
pub struct UpperPart {
    pub depth: usize,
    pub at: Option<usize>,
}

impl Upper for UpperPart {
    ghost tells = { λ part depth at. (part.depth ≡ depth) × (part.at ≡ at) };

    fn keep(&mut self, depth: usize, at: Option<usize>) {
        self.depth = depth;
        self.at = at;
    }
}

/// Notes nothing. It is for a route that nobody uses after the change.
#[derive(Clone, Copy)]
pub struct NoUpper;

impl Upper for NoUpper {
    ghost tells = { λ part depth at. Unit {0} };

    fn keep(&mut self, depth: usize, at: Option<usize>) {}
}
