//! A copy of nodes.
ghost use Rattle.std.specs.Prelude.{◌≡◌};

use super::{Cell, Cells, Nodes};
use std::alloc::AllocError;

impl<C: Cell> Clone for Nodes<C> {
    ghost is_clone = { λ nodes copy. copy ≡ nodes };

    /// Returns a copy of the nodes, in cells of the same width. Allocates all cells at once.
    fn clone(&self) -> Result<Self, AllocError> {
        let cells = Vec::from_slice(*self.cells.allocator(), &self.cells)?;
        Ok(Nodes { cells })
    }
}

impl Clone for Cells {
    ghost is_clone = { λ cells copy. copy ≡ cells };

    /// Returns a copy of the nodes, in cells of the same width. Allocates all cells at once. If it runs out of memory, it returns no
    /// nodes.
    fn clone(&self) -> Result<Self, AllocError> {
        match self {
            Cells::Narrow(nodes) => Ok(Cells::Narrow(nodes.clone()?)),
            Cells::Wide(nodes) => Ok(Cells::Wide(nodes.clone()?)),
        }
    }
}
