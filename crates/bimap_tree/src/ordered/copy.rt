//! A copy of an ordered index.
ghost use Rattle.std.specs.Prelude.{◌≡◌};

use super::Ordered;
use crate::ends::{Kept, make_ends};
use std::alloc::AllocError;

impl Clone for Ordered {
    ghost is_clone = { λ index copy. copy ≡ index };

    /// Returns an index of the same tree in as many cells. Reads no key. Takes time linear in the number of cells. Allocates all
    /// cells at once. From 64 cells on, it also allocates the routes that an index keeps. If it runs out of memory, it returns no
    /// index.
    fn clone(&self) -> Result<Self, AllocError> {
        let mut kept = Kept::new();
        make_ends(&mut kept, self.alloc, 0, self.cells.places())?;
        Ok(Ordered {
            cells: self.cells.clone()?,
            root: self.root,
            len: self.len,
            takes_first: self.takes_first,
            seen: self.seen,
            kept,
            alloc: self.alloc,
        })
    }
}
