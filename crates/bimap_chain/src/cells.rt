//! One stored cell of a hashed index. The code here knows no other cell.
ghost use Rattle.std.specs.Prelude.{◌≡◌, ◌+◌, ◌<◌, IsSome, Some, IfSome, nat_eq};
ghost use Rattle.std.specs.Option.{option_eq};
ghost use Rattle.bimap_chain.specs.Cells.{free_cell, listed_cell, cell_with_next, cell_of};

use crate::link::{Link, link_to, place_of};

/// The hash number of a place, and its link to the next place of the chain. A cell takes 8 bytes if the link has four bytes, and
/// 16 if it has eight.
#[derive(Clone, Copy, Drop)]
pub(crate) struct ChainCell<L> {
    number: u32,
    link: L,
}

impl<L: Link> ChainCell<L> {
    /// Returns the cell of a place that isn't listed.
    #[inline(always)]
    pub(crate) fn free() -> Self
        ensures { cell_of L.width result ≡ free_cell }
    {
        ChainCell {
            number: 0,
            link: L::free(),
        }
    }

    /// Returns the cell of a place that is listed under the number.
    #[inline(always)]
    pub(crate) fn of(number: u32, next: Option<usize>) -> Self
        requires { IfSome next (λ p. p + 1 < L.width.free) }
        ensures { cell_of L.width result ≡ listed_cell number next }
    {
        ChainCell {
            number,
            link: link_to(next),
        }
    }

    /// Returns this cell with another next place.
    #[inline(always)]
    pub(crate) fn with_next(self, next: Option<usize>) -> Self
        requires listed { IsSome (cell_of L.width self).number }
        requires next { IfSome next (λ p. p + 1 < L.width.free) }
        ensures { cell_of L.width result ≡ cell_with_next (cell_of L.width self) next }
    {
        Self::of(self.number, next)
    }

    /// Returns the number under which its place is listed, or `None` if the place isn't listed.
    #[inline(always)]
    pub(crate) fn number(self) -> Option<u32>
        ensures { result ≡ (cell_of L.width self).number }
    {
        let most = L::free().get();
        let link = self.link.get();
        if link == most {
            None
        } else {
            Some(self.number)
        }
    }

    /// Returns whether its place is listed under this number. The place must be listed.
    #[inline(always)]
    pub(crate) fn has_number(self, number: u32) -> bool
        requires { IsSome (cell_of L.width self).number }
        ensures { result ≡ option_eq nat_eq (cell_of L.width self).number (Some number) }
    {
        self.number == number
    }

    /// Returns the next place of the chain, or `None` at the end of the chain. The place of this cell must be listed.
    #[inline(always)]
    pub(crate) fn next(self) -> Option<usize>
        requires { IsSome (cell_of L.width self).number }
        ensures { result ≡ (cell_of L.width self).next }
    {
        place_of(self.link)
    }
}
