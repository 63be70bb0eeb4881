//! Links, each to a place or to none, in four bytes or in eight.
ghost use Rattle.std.specs.Prelude.{◌≡◌, ◌+◌, ◌<◌, ◌≤◌, ◌^◌, IfSome};
ghost use Rattle.bimap_chain.specs.Width.{Width, target, narrow, wide};

/// A link to a place or to none, stored as a number. A link to a place is the place plus one, and a link to none is 0. The
/// greatest number marks the cell of a place that is not listed.
pub(crate) trait Link: Copy + Drop {
    /// The number of each link, and the greatest number.
    ghost width: { Width Self };

    /// Returns the link with this number.
    fn of(number: usize) -> Self
        requires { number ≤ width.free }
        ensures { width.number result ≡ number };

    /// Returns the number of the link.
    fn get(self) -> usize
        ensures { result ≡ width.number self };

    /// Returns the link that marks a place as not listed.
    fn free() -> Self
        ensures { width.number result ≡ width.free };

    /// The greatest number is more than 0, and it fits into a `usize`.
    ghost fits: { (0 < width.free) × (width.free < 2 ^ 64) };
}

impl Link for u32 {
    ghost width = { narrow };

    ghost use Rattle.std.proofs.Common.{arith};

    ghost fits = { (omega arith, omega arith) };

    #[inline(always)]
    fn of(number: usize) -> Self {
        number as u32
    }

    #[inline(always)]
    fn get(self) -> usize {
        self as usize
    }

    #[inline(always)]
    fn free() -> Self {
        u32::MAX
    }
}

impl Link for usize {
    ghost width = { wide };

    ghost use Rattle.std.proofs.Common.{arith};

    ghost fits = { (omega arith, omega arith) };

    #[inline(always)]
    fn of(number: usize) -> Self {
        number
    }

    #[inline(always)]
    fn get(self) -> usize {
        self
    }

    #[inline(always)]
    fn free() -> Self {
        usize::MAX
    }
}

/// Returns the link to a place, or the link to none.
#[inline(always)]
pub(crate) fn link_to<L: Link>(place: Option<usize>) -> L
    requires { IfSome place (λ p. p + 1 < L.width.free) }
    ensures target { target L.width result ≡ place }
    ensures not_free { L.width.number result < L.width.free }
{
    match place {
        None => L::of(0),
        Some(place) => L::of(place + 1),
    }
}

/// Returns the place that a link leads to, or `None`.
#[inline(always)]
pub(crate) fn place_of<L: Link>(link: L) -> Option<usize>
    ensures { result ≡ target L.width link }
{
    let number = link.get();
    if number == 0 { None } else { Some(number - 1) }
}
