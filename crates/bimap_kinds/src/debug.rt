//! The text of a map. It uses iterators alone.
ghost use Rattle.std.specs.Iterator.{IsFinite};

use crate::map::BijectiveMap;
use crate::walked_index::WalkedIndex;
use bimap_index::Index;
use std::fmt;

/// Writes the pairs in the order of `iter`, as `{'a' <> 1, 'b' <> 2}`.
///
/// Time: That of iterating, and of writing each value.
///
/// `Err`: The formatter failed. A part may be written.
impl<
    L: Eq + fmt::Debug + Drop,
    R: Eq + fmt::Debug + Drop,
    I: WalkedIndex<L>,
    J: Index<R>,
> fmt::Debug for BijectiveMap<L, R, I, J> {
    fn fmt<W: fmt::Write>(&self, f: &mut fmt::Formatter<W>) -> fmt::Result {
        write_pairs(self.iter(), f)
    }
}

// Writes the pairs of an iterator.
fn write_pairs<
    'a,
    L: fmt::Debug + 'a,
    R: fmt::Debug + 'a,
    A: Iterator<Item = (&'a L, &'a R)> + Drop,
    W: fmt::Write,
>(walk: A, f: &mut fmt::Formatter<W>) -> fmt::Result
    requires can { A.can_next walk }
    requires ends { IsFinite (A.remaining walk) }
{
    f.write_str("{")?;
    let mut is_first = true;
    for (left, right) in walk {
        if !is_first {
            f.write_str(", ")?;
        }
        is_first = false;
        write!(f, "{left:?} <> {right:?}")?;
    }
    f.write_str("}")
}
