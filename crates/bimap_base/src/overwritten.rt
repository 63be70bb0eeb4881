//! What an insertion overwrote.
ghost use Rattle.std.specs.Prelude.{◌≡◌};
ghost use Rattle.bimap_base.specs.Answer.{overwrites};

/// The pairs that an insertion overwrote, with their old values. It is `Copy` if `L` and `R` are.
#[derive(Clone, Copy, Debug, Drop, Eq, Hash, PartialEq)]
pub enum Overwritten<L, R> {
    /// The map contained neither value.
    Neither,
    /// The map contained the left, and not the right. This is the pair of the left.
    Left(L, R),
    /// The map contained the right, and not the left. This is the pair of the right.
    Right(L, R),
    /// The map contained both values, in one pair. This is that pair.
    Pair(L, R),
    /// The map contained both values, in two pairs. The pair of the left stands first.
    Both((L, R), (L, R)),
}

impl<L, R> Overwritten<L, R> {
    /// Returns whether a pair was overwritten.
    ///
    /// Time: O(1).
    pub fn did_overwrite(&self) -> bool
        ensures { result ≡ overwrites self.now }
    {
        !matches!(self, Overwritten::Neither)
    }
}
