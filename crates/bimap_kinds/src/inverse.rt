//! A map with its sides exchanged.
ghost use Rattle.std.specs.Prelude.{◌≡◌, IfOk, IfErr, map};
ghost use Rattle.bimap_base.specs.Inverse.{inverse_pair, IsInverse};

use crate::map::BijectiveMap;
use bimap_base::NotInverted;
use bimap_index::Index;

impl<L: Eq + Drop, R: Eq + Drop, I: Index<L>, J: Index<R>> BijectiveMap<L, R, I, J> {
    ghost use Rattle.bimap_kinds.specs.Held.{holding, by_right};

    /// Returns the map with its sides exchanged, so that lefts become rights and rights become lefts.
    ///
    /// Each side keeps its index: an ordered right becomes an ordered left. Pairs are moved, and no value is compared.
    /// The capacity stays.
    ///
    /// Time: O(capacity).
    ///
    /// Memory: It allocates for the capacity.
    ///
    /// `Err`: Out of memory. It hands the map back as it was.
    ///
    ///     let turned = seats.into_inverse()?;
    ///     turned.get_by_left(&3); // Some(&'a')
    pub fn into_inverse(self) -> Result<BijectiveMap<R, L, J, I>, NotInverted<Self>>
        ensures inverse { IfOk result (λ inverse. IsInverse (holding self) (holding inverse)) }
        ensures left { IfOk result (λ inverse.
            (holding inverse).pairs ≡ map inverse_pair (by_right self)) }
        ensures right { IfOk result (λ inverse.
            by_right inverse ≡ map inverse_pair (holding self).pairs) }
        ensures err { IfErr result (λ e. e.given ≡ self) }
    {
        match self.into_table().into_inverse() {
            Ok(table) => Ok(BijectiveMap { table }),
            Err(NotInverted { given: table }) => Err(NotInverted {
                given: BijectiveMap { table },
            }),
        }
    }
}
