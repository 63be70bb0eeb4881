//! A table with its sides exchanged.
ghost use Rattle.std.specs.Prelude.{◌≡◌, IfOk, IfErr, map, option_map};
ghost use Rattle.bimap_base.specs.Inverse.{inverse_pair};

use crate::table::Table;
use bimap_base::NotInverted;
use bimap_index::Index;

impl<L: Eq + Drop, R: Eq + Drop, I: Index<L>, J: Index<R>> Table<L, R, I, J> {
    /// Returns the table with the sides of each pair exchanged. Each pair keeps its place. The indexes stay as they
    /// are: the index of the rights becomes the index of the lefts. It looks at no value. It allocates a store with as
    /// many places. If it runs out of memory, it gives this table back.
    pub fn into_inverse(self) -> Result<Table<R, L, J, I>, NotInverted<Self>>
        ensures pairs { IfOk result (λ inverse.
            inverse.pairs ≡ map (option_map inverse_pair) self.pairs) }
        ensures left { IfOk result (λ inverse. inverse.left ≡ self.right) }
        ensures right { IfOk result (λ inverse. inverse.right ≡ self.left) }
        ensures err { IfErr result (λ e. e.given ≡ self) }
    {
        let Table {
            pairs,
            left,
            right,
            is_left_first,
        } = self;
        match pairs.into_inverse() {
            Ok(pairs) => Ok(Table {
                pairs,
                left: right,
                right: left,
                is_left_first: false,
            }),
            Err(NotInverted { given: pairs }) => {
                let given = Table {
                    pairs,
                    left,
                    right,
                    is_left_first,
                };
                Err(NotInverted { given })
            }
        }
    }
}
