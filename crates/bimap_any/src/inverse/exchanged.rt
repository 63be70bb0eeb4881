//! What a call of a map takes and returns, with its sides exchanged.
ghost use Rattle.std.specs.Prelude.{◌≡◌, option_map};
ghost use Rattle.bimap_base.specs.Inverse.{inverse_pair};
ghost use Rattle.bimap_any.specs.Exchanged.{inverse_answer};

use bimap_base::Overwritten;

// Returns the pair with its sides exchanged, if there is one.
pub(crate) fn exchange_pair<L, R>(pair: Option<(L, R)>) -> Option<(R, L)>
    ensures { result ≡ option_map inverse_pair pair }
{
    match pair {
        Some((left, right)) => Some((right, left)),
        None => None,
    }
}

// Returns the overwritten pairs with their sides exchanged. In `Both`, the pair of the new left stands first.
pub(crate) fn exchange_answer<L, R>(answer: Overwritten<L, R>) -> Overwritten<R, L>
    ensures { result ≡ inverse_answer answer }
{
    match answer {
        Overwritten::Neither => Overwritten::Neither,
        Overwritten::Left(left, right) => Overwritten::Right(right, left),
        Overwritten::Right(left, right) => Overwritten::Left(right, left),
        Overwritten::Pair(left, right) => Overwritten::Pair(right, left),
        Overwritten::Both(first, second) => {
            Overwritten::Both((second.1, second.0), (first.1, first.0))
        }
    }
}
