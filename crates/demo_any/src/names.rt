//! What a caller knows of names that are numbered as they come.
ghost use Rattle.std.specs.Prelude.{◌≡◌, true, Ok, Contains, IfSome, IfNone, IfOk, IfErr, IsOk, OnOk, OnErr, nat_eq, string_eq};
ghost use Rattle.bimap.specs.Answer.{IsRefusal};
ghost use Rattle.bimap.specs.Holding.{IsFull};
ghost use Rattle.bimap.specs.Sets.{IsWithPut, HasLeft, LacksLeft, LacksRight};

use bimap::{Bijection, Interning, NotInserted};

/// Returns the number of a name. A name that has none gets `fresh`. No name loses its number.
///
/// If the name has a number, the function makes one search and never fails. Otherwise it makes an insertion, which
/// allocates only if there is no spare capacity. An `Err` contains both values, and nothing has changed. It says that
/// another name has `fresh`, or that there was no memory.
#[tactic(auto, using(bimap::proofs::LookUps::put_is_held))]
pub fn number_of<L: Eq + Drop, B: Interning<L, u32>>(
    names: &mut B,
    name: L,
    fresh: u32,
) -> Result<u32, NotInserted<L, u32>>
    ensures has { IfOk result (λ number. (l : L) × Contains (B.holding names.new).pairs (l, number)
        × (L.eq l name ≡ true)) }
    ensures known { (l : L) (number : _) → Contains (B.holding names.old).pairs (l, number) →
        L.eq l name ≡ true → result ≡ Ok number }
    ensures never_refused { HasLeft L.eq (Contains (B.holding names.old).pairs) name →
        IsOk result × (B.holding names.new ≡ B.holding names.old) }
    ensures put { LacksLeft L.eq (Contains (B.holding names.old).pairs) name →
        OnOk result (IsWithPut L.eq nat_eq (Contains (B.holding names.old).pairs) (name, fresh)
        (Contains (B.holding names.new).pairs)) }
    ensures given { LacksLeft L.eq (Contains (B.holding names.old).pairs) name →
        OnOk result (Contains (B.holding names.new).pairs (name, fresh)) }
    ensures kept { (p : _) → Contains (B.holding names.old).pairs p →
        Contains (B.holding names.new).pairs p }
    ensures refused { IfErr result (IsRefusal L.eq nat_eq (Contains (B.holding names.old).pairs)
        (IsFull (B.holding names.old)) (name, fresh)) }
    ensures unchanged { OnErr result (B.holding names.new ≡ B.holding names.old) }
{
    names.get_by_left_or_insert(name, fresh)
}

/// Returns the name of a number, by one search. Equal numbers are the same number, so it is the name of this very
/// number.
pub fn name_of<'a, L: Eq + Drop, B: Bijection<L, u32>>(names: &'a B, number: u32) -> Option<&'a L>
    ensures named { IfSome result (λ name.
        Contains (B.holding names.now).pairs (name.now, number)) }
    ensures none { IfNone result (LacksRight nat_eq (Contains (B.holding names.now).pairs) number) }
{
    names.get_by_right(&number)
}

/// The number of a name, by a look-up and an insertion of its own: the one that it has, or else `fresh`. No name loses its
/// number.
///
/// An `Err` hands both back, and nothing has changed: another name has `fresh`, or there was no memory.
pub fn intern<B: Bijection<String, u32>>(
    names: &mut B,
    name: String,
    fresh: u32,
) -> Result<u32, NotInserted<String, u32>>
    ensures has { IfOk result (λ number. (l : _)
        × Contains (B.holding names.new).pairs (l, number) × (string_eq l name ≡ true)) }
    ensures kept { (p : _) → Contains (B.holding names.old).pairs p →
        Contains (B.holding names.new).pairs p }
{
    if let Some(number) = names.get_by_left(&name) {
        return Ok(*number);
    }
    names.insert_no_overwrite(name, fresh)?;
    Ok(fresh)
}
