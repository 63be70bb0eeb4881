//! A registry of ids and names in an ordered bimap. This file does not know lines.
ghost use Rattle.std.specs.Prelude.{◌≡◌, Contains, IfErr, OnOk, nat_eq, string_eq};
ghost use Rattle.std.specs.List.{AllPairs};
ghost use Rattle.std.specs.Ordering.{nat_cmp};
ghost use Rattle.std.specs.Str.{bytes_eq};
ghost use Rattle.std.specs.String.{string_bytes};
ghost use Rattle.std.specs.declared.cmp.Ordering.TheVariants.{Less};
ghost use Rattle.std.specs.Iterator.{IsFiniteIterable};
ghost use Rattle.bimap.specs.BTree.{holding};
ghost use Rattle.bimap.specs.Capacity.{IsShrink};
ghost use Rattle.bimap.specs.Exchange.{IsReplacementOfLeft, IsReplacementOfRight};
ghost use Rattle.bimap.specs.Extension.{IsExtensionUnder};
ghost use Rattle.bimap.specs.Holding.{IsFoundByLeft, IsFoundByRight, IsInsertionWithoutOverwriting};
ghost use Rattle.bimap.specs.Sets.{IsSameSet};
ghost use Rattle.bimap_undo.specs.AllOrNone.{AreAdded, AreAllRecorded, AreNoneRecorded};
ghost use Rattle.demo_registry.specs.Batch.{AreGiven, IsTakenBack};

use bimap::btree::Iter;
use bimap::{
    BiBTreeMap, ItemRefused, NoMemory, NotInserted, NotReplaced, OnHeld, Policy, replace_left,
    replace_right,
};
use bimap_undo::Undoable;
use std::alloc::Global;
use std::mem;

/// Ids and names. An id has one name, and a name has one id.
pub type Registry = BiBTreeMap<u32, String>;

/// Returns the name of an id, by one search.
pub fn name_of<'a>(registry: &'a Registry, id: &u32) -> Option<&'a String>
    ensures { IsFoundByLeft nat_eq (holding registry.now) id.now result }
{
    registry.get_by_left(id)
}

/// Returns the id of a name, by one search. The caller needs no `String`.
pub fn id_of<'a>(registry: &'a Registry, name: &str) -> Option<&'a u32>
    ensures { IsFoundByRight (λ held sought. bytes_eq (string_bytes held) sought)
        (holding registry.now) name.now result }
{
    registry.get_by_right(name)
}

/// Returns an iterator over all ids with their names, in ascending order of the ids. It allocates nothing. Each step
/// takes at most one descent in the tree.
pub fn members(registry: &Registry) -> Iter<'_, u32, String>
    ensures all { result ≡ (holding registry.now).pairs }
    ensures ascending { AllPairs (λ p q. nat_cmp p.0 q.0 ≡ Less) result }
{
    registry.iter()
}

/// Registers a name under an id. Neither may be taken.
///
/// The function allocates only if there is no spare capacity. An `Err` contains both values, and nothing changes.
pub fn register(
    registry: &mut Registry,
    id: u32,
    name: String,
) -> Result<(), NotInserted<u32, String>>
    ensures { IsInsertionWithoutOverwriting nat_eq string_eq (holding registry.old)
        (id, name) result (holding registry.new) }
{
    registry.insert_no_overwrite(id, name)
}

/// Gives the id of a name another name, and returns the old one.
///
/// The function makes two look-ups, a removal and an insertion. It allocates nothing. An `Err` contains the new name,
/// and nothing changes.
pub fn rename(
    registry: &mut Registry,
    from: &String,
    to: String,
) -> Result<String, NotReplaced<String>>
    ensures { IsReplacementOfRight string_eq (holding registry.old) from.now to result
        (holding registry.new) }
{
    replace_right(registry, from, to)
}

/// Gives the name of an id another id, and returns the old one. It costs what `rename` costs.
pub fn renumber(registry: &mut Registry, from: &u32, to: u32) -> Result<u32, NotReplaced<u32>>
    ensures { IsReplacementOfLeft nat_eq (holding registry.old) from.now to result
        (holding registry.new) }
{
    replace_left(registry, from, to)
}

/// Gives back all capacity that no member uses. The function allocates for the members that it moves.
///
/// Its time grows with the old capacity. It also makes one search for each member and side. An `Err` changes nothing.
pub fn give_back_room(registry: &mut Registry) -> Result<(), NoMemory>
    ensures { IsShrink (holding registry.old) 0 result (holding registry.new) }
{
    registry.shrink_to_fit()
}

/// Registers all members in a registry that records its changes, or none. It stops at the first member whose id or name
/// is taken. An earlier member of the same batch counts too. The error contains the refused member.
///
/// The function inserts each member once. It allocates for each member and for its record. After an `Err` the registry
/// contains exactly the members that it contained before. Its capacity may have grown.
pub fn register_recorded<I: IntoIterator<Item = (u32, String)>>(
    registry: &mut Undoable<Registry, u32, String>,
    members: I,
) -> Result<(), ItemRefused<u32, String>>
    requires ends { IsFiniteIterable I.into_iter_gives I.IntoIter.can_next
        I.IntoIter.remaining members }
    ensures all { OnOk result (AreAllRecorded nat_eq string_eq
        (I.into_iter_gives members) I.IntoIter.next_gives registry.old
        (record { left = OnHeld.Refuse; right = OnHeld.Refuse }) registry.new) }
    ensures none { IfErr result (λ e. AreNoneRecorded nat_eq string_eq
        (I.into_iter_gives members) I.IntoIter.next_gives registry.old
        (record { left = OnHeld.Refuse; right = OnHeld.Refuse }) e registry.new) }
    ensures registered { OnOk result ((batch : _)
        × AreGiven (I.into_iter_gives members) I.IntoIter.next_gives batch
        × AreAdded registry.old.held.pairs batch registry.new.held.pairs) }
    ensures same { IfErr result (λ e. IsSameSet (Contains registry.old.held.pairs)
        (Contains registry.new.held.pairs)) }
{
    let keep = Policy {
        left: OnHeld::Refuse,
        right: OnHeld::Refuse,
    };
    registry.insert_all(members, keep)
}

/// Registers all members, or none. It stops at the first member whose id or name is taken. An earlier member of the
/// same batch counts too. The error contains the refused member.
///
/// After an `Ok` every id and name of the batch is registered, all earlier members still are, and the registry has
/// grown by the length of the batch. The cost, and what an `Err` leaves, are those of `register_recorded`.
pub fn register_all<I: IntoIterator<Item = (u32, String)>>(
    alloc: Global,
    registry: &mut Registry,
    members: I,
) -> Result<(), ItemRefused<u32, String>>
    requires ends { IsFiniteIterable I.into_iter_gives I.IntoIter.can_next
        I.IntoIter.remaining members }
    ensures all { OnOk result (IsExtensionUnder nat_eq string_eq
        (I.into_iter_gives members) I.IntoIter.next_gives (holding registry.old)
        (record { left = OnHeld.Refuse; right = OnHeld.Refuse }) (holding registry.new)) }
    ensures registered { OnOk result ((batch : _)
        × AreGiven (I.into_iter_gives members) I.IntoIter.next_gives batch
        × AreAdded (holding registry.old).pairs batch (holding registry.new).pairs) }
    ensures none { IfErr result (λ e. IsTakenBack nat_eq string_eq
        (I.into_iter_gives members) I.IntoIter.next_gives (holding registry.old)
        (record { left = OnHeld.Refuse; right = OnHeld.Refuse }) e (holding registry.new)) }
{
    let registered = mem::replace(registry, BiBTreeMap::new(alloc));
    let mut recorded = Undoable::new(alloc, registered);
    match register_recorded(&mut recorded, members) {
        Ok(()) => {
            *registry = recorded.into_inner();
            Ok(())
        }
        Err(refused) => {
            *registry = recorded.into_inner();
            Err(refused)
        }
    }
}
