//! Names with their codes. A name has one code, and a code has one name.
//!
//! This file calls the facade `bimap` alone, and it has no proof of its own.
ghost use Rattle.std.specs.Prelude.{◌≡◌, [], Contains, IfOk, IfErr, OnOk, OnErr};
ghost use Rattle.std.specs.Iterator.{IsFiniteIterable};
ghost use Rattle.bimap.specs.Answer.{IsRefusal};
ghost use Rattle.bimap.specs.BTree.{holding};
ghost use Rattle.bimap.specs.Extension.{IsExtensionUnder, IsExtensionStoppedUnder};
ghost use Rattle.bimap.specs.Holding.{Holding, IsFull, IsFoundByLeft, IsFoundByRight};
ghost use Rattle.bimap.specs.JsonDocument.{ReadsTextUnder};
ghost use Rattle.bimap.specs.JsonObjects.{IsObjectOf, IsEntryOf, EachReadsBack};
ghost use Rattle.bimap.specs.Sets.{IsWithPut, LacksLeft, LacksRight};
ghost use Rattle.bimap.specs.View.{view};

use bimap::value::{JsonFault, JsonKey, JsonObject, JsonValue, Value, read_text_with};
use bimap::{
    BiBTreeHashMap, ItemRefused, NoMemory, NotInserted, OnHeld, Policy, extend_with, from_iter_with,
};
use std::alloc::Global;
use std::hash::Hash;

// Refuses a name or a code that is in the table already.
const ONCE: Policy = Policy {
    left: OnHeld::Refuse,
    right: OnHeld::Refuse,
};

/// Reads a table from a JSON object whose keys are the names.
///
/// It is an error if a name stands twice in the text. If entries repeat a code, the error names the first of them. The
/// entries are counted in ascending byte order of their names.
///
/// The function inserts each entry once. It allocates for the table, and twice for the values of the text. An `Err`
/// leaves no table.
pub fn read_codes<L: JsonKey + Ord + Drop, R: JsonValue + Eq + Hash + Drop>(
    alloc: Global,
    text: &str,
) -> Result<BiBTreeHashMap<L, R>, JsonFault>
    ensures { ReadsTextUnder L.reads_key R.reads L.eq R.eq holding 0 text.now
        (record { left = OnHeld.Refuse; right = OnHeld.Refuse }) result }
{
    read_text_with(alloc, BiBTreeHashMap::new(alloc), text, ONCE)
}

/// Fills an empty table with names and their codes, and returns it. It stops at the first item whose name or code is in
/// the table already. The error contains this item and its number.
///
/// The function inserts each item once. It allocates only if the table has no spare capacity. An `Err` leaves no table.
pub fn collect_codes<L: Ord + Drop, R: Eq + Hash + Drop, I: IntoIterator<Item = (L, R)>>(
    empty: BiBTreeHashMap<L, R>,
    items: I,
) -> Result<BiBTreeHashMap<L, R>, ItemRefused<L, R>>
    requires empty { (holding empty).pairs ≡ [] }
    requires ends { IsFiniteIterable I.into_iter_gives I.IntoIter.can_next
        I.IntoIter.remaining items }
    ensures table { IfOk result (λ codes. IsExtensionUnder L.eq R.eq
        (I.into_iter_gives items) I.IntoIter.next_gives (holding empty)
        (record { left = OnHeld.Refuse; right = OnHeld.Refuse }) (holding codes)) }
    ensures refused { IfErr result (λ e. (last : Holding L R) × IsExtensionStoppedUnder L.eq R.eq
        (I.into_iter_gives items) I.IntoIter.next_gives (holding empty)
        (record { left = OnHeld.Refuse; right = OnHeld.Refuse }) e last) }
{
    from_iter_with(empty, items, ONCE)
}

/// Returns the table as a JSON object. Reading the object gives the pairs of the table again.
///
/// The function allocates for each entry. If it runs out of memory, it makes nothing.
pub fn written<L: JsonKey + Ord + Drop, R: JsonValue + Eq + Hash + Drop>(
    alloc: Global,
    codes: &BiBTreeHashMap<L, R>,
) -> Result<Value, NoMemory>
    ensures object { IfOk result (λ object. IsObjectOf
        (IsEntryOf L.writes_key R.writes (Contains (holding codes.now).pairs)) (view object)) }
    ensures reads_back { OnOk result (EachReadsBack L.writes_key R.writes L.reads_key R.reads L.eq
        R.eq (holding codes.now).pairs) }
{
    codes.to_value(alloc)
}

/// Returns the code of a name. It is one search in the order of the names.
pub fn code_of<'a, L: Ord, R: Eq + Hash>(codes: &'a BiBTreeHashMap<L, R>, name: &L) -> Option<&'a R>
    ensures { IsFoundByLeft L.eq (holding codes.now) name.now result }
{
    codes.get_by_left(name)
}

/// Returns the name of a code. It is a look-up by hash.
pub fn name_of<'a, L: Ord, R: Eq + Hash>(codes: &'a BiBTreeHashMap<L, R>, code: &R) -> Option<&'a L>
    ensures { IsFoundByRight R.eq (holding codes.now) code.now result }
{
    codes.get_by_right(code)
}

/// Gives a new name a free code. If the name or the code is in the table, or if there is no memory, the table does not
/// change.
pub fn assign<L: Ord + Drop, R: Eq + Hash + Drop>(
    codes: &mut BiBTreeHashMap<L, R>,
    name: L,
    code: R,
) -> Result<(), NotInserted<L, R>>
    ensures was_new { OnOk result (LacksLeft L.eq (Contains (holding codes.old).pairs) name) }
    ensures was_free { OnOk result (LacksRight R.eq (Contains (holding codes.old).pairs) code) }
    ensures assigned { OnOk result (IsWithPut L.eq R.eq (Contains (holding codes.old).pairs)
        (name, code) (Contains (holding codes.new).pairs)) }
    ensures refused { IfErr result (IsRefusal L.eq R.eq (Contains (holding codes.old).pairs)
        (IsFull (holding codes.old)) (name, code)) }
    ensures unchanged { OnErr result (holding codes.new ≡ holding codes.old) }
{
    codes.insert_no_overwrite(name, code)
}

/// Gives new names free codes, in order. It stops at the first item whose name or code is in the table already. The
/// error contains this item and its number.
///
/// The function inserts each item once. It allocates only if the table has no spare capacity. After an `Err` the table
/// contains the items before the refused one.
pub fn assign_all<L: Ord + Drop, R: Eq + Hash + Drop, I: IntoIterator<Item = (L, R)>>(
    codes: &mut BiBTreeHashMap<L, R>,
    items: I,
) -> Result<(), ItemRefused<L, R>>
    requires ends { IsFiniteIterable I.into_iter_gives I.IntoIter.can_next
        I.IntoIter.remaining items }
    ensures assigned { OnOk result (IsExtensionUnder L.eq R.eq
        (I.into_iter_gives items) I.IntoIter.next_gives (holding codes.old)
        (record { left = OnHeld.Refuse; right = OnHeld.Refuse }) (holding codes.new)) }
    ensures stopped { IfErr result (λ e. IsExtensionStoppedUnder L.eq R.eq
        (I.into_iter_gives items) I.IntoIter.next_gives (holding codes.old)
        (record { left = OnHeld.Refuse; right = OnHeld.Refuse }) e (holding codes.new)) }
{
    extend_with(codes, items, ONCE)
}
