//! Any map from the text of a JSON object. It does not know how an entry is read.
ghost use Rattle.std.specs.Prelude.{◌≡◌, [], Some, IfOk, IfErr, OnOk};
ghost use Rattle.serde_json.specs.Data.{Data};
ghost use Rattle.bimap_base.specs.declared.policy.OnHeld.TheVariants.{Refuse};
ghost use Rattle.serde_json.specs.Read.{read as read_text};
ghost use Rattle.bimap.specs.JsonDocument.{IsNamedOnce, IsTextFault, ReadsTextUnder};
ghost use Rattle.bimap.specs.JsonObjects.{FollowEntries};

use crate::value::object::{JsonFault, read_into_with};
use crate::value::sides::{JsonKey, JsonValue};
use bimap_any::Bijection;
use bimap_base::Policy;
use json::Scratch;
use serde_json::Value;
use std::alloc::Global;

// Checks that no object in a text has a name twice, if the policy keeps lefts.
fn check_names(alloc: Global, text: &str, policy: Policy) -> Result<(), JsonFault>
    ensures once { OnOk result (policy.left ≡ Refuse → IsNamedOnce text.now) }
    ensures fault { IfErr result (IsTextFault text.now policy) }
{
    if !policy.left.refuses() {
        return Ok(());
    }
    let mut scratch = Scratch::new(alloc);
    match json::Value::parse_strict(alloc, text, &mut scratch) {
        Ok(_) => Ok(()),
        Err(json::Error::DuplicateKey) => Err(JsonFault::NameTwice),
        Err(json::Error::OutOfMemory) => Err(JsonFault::Memory),
        Err(json::Error::Invalid) => Err(JsonFault::NotJson),
        Err(json::Error::TooLong) => unreachable!(),
    }
}

/// Inserts the entries of a JSON text's object into an empty map under the policy, and returns the map.
///
/// Of members with one name, the last alone is an entry. If `policy.left` is `Refuse`, a name that stands twice is a
/// fault, in any object of the text.
///
/// It looks for the faults of the text in this order: the grammar (`NotJson`), names that stand twice (`NameTwice`),
/// then numbers out of range and too many levels (`NotJson`). So `{"a":1e999}` gives `NotJson`, and `{"b":1e999,"b":1}`
/// gives `NameTwice` if `policy.left` is `Refuse`. After that come the faults of the value.
///
/// Condition: `empty` contains no pair.
///
/// Time: That of parsing the text, and of `read_into_with`. If `policy.left` is `Refuse`, the text is parsed twice.
///
/// Memory: It allocates the parsed values, and what `read_into_with` allocates. If `policy.left` is `Refuse`, comparing
/// names allocates too.
///
/// `Err`: The first fault of the text or of its object, or out of memory (`Memory`). The map is dropped.
///
///     // no guest twice: {"A": 1, "B": 2, "A": 3} gives Err(JsonFault::NameTwice)
///     let once = Policy { left: OnHeld::Refuse, right: OnHeld::Refuse };
///     let seats = read_text_with(alloc, BiBTreeMap::new(alloc), text, once)?;
pub fn read_text_with<L: JsonKey + Drop, R: JsonValue + Drop, B: Bijection<L, R> + Drop>(
    alloc: Global,
    empty: B,
    text: &str,
    policy: Policy,
) -> Result<B, JsonFault>
    requires empty { (B.holding empty).pairs ≡ [] }
    ensures read { ReadsTextUnder L.reads_key R.reads L.eq R.eq B.holding (B.holding empty).room
        text.now policy result }
    ensures position { B.appends → IfOk result (λ bimap. (v : Data) × (read_text text.now ≡ Some v)
        × FollowEntries L.reads_key R.reads v (B.holding bimap).pairs) }
{
    check_names(alloc, text, policy)?;
    match Value::from_str(alloc, text) {
        Ok(value) => read_into_with(alloc, empty, &value, policy),
        Err(error) if error.is_memory() => Err(JsonFault::Memory),
        Err(_) => Err(JsonFault::NotJson),
    }
}
