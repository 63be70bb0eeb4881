//! Reads maps from JSON and writes them as JSON. Each type occurs on both sides of a map, as a left, and as a right.
use crate::pairs::pairs_of_kind;
use crate::texts::{numbered, repeated};
use bimap::value::{JsonFault, JsonKey, JsonObject, JsonValue, read_text_with, reread};
use bimap::{
    BiBTreeHashMap, BiBTreeMap, BiHashBTreeMap, BiHashMap, BiInsertionOrderMap, NoMemory, Policy,
};
use serde_json::Value;
use std::alloc::{AllocError, Global};
use std::fmt::Debug;
use std::hash::Hash;

/// A line that asks for JSON.
#[derive(Clone, Copy)]
pub struct JsonCall<'a> {
    pub alloc: Global,
    /// Whether the text is an array of pairs. If not, it is an object.
    pub of_pairs: bool,
    pub types: (&'a str, &'a str),
    pub policy: Policy,
    pub text: &'a str,
}

fn write_fault(fault: JsonFault, said: &mut String) -> Result<bool, AllocError> {
    write!(said, "Err({fault:?})")?;
    Ok(true)
}

// Writes the text of a map, and whether reading this text gives an equal map.
fn write_text(
    text: Result<Value, NoMemory>,
    equal: Result<bool, JsonFault>,
    said: &mut String,
) -> Result<bool, AllocError> {
    match text {
        Ok(value) => write!(said, "Ok({value})")?,
        Err(refused) => write!(said, "{refused:?}")?,
    }
    match equal {
        Ok(equal) => write!(said, " · {equal}")?,
        Err(fault) => write!(said, " · {fault:?}")?,
    }
    Ok(true)
}

// Reads the text into an empty map, and writes the map as a text.
macro_rules! both_ways {
    ($empty:expr, $text:ident, $request:ident, $said:ident) => {{
        let alloc = $request.alloc;
        match read_text_with(alloc, $empty, $text, $request.policy) {
            Err(fault) => write_fault(fault, $said),
            Ok(read) => {
                let equal = match reread(alloc, &read) {
                    Ok(again) => Ok(again == read),
                    Err(fault) => Err(fault),
                };
                write_text(read.to_value(alloc), equal, $said)
            }
        }
    }};
}

fn ordered<L: JsonKey + Ord + Drop, R: JsonValue + Ord + Drop>(
    text: &str,
    request: &JsonCall<'_>,
    said: &mut String,
) -> Result<bool, AllocError> {
    both_ways!(BiBTreeMap::<L, R>::new(request.alloc), text, request, said)
}

fn hashed<L: JsonKey + Hash + Drop, R: JsonValue + Hash + Drop>(
    text: &str,
    request: &JsonCall<'_>,
    said: &mut String,
) -> Result<bool, AllocError> {
    both_ways!(BiHashMap::<L, R>::new(request.alloc), text, request, said)
}

fn ordered_left<L: JsonKey + Ord + Drop, R: JsonValue + Hash + Drop>(
    text: &str,
    request: &JsonCall<'_>,
    said: &mut String,
) -> Result<bool, AllocError> {
    both_ways!(
        BiBTreeHashMap::<L, R>::new(request.alloc),
        text,
        request,
        said
    )
}

fn ordered_right<L: JsonKey + Hash + Drop, R: JsonValue + Ord + Drop>(
    text: &str,
    request: &JsonCall<'_>,
    said: &mut String,
) -> Result<bool, AllocError> {
    both_ways!(
        BiHashBTreeMap::<L, R>::new(request.alloc),
        text,
        request,
        said
    )
}

fn insertion_order<L: JsonKey + Hash + Drop, R: JsonValue + Hash + Drop>(
    text: &str,
    request: &JsonCall<'_>,
    said: &mut String,
) -> Result<bool, AllocError> {
    both_ways!(
        BiInsertionOrderMap::<L, R>::new(request.alloc),
        text,
        request,
        said
    )
}

// Returns the text of the request. `each N MEMBER` stands for an object or an array of N members.
fn text_of(request: &JsonCall<'_>) -> Result<String, AllocError> {
    let alloc = request.alloc;
    let Some((count, member)) = repeated(request.text) else {
        return String::from_str(alloc, request.text);
    };
    let (first, last) = if request.of_pairs {
        ("[", "]")
    } else {
        ("{", "}")
    };
    let mut members = String::from_str(alloc, first)?;
    let mut between = "";
    for number in 0..count {
        write!(members, "{between}{}", numbered(alloc, member, number)?)?;
        between = ",";
    }
    write!(members, "{last}")?;
    Ok(members)
}

fn of_kind<
    L: JsonKey + JsonValue + Debug + Ord + Hash + Drop,
    R: JsonValue + Debug + Ord + Hash + Drop,
>(kind: usize, request: &JsonCall<'_>, said: &mut String) -> Result<bool, AllocError> {
    let text = text_of(request)?;
    let text = text.as_str();
    if request.of_pairs {
        return pairs_of_kind::<L, R>(kind, text, request, said);
    }
    match kind {
        0 => ordered::<L, R>(text, request, said),
        1 => hashed::<L, R>(text, request, said),
        2 => ordered_left::<L, R>(text, request, said),
        3 => ordered_right::<L, R>(text, request, said),
        5 => insertion_order::<L, R>(text, request, said),
        _ => Ok(false),
    }
}

/// Reads and writes JSON at the types that the request names, by the type of map of this number. Returns whether there
/// is such a type of map.
pub fn json_call(
    kind: usize,
    request: &JsonCall<'_>,
    said: &mut String,
) -> Result<bool, AllocError> {
    match request.types {
        ("char", "char") => of_kind::<char, char>(kind, request, said),
        ("String", "String") => of_kind::<String, String>(kind, request, said),
        ("u8", "u8") => of_kind::<u8, u8>(kind, request, said),
        ("u32", "u32") => of_kind::<u32, u32>(kind, request, said),
        ("u64", "u64") => of_kind::<u64, u64>(kind, request, said),
        ("i32", "i32") => of_kind::<i32, i32>(kind, request, said),
        ("i64", "i64") => of_kind::<i64, i64>(kind, request, said),
        ("u16", "u16") => of_kind::<u16, u16>(kind, request, said),
        ("usize", "usize") => of_kind::<usize, usize>(kind, request, said),
        ("i8", "i8") => of_kind::<i8, i8>(kind, request, said),
        ("i16", "i16") => of_kind::<i16, i16>(kind, request, said),
        ("bool", "bool") => of_kind::<bool, bool>(kind, request, said),
        ("char", "u8") => of_kind::<char, u8>(kind, request, said),
        ("char", "i32") => of_kind::<char, i32>(kind, request, said),
        ("String", "char") => of_kind::<String, char>(kind, request, said),
        ("String", "u8") => of_kind::<String, u8>(kind, request, said),
        ("u8", "String") => of_kind::<u8, String>(kind, request, said),
        ("u32", "i64") => of_kind::<u32, i64>(kind, request, said),
        ("u64", "char") => of_kind::<u64, char>(kind, request, said),
        ("i32", "u8") => of_kind::<i32, u8>(kind, request, said),
        ("i32", "u64") => of_kind::<i32, u64>(kind, request, said),
        ("i64", "u32") => of_kind::<i64, u32>(kind, request, said),
        _ => Ok(false),
    }
}
