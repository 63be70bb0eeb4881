//! A map of texts. Cloning a text allocates, and so does making JSON of it.
use bimap::value::{JsonFault, JsonObject, Value};
use bimap::{BiBTreeMap, Bijection, NoMemory};
use std::alloc::{AllocError, Global};
use std::process::Abort;
use test_support::MemoryLimit;

type Texts = BiBTreeMap<String, char>;

const TEXT: &str =
    "{\"eighteen\":\"A\",\"neunzehn\":\"ß\",\"zwanzig, and more than one word\":\"€\"}";

// Makes the call and returns whether its result is right, or `None` if it ran out of memory.
fn made(alloc: Global, call: u32, texts: &Texts, value: &Value) -> Option<bool> {
    match call {
        0 => match Texts::from_value(alloc, value) {
            Ok(read) => Some(read == *texts),
            Err(fault) => (fault != JsonFault::Memory).then_some(false),
        },
        1 => match texts.to_value(alloc) {
            Ok(written) => Some(
                written
                    .as_object()
                    .is_some_and(|entries| entries.len() == 3),
            ),
            Err(NoMemory) => None,
        },
        2 => match texts.clone() {
            Ok(copy) => Some(copy == *texts && copy.capacity() >= texts.capacity()),
            Err(NoMemory) => None,
        },
        _ => match Texts::with_capacity(alloc, 20) {
            Ok(empty) => Some(empty.is_empty() && empty.capacity() == 20),
            Err(NoMemory) => None,
        },
    }
}

// Makes the call again and again, with a little more memory each time. Returns how often it ran out of memory. Returns
// `None` if the result is wrong or if the call never succeeds.
fn refusals(
    alloc: Global,
    call: u32,
    texts: &Texts,
    value: &Value,
) -> Result<Option<u64>, AllocError> {
    let mut limit = MemoryLimit::begin(alloc, 400)?;
    for refusals in 0..400u64 {
        if let Some(right) = made(alloc, call, texts, value) {
            return Ok(right.then_some(refusals));
        }
        limit.raise()?;
    }
    Ok(None)
}

fn refused(rt: &impl Abort, alloc: Global, texts: &Texts, value: &Value) {
    for (call, least) in [(0, 8), (1, 8), (2, 6), (3, 3)] {
        let met = refusals(alloc, call, texts, value).expect(rt, "memory");
        assert!(rt; met.is_some_and(|met| met >= least), "{call}: {met:?}");
    }
}

#[test]
fn what_is_refused_makes_nothing(rt: HostRuntime) {
    let alloc = rt.alloc();
    let value = Value::from_str(alloc, TEXT).expect(&rt, "JSON");
    let texts = Texts::from_value(alloc, &value).expect(&rt, "texts");
    refused(&rt, alloc, &texts, &value);
    assert_eq!(rt; texts.len(), 3);
    let text = value.to_string(alloc).expect(&rt, "memory");
    assert_eq!(rt; text.as_str(), TEXT);
}
