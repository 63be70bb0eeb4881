//! Marks over a map that is not one of the library's, and over texts, of which the record keeps copies.
use bimap::{Bijection, NoRoom};
use bimap_undo::Undoable;
use std::alloc::Global;
use std::process::Abort;
use std::test::Fail;
use test_support::{MemoryLimit, Plain};

type Texts = Undoable<Plain<String, i32>, String, i32>;

/// The contained pairs.
type Held = &'static [(&'static str, i32)];

const LONG: &str = "a text that is longer than a name";

// A pair to insert, and the pairs that the map then contains. The last three insertions overwrite a pair by its left, a
// pair by its right, and two pairs.
const ROWS: [(&str, i32, Held); 7] = [
    ("one", 1, &[("one", 1)]),
    ("two", 2, &[("one", 1), ("two", 2)]),
    (LONG, 3, &[("one", 1), ("two", 2), (LONG, 3)]),
    ("four", 4, &[("one", 1), ("two", 2), (LONG, 3), ("four", 4)]),
    (
        "two",
        12,
        &[("one", 1), ("two", 12), (LONG, 3), ("four", 4)],
    ),
    (
        "six",
        3,
        &[("one", 1), ("two", 12), ("six", 3), ("four", 4)],
    ),
    ("one", 4, &[("two", 12), ("six", 3), ("one", 4)]),
];

// Returns whether the map contains exactly these pairs, and this many changes are recorded.
fn stands(texts: &Texts, held: Held, mark: usize) -> bool {
    for &(left, right) in held {
        let found = texts.held().get_by_right(&right);
        if !found.is_some_and(|found| found.as_str() == left) {
            return false;
        }
    }
    texts.held().len() == held.len() && texts.mark() == mark
}

// Returns whether the pairs and the record are what the first `mark` rows left.
fn stands_at(texts: &Texts, mark: usize) -> bool {
    for (at, row) in ROWS.iter().enumerate() {
        if at.saturating_add(1) == mark {
            return stands(texts, row.2, mark);
        }
    }
    texts.held().len() == 0 && texts.mark() == mark
}

// Inserts a text without memory for its copy, and returns the text that the refused insertion gives back. It is an
// error if the insertion is not refused.
fn is_refused(alloc: Global, texts: &mut Texts, left: String, right: i32) -> Result<String, Fail> {
    let limit = MemoryLimit::begin(alloc, 0)?;
    let refused = texts.insert(left, right);
    drop(limit);
    match refused {
        Err(NoRoom { left, right: back }) if back == right => Ok(left),
        _ => Err("it found memory".into()),
    }
}

fn inserts_each(rt: &impl Abort, alloc: Global, texts: &mut Texts) -> Result<(), Fail> {
    for (at, row) in ROWS.iter().enumerate() {
        let left = is_refused(alloc, texts, String::from_str(alloc, row.0)?, row.1)?;
        assert_eq!(rt; left.as_str(), row.0);
        assert!(rt; stands_at(texts, at), "{}", row.0);
        assert!(rt; texts.insert(left, row.1).is_ok());
        assert!(rt; stands_at(texts, at.saturating_add(1)), "{}", row.0);
    }
    Ok(())
}

fn goes_back_by_each(texts: &mut Texts) -> bool {
    for mark in [7usize, 6, 5, 3, 2, 1, 0] {
        if texts.mark() < mark {
            return false;
        }
        texts.back_to(mark);
        if !stands_at(texts, mark) {
            return false;
        }
    }
    true
}

#[test]
fn goes_back_over_texts_and_a_plain_bimap(rt: HostRuntime) -> Result<(), Fail> {
    let alloc = rt.alloc();
    let mut texts = Undoable::new(alloc, Plain::new(alloc));
    inserts_each(&rt, alloc, &mut texts)?;
    let six = String::from_str(alloc, "six")?;
    assert!(rt; texts.remove_by_left(&six) == Ok(true));
    assert!(rt; stands(&texts, &[("two", 12), ("one", 4)], 8));
    let limit = MemoryLimit::begin(alloc, 0)?;
    let goes_back = goes_back_by_each(&mut texts);
    drop(limit);
    assert!(rt; goes_back);
    Ok(())
}
