//! Examples of look-ups by a borrowed form of a key.
use bimap::{BiBTreeMap, BiHashMap};
use std::alloc::AllocError;
use std::ops::Bound;
use std::process::Abort;

const NAMES: [(&str, u32); 4] = [("", 0), ("main", 1), ("mainly", 2), ("z", 3)];

// Returns names with their numbers, as an ordered map. The function below returns them as a hashed map.
fn ordered_names(rt: &impl AllocGlobal) -> Result<BiBTreeMap<String, u32>, AllocError> {
    let mut numbers = BiBTreeMap::new(rt.alloc());
    for (name, number) in NAMES {
        let name = String::from_str(rt.alloc(), name)?;
        if numbers.insert(name, number).is_err() {
            return Err(AllocError);
        }
    }
    Ok(numbers)
}

fn hashed_names(rt: &impl AllocGlobal) -> Result<BiHashMap<u32, String>, AllocError> {
    let mut names = BiHashMap::new(rt.alloc());
    for (name, number) in NAMES {
        let name = String::from_str(rt.alloc(), name)?;
        if names.insert(number, name).is_err() {
            return Err(AllocError);
        }
    }
    Ok(names)
}

#[test]
fn a_text_is_asked_for_by_a_str(rt: HostRuntime) {
    let mut numbers = ordered_names(&rt).ok().expect(&rt, "no memory");
    assert!(&rt; numbers.get_by_left("main") == Some(&1));
    assert!(&rt; numbers.remove_by_left("mainl").is_none());
}

#[test]
fn a_hashed_text_is_asked_for_by_a_str(rt: HostRuntime) {
    let mut names = hashed_names(&rt).ok().expect(&rt, "no memory");
    assert!(&rt; names.get_by_right("main") == Some(&1));
    assert!(&rt; names.remove_by_right("mainl").is_none());
}

#[test]
fn a_range_of_texts_ends_at_strs(rt: HostRuntime) {
    let numbers = ordered_names(&rt).ok().expect(&rt, "no memory");
    assert!(&rt;
        numbers
            .left_range_between(Bound::Included("m"), Bound::Excluded("n"))
            .len()
            == 2
    );
}

fn row(rt: &impl AllocGlobal, bytes: &[u8]) -> Result<Vec<u8>, AllocError> {
    let mut row = Vec::new(rt.alloc());
    row.extend_from_slice(bytes)?;
    Ok(row)
}

#[test]
fn a_vec_is_asked_for_by_a_slice(rt: HostRuntime) {
    let mut rows = BiBTreeMap::<&str, Vec<u8>>::new(rt.alloc());
    let first = row(&rt, &[1, 2]).ok().expect(&rt, "no memory");
    assert!(&rt; rows.insert("first", first).is_ok());
    assert!(&rt; rows.get_by_right([1u8, 2].as_slice()) == Some(&"first"));
}
