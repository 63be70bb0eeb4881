//! Examples of maps whose kind is chosen when they are made.
use bimap::{BiHashMap, Bijection, Overwritten};
use bimap_dynamic::{AnyMap, AnyOf};

#[test]
fn a_map_of_a_chosen_kind(rt: HostRuntime) {
    let alloc = rt.alloc();
    let mut seats: AnyMap<char, u32> = AnyOf::Hashed(BiHashMap::new(alloc));
    assert!(&rt; seats.insert('a', 3) == Ok(Overwritten::Neither));
    assert!(&rt; seats.get_by_right(&3) == Some(&'a'));
}
