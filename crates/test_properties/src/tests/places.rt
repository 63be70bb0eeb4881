//! Reading an object gives the capacity that inserting its entries would give. It starts at four and doubles.
use bimap::value::{JsonObject, Value};
use bimap::{BiBTreeHashMap, BiBTreeMap, BiHashBTreeMap, BiHashMap};
use std::alloc::Global;
use std::process::Abort;

/// An object, and the capacity of a map of its entries.
const ROWS: [(&str, usize); 3] = [
    (r#"{"1":1}"#, 4),
    (r#"{"1":1,"2":2,"3":3}"#, 4),
    (r#"{"1":1,"2":2,"3":3,"4":4,"5":5}"#, 8),
];

fn makes_places<B: JsonObject<u8, u8> + Drop>(rt: &impl Abort, alloc: Global) {
    for (text, capacity) in ROWS {
        let value = Value::from_str(alloc, text).expect(rt, "JSON");
        let read = B::from_value(alloc, &value).expect(rt, "memory");
        assert_eq!(rt; read.capacity(), capacity, "{text}");
    }
}

#[test]
fn a_reading_reserves_no_places_ahead(rt: HostRuntime) {
    let alloc = rt.alloc();
    makes_places::<BiBTreeMap<u8, u8>>(&rt, alloc);
    makes_places::<BiHashMap<u8, u8>>(&rt, alloc);
    makes_places::<BiBTreeHashMap<u8, u8>>(&rt, alloc);
    makes_places::<BiHashBTreeMap<u8, u8>>(&rt, alloc);
}
