//! Zero-sized values on both sides, under either index on either side.
use bimap::Overwritten;
use std::alloc::Global;
use std::process::Abort;
use test_support::{Kind, over_mixed_kinds};

fn on_both_sides<B: Kind<(), ()>>(rt: &impl Abort, alloc: Global) {
    let mut bimap = B::empty(alloc);
    assert!(rt; bimap.get_by_left(&()).is_none() && !bimap.contains_right(&()));
    assert!(rt; bimap.insert((), ()) == Ok(Overwritten::Neither));
    assert!(rt; bimap.insert((), ()) == Ok(Overwritten::Pair((), ())));
    assert!(rt; bimap.len() == 1 && bimap.get_by_left(&()) == Some(&()));
    assert!(rt; bimap.remove_by_right(&()) == Some(((), ())));
    assert!(rt; bimap.len() == 0 && bimap.remove_by_left(&()).is_none());
}

#[test]
fn values_may_have_no_bytes(rt: HostRuntime) {
    over_mixed_kinds!(on_both_sides, (), (), &rt);
}
