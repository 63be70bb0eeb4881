//! Items whose iterator gives no upper bound of their number, or one that is far too large. Allocating by such a bound
//! would fail.
ghost use Rattle.std.specs.Iterator.{YieldsFirst, item_count};

use bimap::BiBTreeMap;
use std::alloc::Global;
use test_support::shows;

#[derive(Drop)]
struct Hinted<'a> {
    items: &'a [(char, u32)],
    is_bounded: bool,
}

impl<'a> Iterator for Hinted<'a> {
    type Item = (char, u32);

    ghost next_gives = { YieldsFirst (λ s. s.items.now) };

    ghost remaining = { item_count (λ s. s.items.now) };

    fn next(&mut self) -> Option<(char, u32)> {
        let (first, others) = self.items.split_first()?;
        self.items = others;
        Some(*first)
    }

    fn size_hint(&self) -> (usize, Option<usize>) {
        let _len = self.items.len();
        (0, self.is_bounded.then_some(usize::MAX))
    }
}

const ITEMS: [(char, u32); 3] = [('a', 1), ('b', 2), ('c', 2)];

// Each call is in a function without clauses, so that the test's proof carries no fact about the call.
fn extended(bimap: &mut BiBTreeMap<char, u32>, is_bounded: bool) -> bool {
    bimap
        .extend(Hinted {
            items: &ITEMS,
            is_bounded,
        })
        .is_ok()
}

fn made(alloc: Global, is_bounded: bool) -> Option<BiBTreeMap<char, u32>> {
    BiBTreeMap::from_iter(
        alloc,
        Hinted {
            items: &ITEMS,
            is_bounded,
        },
    )
    .ok()
}

#[test]
fn no_hint_is_trusted(rt: HostRuntime) {
    for is_bounded in [true, false] {
        let made = made(rt.alloc(), is_bounded).expect(&rt, "no memory");
        assert!(&rt; shows(&made, &[('a', 1), ('c', 2)]));
        let mut bimap = BiBTreeMap::new(rt.alloc());
        assert!(&rt; extended(&mut bimap, is_bounded));
        assert!(&rt; shows(&bimap, &[('a', 1), ('c', 2)]));
    }
}
