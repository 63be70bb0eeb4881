//! A meter counts exactly what the keys see: each comparison of an ordered side, and none of a hashed side.
use bimap::BijectiveMap;
use bimap::btree::Count;
use bimap_index::{EmptyIndex, HashIndex, Index};
use bimap_tree::Ordered;
use std::alloc::Global;
use std::cell::Cell;
use std::hash::{BuildHasherDefault, FoldHasher};
use std::process::Abort;
use test_support::{Counted, Counter, at_zero, counted_at};

type Map<'a, I, J> = BijectiveMap<Counted<'a>, Counted<'a>, I, J>;

type Hashed = HashIndex<BuildHasherDefault<FoldHasher>>;

/// One trial: the cells in which keys count their comparisons, the number of pairs in the map, and the number with
/// which a call is made. The keys of an ordered side count in `seen`, and those of a hashed side in another cell.
#[derive(Clone, Copy)]
struct Trial<'a> {
    seen: &'a Cell<u64>,
    left: &'a Cell<u64>,
    right: &'a Cell<u64>,
    length: u32,
    number: u32,
}

// Fills the map with pairs of odd numbers, as many as the trial says. The rights are in another order than the lefts.
// Sets what the keys saw to zero, and returns a new meter.
fn fill<'a, I: Index<Counted<'a>>, J: Index<Counted<'a>>>(
    map: &mut Map<'a, I, J>,
    trial: Trial<'a>,
) -> Counter<Count> {
    map.clear();
    for at in 0..trial.length {
        let right = at.wrapping_mul(11) % trial.length;
        let _ = map.insert(
            counted_at(at.wrapping_mul(2) | 1, trial.left),
            counted_at(right.wrapping_mul(2) | 1, trial.right),
        );
    }
    trial.seen.set(0);
    at_zero()
}

fn agree(rt: &impl Abort, trial: Trial<'_>, meter: &Counter<Count>, call: &str) {
    let (length, number) = (trial.length, trial.number);
    assert_eq!(rt;
        meter.comparisons(),
        trial.seen.get(),
        "{call} of {number} at {length}"
    );
}

// Makes a call with the meter, and tests that the meter counted what the keys saw.
macro_rules! counts {
    ($rt:ident, $trial:ident, $meter:ident, $map:ident.$call:ident($($handed:expr),*)) => {{
        let _ = $map.$call($($handed,)* &mut $meter);
        agree($rt, $trial, &$meter, stringify!($call));
    }};
}

// Makes look-ups and removals by a value, which may be contained or not.
fn of_values<'a, I: Index<Counted<'a>>, J: Index<Counted<'a>>>(
    rt: &impl Abort,
    map: &mut Map<'a, I, J>,
    trial: Trial<'a>,
) {
    let left = counted_at(trial.number, trial.left);
    let right = counted_at(trial.number, trial.right);
    let mut meter = fill(map, trial);
    counts!(rt, trial, meter, map.get_by_left_metered(&left));
    counts!(rt, trial, meter, map.get_by_right_metered(&right));
    counts!(rt, trial, meter, map.remove_by_left_metered(&left));
    meter = fill(map, trial);
    counts!(rt, trial, meter, map.remove_by_right_metered(&right));
}

// Makes insertions that overwrite by either side, by both sides, or by none.
fn of_pairs<'a, I: Index<Counted<'a>>, J: Index<Counted<'a>>>(
    rt: &impl Abort,
    map: &mut Map<'a, I, J>,
    trial: Trial<'a>,
) {
    let left = counted_at(trial.number, trial.left);
    let right = counted_at(trial.number, trial.right);
    let other = counted_at(trial.number ^ 1, trial.right);
    let mut meter = fill(map, trial);
    counts!(rt, trial, meter, map.insert_metered(left, other));
    counts!(rt, trial, meter, map.insert_metered(left, right));
    meter = fill(map, trial);
    counts!(
        rt,
        trial,
        meter,
        map.get_by_left_or_insert_metered(left, right)
    );
}

// Asks for the ends and ranks of an ordered left.
fn of_lefts<'a, J: Index<Counted<'a>>>(
    rt: &impl Abort,
    map: &mut Map<'a, Ordered, J>,
    trial: Trial<'a>,
) {
    let left = counted_at(trial.number, trial.left);
    let rank = trial.number as usize;
    let mut meter = fill(map, trial);
    counts!(rt, trial, meter, map.left_rank_metered(&left));
    counts!(rt, trial, meter, map.pair_at_left_rank_metered(rank));
    counts!(rt, trial, meter, map.first_by_left_metered());
    counts!(rt, trial, meter, map.last_by_left_metered());
    counts!(rt, trial, meter, map.pop_first_by_left_metered());
    meter = fill(map, trial);
    counts!(rt, trial, meter, map.pop_last_by_left_metered());
}

// Asks for the ends and ranks of an ordered right.
fn of_rights<'a, I: Index<Counted<'a>>>(
    rt: &impl Abort,
    map: &mut Map<'a, I, Ordered>,
    trial: Trial<'a>,
) {
    let right = counted_at(trial.number, trial.right);
    let rank = trial.number as usize;
    let mut meter = fill(map, trial);
    counts!(rt, trial, meter, map.right_rank_metered(&right));
    counts!(rt, trial, meter, map.pair_at_right_rank_metered(rank));
    counts!(rt, trial, meter, map.first_by_right_metered());
    counts!(rt, trial, meter, map.last_by_right_metered());
    counts!(rt, trial, meter, map.pop_first_by_right_metered());
    meter = fill(map, trial);
    counts!(rt, trial, meter, map.pop_last_by_right_metered());
}

// Makes the calls at each length, with numbers of which every other one is contained.
macro_rules! at_each_length {
    ($trial:ident => $calls:expr) => {{
        for length in [0, 1, 2, 3, 7, 8, 1000u32] {
            for turn in 0..18u32 {
                let number = turn.wrapping_mul(length / 8 | 1);
                let $trial = Trial { length, number, ..$trial };
                $calls;
            }
        }
    }};
}

fn any<'a, I: EmptyIndex<Counted<'a>> + Drop, J: EmptyIndex<Counted<'a>> + Drop>(
    rt: &impl Abort,
    alloc: Global,
    trial: Trial<'a>,
) {
    let map: &mut Map<'a, I, J> = &mut BijectiveMap::empty(alloc);
    at_each_length!(trial => {
        of_values(rt, map, trial);
        of_pairs(rt, map, trial);
    });
}

fn ordered_left<'a, J: EmptyIndex<Counted<'a>> + Drop>(
    rt: &impl Abort,
    alloc: Global,
    trial: Trial<'a>,
) {
    let map: &mut Map<'a, Ordered, J> = &mut BijectiveMap::empty(alloc);
    at_each_length!(trial => of_lefts(rt, map, trial));
}

fn ordered_right<'a, I: EmptyIndex<Counted<'a>> + Drop>(
    rt: &impl Abort,
    alloc: Global,
    trial: Trial<'a>,
) {
    let map: &mut Map<'a, I, Ordered> = &mut BijectiveMap::empty(alloc);
    at_each_length!(trial => of_rights(rt, map, trial));
}

#[test]
fn a_meter_counts_what_the_keys_saw(rt: HostRuntime) {
    let alloc = rt.alloc();
    let (seen, beside) = (&Cell::new(0u64), &Cell::new(0u64));
    let both = Trial {
        seen,
        left: seen,
        right: seen,
        length: 0,
        number: 0,
    };
    let left = Trial {
        right: beside,
        ..both
    };
    let right = Trial {
        left: beside,
        ..both
    };
    let neither = Trial {
        right: beside,
        ..right
    };
    any::<Ordered, Ordered>(&rt, alloc, both);
    any::<Ordered, Hashed>(&rt, alloc, left);
    any::<Hashed, Ordered>(&rt, alloc, right);
    any::<Hashed, Hashed>(&rt, alloc, neither);
    ordered_left::<Ordered>(&rt, alloc, both);
    ordered_left::<Hashed>(&rt, alloc, left);
    ordered_right::<Ordered>(&rt, alloc, both);
    ordered_right::<Hashed>(&rt, alloc, right);
}
