//! Calls with a meter, and their bounds.
use crate::kind::ShellKind;
use crate::kinds::{has_ordered_left, has_ordered_right};
use crate::request::{On, Request};
use crate::word::Word;
use bimap::Bijection;
use std::alloc::AllocError;
use test_support::{CopyKind, at_zero};

// Returns how many searches by left and by right the bound of a call allows.
fn searches(call: &str) -> (u64, u64) {
    match call {
        "get_by_left" | "left_rank" | "to_front" | "to_back" => (1, 0),
        "get_by_right" | "right_rank" => (0, 1),
        "insert" => (3, 5),
        "first_by_left" | "last_by_left" | "pair_at_left_rank" => (0, 0),
        "first_by_right" | "last_by_right" | "pair_at_right_rank" => (0, 0),
        _ => (1, 1),
    }
}

// Returns how many comparisons a search makes at most. This is twice the number of binary digits of the length. On a
// hashed side it is 0.
fn effort(length: usize, is_ordered: bool) -> u64 {
    let digits = if is_ordered {
        usize::BITS.saturating_sub(length.leading_zeros())
    } else {
        0
    };
    u64::from(digits).saturating_mul(2)
}

fn bound(request: &Request<'_>, length: usize) -> u64 {
    let (left, right) = searches(request.call);
    let by_left = effort(length, has_ordered_left(request.kind)).saturating_mul(left);
    let by_right = effort(length, has_ordered_right(request.kind)).saturating_mul(right);
    by_left.saturating_add(by_right)
}

/// Makes the call with a meter, and writes what the meter counted.
pub fn call<B: CopyKind<Word, Word> + ShellKind>(
    bimap: &mut B,
    request: &Request<'_>,
    said: &mut String,
) -> Result<bool, AllocError> {
    let mut meter = at_zero();
    let bound = bound(request, bimap.len());
    if !bimap.count(request, &mut meter, said)? {
        return Ok(false);
    }
    let made = meter.comparisons();
    match request.on {
        On::Bounded if made <= bound => write!(said, ", within the bound")?,
        On::Bounded => write!(said, ", {made} comparisons, above the bound of {bound}")?,
        _ => write!(said, ", {made} comparisons")?,
    }
    Ok(true)
}
