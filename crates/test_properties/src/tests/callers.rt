//! What a caller can write with iterators and `==`, and what the caller's contract can then say.
ghost use Rattle.std.specs.Prelude.{◌≡◌, IfOk, map, nat_eq, reverse};
ghost use Rattle.std.specs.Map.{keys_of, values_of};
ghost use Rattle.bimap_any.specs.Same.{same};
ghost use Rattle.bimap_kinds.specs.Held.{holding};
ghost use Rattle.bimap_kinds.specs.Held.{by_right};

use bimap::BiBTreeMap;
use std::alloc::{AllocError, Global};

fn are_equal(first: &BiBTreeMap<char, u32>, second: &BiBTreeMap<char, u32>) -> bool
    ensures { result ≡ same nat_eq nat_eq (holding first.now).pairs (holding second.now).pairs }
{
    first == second
}

fn rights_by_loop(alloc: Global, bimap: &BiBTreeMap<char, u32>) -> Result<Vec<u32>, AllocError>
    ensures { IfOk result (λ v. v.items ≡ values_of (holding bimap.now).pairs) }
{
    let mut rights = Vec::new(alloc);
    for (_, right) in bimap {
        rights.push(*right)?;
    }
    Ok(rights)
}

fn rights_by_chain(alloc: Global, bimap: &BiBTreeMap<char, u32>) -> Result<Vec<u32>, AllocError>
    ensures { IfOk result (λ v. v.items ≡ map (λ p. p.1) (holding bimap.now).pairs) }
{
    bimap.iter().map(|(_, right)| *right).collect(alloc)
}

fn sorted_rights(alloc: Global, bimap: &BiBTreeMap<char, u32>) -> Result<Vec<u32>, AllocError>
    ensures { IfOk result (λ v. v.items ≡ values_of (by_right bimap.now)) }
{
    bimap.right_values().copied().collect(alloc)
}

fn lefts_back(alloc: Global, bimap: &BiBTreeMap<char, u32>) -> Result<Vec<char>, AllocError>
    ensures { IfOk result (λ v. v.items ≡ reverse (keys_of (holding bimap.now).pairs)) }
{
    bimap.left_values().rev().copied().collect(alloc)
}

fn taken(alloc: Global, bimap: BiBTreeMap<char, u32>) -> Result<Vec<(char, u32)>, AllocError>
    ensures { IfOk result (λ v. v.items ≡ (holding bimap).pairs) }
{
    bimap.into_iter().collect(alloc)
}

fn taken_by_loop(
    alloc: Global,
    bimap: BiBTreeMap<char, u32>,
) -> Result<Vec<(char, u32)>, AllocError>
    ensures { IfOk result (λ v. v.items ≡ (holding bimap).pairs) }
{
    let mut pairs = Vec::new(alloc);
    for pair in bimap {
        pairs.push(pair)?;
    }
    Ok(pairs)
}
