//! Insertions with the pairs that they overwrote, in the form that `undo_run` takes.
ghost use Rattle.std.specs.Prelude.{IfOk};
ghost use Rattle.bimap.specs.Trail.{Leads};

use bimap::{Bijection, Overwritten};
use std::alloc::{AllocError, Global};

/// Inserts the pairs, and returns the entries with which `undo_run` undoes the insertions.
///
/// It allocates the entries first. If an insertion runs out of memory, the pairs before it stay in the map.
pub fn insert_all<L: Copy + Eq + Drop, R: Copy + Eq + Drop, B: Bijection<L, R>>(
    alloc: Global,
    bimap: &mut B,
    pairs: &[(L, R)],
) -> Result<Vec<(L, Overwritten<L, R>)>, AllocError>
    ensures { IfOk result (λ entries. Leads L.eq R.eq (B.holding bimap.old).pairs entries.items
        (B.holding bimap.new).pairs) }
{
    let mut entries = Vec::with_capacity(alloc, pairs.len())?;
    for &(left, right) in pairs {
        match bimap.insert(left, right) {
            Ok(answer) => entries.push_reserved((left, answer)),
            Err(_) => return Err(AllocError),
        }
    }
    Ok(entries)
}
