//! A batch of members beside a registry, which it does not change.
use crate::registry::Registry;
use bimap::{Bijection, Call, ItemRefused, NotInsertedWith, OnHeld, Policy};
use std::alloc::{AllocError, Global};
use std::convert::Infallible;

// Adds a member to a batch if neither its id nor its name is taken, in the registry or in the batch.
fn add<B: Bijection<u32, String>>(
    registry: &B,
    batch: &mut B,
    id: u32,
    name: String,
) -> Result<(), NotInsertedWith<u32, String>> {
    if registry.contains_left(&id) || batch.contains_left(&id) {
        return Err(NotInsertedWith::LeftHeld(id, name));
    }
    if registry.contains_right(&name) {
        return Err(NotInsertedWith::RightHeld(id, name));
    }
    let keep = Policy {
        left: OnHeld::Refuse,
        right: OnHeld::Refuse,
    };
    batch.insert_with(id, name, keep)?;
    Ok(())
}

/// Returns the members as a batch that the registry refuses no part of. If the id or the name of a member is taken, the
/// `Err` has the first such member. An earlier member of the same batch counts too.
pub fn batch_of(
    alloc: Global,
    registry: &Registry,
    members: Vec<(u32, String)>,
) -> Result<Registry, ItemRefused<u32, String>> {
    let mut batch = Registry::new(alloc);
    for (taken, (id, name)) in members.into_iter().enumerate() {
        if let Err(why) = add(registry, &mut batch, id, name) {
            return Err(ItemRefused { taken, why });
        }
    }
    Ok(batch)
}

/// Returns the calls that register the members of a batch.
pub fn calls_of(
    alloc: Global,
    batch: Registry,
) -> Result<Vec<Call<u32, String, Infallible>>, AllocError> {
    let mut calls = Vec::with_capacity(alloc, batch.len())?;
    for (id, name) in batch {
        calls
            .push(Call::InsertNoOverwrite(id, name))
            .map_err(AllocError::from)?;
    }
    Ok(calls)
}
