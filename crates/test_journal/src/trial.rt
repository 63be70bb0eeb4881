//! A scenario that is cut off at each call of the file, and what is found afterwards.
ghost use Rattle.std.specs.Prelude.{◌<◌};

use crate::plain::Plain;
use crate::step::{Step, group};
use crate::world::{Lent, World};
use bimap::{BiBTreeMap, BijectiveMap, Call, Index, OnHeld, Policy, WalkedIndex};
use bimap_journal::{Journaled, NotStored, Storage};
use std::alloc::{AllocError, Global};
use std::convert::Infallible;

// A journal over one of the five maps. A function that takes any of them is proved once, and not again for the map that
// is tried.
type AnyNames<I, J, S> = Journaled<BijectiveMap<String, u64, I, J>, String, u64, S>;

/// The journal that is tried.
type Names<'a> = Journaled<BiBTreeMap<String, u64>, String, u64, Lent<'a>>;

/// What was tried, and how often something else was found than the promise allows.
#[derive(Clone, Copy, Debug, Default)]
pub struct Tally {
    /// How often a scenario was cut off.
    pub crashes: u64,
    /// How many contents were opened that such a crash may leave.
    pub opened: u64,
    /// How many contents were opened that a crash during such an opening may leave.
    pub opened_again: u64,
    /// How often the map was another one, the file was not opened, or a call was made after one that had failed.
    pub wrong: u64,
}

fn opened(alloc: Global, world: &mut World) -> Option<Names<'_>> {
    let empty = BiBTreeMap::new(alloc);
    Journaled::open(alloc, empty, Lent { alloc, world }).ok()
}

// Returns whether a change was stored. It was not if the file failed.
fn is_stored<A: Drop, G: Drop, B: Drop>(
    answer: Result<A, NotStored<G, B>>,
) -> Result<bool, AllocError> {
    match answer {
        Ok(_) => Ok(true),
        Err(NotStored::Memory(_) | NotStored::LineBreak(_)) => Err(AllocError),
        Err(_) => Ok(false),
    }
}

const MOVE: Policy = Policy {
    left: OnHeld::Overwrite,
    right: OnHeld::Refuse,
};

// Returns the call of a step that is one change.
fn call_of(
    alloc: Global,
    step: &Step,
) -> Result<Option<Call<String, u64, Infallible>>, AllocError> {
    let text = |name| String::from_str(alloc, name);
    Ok(match *step {
        Step::Insert(left, right) => Some(Call::Insert(text(left)?, right)),
        Step::InsertNew(left, right) => Some(Call::InsertNoOverwrite(text(left)?, right)),
        Step::Move(left, right) => Some(Call::InsertWith(text(left)?, right, MOVE)),
        Step::RemoveByLeft(left) => Some(Call::RemoveByLeft(text(left)?)),
        Step::RemoveByRight(right) => Some(Call::RemoveByRight(right)),
        Step::Clear => Some(Call::Clear),
        _ => None,
    })
}

// Performs the steps of a group.
fn perform_group<I: WalkedIndex<String> + Drop, J: Index<u64> + Drop, S: Storage + Drop>(
    alloc: Global,
    names: &mut AnyNames<I, J, S>,
    drawn: u64,
) -> Result<bool, AllocError> {
    let mut calls = Vec::new(alloc);
    for step in group(drawn).iter() {
        if let Some(call) = call_of(alloc, step)? {
            calls.push(call)?;
        }
    }
    is_stored(names.apply(calls))
}

// Performs one step, and returns whether it was acknowledged.
fn perform<I: WalkedIndex<String> + Drop, J: Index<u64> + Drop, S: Storage + Drop>(
    alloc: Global,
    names: &mut AnyNames<I, J, S>,
    step: &Step,
) -> Result<bool, AllocError> {
    let text = |name| String::from_str(alloc, name);
    match *step {
        Step::Insert(left, right) => is_stored(names.insert(text(left)?, right)),
        Step::InsertNew(left, right) => is_stored(names.insert_no_overwrite(text(left)?, right)),
        Step::Move(left, right) => is_stored(names.insert_with(text(left)?, right, MOVE)),
        Step::RemoveByLeft(left) => is_stored(names.remove_by_left(&text(left)?)),
        Step::RemoveByRight(right) => is_stored(names.remove_by_right(&right)),
        Step::Clear => is_stored(names.clear()),
        Step::Compact => is_stored(names.compact()),
        Step::ReplaceLeft(from, to) => is_stored(names.replace_left(&text(from)?, text(to)?)),
        Step::ReplaceRight(from, to) => is_stored(names.replace_right(&from, to)),
        Step::Group(drawn) => perform_group(alloc, names, drawn),
    }
}

// Performs steps, and returns how many were acknowledged. Those are the first ones, since none is after a failure.
fn play(alloc: Global, world: &mut World, steps: &[Step]) -> Result<usize, AllocError> {
    let Some(mut names) = opened(alloc, world) else {
        return Ok(0);
    };
    let mut done: usize = 0;
    for step in steps {
        if perform(alloc, &mut names, step)? {
            done = done.saturating_add(1);
        }
    }
    Ok(done)
}

fn is_same(names: &Names<'_>, plain: &Plain) -> bool {
    let pairs = plain.pairs();
    names.map().len() == pairs.len()
        && pairs
            .iter()
            .all(|pair| names.map().get_by_left(pair.0) == Some(&pair.1))
}

// What a map may contain after a crash.
#[derive(Drop)]
struct Allowed {
    // After all steps that were acknowledged.
    before: Plain,
    // After the step that was cut off too.
    with_next: Plain,
}

// Returns what a map may contain if so many steps were acknowledged.
fn allowed_after(alloc: Global, steps: &[Step], done: usize) -> Result<Allowed, AllocError> {
    let before = Plain::after(alloc, steps.get(..done).unwrap_or(steps))?;
    let with_next = Plain::after(alloc, steps.get(..done.saturating_add(1)).unwrap_or(steps))?;
    Ok(Allowed { before, with_next })
}

// Returns whether a file opens with an allowed map, and whether a change of this map is found again.
fn is_right(alloc: Global, file: &[u8], allowed: &Allowed) -> Result<bool, AllocError> {
    let mut world = World::new(alloc, file, u32::MAX)?;
    let Some(mut names) = opened(alloc, &mut world) else {
        return Ok(false);
    };
    if !is_same(&names, &allowed.before) && !is_same(&names, &allowed.with_next) {
        return Ok(false);
    }
    let count = names.map().len();
    if !perform(alloc, &mut names, &Step::Insert("zoe", 99))? {
        return Ok(false);
    }
    drop(names);
    let Some(names) = opened(alloc, &mut world) else {
        return Ok(false);
    };
    Ok(names.map().len() == count.saturating_add(1) && names.map().get_by_left("zoe") == Some(&99))
}

// Opens a file, and counts if something else is found than is allowed.
fn look(
    alloc: Global,
    file: &[u8],
    allowed: &Allowed,
    tally: &mut Tally,
) -> Result<(), AllocError> {
    if !is_right(alloc, file, allowed)? {
        tally.wrong = tally.wrong.saturating_add(1);
    }
    Ok(())
}

// Opens a file, and cuts the opening off at each of its calls in turn.
fn look_twice(
    alloc: Global,
    file: &[u8],
    allowed: &Allowed,
    tally: &mut Tally,
) -> Result<(), AllocError> {
    for calls in 0..8 {
        let mut world = World::new(alloc, file, calls)?;
        if let Some(names) = opened(alloc, &mut world) {
            drop(names);
            return Ok(());
        }
        for left in &world.outcomes(alloc)? {
            tally.opened_again = tally.opened_again.saturating_add(1);
            look(alloc, left, allowed, tally)?;
        }
    }
    tally.wrong = tally.wrong.saturating_add(1);
    Ok(())
}

/// Cuts a scenario off at each call of the file in turn, and opens what a crash may leave. One of each `one_of` contents
/// is also opened by an opening that is cut off.
pub fn try_all(alloc: Global, steps: &[Step], one_of: usize) -> Result<Tally, AllocError>
    requires { 0 < one_of }
{
    let mut tally = Tally::default();
    for calls in 0..1000 {
        let mut world = World::new(alloc, &[], calls)?;
        let done = play(alloc, &mut world, steps)?;
        if !world.is_down() {
            return Ok(tally);
        }
        tally.crashes = tally.crashes.saturating_add(1);
        if world.calls_too_many() > 0 {
            tally.wrong = tally.wrong.saturating_add(1);
        }
        let allowed = allowed_after(alloc, steps, done)?;
        for (at, file) in world.outcomes(alloc)?.iter().enumerate() {
            tally.opened = tally.opened.saturating_add(1);
            look(alloc, file, &allowed, &mut tally)?;
            if at % one_of == 0 {
                look_twice(alloc, file, &allowed, &mut tally)?;
            }
        }
    }
    tally.wrong = tally.wrong.saturating_add(1);
    Ok(tally)
}
