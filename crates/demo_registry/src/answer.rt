//! Answers lines. This file does not know how a registry keeps its members, nor where.
use crate::fault::Refused;
use crate::line::{REQUESTS, Request, parse_line, parse_members};
use crate::members::{Members, give_back_room, register, register_all, rename, renumber};
use crate::registry::{self, Registry, id_of, name_of};
use bimap::{NoMemory, NotInserted, NotReplaced};
use std::fmt::Display;
use std::io;
use tool_lines::wanted;

// Copies a name into a `String`.
fn owned(rt: &impl AllocGlobal, name: &str) -> io::Result<String> {
    Ok(String::from_str(rt.alloc(), name)?)
}

// Registers one member, and prints the answer.
fn answer_register(
    rt: &(impl Print + AllocGlobal),
    members: &mut Members,
    id: u32,
    name: &str,
) -> io::Result<()> {
    match register(members, id, owned(rt, name)?)? {
        Ok(()) => println!(rt; "{id} is {name}"),
        Err(NotInserted::Occupied(id, name)) => println!(rt; "{id} or {name} is taken"),
        Err(NotInserted::Memory(_, _)) => println!(rt; "no memory"),
    }
}

// Prints what a line should have been that is not a request.
fn answer_bad(rt: &impl Print, line: &str) -> io::Result<()> {
    println!(rt; "bad line; wanted: {}", wanted(REQUESTS, line))
}

// Registers all members that the rest of a line lists, or none, and prints the answer.
fn answer_batch(
    rt: &(impl Print + AllocGlobal),
    members: &mut Members,
    line: &str,
    rest: &str,
) -> io::Result<()> {
    let Some(batch) = parse_members(rt.alloc(), rest)? else {
        return answer_bad(rt, line);
    };
    let count = batch.len();
    match register_all(rt.alloc(), members, batch)? {
        Ok(()) => println!(rt; "{count} are registered"),
        Err(refused) => println!(rt; "none is registered: {}", Refused(refused)),
    }
}

// Prints what a replacement returned.
fn answer_replaced<V: Display + Drop>(
    rt: &impl Print,
    from: &V,
    to: &V,
    replaced: Result<V, NotReplaced<V>>,
) -> io::Result<()> {
    match replaced {
        Ok(_) => println!(rt; "{from} is now {to}"),
        Err(NotReplaced::Missing(_)) => println!(rt; "{from} is not registered"),
        Err(NotReplaced::Held(_)) => println!(rt; "{to} is taken"),
    }
}

// Gives spare capacity back, and prints the answer.
fn answer_give_back(rt: &impl Print, members: &mut Members) -> io::Result<()> {
    match give_back_room(members) {
        Some(Ok(())) => println!(rt; "no capacity is spare"),
        Some(Err(NoMemory)) => println!(rt; "no memory"),
        None => println!(rt; "a registry in a file keeps its capacity"),
    }
}

// Prints all members in ascending order of their ids.
fn answer_list(rt: &(impl Print + AllocGlobal), registry: &Registry) -> io::Result<()> {
    let mut listed = String::new(rt.alloc());
    for (id, name) in registry::members(registry) {
        writeln!(listed, "{id} {name}")?;
    }
    print!(rt; "{} are registered\n{listed}", registry.len())
}

// Answers a request that changes nothing.
fn tell(
    rt: &(impl Print + AllocGlobal),
    registry: &Registry,
    request: Request<'_>,
) -> io::Result<()> {
    match request {
        Request::Who(id) => match name_of(registry, &id) {
            Some(name) => println!(rt; "{id} is {name}"),
            None => println!(rt; "{id} is free"),
        },
        Request::Id(name) => match id_of(registry, name) {
            Some(id) => println!(rt; "{name} has {id}"),
            None => println!(rt; "{name} is free"),
        },
        Request::List => answer_list(rt, registry),
        Request::Room => println!(rt; "capacity for {}", registry.capacity()),
        _ => println!(rt; "{REQUESTS}"),
    }
}

/// Does what a line asks for, and prints the answer. If the registry has a file, the file then has what the line changed.
/// If the line is not a request, nothing changes, and the answer says what the line should have been.
pub fn answer(
    rt: &(impl Print + AllocGlobal),
    members: &mut Members,
    line: &str,
) -> io::Result<()> {
    match parse_line(line) {
        Some(Request::Register(id, name)) => answer_register(rt, members, id, name),
        Some(Request::Rename(from, to)) => {
            let (from, to) = (owned(rt, from)?, owned(rt, to)?);
            let renamed = rename(members, &from, to.clone()?)?;
            answer_replaced(rt, &from, &to, renamed)
        }
        Some(Request::Renumber(from, to)) => {
            let renumbered = renumber(members, &from, to)?;
            answer_replaced(rt, &from, &to, renumbered)
        }
        Some(Request::Batch(rest)) => answer_batch(rt, members, line, rest),
        Some(Request::GiveBack) => answer_give_back(rt, members),
        Some(Request::Compact) => match members.compact()? {
            true => println!(rt; "FILE has a line for each member"),
            false => println!(rt; "there is no FILE"),
        },
        Some(request) => tell(rt, members.map(), request),
        None => answer_bad(rt, line),
    }
}
