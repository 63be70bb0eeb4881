//! The example of docs/JOURNAL.md: seats in a file.
#![tactic(auto)]

use anyhow::Result;
use bimap::{BiBTreeMap, Call};
use bimap_journal::{File, Journaled};
use std::fs;

type StoredSeats = Journaled<BiBTreeMap<String, u32>, String, u32, File>;

fn open_seats(rt: &HostRuntime) -> Result<StoredSeats> {
    let file = File::open(rt, "seats.journal")?;
    match Journaled::open(rt.alloc(), BiBTreeMap::new(rt.alloc()), file) {
        Ok(seats) => Ok(seats),
        Err((why, _)) => Err(why.into()),
    }
}

fn insert_two(rt: &HostRuntime, seats: &mut StoredSeats) -> Result<()> {
    let (ann, bob) = (
        String::from_str(rt.alloc(), "ann")?,
        String::from_str(rt.alloc(), "bob")?,
    );
    println!(rt; "{:?}", seats.insert(ann, 12)?)?; // Ok(Neither)
    println!(rt; "{:?}", seats.insert(bob, 12)?)?; // Ok(Right("ann", 12))
    Ok(())
}

fn compact(rt: &HostRuntime, seats: &mut StoredSeats) -> Result<()> {
    println!(rt; "{:?}", seats.map())?; // {"bob" <> 12}
    seats.compact()?;
    println!(rt; "{}", fs::read_to_string(rt, "seats.journal")?)?;
    Ok(())
}

fn apply_group(rt: &HostRuntime, seats: &mut StoredSeats) -> Result<()> {
    let (bob, cal, dan) = (
        String::from_str(rt.alloc(), "bob")?,
        String::from_str(rt.alloc(), "cal")?,
        String::from_str(rt.alloc(), "dan")?,
    );
    let calls = vec![in rt.alloc();
        Call::Insert(bob, 7),
        Call::Insert(cal, 12),
        Call::InsertNoOverwrite(dan, 12),
    ]?;
    for reply in seats.apply(calls)?.iter() {
        println!(rt; "{reply:?}")?; // Inserted(Left("bob", 12)), Inserted(Neither), Occupied("dan", 12)
    }
    println!(rt; "{:?}", seats.map())?; // {"bob" <> 7, "cal" <> 12}
    Ok(())
}

fn main(rt: HostRuntime) -> Result<()> {
    let mut seats = open_seats(&rt)?;
    insert_two(&rt, &mut seats)?;
    drop(seats);
    let mut seats = open_seats(&rt)?;
    compact(&rt, &mut seats)?;
    apply_group(&rt, &mut seats)?;
    // The next run begins anew.
    fs::remove_file(&rt, "seats.journal")?;
    Ok(())
}
