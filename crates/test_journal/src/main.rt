//! Tests of a journal by crashes. A scenario runs on a file in memory, which stops at each of its calls in turn. Each
//! content that a crash may leave then is opened. The map must have all acknowledged changes, or the next one too. A
//! further test compacts a map in insertion order.
#![tactic(auto)]

mod order;
mod plain;
mod step;
mod torn;
mod trial;
mod world;

use anyhow::Result;
use step::scenario;
use trial::try_all;

fn main(rt: HostRuntime) -> Result<()> {
    let steps = scenario(rt.alloc(), 60)?;
    let tally = try_all(rt.alloc(), &steps, 8)?;
    println!(rt; "{} crashes", tally.crashes)?;
    println!(rt; "{} contents opened after them", tally.opened)?;
    println!(rt;
        "{} contents opened after a crash while opening",
        tally.opened_again
    )?;
    println!(rt; "{} wrong", tally.wrong)?;
    println!(rt; "insertion order is kept: {}", order::is_kept(rt.alloc())?)?;
    Ok(())
}
