// Runs every bench example of document 01 ("Bench examples"), marked or not, over generators that are set by hand so that their next words
// are the given ones; tells each answer and whether it is as the document says.
#![tactic(auto)]

mod bytes;
mod draws;
mod examples;
mod float_rows;
mod given;
mod lengths;
mod report;
mod shares;
mod shuffles;

use std::io;

fn main(rt: HostRuntime) -> io::Result<()> {
    let mut all = draws::run(&rt)?;
    all += shares::run(&rt)?;
    all += shuffles::run(&rt)?;
    all += float_rows::run(&rt)?;
    all += bytes::run(&rt)?;
    all += lengths::run(&rt)?;
    println!(rt; "{all}")
}
