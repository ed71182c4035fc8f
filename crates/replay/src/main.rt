// Replays a recorded sample of the original's answers, with no Rust at hand: every row of every file, and then every file again with
// one bit of an answer changed, which must be told. rust/record makes the files; `sample` says what stands in them.
#![tactic(auto)]

mod calls;
mod compare;
mod digest;
mod file;
mod listed;
mod outcome;
mod perform;
mod runs;
mod sample;
mod start;

use compare::Tally;
use std::io;

const SAMPLES: [&str; 32] = [
    // words and state
    "rand",
    "u64",
    "i64",
    "pseudo",
    "seed",
    "split",
    "mti",
    "set_mti",
    "twist",
    "fill_bytes",
    // draws and floats
    "bounded",
    "random_range",
    "int",
    "range",
    "uint",
    "char",
    "choose",
    "float",
    "double",
    "bool",
    "uniform",
    "shuffle",
    "rand_slice",
    // makers and edges
    "seeds",
    "streams",
    "bytes",
    "parts",
    "out_of_budget",
    "above_624",
    "list_edges",
    "folded_to_zero",
    "long_runs",
];

fn main(rt: HostRuntime) -> io::Result<()> {
    let mut all = Tally::default();
    for name in SAMPLES.iter() {
        all += file::replay(&rt, name)?;
    }
    println!(rt; "{all}")
}
