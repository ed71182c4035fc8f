// Compares the generators, word by word, with what their authors published and with other implementations, and tells what was
// compared and how many words agree.
#![tactic(auto)]

mod init_by_array;
mod report;
mod twister;
mod vectors;
mod words;

use pcg::{Pcg32, Pcg64};
use report::{agreeing, tell};
use source::Source;
use std::io;
use words::{Words32, Words64};
use wrapping::Wide;
use xoshiro::Xoshiro256PlusPlus;

// By its words of 64 bits.
fn compare<S: Source>(rt: &impl Print, what: &str, g: S, theirs: &[u64]) -> io::Result<()> {
    tell(rt, what, agreeing(Words64(g), theirs), theirs.len())
}

fn compare_pcg(rt: &impl Print) -> io::Result<()> {
    let small = Pcg32::from_seed_stream(42, 54);
    tell(
        rt,
        "Pcg32, seed 42, stream 54, and O'Neill's pcg32-demo",
        agreeing(Words32(small), &vectors::PCG32_DEMO),
        vectors::PCG32_DEMO.len(),
    )?;
    let seed = Wide { high: 0, low: 42 };
    let stream = Wide { high: 0, low: 54 };
    let first = Pcg64::from_seed_stream(seed, stream).next_u64();
    compare(
        rt,
        "Pcg64, seed 42, stream 54, from its second word on, and O'Neill's pcg64-demo",
        first.next,
        &vectors::PCG64_DEMO,
    )
}

// Four words of state are those that SplitMix64 gives.
fn compare_seeding(rt: &impl Print, what: &str, seed: u64, theirs: &[u64; 4]) -> io::Result<()> {
    let g = Xoshiro256PlusPlus::from_u64_seed(seed);
    let state = [g.s0, g.s1, g.s2, g.s3];
    tell(rt, what, agreeing(state.iter().copied(), theirs), 4)
}

fn compare_xoshiro(rt: &impl Print) -> io::Result<()> {
    let g = Xoshiro256PlusPlus::from_parts(1, 2, 3, 4);
    compare(
        rt,
        "xoshiro256++, state 1, 2, 3, 4, and Java's Xoshiro256PlusPlus",
        g,
        &vectors::JAVA_XOSHIRO,
    )?;
    compare(
        rt,
        "xoshiro256++, state 1, 2, 3, 4, jumped, and Java's jump()",
        g.jump(),
        &vectors::JAVA_XOSHIRO_JUMPED,
    )?;
    compare_seeding(
        rt,
        "SplitMix64, seed 1234567, and Java's SplittableRandom",
        1234567,
        &vectors::JAVA_SPLITMIX64_1234567,
    )?;
    compare_seeding(
        rt,
        "SplitMix64, seed 42, and Java's SplittableRandom",
        42,
        &vectors::JAVA_SPLITMIX64_42,
    )
}

fn main(rt: HostRuntime) -> io::Result<()> {
    compare_pcg(&rt)?;
    compare_xoshiro(&rt)?;
    twister::compare(&rt)
}
