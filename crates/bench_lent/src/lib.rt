// For a driver in Rust: draws in a row from a lent generator. The loop is alone in the archive of `bench_lent_c`: a second caller of
// anything that it calls keeps that out of line, which makes a draw four times as long.
#![tactic(auto)]

mod lent_loops;

pub use lent_loops::{Sums, Total, bench_draws_in};
