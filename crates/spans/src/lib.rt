// Numbers between two ends, both included, within a budget of words: unsigned and signed. Every call has two forms: by value, and over a
// lent table, which is not copied and stays as it came where the call refuses.
#![tactic(auto)]

mod counting;
mod ints;
mod span;
mod uints;

pub use counting::{IntOutcome, counted};
pub use ints::{int, int_in, range, range_in};
pub use uints::{uint, uint_in};
