// A list shuffled in place within a budget of words, over a lent table and by value; and the two halves of it, what it comes to and its
// swaps, for a call that does something between them.
#![tactic(auto)]

mod arranging;
mod performing;
mod shuffling;
mod swapping;

pub use performing::perform_in;
pub use shuffling::{outcome_in, shuffle, shuffle_in};
pub use swapping::swap;
