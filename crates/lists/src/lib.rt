// An entry of a list, and a part of one, drawn within a budget of words. The two draws have two forms: by value, and over a lent table,
// which is not copied and stays as it came where the call refuses.
#![tactic(auto)]

mod checks;
pub mod limit;
mod outcomes;
mod places;
mod windows;

pub use outcomes::{Choice, SliceOutcome, entry_of, start_of};
pub use places::{Entry, choose, choose_in};
pub use windows::{rand_slice, rand_slice_in, window_of};
