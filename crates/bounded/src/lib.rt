// One number drawn within a budget of words: below a bound, between two ends, a letter. Every call has two forms: by value, and over a lent
// table, which is not copied and stays as it came where the call refuses.
#![tactic(auto)]

mod answers;
mod below;
mod draw;
mod ranges;

pub use answers::{Answer, accept_in, answer_in, by_value, joined, outcome_of, refuse_in};
pub use below::{bounded, bounded_in};
pub use ranges::{char, char_in, random_range, random_range_in};
