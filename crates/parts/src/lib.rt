// What a facade generator is made of: its kind and parts read out, equality, the twister's position and twist, and the split of kind 0.
#![tactic(auto)]

mod equality;
mod position;
mod read_out;
mod splitting;

pub use equality::{same, same_in, same_words};
pub use position::{mti, mti_in, set_mti, set_mti_in, twist, twist_in};
pub use read_out::{Small, kind, small_words};
pub use splitting::{Divided, split, split_in};
