// Byte filling over the facade generator, over a lent table and by value.
#![tactic(auto)]

mod fill;

pub use fill::{fill_bytes, fill_bytes_in};
