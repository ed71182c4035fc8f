// Arithmetic that wraps, under one name for each width, and numbers of 128 bits as two words, where the Rust has a `u128`.
#![tactic(auto)]

mod bytes;
mod product;
mod rotate_u32;
mod rotate_u64;
mod wide;

pub use bytes::{le_u32, le_u64};
pub use product::{mul_u32, mul_u64, upper_u64};
pub use rotate_u32::{rotate_left_u32, rotate_right_u32};
pub use rotate_u64::{rotate_left_u64, rotate_right_u64};
pub use wide::Wide;
