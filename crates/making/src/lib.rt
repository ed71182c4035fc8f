// Making a facade generator, and setting its seed anew.
#![tactic(auto)]

mod bytes;
mod own_calls;
mod seeding;

pub use bytes::{Made, make};
pub use own_calls::{
    from_mersenne_twister, from_pcg32, from_pcg64, from_u64_seed, from_xoshiro,
    new_mersenne_twister_with_seed, new_pcg32_with_seed, new_pcg32_with_stream,
    new_pcg64_with_seed, new_pcg64_with_stream, zeros,
};
pub use seeding::{seed, seed_in};
