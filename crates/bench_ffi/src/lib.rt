// For a driver in Rust: the four generators' own calls and the wrapping helpers, each by itself; and loops of words answered as their XOR.
// The comparison with the original and the benchmark run on these, and on the facade's loops of `bench_lent` and `bench_values`.
#![tactic(auto)]

mod pcg32_calls;
mod pcg64_calls;
mod twister_calls;
mod words_xored;
mod wrapping_calls;
mod xoshiro_calls;
