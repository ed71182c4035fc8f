// O'Neill's PCG generators, as the Rust's pcg.rs has them: Pcg32 is PCG-XSH-RR-64/32, and Pcg64 is PCG-XSL-RR-128/64.
#![tactic(auto)]

pub mod pcg32;
pub mod pcg64;

pub use pcg32::Pcg32;
pub use pcg64::Pcg64;
