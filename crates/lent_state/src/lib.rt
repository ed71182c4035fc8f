// The generator as a caller of another language holds it: a state of six words beside the twister's table. The state has the kind, the
// twister's position (its low 32 bits count), and the kind's small words: xoshiro's four; Pcg32's state and increment; Pcg64's, high word
// first. Here it is read and written.
#![tactic(auto)]

mod placing;
mod reading;
mod writing;

pub use placing::place;
pub use reading::{Held, held_in, pcg32_in, pcg64_in, position, xoshiro_in};
pub use writing::{begin, put_position, put_small, settle, write};
