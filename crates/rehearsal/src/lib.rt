// Many draws under one budget, made without their effect: so a call that must touch nothing where it refuses knows before it begins. And
// the same draws once more, some words at a time, for the call that then performs them. What a draw is for, no function here knows.
#![tactic(auto)]

mod rehearsing;
mod settling;
mod turns;

pub use rehearsing::{Rehearsed, rehearse};
pub use settling::settle;
pub use turns::{Draws, Turn, take_turn};
