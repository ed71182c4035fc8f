// The facade generator for Rust and C, in one form: its state (kind, position, small words) and its table are lent, and changed there.
// Kinds and refusals are numbers. A kind above 3 is refused with 10 before anything else is looked at; where a call is refused nothing
// changes.
#![tactic(auto)]

mod answers;
mod buffer_calls;
mod choose_calls;
mod draw_calls;
mod drawing;
mod first_word;
mod float_calls;
mod int_calls;
mod making_calls;
mod moves;
mod slice_calls;
mod state;
mod state_calls;
mod uint_calls;
mod word_calls;
