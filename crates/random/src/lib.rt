// The facade generator: one of four kinds, by value, as the Rust's random.rs has it without its draws. A call takes the generator and
// hands the next one back; inside, the twister's table is lent and never copied.
#![tactic(auto)]

mod backend;
mod by_value;
mod engine;
mod kind;
mod lent;
mod ready;

pub use backend::{Backend, Random, on_table};
pub use by_value::{engine_of, i64, pseudo, rand, u64, with_table};
pub use engine::{Engine, engine_with};
pub use kind::{Kind, UnknownKind};
pub use lent::{next_own, next_u32, next_u64, pseudo_in, width};
pub use ready::{next_ready, surely_ready};
