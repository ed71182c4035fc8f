// The plan of a day: which inlet opens in which slot and where the blanks go, drawn within a budget of words, over a lent table and by
// value.
#![tactic(auto)]

mod day;
mod layout;

pub use day::{plan_day, plan_day_in};
