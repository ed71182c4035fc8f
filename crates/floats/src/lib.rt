// The float draws (document 01, "Draws"): what a word gives, as a number below 1, as a coin and as a number of an interval.
#![tactic(auto)]

mod chances;
mod intervals;
mod units;

pub use chances::{chance, chance_refusal, is_chance};
pub use intervals::{
    Interval, Uniform, ends_are_finite, interval_refusal, is_out_of_order, uniform_of,
};
pub use units::{double_of, float_of};
