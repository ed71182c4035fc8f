// A number of an interval: low + (high - low) * double, each operation rounded once.
ghost use Rattle.std.specs.Prelude.{◌≡◌};
ghost use Rattle.std.specs.Float.Ieee.Scale.{finite};
ghost use Rattle.floats.specs.Intervals.{number_in};
ghost use Rattle.words.specs.Numbers.{refusal_in};
ghost use Rattle.floats.specs.Promises.{EndsAreFinitePromise, IsOutOfOrderPromise, IntervalRefusalPromise, UniformOfPromise};

use super::units::double_of;
use words::Refusal;

// A low end and a high end, kept together.
#[repr(C)]
#[derive(Clone, Copy)]
pub struct Interval {
    pub low: f64,
    pub high: f64,
}

// The number drawn, or the refusal's number: document 01 names this form.
#[derive(Clone, Copy)]
pub enum Uniform {
    Number(f64),
    Refused(u32),
}

// Whether x is neither a NaN nor an infinity. Comparing an infinity raises no flag of the processor's; std's test takes x from itself,
// which does.
fn is_finite(x: f64) -> bool
    ensures { result ≡ finite x }
{
    let infinity = 1.0 / 0.0;
    if x < infinity { -infinity < x } else { false }
}

// Whether both ends are.
pub fn ends_are_finite(i: Interval) -> bool
    ensures { EndsAreFinitePromise i result }
{
    is_finite(i.low) && is_finite(i.high)
}

// -0.0 and 0.0 are level, so an interval between them is out of order.
pub fn is_out_of_order(i: Interval) -> bool
    ensures { IsOutOfOrderPromise i result }
{
    i.low >= i.high
}

// What a caller asks before it draws the word: the first fault that there is.
pub fn interval_refusal(i: Interval) -> Option<Refusal>
    ensures { IntervalRefusalPromise i (refusal_in result) }
{
    if !ends_are_finite(i) {
        return Some(Refusal::NotFinite);
    }
    if is_out_of_order(i) {
        return Some(Refusal::Order);
    }
    if is_finite(i.high - i.low) {
        None
    } else {
        Some(Refusal::NotFinite)
    }
}

// The number that a word gives. It is asked for where the interval is taken alone: of an end that is a NaN no bits are known.
fn number_in(i: Interval, word: u64) -> f64
    ensures { result ≡ number_in i word }
{
    let low = i.low;
    let high = i.high;
    let d = double_of(word);
    low + (high - low) * d
}

// The whole answer: the number where the interval is taken, and the refusal's number where it is not.
pub fn uniform_of(i: Interval, word: u64) -> Uniform
    ensures { UniformOfPromise i word result }
{
    match interval_refusal(i) {
        None => Uniform::Number(number_in(i, word)),
        Some(refusal) => Uniform::Refused(refusal.number()),
    }
}
