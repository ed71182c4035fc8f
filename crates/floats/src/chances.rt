// A coin that falls true with chance p: whether a double is below p.
ghost use Rattle.floats.specs.Chances.{coin};
ghost use Rattle.floats.specs.Promises.{IsChancePromise, ChanceRefusalPromise, ChancePromise};
ghost use Rattle.words.specs.Numbers.{refusal_in};

use super::units::double_of;
use words::Refusal;

// Whether p is from 0 to 1. -0.0 is, and a NaN is not.
pub fn is_chance(p: f64) -> bool
    ensures { IsChancePromise p result }
{
    if p >= 0.0 { p <= 1.0 } else { false }
}

// What a caller asks before it draws the word: the refusal of a p that is no chance.
pub fn chance_refusal(p: f64) -> Option<Refusal>
    ensures { ChanceRefusalPromise p (refusal_in result) }
{
    if is_chance(p) {
        None
    } else {
        Some(Refusal::Chance)
    }
}

// The coin that a word gives, also at p = 0 and p = 1.
pub fn chance(p: f64, word: u64) -> Result<bool, Refusal>
    ensures { ChancePromise p word (coin result) }
{
    if is_chance(p) {
        Ok(double_of(word) < p)
    } else {
        Err(Refusal::Chance)
    }
}
