// Draws that are a draw below a bound with a number added: between two ends, and a letter.
ghost use Rattle.bounded.specs.Answers.{in_numbers};
ghost use Rattle.bounded.specs.Promises.{RandomRangeInPromise, RandomRangePromise, CharInPromise, CharPromise};

use crate::answers::by_value;
use crate::below::bounded_in;
use random::{Engine, Random};
use words::{Refusal, Reply};

// The letters from a to z.
const LETTERS: u32 = 26;

// A number from min up to max - 1. Where it is refused the table is as it came.
pub fn random_range_in(
    e: Engine,
    mt: &mut [u32; 624],
    min: u32,
    max: u32,
    budget: u32,
) -> Reply<u32, Engine>
    ensures { RandomRangeInPromise e mt.old min max budget (in_numbers result) mt.new }
{
    if max <= min {
        return Reply::refuses(Refusal::Order, e);
    }
    bounded_in(e, mt, max - min, budget).raised(min)
}

// A number from min up to max - 1.
pub fn random_range(g: Random, min: u32, max: u32, budget: u32) -> Reply<u32, Random>
    ensures { RandomRangePromise g min max budget (in_numbers result) }
{
    let mut moved = g;
    let a = random_range_in(
        random::engine_of(g),
        &mut moved.twister.mt,
        min,
        max,
        budget,
    );
    by_value(a, moved.twister.mt)
}

// A small letter's ASCII code. Where it is refused the table is as it came.
pub fn char_in(e: Engine, mt: &mut [u32; 624], budget: u32) -> Reply<u32, Engine>
    ensures { CharInPromise e mt.old budget (in_numbers result) mt.new }
{
    bounded_in(e, mt, LETTERS, budget).raised(b'a' as u32)
}

// A small letter's ASCII code.
pub fn char(g: Random, budget: u32) -> Reply<u32, Random>
    ensures { CharPromise g budget (in_numbers result) }
{
    let mut moved = g;
    let a = char_in(random::engine_of(g), &mut moved.twister.mt, budget);
    by_value(a, moved.twister.mt)
}
