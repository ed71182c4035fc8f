// Unsigned numbers between two ends, both included.
ghost use Rattle.bounded.specs.Answers.{in_numbers};
ghost use Rattle.spans.specs.Promises.{UintInPromise, UintPromise};

use crate::span::spanned_in;
use random::{Engine, Random};
use words::{Refusal, Reply};

// A number from min up to max. Where it is refused the table is as it came.
pub fn uint_in(
    e: Engine,
    mt: &mut [u32; 624],
    min: u32,
    max: u32,
    budget: u32,
) -> Reply<u32, Engine>
    ensures { UintInPromise e mt.old min max budget (in_numbers result) mt.new }
{
    if max < min {
        return Reply::refuses(Refusal::Order, e);
    }
    spanned_in(e, mt, max - min, budget).raised(min)
}

// A number from min up to max.
pub fn uint(g: Random, min: u32, max: u32, budget: u32) -> Reply<u32, Random>
    ensures { UintPromise g min max budget (in_numbers result) }
{
    let mut moved = g;
    let a = uint_in(
        random::engine_of(g),
        &mut moved.twister.mt,
        min,
        max,
        budget,
    );
    bounded::by_value(a, moved.twister.mt)
}
