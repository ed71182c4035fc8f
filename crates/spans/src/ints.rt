// Signed numbers between two ends, both included. The span is worked out in 64 bits; what is drawn is counted from the lower end.
ghost use Rattle.std.specs.Prelude.{◌≡◌};
ghost use Rattle.words.specs.Numbers.{numbered};
ghost use Rattle.spans.specs.IntAnswers.{int_answer_in, int_in_numbers};
ghost use Rattle.spans.specs.Spans.{counted_modulo};
ghost use Rattle.spans.specs.Promises.{IntInPromise, IntPromise, RangeInPromise, RangePromise};

use crate::span::spanned_in;
use random::{Engine, Random};
use words::{Refusal, Reply};

// What is drawn, counted from min modulo 2^32 and read back as signed.
fn counted_in(min: i32, a: Reply<u32, Engine>) -> Reply<i32, Engine>
    ensures { int_in_numbers result ≡ int_answer_in (counted_modulo min (numbered a.told)) a.next }
{
    match a.told {
        Ok(given) => {
            let value = signed::wrapping_add_signed(min, given.value);
            Reply::gives(value, given.used, a.next)
        }
        Err(refusal) => Reply::refuses(refusal, a.next),
    }
}

// A number from min up to max. Where it is refused the table is as it came.
pub fn int_in(e: Engine, mt: &mut [u32; 624], min: i32, max: i32, budget: u32) -> Reply<i32, Engine>
    ensures { IntInPromise e mt.old min max budget (int_in_numbers result) mt.new }
{
    if max < min {
        return Reply::refuses(Refusal::Order, e);
    }
    let a = spanned_in(e, mt, signed::span_of(min, max), budget);
    counted_in(min, a)
}

// A number from min up to max.
pub fn int(g: Random, min: i32, max: i32, budget: u32) -> Reply<i32, Random>
    ensures { IntPromise g min max budget (int_in_numbers result) }
{
    let mut moved = g;
    let a = int_in(
        random::engine_of(g),
        &mut moved.twister.mt,
        min,
        max,
        budget,
    );
    bounded::by_value(a, moved.twister.mt)
}

// `int_in` by its other name.
pub fn range_in(
    e: Engine,
    mt: &mut [u32; 624],
    min: i32,
    max: i32,
    budget: u32,
) -> Reply<i32, Engine>
    ensures { RangeInPromise e mt.old min max budget (int_in_numbers result) mt.new }
{
    int_in(e, mt, min, max, budget)
}

// `int` by its other name.
pub fn range(g: Random, min: i32, max: i32, budget: u32) -> Reply<i32, Random>
    ensures { RangePromise g min max budget (int_in_numbers result) }
{
    int(g, min, max, budget)
}
