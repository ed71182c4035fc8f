// A number drawn within a budget of words: below a bound, between two ends, a letter. What a call does beside the one draw, its refusals
// too, is left to the library's call, in a function of its own.
ghost use Rattle.vrd_ffi.specs.Promises.{VrdBoundedPromise, VrdRandomRangePromise, VrdCharPromise};

use crate::answers::{Number, number_from};
use crate::drawing::{at_once, by_library, drawn_from, number_of};
use crate::first_word::{MISS, below_within, quick_first, quick_pcg};
use crate::state::engine_in;
use words::refusal;

// A number below r.
#[unsafe(no_mangle)]
pub extern "C" fn vrd_bounded_in(
    state: &mut [u64; 6],
    table: &mut [u32; 624],
    r: u32,
    budget: u32,
) -> Number
    ensures { VrdBoundedPromise state.old table.old r budget result state.new table.new }
{
    let tried = below_within(r, budget);
    let first = quick_first(state, table, tried);
    if first < MISS {
        return at_once(first);
    }
    let second = quick_pcg(state, tried);
    if second < MISS {
        return at_once(second);
    }
    number_of(by_library(state, table, r, budget, 0))
}

// Refused by the library.
fn random_range_by_library(
    state: &mut [u64; 6],
    table: &mut [u32; 624],
    min: u32,
    max: u32,
    budget: u32,
) -> Number
    ensures { VrdRandomRangePromise state.old table.old min max budget result
        state.new table.new }
{
    if state[0] > 3 {
        return Number {
            value: 0,
            used: 0,
            refusal: refusal::KIND,
        };
    }
    let a = bounded::random_range_in(engine_in(state), table, min, max, budget);
    number_from(words::numbered(a.told), a.next, state)
}

// A number from min up to max - 1.
#[unsafe(no_mangle)]
pub extern "C" fn vrd_random_range_in(
    state: &mut [u64; 6],
    table: &mut [u32; 624],
    min: u32,
    max: u32,
    budget: u32,
) -> Number
    ensures { VrdRandomRangePromise state.old table.old min max budget result
        state.new table.new }
{
    if max <= min {
        return random_range_by_library(state, table, min, max, budget);
    }
    let r = max - min;
    let tried = below_within(r, budget);
    let first = quick_first(state, table, tried);
    if first < MISS {
        return at_once((min as u64) + first);
    }
    let second = quick_pcg(state, tried);
    if second < MISS {
        return at_once((min as u64) + second);
    }
    number_of(by_library(state, table, r, budget, min))
}

// A small letter's ASCII code.
#[unsafe(no_mangle)]
pub extern "C" fn vrd_char_in(state: &mut [u64; 6], table: &mut [u32; 624], budget: u32) -> Number
    ensures { VrdCharPromise state.old table.old budget result state.new table.new }
{
    number_of(drawn_from(state, table, 26, budget, 97))
}
