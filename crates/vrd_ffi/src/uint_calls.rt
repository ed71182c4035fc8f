// Unsigned numbers between two ends, both included.
ghost use Rattle.vrd_ffi.specs.Promises.{VrdUintPromise};

use crate::answers::{Number, number_apart, number_from};
use crate::drawing::{drawn_from, number_of};
use crate::state::engine_in;
use words::refusal;

// The call by the library: refused, of one value, or of all.
fn uint_by_library(
    state: &mut [u64; 6],
    table: &mut [u32; 624],
    min: u32,
    max: u32,
    budget: u32,
) -> Number
    ensures { VrdUintPromise state.old table.old min max budget result state.new table.new }
{
    if state[0] > 3 {
        return Number {
            value: 0,
            used: 0,
            refusal: refusal::KIND,
        };
    }
    let a = spans::uint_in(engine_in(state), table, min, max, budget);
    number_from(words::numbered(a.told), a.next, state)
}

// A number from min up to max.
#[unsafe(no_mangle)]
pub extern "C" fn vrd_uint_in(
    state: &mut [u64; 6],
    table: &mut [u32; 624],
    min: u32,
    max: u32,
    budget: u32,
) -> Number
    ensures { VrdUintPromise state.old table.old min max budget result state.new table.new }
{
    if max <= min {
        return number_apart(uint_by_library(state, table, min, max, budget));
    }
    let last = max - min;
    if last == 0xFFFF_FFFF {
        return number_apart(uint_by_library(state, table, min, max, budget));
    }
    number_of(drawn_from(state, table, last + 1, budget, min))
}
