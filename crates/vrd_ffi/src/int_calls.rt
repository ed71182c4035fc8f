// Signed numbers between two ends, both included: what is drawn is added to the lower one modulo 2^32 and read back as signed.
ghost use Rattle.std.specs.Prelude.{◌≡◌};
ghost use Rattle.vrd_ffi.specs.Counting.{counted_modulo, integer_told};
ghost use Rattle.vrd_ffi.specs.Promises.{VrdIntPromise, VrdRangePromise};

use crate::answers::{Integer, Number};
use crate::drawing::{at_once, by_library, number_of};
use crate::first_word::{MISS, below_within, quick_first, quick_pcg};
use crate::state::engine_in;
use lent_state::settle;
use words::{Given, Refusal, refusal};

// What the library's call tells, as it is handed out.
fn integer_of(told: Result<Given<i32>, Refusal>) -> Integer
    ensures { result ≡ integer_told told }
{
    match told {
        Ok(given) => Integer {
            used: given.used,
            refusal: refusal::ANSWERED,
            value: given.value,
        },
        Err(refusal) => Integer {
            used: 0,
            refusal: refusal.number(),
            value: 0,
        },
    }
}

// The call by the library: refused, of one value, or of all.
fn int_by_library(
    state: &mut [u64; 6],
    table: &mut [u32; 624],
    min: i32,
    max: i32,
    budget: u32,
) -> Integer
    ensures { VrdIntPromise state.old table.old min max budget result state.new table.new }
{
    if state[0] > 3 {
        return Integer {
            used: 0,
            refusal: refusal::KIND,
            value: 0,
        };
    }
    let a = spans::int_in(engine_in(state), table, min, max, budget);
    let n = integer_of(a.told);
    settle(n.refusal, a.next, state);
    n
}

// A number drawn, counted from min; a refusal keeps value 0.
fn counted(min: i32, a: Number) -> Integer
    ensures { result ≡ counted_modulo min a }
{
    if a.refusal == refusal::ANSWERED {
        let word = (a.value % 0x1_0000_0000) as u32;
        let value = signed::wrapping_add_signed(min, word);
        return Integer {
            used: a.used,
            refusal: refusal::ANSWERED,
            value,
        };
    }
    Integer {
        used: a.used,
        refusal: a.refusal,
        value: 0,
    }
}

// A number from min up to max: by its first word, of either pair of kinds, or by the library.
fn int_drawn(
    state: &mut [u64; 6],
    table: &mut [u32; 624],
    min: i32,
    max: i32,
    budget: u32,
) -> Integer
    ensures { VrdIntPromise state.old table.old min max budget result state.new table.new }
{
    if max < min {
        return int_by_library(state, table, min, max, budget);
    }
    let last = signed::span_of(min, max);
    if last == 0 {
        return int_by_library(state, table, min, max, budget);
    }
    if last == 0xFFFF_FFFF {
        return int_by_library(state, table, min, max, budget);
    }
    let r = last + 1;
    let tried = below_within(r, budget);
    let first = quick_first(state, table, tried);
    if first < MISS {
        return counted(min, at_once(first));
    }
    let second = quick_pcg(state, tried);
    if second < MISS {
        return counted(min, at_once(second));
    }
    counted(min, number_of(by_library(state, table, r, budget, 0)))
}

// A number from min up to max.
#[unsafe(no_mangle)]
pub extern "C" fn vrd_int_in(
    state: &mut [u64; 6],
    table: &mut [u32; 624],
    min: i32,
    max: i32,
    budget: u32,
) -> Integer
    ensures { VrdIntPromise state.old table.old min max budget result state.new table.new }
{
    int_drawn(state, table, min, max, budget)
}

// The same by its other name.
#[unsafe(no_mangle)]
pub extern "C" fn vrd_range_in(
    state: &mut [u64; 6],
    table: &mut [u32; 624],
    min: i32,
    max: i32,
    budget: u32,
) -> Integer
    ensures { VrdRangePromise state.old table.old min max budget result state.new table.new }
{
    int_drawn(state, table, min, max, budget)
}
