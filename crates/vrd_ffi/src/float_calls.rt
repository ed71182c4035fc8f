// Floats: from 0 up to 1, a chance, and a number of an interval.
ghost use Rattle.std.specs.Prelude.{◌≡◌};
ghost use Rattle.vrd_ffi.specs.Handed.{uniform_number};
ghost use Rattle.vrd_ffi.specs.Moves.{steps_in};
ghost use Rattle.vrd_ffi.specs.Promises.{VrdFloatPromise, VrdDoublePromise, VrdBoolPromise, VrdUniformPromise};

use crate::answers::{Coin, Number32, Number64};
use crate::moves::{is_wide, move_narrow, move_u64, move_wide};
use floats::{Interval, Uniform};
use words::refusal;

// (word >> 8) / 2^24 of the next word.
#[unsafe(no_mangle)]
pub extern "C" fn vrd_float_in(state: &mut [u64; 6], table: &mut [u32; 624]) -> Number32
    ensures { VrdFloatPromise state.old table.old result state.new table.new }
{
    if state[0] > 3 {
        return Number32 {
            value: 0.0,
            refusal: refusal::KIND,
        };
    }
    if is_wide(state) {
        let word = move_wide(state);
        let value = floats::float_of((word >> 32) as u32);
        return Number32 {
            value,
            refusal: refusal::ANSWERED,
        };
    }
    let word = move_narrow(state, table);
    let value = floats::float_of(word);
    Number32 {
        value,
        refusal: refusal::ANSWERED,
    }
}

// (word >> 11) / 2^53 of the next word of 64 bits.
#[unsafe(no_mangle)]
pub extern "C" fn vrd_double_in(state: &mut [u64; 6], table: &mut [u32; 624]) -> Number64
    ensures { VrdDoublePromise state.old table.old result state.new table.new }
{
    if state[0] > 3 {
        return Number64 {
            value: 0.0,
            refusal: refusal::KIND,
        };
    }
    let word = move_u64(state, table);
    let value = floats::double_of(word);
    Number64 {
        value,
        refusal: refusal::ANSWERED,
    }
}

// How many words a word of 64 bits takes.
fn steps_in(state: &[u64; 6]) -> u32
    ensures { result ≡ steps_in state.now }
{
    let kind = state[0];
    if kind == 1 {
        return 2;
    }
    if kind == 2 {
        return 2;
    }
    1
}

// A coin that falls true with this chance.
#[unsafe(no_mangle)]
pub extern "C" fn vrd_bool_in(state: &mut [u64; 6], table: &mut [u32; 624], chance: f64) -> Coin
    ensures { VrdBoolPromise state.old table.old chance result state.new table.new }
{
    if state[0] > 3 {
        return Coin {
            used: 0,
            refusal: refusal::KIND,
            value: false,
        };
    }
    if floats::is_chance(chance) {
        let used = steps_in(state);
        let word = move_u64(state, table);
        return Coin {
            used,
            refusal: refusal::ANSWERED,
            value: floats::chance(chance, word).unwrap_or(false),
        };
    }
    Coin {
        used: 0,
        refusal: refusal::CHANCE,
        value: false,
    }
}

// A number or a refusal's number, as one answer: refused, the number is 0.
fn uniform_number(u: Uniform) -> Number64
    ensures { result ≡ uniform_number u }
{
    match u {
        Uniform::Number(value) => Number64 {
            value,
            refusal: refusal::ANSWERED,
        },
        Uniform::Refused(number) => Number64 {
            value: 0.0,
            refusal: number,
        },
    }
}

// A number of the interval from low to high.
#[unsafe(no_mangle)]
pub extern "C" fn vrd_uniform_in(
    state: &mut [u64; 6],
    table: &mut [u32; 624],
    low: f64,
    high: f64,
) -> Number64
    ensures { VrdUniformPromise state.old table.old low high result state.new table.new }
{
    if state[0] > 3 {
        return Number64 {
            value: 0.0,
            refusal: refusal::KIND,
        };
    }
    let i = Interval { low, high };
    if let Some(refusal) = floats::interval_refusal(i) {
        return Number64 {
            value: 0.0,
            refusal: refusal.number(),
        };
    }
    let word = move_u64(state, table);
    uniform_number(floats::uniform_of(i, word))
}
