// A single draw below r, with a number added to its value, its answer in one number, so that it comes back in a register
// (specs/Packed.antt says what the number means). The first word settles nearly all draws, and the rest is the library's call. `drawn_from`
// is both, for calls that need not have it merged into them.
ghost use Rattle.std.specs.Prelude.{◌≡◌, ◌+◌, ◌≤◌, ◌^◌};
ghost use Rattle.vrd_ffi.specs.Handed.{number};
ghost use Rattle.vrd_ffi.specs.Packed.{packed, unpacked, Draws, Below};
ghost use Rattle.words.specs.Refusal as refusal;

use crate::answers::Number;
use crate::first_word::{MISS, below_within, quick_first, quick_pcg};
use crate::state::engine_in;
use lent_state::settle;
use words::refusal;

// The library's answer in one number, `least` added to its value.
fn pack(refused: u32, value: u32, used: u32, least: u32) -> u64
    ensures { result ≡ packed refused value used least }
{
    if refused != refusal::ANSWERED {
        return MISS + (refused as u64);
    }
    let sum = ((least as u64) + (value as u64)) % 0x1_0000_0000;
    if used == 1 {
        return sum;
    }
    (used as u64) * 0x1_0000_0000 + sum
}

// What such a number says.
pub(crate) fn number_of(p: u64) -> Number
    ensures { result ≡ unpacked p }
{
    if p < MISS {
        return Number {
            value: p,
            used: 1,
            refusal: refusal::ANSWERED,
        };
    }
    let high = (p / 0x1_0000_0000) as u32;
    let low = p % 0x1_0000_0000;
    if high == 1 {
        return Number {
            value: 0,
            used: 0,
            refusal: low as u32,
        };
    }
    Number {
        value: low,
        used: high,
        refusal: refusal::ANSWERED,
    }
}

// The answer of a draw that one word settled.
pub(crate) fn at_once(value: u64) -> Number
    ensures { result ≡ number value 1 refusal.answered }
{
    Number {
        value,
        used: 1,
        refusal: refusal::ANSWERED,
    }
}

// The draw by the library.
pub(crate) fn by_library(
    state: &mut [u64; 6],
    table: &mut [u32; 624],
    r: u32,
    budget: u32,
    least: u32,
) -> u64
    requires { least + r ≤ 2 ^ 32 }
    ensures draw { Draws state.old table.old r budget least result state.new table.new }
    ensures small { Below r least result }
{
    if state[0] > 3 {
        return MISS + (refusal::KIND as u64);
    }
    let a = bounded::bounded_in(engine_in(state), table, r, budget);
    let o = words::numbered(a.told);
    settle(o.refusal, a.next, state);
    pack(o.refusal, o.value, o.used, least)
}

// The draw below r, `least` added.
pub(crate) fn drawn_from(
    state: &mut [u64; 6],
    table: &mut [u32; 624],
    r: u32,
    budget: u32,
    least: u32,
) -> u64
    requires { least + r ≤ 2 ^ 32 }
    ensures draw { Draws state.old table.old r budget least result state.new table.new }
    ensures small { Below r least result }
{
    let tried = below_within(r, budget);
    let first = quick_first(state, table, tried);
    if first < MISS {
        return (least as u64) + first;
    }
    let second = quick_pcg(state, tried);
    if second < MISS {
        return (least as u64) + second;
    }
    by_library(state, table, r, budget, least)
}
