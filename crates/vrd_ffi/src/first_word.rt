// The first word of a draw below r, which settles nearly every draw: where it is ready and surely good the generator moves by it. There is
// no division, and the answer is one number in a register. Whatever is seldom is left to the library's call. The kinds are tried two and
// two: functions of this size are merged into every call that tries them, and one over all four kinds would not be.
ghost use Rattle.std.specs.Prelude.{◌≡◌};
ghost use Rattle.vrd_ffi.specs.Moves.{Quick, QuickPcg, Settles, below_within};

use lent_state::{pcg32_in, pcg64_in, position, put_position, put_small, xoshiro_in};
use mersenne_twister::END;

// No word settles the draw at once.
pub(crate) const MISS: u64 = 0x1_0000_0000;

// What a word draws below r, or MISS. A word whose product with r leaves more than r is good whatever r is, and none does where r is 0.
fn settled_by(word: u32, r: u32) -> u64
    ensures { Settles word r result }
{
    let p = words::product(word, r);
    if p % 0x1_0000_0000 > r as u64 {
        return p / 0x1_0000_0000;
    }
    MISS
}

// What the first word may be tried below: r, or 0, below which no word settles a draw, where the budget allows no word.
pub(crate) fn below_within(r: u32, budget: u32) -> u32
    ensures { result ≡ below_within r budget }
{
    if budget == 0 {
        return 0;
    }
    r
}

// The number drawn from a generator of kind 0 or 1, which moves; or MISS, and nothing changes.
pub(crate) fn quick_first(state: &mut [u64; 6], table: &[u32; 624], r: u32) -> u64
    ensures { Quick state.old table.now r result state.new }
{
    let kind = state[0];
    if kind == 0 {
        let d = xoshiro_in(state).next_u32();
        let q = settled_by(d.word, r);
        if q < MISS {
            put_small(d.next.s0, d.next.s1, d.next.s2, d.next.s3, state);
            return q;
        }
        return MISS;
    }
    if kind == 1 {
        let mti = position(state);
        if mti >= END {
            return MISS;
        }
        let q = settled_by(mersenne_twister::temper_word(table[mti as usize]), r);
        if q < MISS {
            put_position(mti + 1, state);
            return q;
        }
    }
    MISS
}

// The same of kinds 2 and 3.
pub(crate) fn quick_pcg(state: &mut [u64; 6], r: u32) -> u64
    ensures { QuickPcg state.old r result state.new }
{
    let kind = state[0];
    if kind == 2 {
        let d = pcg32_in(state).next_u32();
        let q = settled_by(d.word, r);
        if q < MISS {
            put_small(d.next.state, d.next.inc, state[4], state[5], state);
            return q;
        }
        return MISS;
    }
    if kind == 3 {
        let d = pcg64_in(state).next_u32();
        let q = settled_by(d.word, r);
        if q < MISS {
            put_small(
                d.next.state.high,
                d.next.state.low,
                d.next.inc.high,
                d.next.inc.low,
                state,
            );
            return q;
        }
    }
    MISS
}
