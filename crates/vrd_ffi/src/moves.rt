// A generator moved by a word in place. The small words are read and written one by one and handed on as numbers: copied as a whole, just
// after they were written, they would hold up every call. The kinds are taken two and two: functions of this size are merged into every
// call that stands on them, and one over all four kinds would not be.
ghost use Rattle.std.specs.Prelude.{◌≡◌, ◌≤◌};
ghost use Rattle.vrd_ffi.specs.Moves.{Moves32, Moves64, MovesWide, IsWide, IsNarrow, Widths};
ghost use Rattle.lent_state.specs.State.{kind_in};

use lent_state::{pcg32_in, pcg64_in, position, put_position, put_small, xoshiro_in};

// Whether the kind's own word has 64 bits.
pub(crate) fn is_wide(state: &[u64; 6]) -> bool
    ensures { Widths state.now result }
{
    let kind = state[0];
    if kind == 0 {
        return true;
    }
    if kind == 3 {
        return true;
    }
    false
}

// The next word of kinds 0 and 3, of 64 bits.
pub(crate) fn move_wide(state: &mut [u64; 6]) -> u64
    requires { IsWide state.old }
    ensures { MovesWide state.old result state.new }
{
    let kind = state[0];
    if kind == 0 {
        let d = xoshiro_in(state).next_u64();
        put_small(d.next.s0, d.next.s1, d.next.s2, d.next.s3, state);
        return d.word;
    }
    let d = pcg64_in(state).next_u64();
    put_small(
        d.next.state.high,
        d.next.state.low,
        d.next.inc.high,
        d.next.inc.low,
        state,
    );
    d.word
}

// The next word of kinds 1 and 2, of 32 bits.
pub(crate) fn move_narrow(state: &mut [u64; 6], table: &mut [u32; 624]) -> u32
    requires { IsNarrow state.old }
    ensures { Moves32 state.old table.old result state.new table.new }
{
    let kind = state[0];
    if kind == 1 {
        let d = mersenne_twister::rand_in(table, position(state));
        put_position(d.mti, state);
        return d.word;
    }
    let d = pcg32_in(state).next_u32();
    put_small(d.next.state, d.next.inc, state[4], state[5], state);
    d.word
}

// The next two words of kind 1 as one of 64 bits, the high one first.
pub(crate) fn twister_two(state: &mut [u64; 6], table: &mut [u32; 624]) -> u64
    requires { kind_in state.old ≡ 1 }
    ensures { Moves64 state.old table.old result state.new table.new }
{
    let d = mersenne_twister::next_u64_in(table, position(state));
    put_position(d.mti, state);
    d.word
}

// The next two words of kind 2 as one of 64 bits, the low one first.
pub(crate) fn pcg32_two(state: &mut [u64; 6]) -> u64
    requires { kind_in state.old ≡ 2 }
    ensures { MovesWide state.old result state.new }
{
    let d = pcg32_in(state).next_u64();
    put_small(d.next.state, d.next.inc, state[4], state[5], state);
    d.word
}

// The next word of 64 bits, for calls that need not have it merged into them.
pub(crate) fn move_u64(state: &mut [u64; 6], table: &mut [u32; 624]) -> u64
    requires { kind_in state.old ≤ 3 }
    ensures { Moves64 state.old table.old result state.new table.new }
{
    if is_wide(state) {
        return move_wide(state);
    }
    if state[0] == 1 {
        return twister_two(state, table);
    }
    pcg32_two(state)
}
