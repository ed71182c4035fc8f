// Words as they come.
ghost use Rattle.vrd_ffi.specs.Promises.{VrdRandPromise, VrdU64Promise, VrdI64Promise, VrdPseudoPromise};

use crate::answers::{SignedWord, Word};
use crate::moves::{is_wide, move_narrow, move_wide, pcg32_two, twister_two};
use crate::state::engine_in;
use lent_state::write;
use words::refusal;

// The next word.
#[unsafe(no_mangle)]
pub extern "C" fn vrd_rand_in(state: &mut [u64; 6], table: &mut [u32; 624]) -> Word
    ensures { VrdRandPromise state.old table.old result state.new table.new }
{
    if state[0] > 3 {
        return Word {
            value: 0,
            refusal: refusal::KIND,
        };
    }
    if is_wide(state) {
        let word = move_wide(state);
        return Word {
            value: word >> 32,
            refusal: refusal::ANSWERED,
        };
    }
    let word = move_narrow(state, table);
    Word {
        value: word as u64,
        refusal: refusal::ANSWERED,
    }
}

// The next word of 64 bits, by the kind's own order of halves.
#[unsafe(no_mangle)]
pub extern "C" fn vrd_u64_in(state: &mut [u64; 6], table: &mut [u32; 624]) -> Word
    ensures { VrdU64Promise state.old table.old result state.new table.new }
{
    if state[0] > 3 {
        return Word {
            value: 0,
            refusal: refusal::KIND,
        };
    }
    if is_wide(state) {
        let value = move_wide(state);
        return Word {
            value,
            refusal: refusal::ANSWERED,
        };
    }
    if state[0] == 1 {
        let value = twister_two(state, table);
        return Word {
            value,
            refusal: refusal::ANSWERED,
        };
    }
    let value = pcg32_two(state);
    Word {
        value,
        refusal: refusal::ANSWERED,
    }
}

// The same word, read as signed.
#[unsafe(no_mangle)]
pub extern "C" fn vrd_i64_in(state: &mut [u64; 6], table: &mut [u32; 624]) -> SignedWord
    ensures { VrdI64Promise state.old table.old result state.new table.new }
{
    if state[0] > 3 {
        return SignedWord {
            value: 0,
            refusal: refusal::KIND,
        };
    }
    if is_wide(state) {
        let word = move_wide(state);
        let value = signed::signed_u64(word);
        return SignedWord {
            value,
            refusal: refusal::ANSWERED,
        };
    }
    if state[0] == 1 {
        let word = twister_two(state, table);
        let value = signed::signed_u64(word);
        return SignedWord {
            value,
            refusal: refusal::ANSWERED,
        };
    }
    let word = pcg32_two(state);
    let value = signed::signed_u64(word);
    SignedWord {
        value,
        refusal: refusal::ANSWERED,
    }
}

// The next 32 words, XORed.
#[unsafe(no_mangle)]
pub extern "C" fn vrd_pseudo_in(state: &mut [u64; 6], table: &mut [u32; 624]) -> Word
    ensures { VrdPseudoPromise state.old table.old result state.new table.new }
{
    if state[0] > 3 {
        return Word {
            value: 0,
            refusal: refusal::KIND,
        };
    }
    let d = random::pseudo_in(engine_in(state), table);
    let e = d.next;
    write(e, state);
    Word {
        value: d.word as u64,
        refusal: refusal::ANSWERED,
    }
}
