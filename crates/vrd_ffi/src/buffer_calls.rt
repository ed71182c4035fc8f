// Lists and buffers of the caller's that are written: a list shuffled, bytes filled.
ghost use Rattle.std.specs.Prelude.{◌≡◌};
ghost use Rattle.shuffle.specs.Replies.{done};
ghost use Rattle.vrd_ffi.specs.Promises.{VrdShufflePromise, VrdFillBytesPromise};

use crate::answers::{Number, number_from};
use crate::state::engine_in;
use lent_state::write;
use words::{Given, Outcome, Refusal, refusal};

// What a shuffle tells, in numbers: the value of an answered one is 0.
fn done(told: Result<Given<()>, Refusal>) -> Outcome
    ensures { result ≡ done told }
{
    match told {
        Ok(given) => words::gives(0, given.used),
        Err(refusal) => words::refused(refusal.number()),
    }
}

// The list in an order drawn at random.
#[unsafe(no_mangle)]
pub extern "C" fn vrd_shuffle_in(
    state: &mut [u64; 6],
    table: &mut [u32; 624],
    list: &mut [u32],
    budget: u32,
) -> Number
    ensures { VrdShufflePromise state.old table.old list.old budget result
        state.new table.new list.new }
{
    if state[0] > 3 {
        return Number {
            value: 0,
            used: 0,
            refusal: refusal::KIND,
        };
    }
    let a = shuffle::shuffle_in(engine_in(state), table, list, budget);
    number_from(done(a.told), a.next, state)
}

// The buffer filled with the generator's words. The answer is the refusal.
#[unsafe(no_mangle)]
pub extern "C" fn vrd_fill_bytes_in(
    state: &mut [u64; 6],
    table: &mut [u32; 624],
    dest: &mut [u8],
) -> u32
    ensures { VrdFillBytesPromise state.old table.old dest.old result
        state.new table.new dest.new }
{
    if state[0] > 3 {
        return refusal::KIND;
    }
    let e = filling::fill_bytes_in(engine_in(state), table, dest);
    write(e, state);
    refusal::ANSWERED
}
