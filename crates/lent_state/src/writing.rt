// A generator written to a state. What its kind does not use stays as it came: the position too, of which the twister alone has use.
ghost use Rattle.lent_state.specs.Promises.{PutSmallPromise, PutPositionPromise, WritePromise};
ghost use Rattle.lent_state.specs.Promises.{LentSettlePromise, LentBeginPromise};

use random::{Backend, Engine};
use words::refusal;

// Other small words. The compiler leaves out the words that stay.
pub fn put_small(a: u64, b: u64, c: u64, d: u64, state: &mut [u64; 6])
    ensures { PutSmallPromise state.old a b c d state.new }
{
    *state = [state[0], state[1], a, b, c, d];
}

// Another position.
pub fn put_position(mti: u32, state: &mut [u64; 6])
    ensures { PutPositionPromise state.old mti state.new }
{
    state[1] = mti as u64;
}

// An engine of any kind.
#[tactic(auto, unfolding(crate::specs::State::state_with))]
pub fn write(e: Engine, state: &mut [u64; 6])
    ensures { WritePromise e state.old state.new }
{
    match e.backend {
        Backend::Xoshiro256PlusPlus(x) => {
            state[0] = 0;
            put_small(x.s0, x.s1, x.s2, x.s3, state);
        }
        Backend::MersenneTwister => {
            state[0] = 1;
            put_position(e.mti, state);
        }
        Backend::Pcg32(p) => {
            state[0] = 2;
            state[2] = p.state;
            state[3] = p.inc;
        }
        Backend::Pcg64(p) => {
            state[0] = 3;
            put_small(p.state.high, p.state.low, p.inc.high, p.inc.low, state);
        }
    }
}

// An engine where the call is answered; where it is refused nothing changes.
#[tactic(auto, unfolding(crate::specs::State::state_after))]
pub fn settle(refused: u32, e: Engine, state: &mut [u64; 6])
    ensures { LentSettlePromise refused e state.old state.new }
{
    if refused != refusal::ANSWERED {
        return;
    }
    write(e, state);
}

// An engine in a state that is made anew: what its kind does not use is zeros.
pub fn begin(e: Engine, state: &mut [u64; 6])
    ensures { LentBeginPromise e state.new }
{
    *state = [0; 6];
    write(e, state);
}
