// A state read: the small words of one kind, and the whole engine.
ghost use Rattle.std.specs.Prelude.{◌≡◌};
ghost use Rattle.lent_state.specs.Promises.{PositionPromise, XoshiroInPromise, Pcg32InPromise, Pcg64InPromise, HeldInPromise};
ghost use Rattle.lent_state.specs.State.{engine_from, held_numbers, kind_refusal};
ghost use Rattle.words.specs.Numbers.{refusal_in};

use pcg::{Pcg32, Pcg64};
use random::{Backend, Engine, engine_with};
use words::Refusal;
use wrapping::Wide;
use xoshiro::Xoshiro256PlusPlus;

// What a state holds: the engine, and why its kind is refused. Refused, it is kind 0 with four zero words.
#[derive(Clone, Copy)]
pub struct Held {
    pub refusal: Option<Refusal>,
    pub engine: Engine,
}

// The twister's position.
pub fn position(state: &[u64; 6]) -> u32
    ensures { PositionPromise state.now result }
{
    (state[1] % 0x1_0000_0000) as u32
}

// The generator of kind 0 that has these small words.
pub fn xoshiro_in(state: &[u64; 6]) -> Xoshiro256PlusPlus
    ensures { XoshiroInPromise state.now result }
{
    Xoshiro256PlusPlus::from_parts(state[2], state[3], state[4], state[5])
}

// The generator of kind 2 that has these small words.
pub fn pcg32_in(state: &[u64; 6]) -> Pcg32
    ensures { Pcg32InPromise state.now result }
{
    Pcg32::from_parts(state[2], state[3])
}

// The generator of kind 3 that has these small words.
pub fn pcg64_in(state: &[u64; 6]) -> Pcg64
    ensures { Pcg64InPromise state.now result }
{
    let high = Wide {
        high: state[2],
        low: state[3],
    };
    let inc = Wide {
        high: state[4],
        low: state[5],
    };
    Pcg64::from_parts(high, inc)
}

// The engine of a state. Of a kind above 3 it has the kind and the words of a refused making.
#[tactic(auto, unfolding(crate::specs::State::backend_in))]
fn engine_in(state: &[u64; 6]) -> Engine
    ensures { result ≡ engine_from state.now }
{
    let mti = position(state);
    match state[0] {
        0 => engine_with(Backend::Xoshiro256PlusPlus(xoshiro_in(state)), mti),
        1 => engine_with(Backend::MersenneTwister, mti),
        2 => engine_with(Backend::Pcg32(pcg32_in(state)), mti),
        3 => engine_with(Backend::Pcg64(pcg64_in(state)), mti),
        _ => {
            let zeros = Xoshiro256PlusPlus::from_parts(0, 0, 0, 0);
            engine_with(Backend::Xoshiro256PlusPlus(zeros), mti)
        }
    }
}

// The refusal of a kind above 3.
#[tactic(auto, unfolding(crate::specs::State::kind_refusal))]
fn kind_refusal(kind: u64) -> Option<Refusal>
    ensures { refusal_in result ≡ kind_refusal kind }
{
    if kind > 3 {
        return Some(Refusal::Kind);
    }
    None
}

// The engine of a state. A kind above 3 is refused with 10.
pub fn held_in(state: &[u64; 6]) -> Held
    ensures { HeldInPromise state.now (held_numbers result) }
{
    let engine = engine_in(state);
    Held {
        refusal: kind_refusal(state[0]),
        engine,
    }
}
