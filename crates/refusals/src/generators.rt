// The generators that every call is tried on: each kind in four states set by hand. What a kind does not use holds sentinels.
use mersenne_twister::MersenneTwister;
use pcg::{Pcg32, Pcg64};
use random::{Backend, Kind, Random};
use wrapping::Wide;
use xoshiro::Xoshiro256PlusPlus;

pub(crate) const KINDS: [Kind; 4] = [
    Kind::Xoshiro256PlusPlus,
    Kind::MersenneTwister,
    Kind::Pcg32,
    Kind::Pcg64,
];

// No state in particular; one whose first word is 0 and rejected by most bounds, with others after it; zeros, whose words are 0 for ever;
// and the largest numbers.
#[derive(Clone, Copy, PartialEq, Eq)]
pub(crate) enum State {
    Any,
    FirstWordZero,
    Zeros,
    Largest,
}

pub(crate) const STATES: [State; 4] = [
    State::Any,
    State::FirstWordZero,
    State::Zeros,
    State::Largest,
];

// What stands in the table of the kinds that have no use for it.
const SENTINEL: u32 = 0xDEAD_BEEF;

impl State {
    // Four small words.
    fn words(self) -> [u64; 4] {
        match self {
            State::Any => [0x9E37_79B9_7F4A_7C15, 0xBF58_476D_1CE4_E5B9, 3, 5],
            State::FirstWordZero => [0, 1, 0, 1],
            State::Zeros => [0; 4],
            State::Largest => [u64::MAX; 4],
        }
    }

    // The position beside the kinds that have no use for it.
    fn position(self) -> u32 {
        match self {
            State::Any => 77,
            State::FirstWordZero => 624,
            State::Zeros => 0,
            State::Largest => u32::MAX,
        }
    }

    fn twister(self) -> MersenneTwister {
        let seeded = MersenneTwister::from_u32_seed(42);
        match self {
            State::Any => seeded,
            State::FirstWordZero => {
                let mut mt = seeded.mt;
                mt[0] = 0;
                mt[1] = 0;
                MersenneTwister::from_parts(mt, 0)
            }
            State::Zeros => MersenneTwister::from_parts([0; 624], 700),
            State::Largest => MersenneTwister::from_parts([u32::MAX; 624], u32::MAX),
        }
    }
}

pub(crate) fn generator(kind: Kind, state: State) -> Random {
    let [w0, w1, w2, w3] = state.words();
    let backend = match kind {
        Kind::Xoshiro256PlusPlus => {
            Backend::Xoshiro256PlusPlus(Xoshiro256PlusPlus::from_parts(w0, w1, w2, w3))
        }
        Kind::MersenneTwister => Backend::MersenneTwister,
        Kind::Pcg32 => Backend::Pcg32(Pcg32::from_parts(w0, w1)),
        Kind::Pcg64 => {
            let state = Wide { high: w0, low: w1 };
            let inc = Wide { high: w2, low: w3 };
            Backend::Pcg64(Pcg64::from_parts(state, inc))
        }
    };
    let twister = match kind {
        Kind::MersenneTwister => state.twister(),
        _ => MersenneTwister::from_parts([SENTINEL; 624], state.position()),
    };
    Random { backend, twister }
}

pub(crate) fn beside_zeros(backend: Backend) -> Random {
    let twister = MersenneTwister::from_parts([0; 624], 0);
    Random { backend, twister }
}

// A backend of four zero words beside a table of zeros: what a refused making or split hands out.
pub(crate) fn zeros() -> Random {
    beside_zeros(Backend::Xoshiro256PlusPlus(Xoshiro256PlusPlus::from_parts(0, 0, 0, 0)))
}

// Whether two generators are the same struct: kind, small words, position and the whole table, used or not.
pub(crate) fn same_generator(a: Random, b: Random) -> bool {
    a.twister.mti == b.twister.mti && a.twister.mt == b.twister.mt && parts::same(a, b)
}
