// PCG-XSL-RR-128/64: a state and an increment of 128 bits each, words of 64 bits.
ghost use Rattle.std.specs.Prelude.{◌≡◌};
ghost use Rattle.pcg.specs.Pcg64.{drawn, drawn_high, next_state, output, increment_of, seeded_bytes};
ghost use Rattle.pcg.specs.Pcg64Promises.{Pcg64FromPartsPromise, Pcg64FromSeedStreamPromise, Pcg64FromU128SeedPromise};
ghost use Rattle.pcg.specs.Pcg64Promises.{Pcg64FromSeedPromise, Pcg64NextU64Promise, Pcg64NextU32Promise};

use source::{Drawn, Source};
use wrapping::Wide;

// The multiplier of the step, O'Neill's for 128 bits.
const MULTIPLIER: Wide = Wide {
    high: 0x2360_ED05_1FC6_5DA4,
    low: 0x4385_DF64_9FCC_F645,
};

// What a seed number alone takes for its stream.
const DEFAULT_STREAM: Wide = Wide {
    high: 0x5851_F42D_4C95_7F2D,
    low: 0x1405_7B7E_F767_814F,
};

// The state, and the increment in use.
#[repr(C)]
#[derive(Clone, Copy, PartialEq, Eq, Debug)]
pub struct Pcg64 {
    pub state: Wide,
    pub inc: Wide,
}

// The state after a state, with this increment.
fn next_state(state: Wide, inc: Wide) -> Wide
    ensures { result ≡ next_state inc state }
{
    state.wrapping_mul(MULTIPLIER).wrapping_add(inc)
}

// The word that a state gives: XOR-shift-low, then a rotation by the top six bits.
fn word_of(state: Wide) -> u64
    ensures { result ≡ output state }
{
    wrapping::rotate_right_u64(state.high ^ state.low, (state.high >> 58) as u32)
}

// The increment of a stream: shifted left by 1, the top bit dropped, plus 1.
fn increment(stream: Wide) -> Wide
    ensures { result ≡ increment_of stream }
{
    stream
        .wrapping_add(stream)
        .wrapping_add(Wide { high: 0, low: 1 })
}

// The generator of 32 bytes: the seed and then the stream, whose low bit is set before it is shifted.
fn of_bytes(seed: &[u8]) -> Pcg64
    ensures { result ≡ seeded_bytes seed.now }
{
    let state = Wide {
        high: wrapping::le_u64(seed, 8),
        low: wrapping::le_u64(seed, 0),
    };
    let stream = Wide {
        high: wrapping::le_u64(seed, 24),
        low: wrapping::le_u64(seed, 16) / 2 * 2 + 1,
    };
    Pcg64::from_seed_stream(state, stream)
}

impl Pcg64 {
    // The generator with this state and the increment in use, an even one included.
    pub fn from_parts(state: Wide, inc: Wide) -> Pcg64
        ensures { Pcg64FromPartsPromise state inc result }
    {
        Pcg64 { state, inc }
    }

    // State 0, one step, the seed added, one step; the increment is the stream's.
    #[tactic(auto, unfolding(crate::specs::Lcg::seeded_state), using(wrapping::specs::WideLaws::value_wide))]
    pub fn from_seed_stream(seed: Wide, stream: Wide) -> Pcg64
        ensures { Pcg64FromSeedStreamPromise seed stream result }
    {
        let inc = increment(stream);
        let first = next_state(Wide { high: 0, low: 0 }, inc);
        let state = next_state(first.wrapping_add(seed), inc);
        Pcg64 { state, inc }
    }

    // From a seed number alone, with the default stream.
    pub fn from_u128_seed(seed: Wide) -> Pcg64
        ensures { Pcg64FromU128SeedPromise seed result }
    {
        Pcg64::from_seed_stream(seed, DEFAULT_STREAM)
    }

    // From 32 bytes.
    pub fn from_seed(seed: [u8; 32]) -> Pcg64
        ensures { Pcg64FromSeedPromise seed result }
    {
        of_bytes(&seed)
    }

    // The next word. It is made of the old state.
    pub fn next_u64(self) -> Drawn<u64, Pcg64>
        ensures { Pcg64NextU64Promise self result }
    {
        let old = self.state;
        let state = next_state(old, self.inc);
        Drawn {
            word: word_of(old),
            next: Pcg64 {
                state,
                inc: self.inc,
            },
        }
    }

    // The high half of the next word.
    pub fn next_u32(self) -> Drawn<u32, Pcg64>
        ensures { Pcg64NextU32Promise self result }
    {
        let d = self.next_u64();
        Drawn {
            word: (d.word >> 32) as u32,
            next: d.next,
        }
    }
}

impl Source for Pcg64 {
    ghost drawn = { drawn_high };

    ghost drawn64 = { drawn };

    fn next_u32(self) -> Drawn<u32, Pcg64> {
        Pcg64::next_u32(self)
    }

    fn next_u64(self) -> Drawn<u64, Pcg64> {
        Pcg64::next_u64(self)
    }
}
