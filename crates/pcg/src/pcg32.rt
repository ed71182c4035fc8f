// PCG-XSH-RR-64/32: a state of 64 bits and an increment, words of 32 bits.
ghost use Rattle.std.specs.Prelude.{◌≡◌};
ghost use Rattle.pcg.specs.Pcg32.{drawn, drawn_twice, next_state, output, seeded_bytes};
ghost use Rattle.pcg.specs.Pcg32Promises.{Pcg32FromPartsPromise, Pcg32FromSeedStreamPromise, Pcg32FromU64SeedPromise};
ghost use Rattle.pcg.specs.Pcg32Promises.{Pcg32FromSeedPromise, Pcg32NextU32Promise, Pcg32NextU64Promise};

use source::{Drawn, Source};

// The multiplier of the step, O'Neill's for 64 bits.
const MULTIPLIER: u64 = 6_364_136_223_846_793_005;

// What a seed number alone takes for its stream.
const DEFAULT_STREAM: u64 = 1_442_695_040_888_963_407;

// The state, and the increment in use.
#[repr(C)]
#[derive(Clone, Copy, PartialEq, Eq, Debug)]
pub struct Pcg32 {
    pub state: u64,
    pub inc: u64,
}

// The state after a state, with this increment.
fn next_state(state: u64, inc: u64) -> u64
    ensures { result ≡ next_state inc state }
{
    state.wrapping_mul(MULTIPLIER).wrapping_add(inc)
}

// The word that a state gives: XOR-shift-high, then a rotation by the top five bits.
fn word_of(state: u64) -> u32
    ensures { result ≡ output state }
{
    let xorshifted = ((((state >> 18) ^ state) >> 27) % 0x1_0000_0000) as u32;
    wrapping::rotate_right_u32(xorshifted, (state >> 59) as u32)
}

// The generator of 16 bytes: the seed and then the stream, whose low bit is set before it is shifted.
fn of_bytes(seed: &[u8]) -> Pcg32
    ensures { result ≡ seeded_bytes seed.now }
{
    let state = wrapping::le_u64(seed, 0);
    let stream = wrapping::le_u64(seed, 8);
    Pcg32::from_seed_stream(state, stream / 2 * 2 + 1)
}

impl Pcg32 {
    // The generator with this state and the increment in use, an even one included.
    pub fn from_parts(state: u64, inc: u64) -> Pcg32
        ensures { Pcg32FromPartsPromise state inc result }
    {
        Pcg32 { state, inc }
    }

    // State 0, one step, the seed added, one step; the increment is the stream's.
    #[tactic(auto, unfolding(crate::specs::Lcg::seeded_state))]
    pub fn from_seed_stream(seed: u64, stream: u64) -> Pcg32
        ensures { Pcg32FromSeedStreamPromise seed stream result }
    {
        let inc = (stream << 1) + 1;
        let first = next_state(0, inc);
        Pcg32 {
            state: next_state(first.wrapping_add(seed), inc),
            inc: inc,
        }
    }

    // From a seed number alone, with the default stream.
    pub fn from_u64_seed(seed: u64) -> Pcg32
        ensures { Pcg32FromU64SeedPromise seed result }
    {
        Pcg32::from_seed_stream(seed, DEFAULT_STREAM)
    }

    // From 16 bytes.
    pub fn from_seed(seed: [u8; 16]) -> Pcg32
        ensures { Pcg32FromSeedPromise seed result }
    {
        of_bytes(&seed)
    }

    // The next word. It is made of the old state.
    pub fn next_u32(self) -> Drawn<u32, Pcg32>
        ensures { Pcg32NextU32Promise self result }
    {
        Drawn {
            word: word_of(self.state),
            next: Pcg32 {
                state: next_state(self.state, self.inc),
                inc: self.inc,
            },
        }
    }

    // Two words, the low one first.
    pub fn next_u64(self) -> Drawn<u64, Pcg32>
        ensures { Pcg32NextU64Promise self result }
    {
        let low = self.next_u32();
        let high = low.next.next_u32();
        Drawn {
            word: (high.word as u64) * 0x1_0000_0000 + (low.word as u64),
            next: high.next,
        }
    }
}

impl Source for Pcg32 {
    ghost drawn = { drawn };

    ghost drawn64 = { drawn_twice };

    fn next_u32(self) -> Drawn<u32, Pcg32> {
        Pcg32::next_u32(self)
    }

    fn next_u64(self) -> Drawn<u64, Pcg32> {
        Pcg32::next_u64(self)
    }
}
