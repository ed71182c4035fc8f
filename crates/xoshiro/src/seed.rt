// How a seed becomes four words of state: SplitMix64, and the one place that replaces a seed of 0.
ghost use Rattle.std.specs.Prelude.{◌≡◌};
ghost use Rattle.xoshiro.specs.Promises.{XoshiroFromU64SeedPromise, XoshiroFromSeedPromise};
ghost use Rattle.xoshiro.specs.Seed.{nonzero_seed, four_words, xor_of_words};
ghost use Rattle.xoshiro.specs.SplitMix64.{next_state, mixed};

use super::Xoshiro256PlusPlus;

// The number that stands in for a seed of 0.
const ZERO_SEED: u64 = 0xBAD1_DEAA_5BD1_CAFE;

// The next word of SplitMix64; its state moves on.
fn splitmix64(state: &mut u64) -> u64
    ensures { (state.new ≡ next_state state.old) × (result ≡ mixed (next_state state.old)) }
{
    *state = state.wrapping_add(0x9E37_79B9_7F4A_7C15);
    mix(*state)
}

// The word that a state of SplitMix64 gives.
#[tactic(auto, unfolding(crate::specs::SplitMix64::mixed))]
fn mix(z: u64) -> u64
    ensures { result ≡ mixed z }
{
    let y = (z ^ (z >> 30)).wrapping_mul(0xBF58_476D_1CE4_E5B9);
    let x = (y ^ (y >> 27)).wrapping_mul(0x94D0_49BB_1331_11EB);
    x ^ (x >> 31)
}

// The seed, or the number that stands in for 0.
fn nonzero(seed: u64) -> u64
    ensures { result ≡ nonzero_seed seed }
{
    if seed == 0 { ZERO_SEED } else { seed }
}

// The first four words of SplitMix64 from the state `seed`.
#[tactic(auto, unfolding(crate::specs::Seed::four_words))]
fn primed(seed: u64) -> Xoshiro256PlusPlus
    ensures { result ≡ four_words seed }
{
    let mut state = seed;
    let s0 = splitmix64(&mut state);
    let s1 = splitmix64(&mut state);
    let s2 = splitmix64(&mut state);
    let s3 = splitmix64(&mut state);
    Xoshiro256PlusPlus { s0, s1, s2, s3 }
}

// The four little-endian words of 32 bytes, XORed.
fn folded(seed: &[u8]) -> u64
    ensures { result ≡ xor_of_words seed.now }
{
    let a = wrapping::le_u64(seed, 0);
    let b = wrapping::le_u64(seed, 8);
    let c = wrapping::le_u64(seed, 16);
    let d = wrapping::le_u64(seed, 24);
    a ^ b ^ c ^ d
}

impl Xoshiro256PlusPlus {
    // Four words of SplitMix64, from a seed number; 0 is replaced.
    pub fn from_u64_seed(seed: u64) -> Xoshiro256PlusPlus
        ensures { XoshiroFromU64SeedPromise seed result }
    {
        primed(nonzero(seed))
    }

    // The same from 32 bytes: their four little-endian words, XORed, are the seed number.
    pub fn from_seed(seed: [u8; 32]) -> Xoshiro256PlusPlus
        ensures { XoshiroFromSeedPromise seed result }
    {
        Xoshiro256PlusPlus::from_u64_seed(folded(&seed))
    }
}
