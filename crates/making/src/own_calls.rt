// Making a generator by its kind's own calls, which refuse nothing: from parts set by hand, from a seed number, from a seed and a stream.
// What a kind does not use is zeros.
ghost use Rattle.std.specs.Prelude.{◌≡◌};
ghost use Rattle.making.specs.Make.{zero_twister};
ghost use Rattle.making.specs.Promises.{FromXoshiroPromise, FromMersenneTwisterPromise, FromPcg32Promise, FromPcg64Promise};
ghost use Rattle.making.specs.Promises.{ZerosPromise, FromU64SeedPromise, NewMersenneTwisterWithSeedPromise, NewPcg32WithSeedPromise};
ghost use Rattle.making.specs.Promises.{NewPcg64WithSeedPromise, NewPcg32WithStreamPromise, NewPcg64WithStreamPromise};

use mersenne_twister::MersenneTwister;
use pcg::{Pcg32, Pcg64};
use random::{Backend, Random};
use wrapping::Wide;
use xoshiro::Xoshiro256PlusPlus;

// ---- from parts set by hand, each kind's own

// A generator of kind 0 with this state.
pub fn from_xoshiro(x: Xoshiro256PlusPlus) -> Random
    ensures { FromXoshiroPromise x result }
{
    beside_zeros(Backend::Xoshiro256PlusPlus(x))
}

// A generator of kind 1 with this table and position.
pub fn from_mersenne_twister(twister: MersenneTwister) -> Random
    ensures { FromMersenneTwisterPromise twister result }
{
    Random {
        backend: Backend::MersenneTwister,
        twister,
    }
}

// A generator of kind 2 with this state and increment.
pub fn from_pcg32(p: Pcg32) -> Random
    ensures { FromPcg32Promise p result }
{
    beside_zeros(Backend::Pcg32(p))
}

// A generator of kind 3 with this state and increment.
pub fn from_pcg64(p: Pcg64) -> Random
    ensures { FromPcg64Promise p result }
{
    beside_zeros(Backend::Pcg64(p))
}

// A backend that has no use for the twister's table.
fn beside_zeros(backend: Backend) -> Random
    ensures { result ≡ record { backend = backend; twister = zero_twister } }
{
    let twister = MersenneTwister {
        mt: [0u32; 624],
        mti: 0,
    };
    Random { backend, twister }
}

// Kind 0 with four zero words: what a refused making hands out.
pub fn zeros() -> Random
    ensures { ZerosPromise result }
{
    from_xoshiro(Xoshiro256PlusPlus::from_parts(0, 0, 0, 0))
}

// ---- from a seed number

// A generator of kind 0, seeded through SplitMix64; 0 is replaced.
pub fn from_u64_seed(seed: u64) -> Random
    ensures { FromU64SeedPromise seed result }
{
    from_xoshiro(Xoshiro256PlusPlus::from_u64_seed(seed))
}

// A generator of kind 1, seeded from a number.
pub fn new_mersenne_twister_with_seed(seed: u32) -> Random
    ensures { NewMersenneTwisterWithSeedPromise seed result }
{
    from_mersenne_twister(MersenneTwister::from_u32_seed(seed))
}

// A generator of kind 2, seeded from a number, with the default stream.
pub fn new_pcg32_with_seed(seed: u64) -> Random
    ensures { NewPcg32WithSeedPromise seed result }
{
    from_pcg32(Pcg32::from_u64_seed(seed))
}

// A generator of kind 3, seeded from a number of 128 bits, with the default stream.
pub fn new_pcg64_with_seed(seed: Wide) -> Random
    ensures { NewPcg64WithSeedPromise seed result }
{
    from_pcg64(Pcg64::from_u128_seed(seed))
}

// ---- from a seed and a stream

// A generator of kind 2, seeded from a number and a stream.
pub fn new_pcg32_with_stream(seed: u64, stream: u64) -> Random
    ensures { NewPcg32WithStreamPromise seed stream result }
{
    from_pcg32(Pcg32::from_seed_stream(seed, stream))
}

// A generator of kind 3, seeded from a number and a stream of 128 bits each.
pub fn new_pcg64_with_stream(seed: Wide, stream: Wide) -> Random
    ensures { NewPcg64WithStreamPromise seed stream result }
{
    from_pcg64(Pcg64::from_seed_stream(seed, stream))
}
