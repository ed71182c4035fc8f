// `seed`: the generator's kind is kept and its state set anew, over a lent table and by value.
ghost use Rattle.making.specs.Promises.{MakingSeedInPromise, SeedPromise};

use pcg::{Pcg32, Pcg64};
use random::{Backend, Engine, Random, engine_of, engine_with, with_table};
use wrapping::Wide;
use xoshiro::Xoshiro256PlusPlus;

// The kind is kept; the 32-bit seed is widened, and the stream is the default one.
#[tactic(auto, unfolding(crate::specs::Seeding::seeded_to))]
pub fn seed_in(e: Engine, mt: &mut [u32; 624], seed: u32) -> Engine
    ensures { MakingSeedInPromise e mt.old seed result mt.new }
{
    let mti = e.mti;
    match e.backend {
        Backend::Xoshiro256PlusPlus(_) => {
            let x = Xoshiro256PlusPlus::from_u64_seed(seed as u64);
            engine_with(Backend::Xoshiro256PlusPlus(x), mti)
        }
        Backend::MersenneTwister => {
            let at = mersenne_twister::seed_in(mt, seed);
            engine_with(Backend::MersenneTwister, at)
        }
        Backend::Pcg32(_) => {
            let p = Pcg32::from_u64_seed(seed as u64);
            engine_with(Backend::Pcg32(p), mti)
        }
        Backend::Pcg64(_) => {
            let low = seed as u64;
            let p = Pcg64::from_u128_seed(Wide { high: 0, low });
            engine_with(Backend::Pcg64(p), mti)
        }
    }
}

// The same by value.
pub fn seed(g: Random, seed: u32) -> Random
    ensures { SeedPromise g seed result }
{
    let mut moved = g;
    let e = seed_in(engine_of(g), &mut moved.twister.mt, seed);
    let mt = moved.twister.mt;
    with_table(e, mt)
}
