// Making a generator in the caller's state and table. What its kind does not use is zeros in the state; the table is the twister's alone,
// and every other making leaves it as it came.
ghost use Rattle.vrd_ffi.specs.Promises.{VrdMakePromise, VrdXoshiroWithSeedPromise, VrdMersenneTwisterWithSeedPromise};
ghost use Rattle.vrd_ffi.specs.Promises.{VrdPcg32WithSeedPromise, VrdPcg64WithSeedPromise};
ghost use Rattle.vrd_ffi.specs.Promises.{VrdPcg32WithStreamPromise, VrdPcg64WithStreamPromise};

use lent_state::{begin, place};
use random::engine_of;
use words::refusal;
use wrapping::Wide;

// Of bytes. The answer is the refusal: 10 for a kind above 3, then 11. A refused making changes nothing.
#[unsafe(no_mangle)]
pub extern "C" fn vrd_make_in(
    state: &mut [u64; 6],
    table: &mut [u32; 624],
    kind: u32,
    seed: &[u8],
) -> u32
    ensures { VrdMakePromise state.old table.old kind seed.now result
        state.new table.new }
{
    let m = making::make(kind, seed);
    place(refusal::number_of(m.refusal), m.generator, state, table)
}

// Of a seed number, kind 0.
#[unsafe(no_mangle)]
pub extern "C" fn vrd_xoshiro_with_seed_in(state: &mut [u64; 6], seed: u64)
    ensures { VrdXoshiroWithSeedPromise seed state.new }
{
    begin(engine_of(making::from_u64_seed(seed)), state);
}

// Kind 1, with its table.
#[unsafe(no_mangle)]
pub extern "C" fn vrd_mersenne_twister_with_seed_in(
    state: &mut [u64; 6],
    table: &mut [u32; 624],
    seed: u32,
)
    ensures { VrdMersenneTwisterWithSeedPromise seed state.new table.new }
{
    let g = making::new_mersenne_twister_with_seed(seed);
    begin(engine_of(g), state);
    let mt = g.twister.mt;
    *table = mt;
}

// Kind 2.
#[unsafe(no_mangle)]
pub extern "C" fn vrd_pcg32_with_seed_in(state: &mut [u64; 6], seed: u64)
    ensures { VrdPcg32WithSeedPromise seed state.new }
{
    begin(engine_of(making::new_pcg32_with_seed(seed)), state);
}

// Kind 3.
#[unsafe(no_mangle)]
pub extern "C" fn vrd_pcg64_with_seed_in(state: &mut [u64; 6], seed: Wide)
    ensures { VrdPcg64WithSeedPromise seed state.new }
{
    begin(engine_of(making::new_pcg64_with_seed(seed)), state);
}

// Of a seed and a stream, kind 2.
#[unsafe(no_mangle)]
pub extern "C" fn vrd_pcg32_with_stream_in(state: &mut [u64; 6], seed: u64, stream: u64)
    ensures { VrdPcg32WithStreamPromise seed stream state.new }
{
    begin(
        engine_of(making::new_pcg32_with_stream(seed, stream)),
        state,
    );
}

// Kind 3.
#[unsafe(no_mangle)]
pub extern "C" fn vrd_pcg64_with_stream_in(state: &mut [u64; 6], seed: Wide, stream: Wide)
    ensures { VrdPcg64WithStreamPromise seed stream state.new }
{
    begin(
        engine_of(making::new_pcg64_with_stream(seed, stream)),
        state,
    );
}
