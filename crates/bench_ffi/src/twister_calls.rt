// Exports of MT19937: over a lent table, and by value.
ghost use Rattle.mersenne_twister.specs.Promises.{SeedInPromise, FromSeedInPromise, RandInPromise, NextU64InPromise, TwistInPromise};
ghost use Rattle.mersenne_twister.specs.Promises.{StoredPositionPromise, TwisterFromU32SeedPromise, TwisterRandPromise};
ghost use Rattle.bench_ffi.specs.Promises.{TwisterWordsInPromise, TwisterWordsPromise};

use crate::words_xored::xored32;
use mersenne_twister::MersenneTwister;

// A word of 32 bits and the position after it, as C holds them: a generic type can't cross to C.
#[repr(C)]
#[derive(Clone, Copy)]
pub struct Step {
    pub word: u32,
    pub mti: u32,
}

// The same of 64 bits.
#[repr(C)]
#[derive(Clone, Copy)]
pub struct Step64 {
    pub word: u64,
    pub mti: u32,
}

// A word and the generator after it, by value.
#[repr(C)]
#[derive(Clone, Copy)]
pub struct Drawn32 {
    pub word: u32,
    pub next: MersenneTwister,
}

// The table seeded by a number; the position comes back.
#[unsafe(no_mangle)]
pub extern "C" fn mt_seed(mt: &mut [u32; 624], seed: u32) -> u32
    ensures { SeedInPromise mt.old seed result mt.new }
{
    mersenne_twister::seed_in(mt, seed)
}

// The table seeded by 32 bytes.
#[unsafe(no_mangle)]
pub extern "C" fn mt_from_seed(mt: &mut [u32; 624], seed: &[u8; 32]) -> u32
    ensures { FromSeedInPromise mt.old seed.now result mt.new }
{
    mersenne_twister::from_seed_in(mt, seed)
}

// The next word, and the position after it.
#[unsafe(no_mangle)]
pub extern "C" fn mt_rand(mt: &mut [u32; 624], mti: u32) -> Step
    ensures { RandInPromise mt.old mti record { word = result.word; mti = result.mti } mt.new }
{
    let d = mersenne_twister::rand_in(mt, mti);
    Step {
        word: d.word,
        mti: d.mti,
    }
}

// The next two words as one of 64 bits, the high one first.
#[unsafe(no_mangle)]
pub extern "C" fn mt_next_u64(mt: &mut [u32; 624], mti: u32) -> Step64
    ensures { NextU64InPromise mt.old mti record { word = result.word; mti = result.mti } mt.new }
{
    let d = mersenne_twister::next_u64_in(mt, mti);
    Step64 {
        word: d.word,
        mti: d.mti,
    }
}

// The table renewed.
#[unsafe(no_mangle)]
pub extern "C" fn mt_twist(mt: &mut [u32; 624]) -> u32
    ensures { TwistInPromise mt.old result mt.new }
{
    mersenne_twister::twist_in(mt)
}

// The position that is stored for a number.
#[unsafe(no_mangle)]
pub extern "C" fn mt_set_mti(value: u32) -> u32
    ensures { StoredPositionPromise value result }
{
    mersenne_twister::stored_position(value)
}

// The XOR of the next n words over a lent table, and the position after them.
#[unsafe(no_mangle)]
#[tactic(auto, unfolding(crate::specs::Steps::after, crate::specs::Steps::xor_of))]
pub extern "C" fn mt_words(mt: &mut [u32; 624], mti: u32, n: u64) -> Step
    ensures { TwisterWordsInPromise mt.old mti n record { word = result.word; mti = result.mti } mt.new }
{
    let mut at = mti;
    let mut word: u32 = 0;
    for _i in 0..n {
        let d = mersenne_twister::rand_in(mt, at);
        word ^= d.word;
        at = d.mti;
    }
    Step { word, mti: at }
}

// Made of a seed number, by value.
#[unsafe(no_mangle)]
pub extern "C" fn mt_value_seed(seed: u32) -> MersenneTwister
    ensures { TwisterFromU32SeedPromise seed result }
{
    MersenneTwister::from_u32_seed(seed)
}

// The next word, by value.
#[unsafe(no_mangle)]
pub extern "C" fn mt_value_rand(g: MersenneTwister) -> Drawn32
    ensures { TwisterRandPromise g record { word = result.word; next = result.next } }
{
    let d = g.rand();
    Drawn32 {
        word: d.word,
        next: d.next,
    }
}

// The XOR of the next n words, each through the call by value, and the generator after them.
#[unsafe(no_mangle)]
pub extern "C" fn mt_value_words(g: MersenneTwister, n: u64) -> Drawn32
    ensures { TwisterWordsPromise g n record { word = result.word; next = result.next } }
{
    let d = xored32(g, n);
    Drawn32 {
        word: d.word,
        next: d.next,
    }
}
