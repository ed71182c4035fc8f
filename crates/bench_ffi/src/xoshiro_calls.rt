// Exports of xoshiro256++.
ghost use Rattle.xoshiro.specs.Promises.{XoshiroFromU64SeedPromise, XoshiroFromSeedPromise, XoshiroNextU64Promise, XoshiroNextU32Promise};
ghost use Rattle.xoshiro.specs.Promises.{XoshiroJumpPromise};
ghost use Rattle.bench_ffi.specs.Promises.{XoshiroWordsPromise};

use crate::words_xored::xored64;
use xoshiro::Xoshiro256PlusPlus;

// A word of 32 bits and the generator after it, as C holds them: a generic type can't cross to C.
#[repr(C)]
#[derive(Clone, Copy)]
pub struct Drawn32 {
    pub word: u32,
    pub next: Xoshiro256PlusPlus,
}

// A word of 64 bits and the generator after it, as C holds them: a generic type can't cross to C.
#[repr(C)]
#[derive(Clone, Copy)]
pub struct Drawn64 {
    pub word: u64,
    pub next: Xoshiro256PlusPlus,
}

// Made of a seed number.
#[unsafe(no_mangle)]
pub extern "C" fn xoshiro_from_u64_seed(seed: u64) -> Xoshiro256PlusPlus
    ensures { XoshiroFromU64SeedPromise seed result }
{
    Xoshiro256PlusPlus::from_u64_seed(seed)
}

// Made of 32 bytes.
#[unsafe(no_mangle)]
pub extern "C" fn xoshiro_from_seed(seed: &[u8; 32]) -> Xoshiro256PlusPlus
    ensures { XoshiroFromSeedPromise seed.now result }
{
    Xoshiro256PlusPlus::from_seed(*seed)
}

// The next word.
#[unsafe(no_mangle)]
pub extern "C" fn xoshiro_next_u64(g: Xoshiro256PlusPlus) -> Drawn64
    ensures { XoshiroNextU64Promise g record { word = result.word; next = result.next } }
{
    let d = g.next_u64();
    Drawn64 {
        word: d.word,
        next: d.next,
    }
}

// The high half of the next word.
#[unsafe(no_mangle)]
pub extern "C" fn xoshiro_next_u32(g: Xoshiro256PlusPlus) -> Drawn32
    ensures { XoshiroNextU32Promise g record { word = result.word; next = result.next } }
{
    let d = g.next_u32();
    Drawn32 {
        word: d.word,
        next: d.next,
    }
}

// The generator 2^128 words on.
#[unsafe(no_mangle)]
pub extern "C" fn xoshiro_jump(g: Xoshiro256PlusPlus) -> Xoshiro256PlusPlus
    ensures { XoshiroJumpPromise g result }
{
    g.jump()
}

// The XOR of the next n 64-bit words, and the generator after them.
#[unsafe(no_mangle)]
pub extern "C" fn xoshiro_words(g: Xoshiro256PlusPlus, n: u64) -> Drawn64
    ensures { XoshiroWordsPromise g n record { word = result.word; next = result.next } }
{
    let d = xored64(g, n);
    Drawn64 {
        word: d.word,
        next: d.next,
    }
}
