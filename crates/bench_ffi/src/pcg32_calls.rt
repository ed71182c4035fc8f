// Exports of Pcg32.
ghost use Rattle.pcg.specs.Pcg32Promises.{Pcg32FromU64SeedPromise, Pcg32FromSeedStreamPromise, Pcg32FromSeedPromise, Pcg32NextU32Promise};
ghost use Rattle.pcg.specs.Pcg32Promises.{Pcg32NextU64Promise};
ghost use Rattle.bench_ffi.specs.Promises.{Pcg32WordsPromise};

use crate::words_xored::xored32;
use pcg::Pcg32;

// A word of 32 bits and the generator after it, as C holds them: a generic type can't cross to C.
#[repr(C)]
#[derive(Clone, Copy)]
pub struct Drawn32 {
    pub word: u32,
    pub next: Pcg32,
}

// A word of 64 bits and the generator after it, as C holds them: a generic type can't cross to C.
#[repr(C)]
#[derive(Clone, Copy)]
pub struct Drawn64 {
    pub word: u64,
    pub next: Pcg32,
}

// Made of a seed number.
#[unsafe(no_mangle)]
pub extern "C" fn pcg32_from_u64_seed(seed: u64) -> Pcg32
    ensures { Pcg32FromU64SeedPromise seed result }
{
    Pcg32::from_u64_seed(seed)
}

// Made of a seed and a stream.
#[unsafe(no_mangle)]
pub extern "C" fn pcg32_from_seed_stream(seed: u64, stream: u64) -> Pcg32
    ensures { Pcg32FromSeedStreamPromise seed stream result }
{
    Pcg32::from_seed_stream(seed, stream)
}

// Made of 16 bytes.
#[unsafe(no_mangle)]
pub extern "C" fn pcg32_from_seed(seed: &[u8; 16]) -> Pcg32
    ensures { Pcg32FromSeedPromise seed.now result }
{
    Pcg32::from_seed(*seed)
}

// The next word.
#[unsafe(no_mangle)]
pub extern "C" fn pcg32_next_u32(g: Pcg32) -> Drawn32
    ensures { Pcg32NextU32Promise g record { word = result.word; next = result.next } }
{
    let d = g.next_u32();
    Drawn32 {
        word: d.word,
        next: d.next,
    }
}

// The next two words as one of 64 bits, the low one first.
#[unsafe(no_mangle)]
pub extern "C" fn pcg32_next_u64(g: Pcg32) -> Drawn64
    ensures { Pcg32NextU64Promise g record { word = result.word; next = result.next } }
{
    let d = g.next_u64();
    Drawn64 {
        word: d.word,
        next: d.next,
    }
}

// The XOR of the next n 32-bit words, and the generator after them.
#[unsafe(no_mangle)]
pub extern "C" fn pcg32_words(g: Pcg32, n: u64) -> Drawn32
    ensures { Pcg32WordsPromise g n record { word = result.word; next = result.next } }
{
    let d = xored32(g, n);
    Drawn32 {
        word: d.word,
        next: d.next,
    }
}
