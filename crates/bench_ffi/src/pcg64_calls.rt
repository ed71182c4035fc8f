// Exports of Pcg64; numbers of 128 bits are a high and a low word.
ghost use Rattle.pcg.specs.Pcg64Promises.{Pcg64FromU128SeedPromise, Pcg64FromSeedStreamPromise, Pcg64FromSeedPromise};
ghost use Rattle.pcg.specs.Pcg64Promises.{Pcg64NextU64Promise, Pcg64NextU32Promise};
ghost use Rattle.bench_ffi.specs.Promises.{Pcg64WordsPromise};

use crate::words_xored::xored64;
use pcg::Pcg64;
use wrapping::Wide;

// A word of 32 bits and the generator after it, as C holds them: a generic type can't cross to C.
#[repr(C)]
#[derive(Clone, Copy)]
pub struct Drawn32 {
    pub word: u32,
    pub next: Pcg64,
}

// A word of 64 bits and the generator after it, as C holds them: a generic type can't cross to C.
#[repr(C)]
#[derive(Clone, Copy)]
pub struct Drawn64 {
    pub word: u64,
    pub next: Pcg64,
}

// Made of a seed number.
#[unsafe(no_mangle)]
pub extern "C" fn pcg64_from_u128_seed(seed: Wide) -> Pcg64
    ensures { Pcg64FromU128SeedPromise seed result }
{
    Pcg64::from_u128_seed(seed)
}

// Made of a seed and a stream.
#[unsafe(no_mangle)]
pub extern "C" fn pcg64_from_seed_stream(seed: Wide, stream: Wide) -> Pcg64
    ensures { Pcg64FromSeedStreamPromise seed stream result }
{
    Pcg64::from_seed_stream(seed, stream)
}

// Made of 32 bytes.
#[unsafe(no_mangle)]
pub extern "C" fn pcg64_from_seed(seed: &[u8; 32]) -> Pcg64
    ensures { Pcg64FromSeedPromise seed.now result }
{
    Pcg64::from_seed(*seed)
}

// The next word.
#[unsafe(no_mangle)]
pub extern "C" fn pcg64_next_u64(g: Pcg64) -> Drawn64
    ensures { Pcg64NextU64Promise g record { word = result.word; next = result.next } }
{
    let d = g.next_u64();
    Drawn64 {
        word: d.word,
        next: d.next,
    }
}

// The high half of the next word.
#[unsafe(no_mangle)]
pub extern "C" fn pcg64_next_u32(g: Pcg64) -> Drawn32
    ensures { Pcg64NextU32Promise g record { word = result.word; next = result.next } }
{
    let d = g.next_u32();
    Drawn32 {
        word: d.word,
        next: d.next,
    }
}

// The XOR of the next n 64-bit words, and the generator after them.
#[unsafe(no_mangle)]
pub extern "C" fn pcg64_words(g: Pcg64, n: u64) -> Drawn64
    ensures { Pcg64WordsPromise g n record { word = result.word; next = result.next } }
{
    let d = xored64(g, n);
    Drawn64 {
        word: d.word,
        next: d.next,
    }
}
