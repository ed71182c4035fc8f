// The generator before a row's call: made of the maker's eight words, and so many words skipped.
ghost use Rattle.std.specs.Prelude.{◌≤◌};

use crate::runs;
use crate::sample::{Row, halves};
use mersenne_twister::MersenneTwister;
use pcg::{Pcg32, Pcg64};
use random::{Kind, Random};
use wrapping::Wide;
use xoshiro::Xoshiro256PlusPlus;

// What a generator is made of, numbered as rust/record numbers it.
#[derive(Clone, Copy)]
enum Maker {
    Seed,
    Stream,
    Bytes,
    Parts,
}

// A number that names no maker.
#[derive(Clone, Copy)]
struct UnknownMaker;

impl TryFrom<u32> for Maker {
    type Error = UnknownMaker;

    fn try_from(number: u32) -> Result<Maker, UnknownMaker> {
        match number {
            0 => Ok(Maker::Seed),
            1 => Ok(Maker::Stream),
            2 => Ok(Maker::Bytes),
            3 => Ok(Maker::Parts),
            _ => Err(UnknownMaker),
        }
    }
}

// The kind of a row's number; what is above 3 stands for the last.
fn kind_of(number: u32) -> Kind {
    Kind::try_from(number).unwrap_or(Kind::Pcg64)
}

// A seed of 64 bits, or of 128, the low half first.
fn of_seed(kind: Kind, low: u64, high: u64) -> Random {
    match kind {
        Kind::Xoshiro256PlusPlus => making::from_u64_seed(low),
        Kind::MersenneTwister => making::new_mersenne_twister_with_seed(halves(low).0),
        Kind::Pcg32 => making::new_pcg32_with_seed(low),
        Kind::Pcg64 => making::new_pcg64_with_seed(Wide { high, low }),
    }
}

// The same with a stream.
fn of_stream(kind: Kind, numbers: [u64; 4]) -> Random {
    let [low, high, stream_low, stream_high] = numbers;
    match kind {
        Kind::Pcg32 => making::new_pcg32_with_stream(low, stream_low),
        _ => {
            let stream = Wide {
                high: stream_high,
                low: stream_low,
            };
            making::new_pcg64_with_stream(Wide { high, low }, stream)
        }
    }
}

// Four numbers of 64 bits; a number of 128 bits has its high one first. The twister's table is that of a seed.
fn of_parts(kind: Kind, numbers: [u64; 4]) -> Random {
    let [a, b, c, d] = numbers;
    match kind {
        Kind::Xoshiro256PlusPlus => {
            making::from_xoshiro(Xoshiro256PlusPlus::from_parts(a, b, c, d))
        }
        Kind::MersenneTwister => {
            let (seed, mti) = halves(a);
            let mt = MersenneTwister::from_u32_seed(seed).mt;
            making::from_mersenne_twister(MersenneTwister::from_parts(mt, mti))
        }
        Kind::Pcg32 => making::from_pcg32(Pcg32::from_parts(a, b)),
        Kind::Pcg64 => {
            let state = Wide { high: a, low: b };
            let inc = Wide { high: c, low: d };
            making::from_pcg64(Pcg64::from_parts(state, inc))
        }
    }
}

// How many bytes a seed has.
fn seed_length(kind: Kind) -> usize
    ensures { result ≤ 32 }
{
    match kind {
        Kind::Pcg32 => 16,
        _ => 32,
    }
}

// Numbers as their bytes.
fn bytes_of(numbers: [u64; 4]) -> [u8; 32] {
    let mut bytes = [0; 32];
    for (eight, n) in bytes.as_chunks_mut().0.iter_mut().zip(numbers) {
        *eight = n.to_le_bytes();
    }
    bytes
}

// The kind's bytes of the eight words.
fn of_bytes(row: &Row) -> Random {
    let seed = bytes_of(row.numbers);
    let length = seed_length(kind_of(row.kind));
    making::make(row.kind, &seed[..length]).generator
}

// What a row's maker number says; what is above 3 stands for the last.
fn made(row: &Row) -> Random {
    let kind = kind_of(row.kind);
    match Maker::try_from(row.maker).unwrap_or(Maker::Parts) {
        Maker::Seed => of_seed(kind, row.numbers[0], row.numbers[1]),
        Maker::Stream => of_stream(kind, row.numbers),
        Maker::Bytes => of_bytes(row),
        Maker::Parts => of_parts(kind, row.numbers),
    }
}

// Skipped words are drawn as a long run draws them.
pub(crate) fn generator(row: &Row) -> Random {
    runs::words(made(row), row.skipped).next
}
