// Making a generator from a kind number and a byte seed: the one place that refuses with 10 and 11.
ghost use Rattle.std.specs.Prelude.{◌≡◌, length};
ghost use Rattle.std.specs.Result.{OkIff};
ghost use Rattle.making.specs.Make.{seed_length_of, of_kind, making_of, refused_making};
ghost use Rattle.random.specs.Kinds.{number_of as kind_number};
ghost use Rattle.words.specs.Numbers.{number_of};
ghost use Rattle.making.specs.Promises.{MakePromise};

use crate::own_calls::{from_mersenne_twister, from_pcg32, from_pcg64, from_xoshiro, zeros};
use mersenne_twister::MersenneTwister;
use pcg::{Pcg32, Pcg64};
use random::{Kind, Random};
use std::array::TryFromSliceError;
use words::Refusal;
use xoshiro::Xoshiro256PlusPlus;

// A generator, and why it could not be made; refused, it is kind 0 with four zero words, as document 01 has it.
#[derive(Clone, Copy)]
pub struct Made {
    pub refusal: Option<Refusal>,
    pub generator: Random,
}

// The generator of a kind from its byte seed, and an error where the seed has not the kind's length.
fn of_kind(kind: Kind, seed: &[u8]) -> Result<Random, TryFromSliceError>
    ensures { OkIff result (length seed.now ≡ seed_length_of (kind_number kind)) (of_kind (kind_number kind) seed.now) }
{
    Ok(match kind {
        Kind::Xoshiro256PlusPlus => from_xoshiro(Xoshiro256PlusPlus::from_seed(seed.try_into()?)),
        Kind::MersenneTwister => {
            from_mersenne_twister(MersenneTwister::from_seed(seed.try_into()?))
        }
        Kind::Pcg32 => from_pcg32(Pcg32::from_seed(seed.try_into()?)),
        Kind::Pcg64 => from_pcg64(Pcg64::from_seed(seed.try_into()?)),
    })
}

// A kind above 3 is refused with 10, and then a seed not of the kind's length with 11.
pub fn make(kind: u32, seed: &[u8]) -> Made
    ensures { MakePromise kind seed.now (making_of result) }
{
    let Ok(kind) = Kind::try_from(kind) else {
        return refused_making(Refusal::Kind);
    };
    match of_kind(kind, seed) {
        Ok(generator) => Made {
            refusal: None,
            generator,
        },
        Err(_) => refused_making(Refusal::SeedLength),
    }
}

// Why it could not be made, beside the zeros.
fn refused_making(refusal: Refusal) -> Made
    ensures { making_of result ≡ refused_making (number_of refusal) }
{
    Made {
        refusal: Some(refusal),
        generator: zeros(),
    }
}
