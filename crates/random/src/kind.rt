// The four kinds, by name and by number.
ghost use Rattle.random.specs.Kinds.{Named};
ghost use Rattle.random.specs.Promises.{BackendKindPromise, KindNumberPromise};

use crate::backend::Backend;
use std::error::Error;
use std::fmt;

// A generator's kind.
#[derive(Clone, Copy, Debug, PartialEq, Eq)]
pub enum Kind {
    Xoshiro256PlusPlus,
    MersenneTwister,
    Pcg32,
    Pcg64,
}

// A number that names no kind.
#[derive(Clone, Copy, Debug, PartialEq, Eq)]
pub struct UnknownKind(pub u32);

impl Kind {
    // Its number, 0 to 3.
    pub fn number(self) -> u32
        ensures { KindNumberPromise self result }
    {
        match self {
            Kind::Xoshiro256PlusPlus => 0,
            Kind::MersenneTwister => 1,
            Kind::Pcg32 => 2,
            Kind::Pcg64 => 3,
        }
    }
}

// The kind of a number.
impl TryFrom<u32> for Kind {
    type Error = UnknownKind;

    ghost try_from_gives = { Named };

    fn try_from(number: u32) -> Result<Kind, UnknownKind> {
        match number {
            0 => Ok(Kind::Xoshiro256PlusPlus),
            1 => Ok(Kind::MersenneTwister),
            2 => Ok(Kind::Pcg32),
            3 => Ok(Kind::Pcg64),
            _ => Err(UnknownKind(number)),
        }
    }
}

impl fmt::Display for Kind {
    fn fmt<W: fmt::Write>(&self, f: &mut fmt::Formatter<W>) -> fmt::Result {
        f.write_str(match self {
            Kind::Xoshiro256PlusPlus => "Xoshiro256PlusPlus",
            Kind::MersenneTwister => "MersenneTwister",
            Kind::Pcg32 => "Pcg32",
            Kind::Pcg64 => "Pcg64",
        })
    }
}

impl fmt::Display for UnknownKind {
    fn fmt<W: fmt::Write>(&self, f: &mut fmt::Formatter<W>) -> fmt::Result {
        write!(f, "no kind has number {}", self.0)
    }
}

impl Error for UnknownKind {}

impl Backend {
    // Its kind.
    pub fn kind(self) -> Kind
        ensures { BackendKindPromise self result }
    {
        match self {
            Backend::Xoshiro256PlusPlus(_) => Kind::Xoshiro256PlusPlus,
            Backend::MersenneTwister => Kind::MersenneTwister,
            Backend::Pcg32(_) => Kind::Pcg32,
            Backend::Pcg64(_) => Kind::Pcg64,
        }
    }
}
