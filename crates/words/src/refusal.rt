// The refusals of document 01, "When the unit says no": an enum for code, and the number that document 01 has for each. No other file has
// the numbers; specs/Refusal.antt names the same ones for contracts and proofs.
ghost use Rattle.words.specs.Promises.{CheckNumberPromise, RefusalNumberPromise};

use std::error::Error;
use std::fmt;

// Why a call says no.
#[derive(Clone, Copy, Debug, PartialEq, Eq)]
pub enum Refusal {
    ZeroRange,
    Order,
    Chance,
    Empty,
    TooLong,
    Window,
    NotFinite,
    Budget,
    NoSplit,
    Kind,
    SeedLength,
}

impl Refusal {
    // Its number, for C and for the logs.
    pub fn number(self) -> u32
        ensures { RefusalNumberPromise self result }
    {
        match self {
            Refusal::ZeroRange => ZERO_RANGE,
            Refusal::Order => ORDER,
            Refusal::Chance => CHANCE,
            Refusal::Empty => EMPTY,
            Refusal::TooLong => TOO_LONG,
            Refusal::Window => WINDOW,
            Refusal::NotFinite => NOT_FINITE,
            Refusal::Budget => BUDGET,
            Refusal::NoSplit => NO_SPLIT,
            Refusal::Kind => KIND,
            Refusal::SeedLength => SEED_LENGTH,
        }
    }
}

// What a check comes to, as a number: 0 where nothing is refused.
pub fn number_of(refusal: Option<Refusal>) -> u32
    ensures { CheckNumberPromise refusal result }
{
    match refusal {
        Some(refusal) => refusal.number(),
        None => ANSWERED,
    }
}

// Its name in document 01.
impl fmt::Display for Refusal {
    fn fmt<W: fmt::Write>(&self, f: &mut fmt::Formatter<W>) -> fmt::Result {
        f.write_str(match self {
            Refusal::ZeroRange => "ZERO RANGE",
            Refusal::Order => "ORDER",
            Refusal::Chance => "CHANCE",
            Refusal::Empty => "EMPTY",
            Refusal::TooLong => "TOO LONG",
            Refusal::Window => "WINDOW",
            Refusal::NotFinite => "NOT FINITE",
            Refusal::Budget => "BUDGET",
            Refusal::NoSplit => "NO SPLIT",
            Refusal::Kind => "KIND",
            Refusal::SeedLength => "SEED LENGTH",
        })
    }
}

impl Error for Refusal {}

// The call is answered.
pub const ANSWERED: u32 = 0;

// `bounded` by 0.
pub const ZERO_RANGE: u32 = 1;

// `random_range` min >= max; `int`, `range`, `uint` min > max; `uniform` low >= high.
pub const ORDER: u32 = 2;

// p is NaN, below 0 or above 1.
pub const CHANCE: u32 = 3;

// `choose` or `rand_slice` on an empty list.
pub const EMPTY: u32 = 4;

// A list above the limit.
pub const TOO_LONG: u32 = 5;

// Window 0, or longer than the list.
pub const WINDOW: u32 = 6;

// An end of `uniform` is NaN or infinite, or high - low overflows.
pub const NOT_FINITE: u32 = 7;

// The call's draws don't finish within the budget.
pub const BUDGET: u32 = 8;

// `split` on kinds 1, 2, 3.
pub const NO_SPLIT: u32 = 9;

// A kind above 3.
pub const KIND: u32 = 10;

// A byte seed not of the kind's length.
pub const SEED_LENGTH: u32 = 11;
