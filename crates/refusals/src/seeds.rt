// `make`: a kind, with byte seeds of 0 to 40 bytes.
use crate::report::{Place, Tally};
use crate::table::Row;
use crate::told::{only, same_told};
use crate::{generators, report, told};
use mersenne_twister::MersenneTwister;
use pcg::{Pcg32, Pcg64};
use random::{Backend, Kind, Random};
use std::io;
use xoshiro::Xoshiro256PlusPlus;

// The most bytes of a seed.
const LONGEST: usize = 40;

// The bytes of a seed, by its number: no two alike; zeros; the largest; a count.
fn seed<const N: usize>(number: u64) -> [u8; N] {
    let (first, step) = match number {
        0 => (11u8, 37),
        1 => (0, 0),
        2 => (255, 0),
        3 => (1, 1),
        _ => (1, 0),
    };
    let mut bytes = [first; N];
    let mut next = first;
    for byte in bytes.iter_mut() {
        *byte = next;
        next = next.wrapping_add(step);
    }
    bytes
}

// The kind of a row's number, in the order's own numbers; what is above 3 stands for the last.
fn kind_of(number: u64) -> Kind {
    match number {
        0 => Kind::Xoshiro256PlusPlus,
        1 => Kind::MersenneTwister,
        2 => Kind::Pcg32,
        _ => Kind::Pcg64,
    }
}

// The kind's own call over an array of the exact length; the twister stands beside its backend.
fn own_call(kind: Kind, number: u64) -> Random {
    let backend = match kind {
        Kind::Xoshiro256PlusPlus => {
            Backend::Xoshiro256PlusPlus(Xoshiro256PlusPlus::from_seed(seed(number)))
        }
        Kind::MersenneTwister => Backend::MersenneTwister,
        Kind::Pcg32 => Backend::Pcg32(Pcg32::from_seed(seed(number))),
        Kind::Pcg64 => Backend::Pcg64(Pcg64::from_seed(seed(number))),
    };
    let mut made = generators::beside_zeros(backend);
    if kind == Kind::MersenneTwister {
        made.twister = MersenneTwister::from_seed(seed(number));
    }
    made
}

// Whether `make` of so many bytes answers as ordered: where they are as many as the row says, and otherwise refused.
fn is_as_ordered(row: Row, seed: &[u8]) -> bool {
    let made = told::made(making::make(row.first.word(), seed));
    let answered = row.length != 0 && seed.len() == row.length;
    let right = if answered {
        only(None, own_call(kind_of(row.first.0), row.second.0))
    } else {
        only(row.refused, generators::zeros())
    };
    same_told(made, right)
}

// A row, at every length. One without a length is refused at all of them.
pub(crate) fn try_row(rt: &impl Print, row: Row) -> io::Result<Tally> {
    let seed: [u8; LONGEST] = seed(row.second.0);
    let mut tally = Tally::default();
    for n in 0..=LONGEST {
        let place = Place {
            line: row.line,
            number: 0,
            budget: n as u64,
        };
        tally += report::judged(rt, is_as_ordered(row, &seed[..n]), place)?;
    }
    Ok(tally)
}
