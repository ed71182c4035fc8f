// Rows compared: a row's call is made, and the eight words of its answer are held to those recorded.
use crate::calls::Call;
use crate::outcome::Outcome;
use crate::sample::{ANSWER_WORDS, BYTES, Row};
use crate::{perform, start};
use std::ops::AddAssign;
use std::{fmt, io};

// Rows that agree, of so many; and damages that were found, each alone and in its place, of so many.
#[derive(Clone, Copy, Default)]
pub(crate) struct Tally {
    pub(crate) agree: u64,
    pub(crate) rows: u64,
    pub(crate) found: u64,
    pub(crate) damages: u64,
}

impl AddAssign for Tally {
    fn add_assign(&mut self, other: Tally) {
        self.agree = self.agree.wrapping_add(other.agree);
        self.rows = self.rows.wrapping_add(other.rows);
        self.found = self.found.wrapping_add(other.found);
        self.damages = self.damages.wrapping_add(other.damages);
    }
}

impl fmt::Display for Tally {
    fn fmt<W: fmt::Write>(&self, f: &mut fmt::Formatter<W>) -> fmt::Result {
        write!(
            f,
            "{} of {} rows agree, and {} of {} damages are told",
            self.agree, self.rows, self.found, self.damages
        )
    }
}

// At most so many differences of a file are told.
const FEW: usize = 3;

// A row, and a word of its answer.
#[derive(Clone, Copy, PartialEq, Eq)]
pub(crate) struct Place {
    pub(crate) row: usize,
    pub(crate) word: usize,
}

// The first word of a row's answer that differs: what is recorded, and what is answered here.
#[derive(Clone, Copy)]
struct Difference {
    place: Place,
    recorded: u32,
    here: u32,
}

impl fmt::Display for Difference {
    fn fmt<W: fmt::Write>(&self, f: &mut fmt::Formatter<W>) -> fmt::Result {
        let Place { row, word } = self.place;
        write!(
            f,
            "row {row} differs, answer word {word}: recorded 0x{:08x}, here 0x{:08x}",
            self.recorded, self.here
        )
    }
}

// How many rows agree, and the last one that does not.
#[derive(Clone, Copy)]
pub(crate) struct Compared {
    pub(crate) agree: usize,
    pub(crate) last: Option<Place>,
}

fn answer(row: &Row) -> [u32; ANSWER_WORDS] {
    let g = start::generator(row);
    Call::try_from(row.call)
        .ok()
        .and_then(|call| perform::perform(call, g, row.arguments))
        .unwrap_or(Outcome::unknown(g))
        .words()
}

fn first_difference(at: usize, row: &Row) -> Option<Difference> {
    let answered = answer(row);
    let (word, (recorded, here)) = row
        .answer
        .iter()
        .zip(answered.iter())
        .enumerate()
        .find(|(_, (recorded, here))| recorded != here)?;
    Some(Difference {
        place: Place { row: at, word },
        recorded: *recorded,
        here: *here,
    })
}

// The rows of a file, told by its name and whether it is damaged.
pub(crate) fn rows(
    rt: &impl Print,
    name: &str,
    state: &str,
    rows: &[[u8; BYTES]],
) -> io::Result<Compared> {
    let mut last = None;
    let mut differing = 0usize;
    for (at, bytes) in rows.iter().enumerate() {
        let Some(difference) = first_difference(at, &Row::of(bytes)) else {
            continue;
        };
        if differing < FEW {
            println!(rt; "{name}{state}: {difference}")?;
        }
        differing = differing.wrapping_add(1);
        last = Some(difference.place);
    }
    let count = rows.len();
    let agree = count.wrapping_sub(differing);
    println!(rt; "{name}{state}: {agree} of {count} rows agree")?;
    Ok(Compared { agree, last })
}
