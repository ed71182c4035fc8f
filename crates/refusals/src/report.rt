// How the cases are counted and printed: a line for each heading of the table, and a line for each case that is not as ordered.
use std::ops::AddAssign;
use std::{fmt, io};

// How many are as ordered, of so many.
#[derive(Clone, Copy, Default)]
pub(crate) struct Tally {
    right: u64,
    of: u64,
}

impl AddAssign for Tally {
    fn add_assign(&mut self, other: Tally) {
        self.right = self.right.wrapping_add(other.right);
        self.of = self.of.wrapping_add(other.of);
    }
}

impl fmt::Display for Tally {
    fn fmt<W: fmt::Write>(&self, f: &mut fmt::Formatter<W>) -> fmt::Result {
        write!(f, "{} of {} as ordered", self.right, self.of)
    }
}

// Where a case stands: the row's line in the table; its try, which is 8 times the generator's number, and on it first by value, then over a
// lent table, four budgets; and the budget, or for `make` the bytes of the seed.
#[derive(Clone, Copy)]
pub(crate) struct Place {
    pub(crate) line: u64,
    pub(crate) number: usize,
    pub(crate) budget: u64,
}

// A case counted, and told where it is not as ordered.
pub(crate) fn judged(rt: &impl Print, right: bool, place: Place) -> io::Result<Tally> {
    if !right {
        println!(rt;
            "NOT AS ORDERED    line, try, budget: {} {} {}",
            place.line, place.number, place.budget
        )?;
    }
    Ok(Tally {
        right: u64::from(right),
        of: 1,
    })
}

// The one case of a row.
pub(crate) fn one(rt: &impl Print, right: bool, line: u64) -> io::Result<Tally> {
    let place = Place {
        line,
        number: 0,
        budget: 0,
    };
    judged(rt, right, place)
}

// The line of a heading, where rows stand below it: 16 letters on the refusal, and after two spaces 16 on the call.
pub(crate) fn write_heading(rt: &impl Print, heading: &[u8], tally: Tally) -> io::Result<()> {
    if tally.of == 0 {
        return Ok(());
    }
    if let Some(title) = heading.get(..34) {
        rt.write_all(title)?;
    }
    println!(rt; "{tally}")
}
