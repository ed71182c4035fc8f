// How an example is told: what it is, the answer, and whether that is what the document says. Each kind of answer is read here alone.
use lists::Entry;
use random::Engine;
use std::ops::AddAssign;
use std::{fmt, io};
use words::{Given, Refusal, Reply};

// Examples that are as in the document, of so many.
#[derive(Clone, Copy, Default)]
pub(crate) struct Tally {
    right: u64,
    of: u64,
}

impl AddAssign for Tally {
    fn add_assign(&mut self, other: Tally) {
        self.right = self.right.wrapping_add(other.right);
        self.of = self.of.wrapping_add(other.of);
    }
}

impl fmt::Display for Tally {
    fn fmt<W: fmt::Write>(&self, f: &mut fmt::Formatter<W>) -> fmt::Result {
        write!(f, "{} of {} as in the document", self.right, self.of)
    }
}

// What a call told, whatever it draws.
pub(crate) type Said = Result<Given<i64>, Refusal>;

// What a call told, its value read as `read` reads it.
fn said<T, F: FnOnce(T) -> i64>(told: Result<Given<T>, Refusal>, read: F) -> Said
    requires { F.IsAlwaysCallable read }
{
    let given = told?;
    Ok(Given {
        value: read(given.value),
        used: given.used,
    })
}

pub(crate) fn of_answer(a: Reply<u32, Engine>) -> Said {
    said(a.told, i64::from)
}

pub(crate) fn of_int(a: Reply<i32, Engine>) -> Said {
    said(a.told, i64::from)
}

pub(crate) fn of_choice(a: Reply<Entry, Engine>) -> Said {
    said(a.told, |entry| i64::from(entry.value))
}

pub(crate) fn of_start(a: Reply<usize, Engine>) -> Said {
    said(a.told, |start| i64::from((start % 0x1_0000_0000) as u32))
}

pub(crate) fn of_flip(a: Reply<bool, Engine>) -> Said {
    said(a.told, i64::from)
}

pub(crate) fn of_shuffle(a: Reply<(), Engine>) -> Said {
    said(a.told, |_| 0)
}

// What a call said, after what it is.
pub(crate) fn tell(rt: &impl Print, said: Said) -> io::Result<()> {
    let (drawn, refusal) = match said {
        Ok(drawn) => (drawn, words::refusal::ANSWERED),
        Err(refusal) => (Given { value: 0, used: 0 }, refusal.number()),
    };
    print!(rt;
        ": value {}, refusal {refusal}, words used {}",
        drawn.value, drawn.used
    )
}

// The end of an example's line.
pub(crate) fn judged(rt: &impl Print, right: bool) -> io::Result<Tally> {
    let not = if right { "" } else { "NOT " };
    println!(rt; ": {not}as in the document")?;
    Ok(Tally {
        right: u64::from(right),
        of: 1,
    })
}
