// What a call told, in one shape for all calls, so that whole answers are compared. Each kind of answer is read here alone.
use crate::generators::{same_generator, zeros};
use float_draws::Spread;
use floats::Uniform;
use lists::Entry;
use making::Made;
use parts::Divided;
use random::{Engine, Random, with_table};
use words::{Given, Refusal, Reply};

// What is answered. A part that a call does not have is 0.
#[derive(Clone, Copy, PartialEq, Eq, Default)]
pub(crate) struct Parts {
    pub(crate) place: u64,
    pub(crate) value: u64,
    pub(crate) used: u32,
}

// A refusal, by document 01's number.
#[derive(Clone, Copy, PartialEq, Eq)]
pub(crate) struct Refused(pub(crate) u32);

pub(crate) const BUDGET: Refused = Refused(8);

// A child that is not the one ordered: no call is ordered to tell it.
const NEITHER: Refused = Refused(u32::MAX);

// What is said, and the generator after the call: what is refused gives the one that came in.
#[derive(Clone, Copy)]
pub(crate) struct Told<G> {
    pub(crate) said: Result<Parts, Refused>,
    pub(crate) next: G,
}

impl Told<Engine> {
    pub(crate) fn with_table(self, mt: [u32; 624]) -> Told<Random> {
        Told {
            said: self.said,
            next: with_table(self.next, mt),
        }
    }
}

impl From<Refusal> for Refused {
    fn from(refusal: Refusal) -> Refused {
        Refused(refusal.number())
    }
}

// Nothing but a refusal, or that there is none.
pub(crate) fn only<G>(refused: Option<Refused>, next: G) -> Told<G> {
    let said = refused.map_or(Ok(Parts::default()), Err);
    Told { said, next }
}

fn drawn(value: u64, used: u32) -> Parts {
    Parts {
        place: 0,
        value,
        used,
    }
}

// An answer, its parts read as `parts` reads them.
fn reply<T, G, F: FnOnce(Given<T>) -> Parts>(a: Reply<T, G>, parts: F) -> Told<G>
    requires { F.IsAlwaysCallable parts }
{
    let Reply { next, told } = a;
    let said = told.map(parts).map_err(Refused::from);
    Told { said, next }
}

pub(crate) fn number<G>(a: Reply<u32, G>) -> Told<G> {
    reply(a, |given| drawn(u64::from(given.value), given.used))
}

// A signed number as the word that reads so.
pub(crate) fn int<G>(a: Reply<i32, G>) -> Told<G> {
    reply(
        a,
        |given| drawn(u64::from(given.value.cast_unsigned()), given.used),
    )
}

fn entry(place: usize, value: u32, used: u32) -> Parts {
    Parts {
        place: place as u64,
        value: u64::from(value),
        used,
    }
}

pub(crate) fn chosen<G>(a: Reply<Entry, G>) -> Told<G> {
    reply(
        a,
        |given| entry(given.value.place, given.value.value, given.used),
    )
}

pub(crate) fn start<G>(a: Reply<usize, G>) -> Told<G> {
    reply(a, |given| entry(given.value, 0, given.used))
}

pub(crate) fn flip<G>(a: Reply<bool, G>) -> Told<G> {
    reply(a, |given| drawn(u64::from(given.value), given.used))
}

pub(crate) fn shuffled<G>(a: Reply<(), G>) -> Told<G> {
    reply(a, |given| drawn(0, given.used))
}

// What `uniform` answered: the number's bit pattern, or the refusal.
fn of_uniform(answer: Uniform) -> Result<Parts, Refused> {
    match answer {
        Uniform::Number(number) => Ok(drawn(float_bits::pattern_of(number), 0)),
        Uniform::Refused(refusal) => Err(Refused(refusal)),
    }
}

pub(crate) fn spread<G>(a: Spread<G>) -> Told<G> {
    let said = of_uniform(a.answer);
    Told { said, next: a.next }
}

// The child of `split` is to be the generator that came in, or zeros where it is refused. The value is 0 where it is.
fn divided<G>(refusal: Option<Refusal>, child: Random, right: Random, parent: G) -> Told<G> {
    let said = match refusal {
        _ if !same_generator(child, right) => Err(NEITHER),
        Some(refusal) => Err(Refused::from(refusal)),
        None => Ok(Parts::default()),
    };
    Told { said, next: parent }
}

pub(crate) fn split(a: Divided<Random>, g: Random) -> Told<Random> {
    let right = if a.refusal.is_none() { g } else { zeros() };
    divided(a.refusal, a.child, right, a.parent)
}

// Lent, `split` has no use for the table: the parent keeps it, and so does a child; a refused child has zeros.
pub(crate) fn split_in(a: Divided<Engine>, g: Random) -> Told<Engine> {
    let right = if a.refusal.is_none() { g } else { zeros() };
    let child = with_table(a.child, right.twister.mt);
    divided(a.refusal, child, right, a.parent)
}

pub(crate) fn made(a: Made) -> Told<Random> {
    let refused = a.refusal.map(Refused::from);
    only(refused, a.generator)
}

pub(crate) fn same_told(a: Told<Random>, b: Told<Random>) -> bool {
    a.said == b.said && same_generator(a.next, b.next)
}
