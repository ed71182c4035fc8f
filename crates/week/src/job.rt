// What the week is planned from.
ghost use Rattle.week.specs.Slots.{WithinLimit};

use random::Kind;

// The most slots of a day: this program's own room for one, whatever the library's limit on lists is.
pub(crate) const MOST_SLOTS: usize = 65536;

// A kind and its seed, the inlets and the blanks of each day, the days, and the words that each day's draw may use.
#[derive(Clone, Copy)]
pub(crate) struct Job {
    pub(crate) kind: Kind,
    pub(crate) seed: u64,
    pub(crate) inlets: u32,
    pub(crate) blanks: u32,
    pub(crate) days: u32,
    pub(crate) budget: u32,
}

// For a first look, and for the gate.
pub(crate) fn example() -> Job
    ensures { WithinLimit result.inlets result.blanks }
{
    Job {
        kind: Kind::Xoshiro256PlusPlus,
        seed: 42,
        inlets: 8,
        blanks: 2,
        days: 7,
        budget: 100,
    }
}
