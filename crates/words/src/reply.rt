// What a call that draws answers: what was drawn, or why nothing was, and the generator after it.
ghost use Rattle.words.specs.Promises.{NumberedPromise, RaisesPromise, RepliesPromise, RefusesPromise};

use crate::outcome::{Outcome, gives, refused};
use crate::refusal::Refusal;

// A value drawn, and the words used.
#[derive(Clone, Copy, Debug, PartialEq, Eq)]
pub struct Given<T> {
    pub value: T,
    pub used: u32,
}

// A call's answer over a generator G. Where it is refused, next is the generator that came in. The generator stands first: so it lies
// aligned for its copies, which are most of a draw's time.
#[derive(Clone, Copy)]
pub struct Reply<T, G> {
    pub next: G,
    pub told: Result<Given<T>, Refusal>,
}

impl<T, G> Reply<T, G> {
    // An answered call: its value, the words used, and the generator after them.
    pub fn gives(value: T, used: u32, next: G) -> Reply<T, G>
        ensures { RepliesPromise value used next result }
    {
        Reply {
            next,
            told: Ok(Given { value, used }),
        }
    }

    // A refused call, and the generator that came in.
    pub fn refuses(refusal: Refusal, next: G) -> Reply<T, G>
        ensures { RefusesPromise refusal next result }
    {
        Reply {
            next,
            told: Err(refusal),
        }
    }
}

impl<G> Reply<u32, G> {
    // n added to the value, modulo 2^32; a refusal stays as it is.
    #[tactic(auto, unfolding(crate::specs::Outcomes::raised_modulo, crate::specs::Outcomes::mapped, crate::specs::Outcomes::worked_on))]
    pub fn raised(self, n: u32) -> Reply<u32, G>
        ensures { RaisesPromise n self result }
    {
        match self.told {
            Ok(given) => Reply::gives(n.wrapping_add(given.value), given.used, self.next),
            Err(refusal) => Reply::refuses(refusal, self.next),
        }
    }
}

// What a call tells, in document 01's numbers: refused, value and words used are 0.
pub fn numbered(told: Result<Given<u32>, Refusal>) -> Outcome
    ensures { NumberedPromise told result }
{
    match told {
        Ok(given) => gives(given.value, given.used),
        Err(refusal) => refused(refusal.number()),
    }
}
