// The shuffle in place. Its draws don't depend on the list: so they are rehearsed, and made with their swaps only where all are settled.
ghost use Rattle.shuffle.specs.Promises.{OutcomeInPromise, OutcomeInTablePromise, ShuffleInPromise, ShufflePromise};
ghost use Rattle.shuffle.specs.Replies.{done, done_in_numbers};

use crate::performing::{draws_of, perform_in};
use lists::limit::LIST_LIMIT;
use random::{Engine, Random};
use words::{Given, Refusal, Reply};

// What the shuffle of n entries comes to, before an entry is touched. The table is as it came.
pub fn outcome_in(
    e: Engine,
    mt: &mut [u32; 624],
    n: usize,
    budget: u32,
) -> Result<Given<()>, Refusal>
    ensures outcome { OutcomeInPromise e mt.old n budget (done result) }
    ensures table { OutcomeInTablePromise mt.old mt.new }
{
    if n > LIST_LIMIT {
        return Err(Refusal::TooLong);
    }
    let d = rehearsal::rehearse(draws_of(n, budget), e, mt);
    match d.used {
        Some(used) => Ok(Given { value: (), used }),
        None => Err(Refusal::Budget),
    }
}

// The list in an order drawn at random. Where it is refused, list and table are as they came.
pub fn shuffle_in(
    e: Engine,
    mt: &mut [u32; 624],
    list: &mut [u32],
    budget: u32,
) -> Reply<(), Engine>
    ensures { ShuffleInPromise e mt.old list.old budget (done_in_numbers result) mt.new list.new }
{
    match outcome_in(e, mt, list.len(), budget) {
        Ok(given) => Reply::gives((), given.used, perform_in(e, mt, list, budget)),
        Err(refusal) => Reply::refuses(refusal, e),
    }
}

// The list in an order drawn at random. Where it is refused the list is as it came.
pub fn shuffle(g: Random, list: &mut [u32], budget: u32) -> Reply<(), Random>
    ensures { ShufflePromise g list.old budget (done_in_numbers result) list.new }
{
    let mut moved = g;
    let a = shuffle_in(random::engine_of(g), &mut moved.twister.mt, list, budget);
    bounded::by_value(a, moved.twister.mt)
}
