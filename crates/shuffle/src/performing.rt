// The swaps of a shuffle.
ghost use Rattle.std.specs.Prelude.{◌≡◌, ◌<◌};
ghost use Rattle.shuffle.specs.Performing.{shuffle_draws};
ghost use Rattle.shuffle.specs.PerformingLaws.{TurnSwapped};
ghost use Rattle.shuffle.specs.Promises.{PerformInPromise};

use crate::arranging::arrange;
use lists::limit::LIST_LIMIT;
use random::Engine;
use rehearsal::{Draws, Turn};

// The words taken at once. Nothing depends on it but the time.
const BLOCK: usize = 256;

// The draws of a shuffle of n entries: below n, n - 1, .., 2. None where the list is too long.
pub(crate) fn draws_of(n: usize, budget: u32) -> Draws
    ensures { result ≡ shuffle_draws n budget }
{
    if n > LIST_LIMIT {
        return Draws {
            first: 0,
            falls: true,
            count: 0,
            budget,
        };
    }
    let first = n as u32;
    if first == 0 {
        return Draws {
            first,
            falls: true,
            count: 0,
            budget,
        };
    }
    Draws {
        first,
        falls: true,
        count: first - 1,
        budget,
    }
}

// A turn of the draws, with the swaps of those that it settles.
fn swap_turn(d: Draws, t: Turn, mt: &mut [u32; 624], list: &mut [u32], block: &mut [u32]) -> Turn
    requires { t.settled < d.count }
    ensures { TurnSwapped d t mt.old list.old block.old result
        mt.new list.new block.new }
{
    let last = (d.count - t.settled) as usize;
    let next = rehearsal::take_turn(d, t, mt, block);
    let fresh = (next.settled - t.settled) as usize;
    arrange(list, last, &block[..fresh]);
    next
}

// The draws of a shuffle with their swaps, as far as the words of the budget go, and the engine after those words: the whole shuffle where
// `outcome_in` is answered with this budget. A `while`: how many turns there are, the words decide.
pub fn perform_in(e: Engine, mt: &mut [u32; 624], list: &mut [u32], budget: u32) -> Engine
    ensures { PerformInPromise e mt.old list.old budget result mt.new list.new }
{
    let d = draws_of(list.len(), budget);
    let mut block = [0u32; BLOCK];
    let mut t = Turn {
        next: e,
        used: 0,
        settled: 0,
    };
    while t.settled < d.count {
        if d.budget <= t.used {
            return t.next;
        }
        t = swap_turn(d, t, mt, list, &mut block);
    }
    t.next
}
