// Draws from a generator, some words at a time: a turn takes as many words as the caller's block holds, and leaves the values that they
// settle there.
ghost use Rattle.std.specs.Prelude.{◌≡◌, ◌+◌, ◌<◌, length};
ghost use Rattle.random.specs.Lent.{joined_with};
ghost use Rattle.rehearsal.specs.Promises.{TakeTurnPromise};
ghost use Rattle.rehearsal.specs.Turns.{SettledWords, words_taken};

use crate::settling::{bound_after, settle};
use random::Engine;

// So many draws under a budget of words: the first below `first`, each further one below the same bound, or below one less where they fall.
#[derive(Clone, Copy)]
pub struct Draws {
    pub first: u32,
    pub falls: bool,
    pub count: u32,
    pub budget: u32,
}

// Where they stand: the engine, the words taken so far, and the draws that these settled.
#[derive(Clone, Copy)]
pub struct Turn {
    pub next: Engine,
    pub used: u32,
    pub settled: u32,
}

// How many words to take at once: no more than draws are left, so that no word is taken past the last draw; than the budget allows; or than
// the block holds.
fn words_taken(d: Draws, t: Turn, block: usize) -> usize
    ensures taken { result ≡ words_taken d t block }
    ensures small { (t.used + result < 4294967296) × (t.settled + result < 4294967296) }
{
    let left = d.count.saturating_sub(t.settled);
    let allowed = d.budget.saturating_sub(t.used);
    (left.min(allowed) as usize).min(block)
}

// The engine after some words, and how many draws they settled.
#[derive(Clone, Copy)]
struct Settled {
    next: Engine,
    count: usize,
}

// The next words, one for each entry of the list, where draws are made below r and so on: the list begins with the values that they settle.
fn settled_words(e: Engine, mt: &mut [u32; 624], list: &mut [u32], r: u32, falls: bool) -> Settled
    ensures { SettledWords (joined_with e mt.old) r falls (length list.old)
        (joined_with result.next mt.new) result.count list.new }
{
    let next = ahead::words_in(e, mt, list);
    let count = settle(list, r, falls);
    Settled { next, count }
}

// The next words, at most as many as the block holds: where the draws stand after them. The block begins with the values that they settled.
pub fn take_turn(d: Draws, t: Turn, mt: &mut [u32; 624], block: &mut [u32]) -> Turn
    ensures { TakeTurnPromise d t mt.old block.old result mt.new block.new }
{
    let n = words_taken(d, t, block.len());
    let bound = bound_after(d.first, d.falls, t.settled);
    let e = t.next;
    let s = settled_words(e, mt, &mut block[..n], bound, d.falls);
    let next = s.next;
    let used = t.used + (n as u32);
    let settled = t.settled + (s.count as u32);
    Turn {
        next,
        used,
        settled,
    }
}
