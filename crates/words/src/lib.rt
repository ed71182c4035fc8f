// Drawing for code over any source of words: the arithmetic of a draw below r, and what a draw tells. Every function is total.
#![tactic(auto)]

ghost use Rattle.words.specs.Promises.{ProductPromise, ThresholdPromise, IsGoodPromise, QuotientPromise};

mod outcome;
pub mod refusal;
mod reply;

pub use outcome::{Outcome, gives, raised, refused};
pub use refusal::Refusal;
pub use reply::{Given, Reply, numbered};

// The whole product of a word and r.
pub fn product(w: u32, r: u32) -> u64
    ensures { ProductPromise w r result }
{
    (w as u64) * (r as u64)
}

// 2^32 mod r, as the Rust works it out, without a number above 32 bits; and 0 where r is 0.
pub fn threshold(r: u32) -> u32
    ensures { ThresholdPromise r result }
{
    if r == 0 {
        return 0;
    }
    (4294967295 - r + 1) % r
}

// Whether a word is good for r. A remainder above r is enough; 2^32 mod r is worked out for the others alone. No word is good for 0.
pub fn is_good(w: u32, r: u32) -> bool
    ensures { IsGoodPromise w r result }
{
    let bound = r as u64;
    let low = product(w, r) % 4294967296;
    if low > bound {
        return true;
    }
    if r == 0 {
        return false;
    }
    let least = threshold(r) as u64;
    low >= least
}

// The quotient that a good word draws.
pub fn quotient(w: u32, r: u32) -> u32
    ensures { QuotientPromise w r result }
{
    (product(w, r) / 4294967296) as u32
}
