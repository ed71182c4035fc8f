// The long runs, over a lent table: the digest of so many words, and of so many draws.
use crate::digest::Digest;
use crate::outcome::Outcome;
use random::Random;

// The next n words.
pub(crate) fn words(g: Random, n: u32) -> Outcome {
    let mut e = random::engine_of(g);
    let mut mt = g.twister.mt;
    let mut sum = Digest::new();
    for _ in 0..n {
        let d = random::next_u32(e, &mut mt);
        e = d.next;
        sum = sum.word(d.word);
    }
    Outcome::plain(sum.0, random::with_table(e, mt))
}

// The next n draws. The bound of draw k is a multiple of Knuth's 2654435761, and 1 where that is 0.
pub(crate) fn draws(g: Random, n: u32) -> Outcome {
    let mut e = random::engine_of(g);
    let mut mt = g.twister.mt;
    let mut sum = Digest::new();
    for k in 0..n {
        let bound = k.wrapping_mul(2_654_435_761).max(1);
        let d = bounded::bounded_in(e, &mut mt, bound, u32::MAX);
        e = d.next;
        sum = sum.word(words::numbered(d.told).value);
    }
    Outcome::plain(sum.0, random::with_table(e, mt))
}
