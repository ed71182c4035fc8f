// Generators whose next words are given: a twister's table set by hand, and a xoshiro whose first word is a given one.
use random::{Backend, Engine};
use xoshiro::Xoshiro256PlusPlus;

// The four turns after which the tempering's second step is undone: each sets seven bits right.
fn undo_second(y: u32) -> u32 {
    (0..4).fold(y, |x, _| y ^ ((x << 7) & 0x9d2c_5680))
}

// The word of the table that is given out as `word`.
fn untempered(word: u32) -> u32 {
    let fourth = word ^ (word >> 18);
    let third = fourth ^ ((fourth << 15) & 0xefc6_0000);
    let second = undo_second(third);
    second ^ (second >> 11) ^ (second >> 22)
}

// A table whose first words are given out as these, if they are: each is drawn, and so tempered again.
pub(crate) fn table(words: &[u32]) -> Option<[u32; 624]> {
    let mut mt = [0; 624];
    for (entry, word) in mt.iter_mut().zip(words) {
        *entry = untempered(*word);
    }
    for (word, place) in words.iter().zip(0u32..) {
        if mersenne_twister::rand_in(&mut mt, place).word != *word {
            return None;
        }
    }
    Some(mt)
}

// The twister that draws from the table's start.
pub(crate) fn twister() -> Engine {
    random::engine_with(Backend::MersenneTwister, 0)
}

// A word of 64 bits as two, the high half first.
pub(crate) fn halves(word: u64) -> [u32; 2] {
    [(word / 0x1_0000_0000) as u32, (word % 0x1_0000_0000) as u32]
}

// A generator of kind 0 whose next 64-bit word is the given one: rotl(s0 + s3, 23) + s0 with s0 = 0.
pub(crate) fn xoshiro(word: u64) -> Engine {
    let x = Xoshiro256PlusPlus::from_parts(0, 1, 2, word.rotate_right(23));
    random::engine_with(Backend::Xoshiro256PlusPlus(x), 0)
}
