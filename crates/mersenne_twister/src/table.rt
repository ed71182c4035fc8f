// The generator over a table that the caller lends: seeding, twist and draws in place. No table is copied.
ghost use Rattle.std.specs.Prelude.{◌≡◌, ◌<◌};
ghost use Rattle.mersenne_twister.specs.Table.{folded, renew_with, renewed};
ghost use Rattle.mersenne_twister.specs.Promises.{StoredPositionPromise, SeedInPromise, FromSeedInPromise};
ghost use Rattle.mersenne_twister.specs.Promises.{TwistInPromise, RandInPromise, NextU64InPromise};

use super::constants::{BACK, END, LAST, M, TWICE_BACK};
use super::word::{follow_word, seed_step, temper_word};

// What a draw answers beside the table: the word, and the position after it.
#[derive(Clone, Copy)]
pub struct Step<W> {
    pub word: W,
    pub mti: u32,
}

// The position that `set_mti` stores for the one that it is given.
pub fn stored_position(value: u32) -> u32
    ensures { StoredPositionPromise value result }
{
    if value < END { value } else { END }
}

// Seeds the table from a number; the answer is the position, at which the first draw twists.
#[tactic(auto, using(crate::specs::TableLaws::stored_more), unfolding(crate::specs::Sequence::seed_word, crate::specs::Table::stored))]
pub fn seed_in(mt: &mut [u32; 624], seed: u32) -> u32
    ensures { SeedInPromise mt.old seed result mt.new }
{
    let mut word = seed;
    for (i, entry) in mt.iter_mut().enumerate() {
        *entry = word;
        word = seed_step(word, i as u32 + 1);
    }
    END
}

// The eight little-endian words of a seed of 32 bytes, XORed.
#[tactic(auto, unfolding(crate::specs::Table::words_xored))]
pub(crate) fn fold_seed(seed: &[u8]) -> u32
    ensures { result ≡ folded seed.now }
{
    let mut word: u32 = 0;
    for k in 0..8 {
        word ^= wrapping::le_u32(seed, 4 * k);
    }
    word
}

// Seeds the table from 32 bytes; the answer is the position.
pub fn from_seed_in(mt: &mut [u32; 624], seed: &[u8; 32]) -> u32
    ensures { FromSeedInPromise mt.old seed.now result mt.new }
{
    seed_in(mt, fold_seed(seed))
}

// Entry i is renewed from itself and the entries j and k.
fn renew_at(mt: &mut [u32; 624], i: usize, j: usize, k: usize)
    requires { (i < 624) × (j < 624) × (k < 624) }
    ensures { mt.new ≡ renew_with mt.old i j k }
{
    mt[i] = follow_word(mt[i], mt[j], mt[k]);
}

// Every entry is renewed in its turn, so that those from 227 on are made with entries already renewed. Three runs and the last entry:
// no index needs a remainder, and no run reads, as the third entry, one that it renews itself, so that the compiler renews several at once.
#[tactic(auto, using(crate::specs::TableLaws::renewed_more), unfolding(crate::specs::Table::renewed))]
fn renew(mt: &mut [u32; 624])
    ensures { mt.new ≡ renewed 624 mt.old }
{
    for i in 0..BACK {
        renew_at(mt, i, i + 1, i + M);
    }
    for i in BACK..TWICE_BACK {
        renew_at(mt, i, i + 1, i - BACK);
    }
    for i in TWICE_BACK..LAST {
        renew_at(mt, i, i + 1, i - BACK);
    }
    renew_at(mt, LAST, 0, LAST - BACK);
}

// The twist; the answer is the position.
pub fn twist_in(mt: &mut [u32; 624]) -> u32
    ensures { TwistInPromise mt.old result mt.new }
{
    renew(mt);
    0
}

// The next word. At position 624 or above the table is twisted first.
#[tactic(auto, using(crate::proofs::DrawFacts::draw_twisted, crate::specs::DrawLaws::in_low))]
pub fn rand_in(mt: &mut [u32; 624], mti: u32) -> Step<u32>
    ensures { RandInPromise mt.old mti result mt.new }
{
    let mut at = mti;
    if at >= END {
        at = twist_in(mt);
    }
    let i = at as usize;
    Step {
        word: temper_word(mt[i]),
        mti: at + 1,
    }
}

// The next two words as one, the high word first.
pub fn next_u64_in(mt: &mut [u32; 624], mti: u32) -> Step<u64>
    ensures { NextU64InPromise mt.old mti result mt.new }
{
    let high = rand_in(mt, mti);
    let low = rand_in(mt, high.mti);
    Step {
        word: ((high.word as u64) << 32) | (low.word as u64),
        mti: low.mti,
    }
}
