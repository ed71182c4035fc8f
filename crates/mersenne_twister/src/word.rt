// What is done to single words: the recurrence, the tempering and a step of the seeding.
ghost use Rattle.std.specs.Prelude.{◌≡◌};
ghost use Rattle.mersenne_twister.specs.Promises.{TemperWordPromise};
ghost use Rattle.mersenne_twister.specs.Sequence.{times_a, follow, seed_step};

use super::constants::{
    LOWER_MASK, MATRIX_A, MULTIPLIER, TEMPERING_MASK_B, TEMPERING_MASK_C, UPPER_MASK,
};

// v A, the product of a row of 32 bits and the matrix A.
#[tactic(auto, unfolding(crate::specs::Sequence::times_a))]
fn times_a(v: u32) -> u32
    ensures { result ≡ times_a v }
{
    let half = v >> 1;
    if v % 2 == 0 { half } else { half ^ MATRIX_A }
}

// The word 624 places after `u`, where `l` stands one place after `u`, and `m` 397 places.
pub(crate) fn follow_word(u: u32, l: u32, m: u32) -> u32
    ensures { result ≡ follow u l m }
{
    m ^ times_a((u & UPPER_MASK) + (l & LOWER_MASK))
}

// The word that is given out for the word `x` of the table.
pub fn temper_word(x: u32) -> u32
    ensures { TemperWordPromise x result }
{
    let mut y = x;
    y ^= y >> 11;
    y ^= (y << 7) & TEMPERING_MASK_B;
    y ^= (y << 15) & TEMPERING_MASK_C;
    y ^ (y >> 18)
}

// The word of the seeding at place `i`, from the word `p` before it.
#[tactic(auto, unfolding(crate::specs::Sequence::seed_step))]
pub(crate) fn seed_step(p: u32, i: u32) -> u32
    ensures { result ≡ seed_step p i }
{
    MULTIPLIER.wrapping_mul(p ^ (p >> 30)).wrapping_add(i)
}
