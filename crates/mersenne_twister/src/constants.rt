// The numbers of MT19937, as mt19937ar.c and the Rust's mersenne_twister.rs name them.

// The last row of the matrix A.
pub(crate) const MATRIX_A: u32 = 0x9908_b0df;

// The upper bit of a word.
pub(crate) const UPPER_MASK: u32 = 0x8000_0000;

// The 31 bits below it.
pub(crate) const LOWER_MASK: u32 = 0x7fff_ffff;

// The mask of the tempering's second step, the paper's b.
pub(crate) const TEMPERING_MASK_B: u32 = 0x9d2c_5680;

// The mask of its third step, the paper's c.
pub(crate) const TEMPERING_MASK_C: u32 = 0xefc6_0000;

// The multiplier of the seeding.
pub(crate) const MULTIPLIER: u32 = 1_812_433_253;

// The words of the table.
pub(crate) const N: usize = 624;

// How far ahead the third word of the recurrence stands.
pub(crate) const M: usize = 397;

// From this entry on that word is past the end of the table, and stands so many entries back.
pub(crate) const BACK: usize = N - M;

// From this entry on it stands at an entry from BACK on.
pub(crate) const TWICE_BACK: usize = 2 * BACK;

// The last entry; the word after it is entry 0.
pub(crate) const LAST: usize = N - 1;

// The position at which the next draw twists first.
pub const END: u32 = 624;
