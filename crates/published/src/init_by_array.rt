// `init_by_array` of Matsumoto and Nishimura's mt19937ar.c for the key of its published output, {0x123, 0x234, 0x345, 0x456}. The
// library has no such call: the table that it makes is set by hand.
const KEY: [u32; 4] = [0x123, 0x234, 0x345, 0x456];

// mt[i] ^ ((mt[i - 1] ^ (mt[i - 1] >> 30)) * factor)
fn mixed(before: u32, here: u32, factor: u32) -> u32 {
    here ^ (before ^ (before >> 30)).wrapping_mul(factor)
}

// A word of the first loop, with the key's entry of its turn added, and the entry's place.
fn with_key(before: u32, here: u32, turn: usize) -> u32 {
    let j = turn % 4;
    mixed(before, here, 1664525)
        .wrapping_add(KEY[j])
        .wrapping_add(j as u32)
}

// A word of the second loop, with its place taken off.
fn without_place(before: u32, here: u32, place: u32) -> u32 {
    mixed(before, here, 1566083941).wrapping_sub(place)
}

// Both loops go past the last place to place 1. The first entry then has the last one's word: so the word before is always the one that
// was made last.
pub(crate) fn init_by_array(mt: &mut [u32; 624]) {
    mersenne_twister::seed_in(mt, 19650218);
    let mut before = mt[0];
    for (turn, word) in mt[1..].iter_mut().enumerate() {
        before = with_key(before, *word, turn);
        *word = before;
    }
    before = with_key(before, mt[1], 623);
    mt[1] = before;
    for (word, place) in mt[2..].iter_mut().zip(2u32..) {
        before = without_place(before, *word, place);
        *word = before;
    }
    mt[1] = without_place(before, mt[1], 1);
    mt[0] = 0x8000_0000;
}
