// The format of a file, as rust/record/src/row.rs writes it: 32-bit little-endian words; first the number of words to a row and the
// number of rows, then the rows: call, kind, maker, words skipped, the maker's 8 words, 4 arguments (the last one the budget where
// there is one), and the answer: refusal, value (low, high), words used, the next two words, and the digest of the generator after the
// call (low, high).
const WORDS: usize = 24;

// The bytes of a row.
pub(crate) const BYTES: usize = 4 * WORDS;

// Where the answer begins in them.
const ANSWER: usize = 64;

pub(crate) const ANSWER_WORDS: usize = 8;

#[derive(Clone, Copy)]
pub(crate) struct Row {
    pub(crate) call: u32,
    pub(crate) kind: u32,
    pub(crate) maker: u32,
    pub(crate) skipped: u32,
    // the maker's words, two and two, the low one first
    pub(crate) numbers: [u64; 4],
    pub(crate) arguments: [u32; 4],
    pub(crate) answer: [u32; ANSWER_WORDS],
}

// The words that stand in these bytes; 0 past their end.
fn words_of<const N: usize>(bytes: &[u8]) -> [u32; N] {
    let mut words = [0; N];
    let (fours, _) = bytes.as_chunks();
    for (word, four) in words.iter_mut().zip(fours) {
        *word = u32::from_le_bytes(*four);
    }
    words
}

// The same of four words of 64 bits.
fn numbers_of(bytes: &[u8]) -> [u64; 4] {
    let mut numbers = [0; 4];
    let (eights, _) = bytes.as_chunks();
    for (number, eight) in numbers.iter_mut().zip(eights) {
        *number = u64::from_le_bytes(*eight);
    }
    numbers
}

impl Row {
    pub(crate) fn of(bytes: &[u8; BYTES]) -> Row {
        let [call, kind, maker, skipped] = words_of::<4>(&bytes[..16]);
        Row {
            call,
            kind,
            maker,
            skipped,
            numbers: numbers_of(&bytes[16..48]),
            arguments: words_of(&bytes[48..64]),
            answer: words_of(&bytes[ANSWER..]),
        }
    }
}

// The lowest bit of a word of a row's answer, changed.
pub(crate) fn change_bit(row: &mut [u8; BYTES], word: usize) {
    row[ANSWER + 4 * (word % ANSWER_WORDS)] ^= 1;
}

// The rows of a file, in the bytes that were read of it, if it is of the width and the length that its head says.
pub(crate) fn rows_in(data: &mut [u8]) -> Option<&mut [[u8; BYTES]]> {
    let (head, body) = data.split_first_chunk_mut::<8>()?;
    let (width, count) = halves(u64::from_le_bytes(*head));
    let (rows, left) = body.as_chunks_mut::<BYTES>();
    if width as usize != WORDS || count as usize != rows.len() || !left.is_empty() {
        return None;
    }
    Some(rows)
}

// Two words as a number, the low one first.
pub(crate) fn joined(low: u32, high: u32) -> u64 {
    u64::from(high) * 0x1_0000_0000 + u64::from(low)
}

// A number as two words, the low one first.
pub(crate) fn halves(n: u64) -> (u32, u32) {
    ((n % 0x1_0000_0000) as u32, (n / 0x1_0000_0000) as u32)
}
