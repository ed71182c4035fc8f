// The arithmetic that the document tells of 3 and 6, and the equal shares below 6.
use crate::report::Tally;
use crate::{examples, report};
use std::io;

// A number, and what the document says of it.
fn number(rt: &impl Print, what: &str, n: u64, says: u64) -> io::Result<Tally> {
    print!(rt; "{what}: {n}")?;
    report::judged(rt, n == says)
}

// Whether a word draws a number above q below 6, or q itself; rejected words of q's share count only where they are let in.
fn reaches(w: u32, q: u32, let_in: bool) -> bool {
    let drawn = words::quotient(w, 6);
    drawn > q || drawn == q && (let_in || words::is_good(w, 6))
}

// The first such word, by bisection, over numbers and not a slice: the quotient grows with the word, and within a share the rejected words
// come first.
fn first_word(q: u32, let_in: bool) -> u64 {
    let mut low = 0u64;
    let mut high = 0x1_0000_0000u64;
    while low < high {
        let middle = (low + high) / 2;
        if reaches((middle % 0x1_0000_0000) as u32, q, let_in) {
            high = middle;
        } else {
            low = middle + 1;
        }
    }
    low
}

// How many words give q below 6: from its first good one up to the next share.
fn share(q: u32) -> u64 {
    first_word(q.wrapping_add(1), true).wrapping_sub(first_word(q, false))
}

pub(crate) fn run(rt: &impl Print) -> io::Result<Tally> {
    let mut tally = Tally::default();
    let product = words::product(0x2AAA_AAAB, 6);
    for (what, n, says) in [
        (
            "2^32 mod 3",
            u64::from(words::threshold(3)),
            examples::THRESHOLD_OF_3,
        ),
        ("0x2AAAAAAB * 6", product, examples::PRODUCT),
        (
            "0x2AAAAAAB * 6 mod 2^32",
            product % 0x1_0000_0000,
            examples::REMAINDER,
        ),
        (
            "2^32 mod 6",
            u64::from(words::threshold(6)),
            examples::THRESHOLD_OF_6,
        ),
    ] {
        tally += number(rt, what, n, says)?;
    }
    for q in 0..6 {
        print!(rt; "below 6, value {q}")?;
        tally += number(rt, ", words that give it", share(q), examples::SHARE_OF_6)?;
    }
    Ok(tally)
}
