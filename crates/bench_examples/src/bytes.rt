// The examples that fill five bytes, from one word of 64 bits and from two of 32; and the slip of filling three bytes twice for six.
use crate::report::Tally;
use crate::{examples, given, report};
use random::Engine;
use std::io;

fn tell_bytes(rt: &impl Print, bytes: &[u8]) -> io::Result<()> {
    for byte in bytes {
        print!(rt; " 0x{byte:02x}")?;
    }
    Ok(())
}

// Whether a generator of kind 0 is the given one after a step: it gives the word that the given one gives second.
fn is_one_step_on(after: Engine) -> bool {
    let mut mt = [0; 624];
    let stepped = random::next_u64(given::xoshiro(examples::WORD_64), &mut mt).next;
    random::next_u64(after, &mut mt).word == random::next_u64(stepped, &mut mt).word
}

fn of_kind_0(rt: &impl Print) -> io::Result<Tally> {
    let mut mt = [0; 624];
    let mut bytes = [0; 5];
    let after = filling::fill_bytes_in(given::xoshiro(examples::WORD_64), &mut mt, &mut bytes);
    print!(rt; "five bytes of kind 0:")?;
    tell_bytes(rt, &bytes)?;
    print!(rt; " and one step")?;
    report::judged(rt, bytes == examples::BYTES && is_one_step_on(after))
}

// Two words: the twister stands at position 2.
fn of_kind_1(rt: &impl Print) -> io::Result<Tally> {
    let Some(mut mt) = given::table(&examples::WORDS_32) else {
        return report::judged(rt, false);
    };
    let mut bytes = [0; 5];
    let after = filling::fill_bytes_in(given::twister(), &mut mt, &mut bytes);
    let used = after.mti;
    print!(rt; "five bytes of kind 1:")?;
    tell_bytes(rt, &bytes)?;
    print!(rt; ", words used {used}")?;
    report::judged(
        rt,
        bytes == examples::BYTES && used == examples::STEPS_OF_KIND_1,
    )
}

// Whether the first three are those of six, and the second three are not where filling six goes on.
fn is_cut_short(first: [u8; 3], second: [u8; 3], six: [u8; 6]) -> bool {
    let [a, b, c, d, e, f] = six;
    first == [a, b, c] && second != [d, e, f]
}

// A short tail uses a whole word: so the second three bytes begin with the second word.
fn three_twice(rt: &impl Print) -> io::Result<Tally> {
    let Some(mut mt) = given::table(&examples::WORDS_32) else {
        return report::judged(rt, false);
    };
    let mut first = [0; 3];
    let mut second = [0; 3];
    let mut six = [0; 6];
    filling::fill_bytes_in(given::twister(), &mut mt, &mut six);
    let between = filling::fill_bytes_in(given::twister(), &mut mt, &mut first);
    filling::fill_bytes_in(between, &mut mt, &mut second);
    print!(rt; "three bytes of kind 1, twice:")?;
    tell_bytes(rt, &first)?;
    tell_bytes(rt, &second)?;
    print!(rt; ", and not the last three of six at once")?;
    report::judged(rt, is_cut_short(first, second, six))
}

pub(crate) fn run(rt: &impl Print) -> io::Result<Tally> {
    let mut tally = of_kind_0(rt)?;
    tally += of_kind_1(rt)?;
    tally += three_twice(rt)?;
    Ok(tally)
}
