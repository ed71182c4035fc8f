// The examples that draw a number: below a bound, and between two ends.
use crate::examples::{Below, Int};
use crate::report::Tally;
use crate::{examples, given, report};
use std::io;

// The budget, and so many words.
fn tell_words(rt: &impl Print, words: &[u32]) -> io::Result<()> {
    let budget = words.len();
    print!(rt; ", budget {budget}")?;
    for (i, word) in words.iter().enumerate() {
        let before = if i == 0 { ", word" } else { " and" };
        print!(rt; "{before} 0x{word:08x}")?;
    }
    Ok(())
}

fn budget_of(words: &[u32]) -> u32 {
    (words.len() % 0x1_0000_0000) as u32
}

fn below(rt: &impl Print, x: Below) -> io::Result<Tally> {
    let r = x.r;
    let Some(mut mt) = given::table(x.words) else {
        return report::judged(rt, false);
    };
    let said = report::of_answer(bounded::bounded_in(
        given::twister(),
        &mut mt,
        r,
        budget_of(x.words),
    ));
    print!(rt; "below {r}")?;
    tell_words(rt, x.words)?;
    report::tell(rt, said)?;
    report::judged(rt, said == x.says)
}

fn int(rt: &impl Print, x: Int) -> io::Result<Tally> {
    let min = x.min;
    let max = x.max;
    let Some(mut mt) = given::table(x.words) else {
        return report::judged(rt, false);
    };
    let said = report::of_int(spans::int_in(
        given::twister(),
        &mut mt,
        min,
        max,
        budget_of(x.words),
    ));
    print!(rt; "int from {min} to {max}")?;
    tell_words(rt, x.words)?;
    report::tell(rt, said)?;
    report::judged(rt, said == x.says)
}

pub(crate) fn run(rt: &impl Print) -> io::Result<Tally> {
    let mut tally = Tally::default();
    for x in examples::BELOW {
        tally += below(rt, x)?;
    }
    for x in examples::INT {
        tally += int(rt, x)?;
    }
    Ok(tally)
}
