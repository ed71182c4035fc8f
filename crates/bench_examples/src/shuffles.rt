// The shuffle of three entries with three words, and with a budget of two.
use crate::examples::Shuffled;
use crate::report::Tally;
use crate::{examples, given, report};
use std::io;

fn shuffle(rt: &impl Print, x: Shuffled) -> io::Result<Tally> {
    let budget = x.budget;
    let Some(mut mt) = given::table(&[0, 1, u32::MAX]) else {
        return report::judged(rt, false);
    };
    let mut list = [10, 20, 30];
    let said = report::of_shuffle(shuffle::shuffle_in(
        given::twister(),
        &mut mt,
        &mut list,
        budget,
    ));
    let [first, second, third] = list;
    print!(rt; "shuffle of 10, 20, 30, budget {budget}: {first}, {second}, {third}")?;
    report::tell(rt, said)?;
    report::judged(rt, list == x.list && said == x.says)
}

pub(crate) fn run(rt: &impl Print) -> io::Result<Tally> {
    let mut tally = Tally::default();
    for x in examples::SHUFFLE {
        tally += shuffle(rt, x)?;
    }
    Ok(tally)
}
