// The longest list, and one entry more, on every call that takes a list.
use crate::report::{Said, Tally};
use crate::{examples, given, report};
use random::Backend;
use std::io;
use xoshiro::Xoshiro256PlusPlus;

// Every entry is its own place.
fn number_places(list: &mut [u32]) {
    for (entry, place) in list.iter_mut().zip(0u32..) {
        *entry = place;
    }
}

// Whether every entry is its own place.
fn are_places(list: &[u32]) -> bool {
    list.iter()
        .zip(0u32..)
        .all(|(entry, place)| *entry == place)
}

fn judged(
    rt: &impl Print,
    call: &str,
    entries: usize,
    said: Said,
    right: bool,
) -> io::Result<Tally> {
    print!(rt; "{call} of {entries} entries")?;
    report::tell(rt, said)?;
    report::judged(rt, right)
}

fn choose(rt: &impl Print, list: &[u32], says: Said) -> io::Result<Tally> {
    let Some(mut mt) = given::table(&[u32::MAX]) else {
        return report::judged(rt, false);
    };
    let said = report::of_choice(lists::choose_in(given::twister(), &mut mt, list, 1));
    judged(rt, "choose", list.len(), said, said == says)
}

// The window is one entry long: its start is the place that `choose` draws.
fn rand_slice(rt: &impl Print, list: &[u32], says: Said) -> io::Result<Tally> {
    let Some(mut mt) = given::table(&[u32::MAX]) else {
        return report::judged(rt, false);
    };
    let said = report::of_start(lists::rand_slice_in(given::twister(), &mut mt, list, 1, 1));
    judged(rt, "rand_slice", list.len(), said, said == says)
}

// Answered, the order is another one; refused, the list is as it came. Seed 1 of kind 0 has words enough.
fn shuffle(rt: &impl Print, list: &mut [u32], says: Said) -> io::Result<Tally> {
    let mut mt = [0; 624];
    let x = Xoshiro256PlusPlus::from_u64_seed(1);
    let e = random::engine_with(Backend::Xoshiro256PlusPlus(x), 0);
    let said = report::of_shuffle(shuffle::shuffle_in(e, &mut mt, list, u32::MAX));
    let right = match (said, says) {
        (Ok(drawn), Ok(_)) => !are_places(list) && drawn.used > 0,
        (Err(refused), Err(ordered)) => are_places(list) && refused == ordered,
        _ => false,
    };
    judged(rt, "shuffle", list.len(), said, right)
}

fn every_call(rt: &impl Print, list: &mut [u32], says: Said) -> io::Result<Tally> {
    number_places(list);
    let mut tally = choose(rt, list, says)?;
    tally += rand_slice(rt, list, says)?;
    tally += shuffle(rt, list, says)?;
    Ok(tally)
}

pub(crate) fn run(rt: &impl Print) -> io::Result<Tally> {
    let mut tally = every_call(rt, &mut [0; 65536], examples::LONGEST)?;
    tally += every_call(rt, &mut [0; 65537], examples::LONGER)?;
    Ok(tally)
}
