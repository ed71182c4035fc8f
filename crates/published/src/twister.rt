// The twister's comparisons, over one lent table.
use crate::init_by_array::init_by_array;
use crate::{report, vectors};
use std::io;

// The words from a table and a position on.
#[derive(Drop)]
struct Words<'a> {
    mt: &'a mut [u32; 624],
    mti: u32,
}

impl Iterator for Words<'_> {
    type Item = u64;

    fn next(&mut self) -> Option<u64> {
        let d = mersenne_twister::rand_in(self.mt, self.mti);
        self.mti = d.mti;
        Some(u64::from(d.word))
    }
}

// What a published list has of a run of words: the first ones, and the last after so many between.
#[derive(Clone, Copy)]
struct Ends {
    first: [u64; 10],
    between: usize,
    last: u64,
}

fn compare_ends(rt: &impl Print, what: &str, mt: &mut [u32; 624], ends: Ends) -> io::Result<()> {
    let mut words = Words { mt, mti: 624 };
    let first = report::agreeing(words.by_ref(), &ends.first);
    let last = words.nth(ends.between) == Some(ends.last);
    report::tell(rt, what, first.wrapping_add(usize::from(last)), 11)
}

pub(crate) fn compare(rt: &impl Print) -> io::Result<()> {
    let mut mt = [0; 624];
    mersenne_twister::seed_in(&mut mt, 5489);
    compare_ends(
        rt,
        "MT19937, seed 5489, words 1 to 10 and 10000, and C++'s std::mt19937",
        &mut mt,
        Ends {
            first: vectors::STD_MT19937,
            between: 9989,
            last: vectors::STD_MT19937_10000TH,
        },
    )?;
    init_by_array(&mut mt);
    compare_ends(
        rt,
        "MT19937, init_by_array, words 1 to 10 and 1000, and Python's random (mt19937ar.out)",
        &mut mt,
        Ends {
            first: vectors::MT19937AR_OUT,
            between: 989,
            last: vectors::MT19937AR_OUT_1000TH,
        },
    )
}
