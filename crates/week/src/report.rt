// What the program writes: the plan on standard output; warnings and what is wrong with its arguments on standard error.
ghost use Rattle.std.specs.Prelude.{◌≤◌};

use crate::job::{Job, MOST_SLOTS};
use std::io;
use std::io::Stderr;
use words::Refusal;

// ---- on standard output

pub(crate) fn tell_example(rt: &impl Print, job: Job) -> io::Result<()> {
    let seed = job.seed;
    println!(rt;
        "EXAMPLE with seed {seed}, not for a unit: a plan for a unit is ./week KIND SEED INLETS BLANKS DAYS BUDGET"
    )
}

pub(crate) fn tell_job(rt: &impl Print, job: Job) -> io::Result<()> {
    let Job {
        kind,
        seed,
        inlets,
        blanks,
        days,
        budget,
    } = job;
    let number = kind.number();
    print!(rt; "kind {number} ({kind}), seed {seed}, inlets {inlets}, blanks a day {blanks}")?;
    println!(rt; ", days {days}, budget a draw {budget} words")
}

fn digits_of(n: u32) -> usize
    ensures { result ≤ 10 }
{
    n.checked_ilog10().map_or(1, |log| log as usize + 1)
}

// A slot: its inlet, or that it is a blank.
fn tell_slot(rt: &impl Print, inlet: u32, width: usize) -> io::Result<()> {
    if inlet == 0 {
        print!(rt; "{:>width$}", "--")
    } else {
        print!(rt; "{inlet:>width$}")
    }
}

// A column has a space, and room for the largest inlet's number and for a blank.
fn column(inlets: u32) -> usize {
    digits_of(inlets).max(2).wrapping_add(1)
}

fn tell_date(rt: &impl Print, job: Job, day: u32) -> io::Result<()> {
    let width = digits_of(job.days);
    print!(rt; "day {day:>width$}:")
}

pub(crate) fn tell_day(
    rt: &impl Print,
    job: Job,
    day: u32,
    slots: &[u32],
    used: u32,
) -> io::Result<()> {
    tell_date(rt, job, day)?;
    let width = column(job.inlets);
    for inlet in slots {
        tell_slot(rt, *inlet, width)?;
    }
    println!(rt; "   {used} words")
}

pub(crate) fn tell_refusal(
    rt: &impl Print,
    job: Job,
    day: u32,
    refusal: Refusal,
) -> io::Result<()> {
    tell_date(rt, job, day)?;
    let number = refusal.number();
    print!(rt; " refused with {number}")?;
    if refusal == Refusal::Budget {
        let budget = job.budget;
        print!(rt; " ({refusal}): the draws don't finish within the budget of {budget} words")?;
    }
    println!(rt)
}

pub(crate) fn tell_total(rt: &impl Print, used: u64, days: u32) -> io::Result<()> {
    println!(rt; "total: {used} words, days planned: {days}")
}

// ---- on standard error. What it doesn't take can't be told anywhere: the program goes on.

// The letters of a bad argument that are shown.
const SHOWN: usize = 20;

pub(crate) fn tell_count(stderr: &Stderr) {
    let _ = stderr.println(
        "week: wrong number of arguments: six are wanted, or none for an example",
    );
}

// A letter that can be seen; what a terminal would obey, or could show in two letters, is `?`.
fn seen(letter: u8) -> u8 {
    match letter {
        b' '..=b'~' => letter,
        _ => b'?',
    }
}

// The first letters of a text.
fn first_seen(text: &[u8]) -> [u8; SHOWN] {
    let mut shown = [b'?'; SHOWN];
    for (place, letter) in shown.iter_mut().zip(text) {
        *place = seen(*letter);
    }
    shown
}

// An argument: its first letters, and where there are more, two dots. One that is too long to be read at all comes here empty.
fn show(stderr: &Stderr, text: &[u8]) {
    let shown = first_seen(text);
    match shown.get(..text.len()) {
        Some(whole) => {
            let _ = stderr.write_all(whole);
        }
        None => {
            let _ = stderr.write_all(&shown);
            let _ = stderr.write_all(b"..");
        }
    }
}

pub(crate) fn tell_bad(stderr: &Stderr, name: &str, text: &[u8], least: u64, most: u64) {
    let _ = print!(stderr; "week: bad {name} '");
    show(stderr, text);
    let _ = println!(stderr; "': wanted: a whole number from {least} to {most}");
}

// How the program is called.
pub(crate) fn write_usage(to: &impl Print) -> io::Result<()> {
    to.write_all(b"usage: ./week KIND SEED INLETS BLANKS DAYS BUDGET\n")?;
    to.write_all(b"  KIND    0 Xoshiro256PlusPlus, 1 MersenneTwister, 2 Pcg32, 3 Pcg64\n")?;
    to.write_all(
        b"  SEED    a number of 64 bits; kind 1 takes 32 bits, kind 3 widens it to 128\n",
    )?;
    to.write_all(b"  INLETS  at least 1; each opens once a day\n")?;
    println!(to; "  BLANKS  of each day; with the inlets at most {MOST_SLOTS}")?;
    to.write_all(b"  DAYS    at least 1\n")?;
    to.write_all(b"  BUDGET  the words that the draw of a day may use, a number of 32 bits\n")
}

pub(crate) fn warn_of_seed_zero(stderr: &Stderr) {
    let _ = stderr.println(
        "week: warning: seed 0 is what a clock at epoch gives after a battery swap: every unit with it draws this same week",
    );
}
