// The program's arguments.
ghost use Rattle.std.specs.Prelude.{◌≤◌, IfSome};
ghost use Rattle.week.specs.Slots.{WithinLimit};

use crate::decimal::read_number;
use crate::job::{Job, MOST_SLOTS};
use crate::report;
use random::Kind;
use std::env::{Env, FillError};
use std::io::Stderr;

// The most bytes of an argument that are read.
const LONGEST: usize = 4096;

// Whether there is an argument at a place.
pub(crate) fn is_given(rt: &impl Env, place: usize) -> bool {
    !matches!(rt.arg(place, &mut []), Err(FillError::NotPresent))
}

// Whether the usage is asked for, by the first argument.
pub(crate) fn is_help(rt: &impl Env) -> bool {
    let mut text = [0; 8];
    let n = rt.arg(1, &mut text).unwrap_or(0);
    matches!(&text[..n], b"-h" | b"--help")
}

// A number from least to most, of at most 20 digits.
fn number_in(text: &[u8], least: u64, most: u64) -> Option<u64>
    ensures { IfSome result (λ n. n ≤ most) }
{
    if text.len() > 20 {
        return None;
    }
    let number = read_number(text)?;
    if least <= number && number <= most {
        Some(number)
    } else {
        None
    }
}

// The argument at a place, a number from least to most; anything else is written to standard error. What is too long to be read is empty
// here, and so no number.
fn take(
    rt: &impl Env,
    stderr: &Stderr,
    place: usize,
    name: &str,
    least: u64,
    most: u64,
) -> Option<u64>
    ensures { IfSome result (λ n. n ≤ most) }
{
    let mut text = [0; LONGEST];
    let n = rt.arg(place, &mut text).unwrap_or(0);
    let number = number_in(&text[..n], least, most);
    if number.is_none() {
        report::tell_bad(stderr, name, &text[..n], least, most);
    }
    number
}

// The same of 32 bits.
fn take_word(rt: &impl Env, stderr: &Stderr, place: usize, name: &str, least: u64) -> Option<u32> {
    let number = take(rt, stderr, place, name, least, u64::from(u32::MAX))?;
    u32::try_from(number).ok()
}

fn kind_of(number: u64) -> Option<Kind> {
    Kind::try_from(u32::try_from(number).ok()?).ok()
}

// The largest seed that the kind's own call takes: kind 1 has 32 bits, the others 64 (kind 3 widens them to 128).
fn largest_seed(kind: Option<Kind>) -> u64 {
    match kind {
        Some(Kind::MersenneTwister) => u64::from(u32::MAX),
        _ => u64::MAX,
    }
}

// Each argument that is bad is told of.
pub(crate) fn from_arguments(rt: &impl Env, stderr: &Stderr) -> Option<Job>
    ensures { IfSome result (λ job. WithinLimit job.inlets job.blanks) }
{
    if !is_given(rt, 6) || is_given(rt, 7) {
        report::tell_count(stderr);
        return None;
    }
    let kind = take(rt, stderr, 1, "KIND", 0, 3).and_then(kind_of);
    let seed = take(rt, stderr, 2, "SEED", 0, largest_seed(kind));
    let inlets = take(rt, stderr, 3, "INLETS", 1, MOST_SLOTS as u64);
    let most_blanks = MOST_SLOTS as u64 - inlets.unwrap_or(0);
    let blanks = take(rt, stderr, 4, "BLANKS", 0, most_blanks);
    let days = take_word(rt, stderr, 5, "DAYS", 1);
    let budget = take_word(rt, stderr, 6, "BUDGET", 0);
    Some(Job {
        kind: kind?,
        seed: seed?,
        inlets: inlets? as u32,
        blanks: blanks? as u32,
        days: days?,
        budget: budget?,
    })
}
