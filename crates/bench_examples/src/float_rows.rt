// The examples on floats: numbers below 1, a chance, and an interval.
use crate::examples::{Chance, Unit};
use crate::report::Tally;
use crate::{examples, given, report};
use floats::{Interval, Uniform};
use std::io;

// The answer's pattern, of the word of a twister's table; for a word of 64 bits the high half comes first.
fn pattern_of(x: Unit) -> Option<u64> {
    match x {
        Unit::Float { word, .. } => {
            let mut mt = given::table(&[word])?;
            let value = float_draws::float_in(given::twister(), &mut mt).value;
            Some(float_bits::pattern_of(std::num::f32_to_f64_with_nan(value)))
        }
        Unit::Double { word, .. } => {
            let mut mt = given::table(&given::halves(word))?;
            let value = float_draws::double_in(given::twister(), &mut mt).value;
            Some(float_bits::pattern_of(value))
        }
    }
}

fn unit(rt: &impl Print, x: Unit) -> io::Result<Tally> {
    let Some(pattern) = pattern_of(x) else {
        return report::judged(rt, false);
    };
    let says = match x {
        Unit::Float { word, says } => {
            print!(rt; "float of 0x{word:03x}")?;
            says
        }
        Unit::Double { word, says } => {
            print!(rt; "double of 0x{word:03x}")?;
            says
        }
    };
    print!(rt; ": the f64 0x{pattern:016x}")?;
    report::judged(rt, pattern == says)
}

fn chance(rt: &impl Print, x: Chance) -> io::Result<Tally> {
    let p = x.p;
    let word = x.word;
    let mut mt = [0; 624];
    let flip = float_draws::bool_in(given::xoshiro(word), &mut mt, float_bits::number_of(p));
    let said = report::of_flip(flip);
    print!(rt; "bool, p = the f64 0x{p:016x}, word 0x{word:016x}")?;
    report::tell(rt, said)?;
    report::judged(rt, said == x.says)
}

fn uniform(rt: &impl Print) -> io::Result<Tally> {
    let mut mt = [0; 624];
    let interval = Interval {
        low: float_bits::number_of(examples::ONE),
        high: float_bits::number_of(examples::ABOVE_ONE),
    };
    print!(rt; "uniform from 1 to 1 + 2^-52, word all ones: ")?;
    match float_draws::uniform_in(given::xoshiro(u64::MAX), &mut mt, interval).answer {
        Uniform::Number(x) => {
            let pattern = float_bits::pattern_of(x);
            print!(rt; "the f64 0x{pattern:016x}")?;
            report::judged(rt, pattern == examples::ABOVE_ONE)
        }
        Uniform::Refused(number) => {
            print!(rt; "refusal {number}")?;
            report::judged(rt, false)
        }
    }
}

pub(crate) fn run(rt: &impl Print) -> io::Result<Tally> {
    let mut tally = Tally::default();
    for x in examples::UNIT {
        tally += unit(rt, x)?;
    }
    tally += uniform(rt)?;
    for x in examples::CHANCE {
        tally += chance(rt, x)?;
    }
    Ok(tally)
}
