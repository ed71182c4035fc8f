// What programs write to standard output: texts, numbers and words. That something is written can't be promised; every call is safe and
// ends, and answers an error where it can't write.
#![tactic(auto)]

use std::io;

// The most hexadecimal digits of a number.
const MOST_DIGITS: usize = 16;

// A text as it is.
pub fn text(rt: &impl Print, t: &[u8]) -> io::Result<()> {
    rt.write_all(t)
}

// A number in decimal digits.
pub fn number(rt: &impl Print, n: u64) -> io::Result<()> {
    rt.print(n)
}

// The same of 32 bits.
pub fn small(rt: &impl Print, n: u32) -> io::Result<()> {
    number(rt, n as u64)
}

// A word or a bit pattern, in at least so many hexadecimal digits.
pub fn pattern(rt: &impl Print, n: u64, digits: usize) -> io::Result<()> {
    let width = digits.min(MOST_DIGITS);
    print!(rt; "0x{n:0width$x}")
}

// The same of 32 bits, in eight digits.
pub fn word(rt: &impl Print, w: u32) -> io::Result<()> {
    pattern(rt, w as u64, 8)
}
