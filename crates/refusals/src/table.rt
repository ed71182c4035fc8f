// The table: rows of numbers below headings.
use crate::told::Refused;
use floats::Interval;

// One of a call's numbers, in the types that calls take.
#[derive(Clone, Copy)]
pub(crate) struct Argument(pub(crate) u64);

impl Argument {
    // The low 32 bits.
    pub(crate) fn word(self) -> u32 {
        low_word(self.0)
    }

    pub(crate) fn signed(self) -> i32 {
        self.word().cast_signed()
    }

    // The float with this bit pattern, NaN among them.
    pub(crate) fn float(self) -> f64 {
        if self.0 % 0x8000_0000_0000_0000 > 0x7FF0_0000_0000_0000 {
            return f64::NAN;
        }
        float_bits::number_of(self.0)
    }
}

// A call's arguments and what document 01 orders, as the head of the table says.
#[derive(Clone, Copy)]
pub(crate) struct Row {
    pub(crate) line: u64,
    pub(crate) first: Argument,
    pub(crate) second: Argument,
    pub(crate) length: usize,
    pub(crate) window: usize,
    pub(crate) refused: Option<Refused>,
    pub(crate) below: u64,
    pub(crate) budget: Option<u32>,
}

impl Row {
    pub(crate) fn interval(self) -> Interval {
        Interval {
            low: self.first.float(),
            high: self.second.float(),
        }
    }
}

fn low_word(n: u64) -> u32 {
    (n % 0x1_0000_0000) as u32
}

// A number's low 32 bits, or none where they are 0.
fn word_but_0(n: u64) -> Option<u32> {
    Some(low_word(n)).filter(|w| *w != 0)
}

fn digit_of(letter: u8) -> u64 {
    let digit = match letter {
        b'A'.. => letter - b'A' + 10,
        b'0'.. => letter - b'0',
        _ => 0,
    };
    u64::from(digit)
}

// A column's number: a sign, the `x` of `0x`, and digits; 0 for a lone `-`. Less than 0 it is counted from 2^64 down. It is read letter by
// letter, and not by `parse`, since a letter that `parse` would refuse is a digit here.
fn number_of(column: &[u8]) -> u64 {
    let mut base = 10;
    let mut negative = false;
    let mut value = 0u64;
    for letter in column {
        match letter {
            b'-' => negative = true,
            b'x' => base = 16,
            _ => value = value.wrapping_mul(base).wrapping_add(digit_of(*letter)),
        }
    }
    if negative {
        value.wrapping_neg()
    } else {
        value
    }
}

// A row out of its line: its columns up to a comment; those that are left out are 0.
pub(crate) fn row_of(line: &[u8], number: u64) -> Row {
    let told = line.split(|b| *b == b'#').next().unwrap_or(line);
    let columns = told.split(|b| *b == b' ').filter(|c| !c.is_empty());
    let mut numbers = [0; 7];
    for (n, column) in numbers.iter_mut().zip(columns) {
        *n = number_of(column);
    }
    let [first, second, length, window, refused, below, budget] = numbers;
    Row {
        line: number,
        first: Argument(first),
        second: Argument(second),
        length: length as usize,
        window: window as usize,
        refused: word_but_0(refused).map(Refused),
        below,
        budget: word_but_0(budget),
    }
}
