// What the document says: each example with the words that it gives, and its answer.
use crate::report::Said;
use words::{Given, Refusal};

const OUT_OF_BUDGET: Said = Err(Refusal::Budget);

// Draws below a bound: with these words and no more, and so with a budget of as many.
#[derive(Clone, Copy)]
pub(crate) struct Below {
    pub(crate) r: u32,
    pub(crate) words: &'static [u32],
    pub(crate) says: Said,
}

pub(crate) const BELOW: [Below; 13] = [
    // below 3: word 0 is rejected; 1 gives 0; 0x55555555 gives 0; 0x55555556 gives 1; 0xFFFFFFFF gives 2
    Below {
        r: 3,
        words: &[0],
        says: OUT_OF_BUDGET,
    },
    Below {
        r: 3,
        words: &[0, 1],
        says: Ok(Given { value: 0, used: 2 }),
    },
    Below {
        r: 3,
        words: &[1],
        says: Ok(Given { value: 0, used: 1 }),
    },
    Below {
        r: 3,
        words: &[0x5555_5555],
        says: Ok(Given { value: 0, used: 1 }),
    },
    Below {
        r: 3,
        words: &[0x5555_5556],
        says: Ok(Given { value: 1, used: 1 }),
    },
    Below {
        r: 3,
        words: &[0xFFFF_FFFF],
        says: Ok(Given { value: 2, used: 1 }),
    },
    // below 6: 0x2AAAAAAB is rejected
    Below {
        r: 6,
        words: &[0x2AAA_AAAB],
        says: OUT_OF_BUDGET,
    },
    // below 1: word 0 gives 0; budget 0 refuses with 8
    Below {
        r: 1,
        words: &[0],
        says: Ok(Given { value: 0, used: 1 }),
    },
    Below {
        r: 1,
        words: &[],
        says: OUT_OF_BUDGET,
    },
    // below 0xFFFFFFFF: 0 is rejected; 1 gives 0; 0xFFFFFFFF gives 4294967294
    Below {
        r: 0xFFFF_FFFF,
        words: &[0],
        says: OUT_OF_BUDGET,
    },
    Below {
        r: 0xFFFF_FFFF,
        words: &[1],
        says: Ok(Given { value: 0, used: 1 }),
    },
    Below {
        r: 0xFFFF_FFFF,
        words: &[0xFFFF_FFFF],
        says: Ok(Given {
            value: 4294967294,
            used: 1,
        }),
    },
    // below 0x80000000: word 0x80000000 gives 1073741824
    Below {
        r: 0x8000_0000,
        words: &[0x8000_0000],
        says: Ok(Given {
            value: 1073741824,
            used: 1,
        }),
    },
];

// `int` from min to max, with these words and no more.
#[derive(Clone, Copy)]
pub(crate) struct Int {
    pub(crate) min: i32,
    pub(crate) max: i32,
    pub(crate) words: &'static [u32],
    pub(crate) says: Said,
}

pub(crate) const INT: [Int; 5] = [
    // over its full span: 0 gives -2147483648, 0x80000000 gives 0, 0xFFFFFFFF gives 2147483647
    Int {
        min: i32::MIN,
        max: i32::MAX,
        words: &[0],
        says: Ok(Given {
            value: -2147483648,
            used: 1,
        }),
    },
    Int {
        min: i32::MIN,
        max: i32::MAX,
        words: &[0x8000_0000],
        says: Ok(Given { value: 0, used: 1 }),
    },
    Int {
        min: i32::MIN,
        max: i32::MAX,
        words: &[0xFFFF_FFFF],
        says: Ok(Given {
            value: 2147483647,
            used: 1,
        }),
    },
    // from -1 to 1: 0xFFFFFFFF gives 1. From 5 to 5: 5, no word
    Int {
        min: -1,
        max: 1,
        words: &[0xFFFF_FFFF],
        says: Ok(Given { value: 1, used: 1 }),
    },
    Int {
        min: 5,
        max: 5,
        words: &[],
        says: Ok(Given { value: 5, used: 0 }),
    },
];

// [10, 20, 30] shuffled with the words 0, 1, 0xFFFFFFFF.
#[derive(Clone, Copy)]
pub(crate) struct Shuffled {
    pub(crate) budget: u32,
    pub(crate) list: [u32; 3],
    pub(crate) says: Said,
}

pub(crate) const SHUFFLE: [Shuffled; 2] = [
    // gives [30, 20, 10], 3 words used; budget 2 refuses and the list stays
    Shuffled {
        budget: 3,
        list: [30, 20, 10],
        says: Ok(Given { value: 0, used: 3 }),
    },
    Shuffled {
        budget: 2,
        list: [10, 20, 30],
        says: OUT_OF_BUDGET,
    },
];

// Lists of 65,536 and 65,537 entries, each its own place: what the word 0xFFFFFFFF draws.
pub(crate) const LONGEST: Said = Ok(Given {
    value: 65535,
    used: 1,
});

pub(crate) const LONGER: Said = Err(Refusal::TooLong);

// `float` of a 32-bit word or `double` of a 64-bit word. An answer is told as an `f64`'s bit pattern.
#[derive(Clone, Copy)]
pub(crate) enum Unit {
    Float { word: u32, says: u64 },
    Double { word: u64, says: u64 },
}

pub(crate) const UNIT: [Unit; 4] = [
    // `float`: 0xFF gives 0, 0x100 gives 2^-24. `double`: 0x7FF gives 0, 0x800 gives 2^-53
    Unit::Float {
        word: 0xFF,
        says: 0,
    },
    Unit::Float {
        word: 0x100,
        says: 0x3E70_0000_0000_0000,
    },
    Unit::Double {
        word: 0x7FF,
        says: 0,
    },
    Unit::Double {
        word: 0x800,
        says: 0x3CA0_0000_0000_0000,
    },
];

// 1 and the next float above it, 1 + 2^-52.
pub(crate) const ONE: u64 = 0x3FF0_0000_0000_0000;

pub(crate) const ABOVE_ONE: u64 = 0x3FF0_0000_0000_0001;

// `bool` with the chance of a bit pattern, with one 64-bit word.
#[derive(Clone, Copy)]
pub(crate) struct Chance {
    pub(crate) p: u64,
    pub(crate) word: u64,
    pub(crate) says: Said,
}

pub(crate) const CHANCE: [Chance; 3] = [
    // `p` = 0, 1, and the next float above 1
    Chance {
        p: 0,
        word: 0,
        says: Ok(Given { value: 0, used: 1 }),
    },
    Chance {
        p: ONE,
        word: u64::MAX,
        says: Ok(Given { value: 1, used: 1 }),
    },
    Chance {
        p: ABOVE_ONE,
        word: 0,
        says: Err(Refusal::Chance),
    },
];

// Numbers of the document's own arithmetic: 2^32 mod 3, the product 0x2AAAAAAB * 6, its remainder, 2^32 mod 6.
pub(crate) const THRESHOLD_OF_3: u64 = 1;

pub(crate) const PRODUCT: u64 = 4294967298;

pub(crate) const REMAINDER: u64 = 2;

pub(crate) const THRESHOLD_OF_6: u64 = 4;

// Below 6, each value has so many words.
pub(crate) const SHARE_OF_6: u64 = 715827882;

// Five bytes, from the 64-bit word 0x0807060504030201 or the words 0x04030201 and 0x08070605, and the steps that each takes.
pub(crate) const BYTES: [u8; 5] = [1, 2, 3, 4, 5];

pub(crate) const WORD_64: u64 = 0x0807_0605_0403_0201;

pub(crate) const WORDS_32: [u32; 2] = [0x0403_0201, 0x0807_0605];

pub(crate) const STEPS_OF_KIND_1: u32 = 2;
