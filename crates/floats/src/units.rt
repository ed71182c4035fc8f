// A word as a number from 0 up to 1: its high bits, as many as a significand has, over a power of two.
ghost use Rattle.floats.specs.Promises.{FloatOfPromise, DoubleOfPromise};

// 2^-24 exactly, as the Rust writes it.
const TWO_TO_MINUS_24: f32 = 1.0 / ((1u32 << 24) as f32);

// 2^-53, likewise.
const TWO_TO_MINUS_53: f64 = 1.0 / ((1u64 << 53) as f64);

// (word >> 8) / 2^24: the cast of a number below 2^24 and the product with 2^-24 are both exact.
pub fn float_of(word: u32) -> f32
    ensures { FloatOfPromise word result }
{
    let n = word >> 8;
    (n as f32) * TWO_TO_MINUS_24
}

// (word >> 11) / 2^53, likewise.
pub fn double_of(word: u64) -> f64
    ensures { DoubleOfPromise word result }
{
    let n = word >> 11;
    (n as f64) * TWO_TO_MINUS_53
}
