// A float as its bit pattern and back, for programs that store floats as words. A NaN has no pattern of its own: its pattern reads as 0,
// and the patterns of NaNs as the number 0.
#![tactic(auto)]

ghost use Rattle.float_bits.specs.Promises.{PatternOfPromise, NumberOfPromise};

// The pattern of an infinity, the sign aside: above it stand the NaNs.
const INFINITY: u64 = 0x7FF0_0000_0000_0000;

const SIGN: u64 = 0x8000_0000_0000_0000;

// The pattern of a float; an `f32` is widened first, which keeps its value.
pub fn pattern_of(x: f64) -> u64
    ensures { PatternOfPromise x result }
{
    if x.is_nan() {
        return 0;
    }
    f64::to_bits(x)
}

// The float of a pattern.
pub fn number_of(pattern: u64) -> f64
    ensures { NumberOfPromise pattern result }
{
    if INFINITY < pattern % SIGN {
        return 0.0;
    }
    f64::from_bits(pattern)
}
