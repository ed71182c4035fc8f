// Products of words: modulo 2^32, modulo 2^64, and the upper word of a product of two 64-bit words.
ghost use Rattle.wrapping.specs.Promises.{MulU32Promise, MulU64Promise, UpperU64Promise};

// a * b, modulo 2^32.
pub fn mul_u32(a: u32, b: u32) -> u32
    ensures { MulU32Promise a b result }
{
    a.wrapping_mul(b)
}

// a * b, modulo 2^64.
pub fn mul_u64(a: u64, b: u64) -> u64
    ensures { MulU64Promise a b result }
{
    a.wrapping_mul(b)
}

// a * b, divided by 2^64.
pub fn upper_u64(a: u64, b: u64) -> u64
    ensures { UpperU64Promise a b result }
{
    (((a as u128) * (b as u128)) >> 64) as u64
}
