// Signed numbers: words read as signed, a word added to a signed number, and how far one signed number is above another.
// The one place that works with them: what stands above takes their laws from specs/.
#![tactic(auto)]

ghost use Rattle.signed.specs.Promises.{SignedU32Promise, SignedU64Promise, WrappingAddSignedPromise, SpanOfPromise};

// A word of 32 bits read as signed, where the Rust has `as i32`.
pub fn signed_u32(w: u32) -> i32
    ensures { SignedU32Promise w result }
{
    u32::cast_signed(w)
}

// A word of 64 bits read as signed, where the Rust has `as i64`.
pub fn signed_u64(w: u64) -> i64
    ensures { SignedU64Promise w result }
{
    u64::cast_signed(w)
}

// x + w, modulo 2^32 and read back as signed.
pub fn wrapping_add_signed(x: i32, w: u32) -> i32
    ensures { WrappingAddSignedPromise x w result }
{
    signed_u32(x.cast_unsigned().wrapping_add(w))
}

// How far max is above min, worked out in 64 bits; 0 where it is below.
pub fn span_of(min: i32, max: i32) -> u32
    ensures { SpanOfPromise min max result }
{
    ((max as i64) - (min as i64)).max(0) as u32
}
