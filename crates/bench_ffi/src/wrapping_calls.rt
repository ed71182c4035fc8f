// Exports of the wrapping helpers, for the comparison with the Rust's own wrapping arithmetic, rotations and 128-bit numbers.
ghost use Rattle.wrapping.specs.Promises.{MulU32Promise, MulU64Promise, RotateLeftU32Promise, RotateRightU32Promise};
ghost use Rattle.wrapping.specs.Promises.{RotateLeftU64Promise, RotateRightU64Promise, WideWrappingAddPromise, WideWrappingMulPromise};

use wrapping::Wide;

// A product modulo 2^32.
#[unsafe(no_mangle)]
pub extern "C" fn wrapping_mul_u32(a: u32, b: u32) -> u32
    ensures { MulU32Promise a b result }
{
    wrapping::mul_u32(a, b)
}

// A product modulo 2^64.
#[unsafe(no_mangle)]
pub extern "C" fn wrapping_mul_u64(a: u64, b: u64) -> u64
    ensures { MulU64Promise a b result }
{
    wrapping::mul_u64(a, b)
}

// 32 bits rotated to the left.
#[unsafe(no_mangle)]
pub extern "C" fn wrapping_rotate_left_u32(x: u32, k: u32) -> u32
    ensures { RotateLeftU32Promise x k result }
{
    wrapping::rotate_left_u32(x, k)
}

// 32 bits rotated to the right.
#[unsafe(no_mangle)]
pub extern "C" fn wrapping_rotate_right_u32(x: u32, k: u32) -> u32
    ensures { RotateRightU32Promise x k result }
{
    wrapping::rotate_right_u32(x, k)
}

// 64 bits rotated to the left.
#[unsafe(no_mangle)]
pub extern "C" fn wrapping_rotate_left_u64(x: u64, k: u32) -> u64
    ensures { RotateLeftU64Promise x k result }
{
    wrapping::rotate_left_u64(x, k)
}

// 64 bits rotated to the right.
#[unsafe(no_mangle)]
pub extern "C" fn wrapping_rotate_right_u64(x: u64, k: u32) -> u64
    ensures { RotateRightU64Promise x k result }
{
    wrapping::rotate_right_u64(x, k)
}

// A sum modulo 2^128.
#[unsafe(no_mangle)]
pub extern "C" fn wrapping_add_wide(a: Wide, b: Wide) -> Wide
    ensures { WideWrappingAddPromise a b result }
{
    a.wrapping_add(b)
}

// A product modulo 2^128.
#[unsafe(no_mangle)]
pub extern "C" fn wrapping_mul_wide(a: Wide, b: Wide) -> Wide
    ensures { WideWrappingMulPromise a b result }
{
    a.wrapping_mul(b)
}
