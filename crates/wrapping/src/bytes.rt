// Little-endian words of a list of bytes, where the Rust has `from_le_bytes` of a part of the list.
ghost use Rattle.std.specs.Prelude.{◌≡◌, ◌+◌, ◌<◌, ℕ, slice_index};
ghost use Rattle.wrapping.specs.Promises.{LeU32Promise, LeU64Promise};

// The bytes from the place `at` on; 0 past the end.
fn bytes_at<const N: usize>(s: &[u8], at: usize) -> [u8; N]
    ensures { (k : ℕ) → k < N → slice_index result k ≡ slice_index s.now (at + k) }
{
    let mut bytes = [0u8; N];
    if let Some(rest) = s.get(at..) {
        let n = rest.len().min(N);
        bytes[..n].copy_from_slice(&rest[..n]);
    }
    bytes
}

// The word of the four bytes from the place `at` on, the lowest first.
#[tactic(auto, using(crate::specs::BytesLaws::four_bytes))]
pub fn le_u32(s: &[u8], at: usize) -> u32
    ensures { LeU32Promise s.now at result }
{
    u32::from_le_bytes(bytes_at(s, at))
}

// The word of the eight bytes from the place `at` on, the lowest first.
#[tactic(auto, using(crate::specs::BytesLaws::eight_bytes))]
pub fn le_u64(s: &[u8], at: usize) -> u64
    ensures { LeU64Promise s.now at result }
{
    u64::from_le_bytes(bytes_at(s, at))
}
