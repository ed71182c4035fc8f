// A number out of its decimal digits.
ghost use Rattle.std.specs.Prelude.{◌≡◌};
ghost use Rattle.week.specs.Decimal.{read_number};

// The number of 64 bits that a text is: nothing but digits, and at least one. `parse` would take a sign too.
pub(crate) fn read_number(text: &[u8]) -> Option<u64>
    ensures { result ≡ read_number text.now }
{
    if text.is_empty() {
        return None;
    }
    let mut number = 0u64;
    for byte in text {
        if !byte.is_ascii_digit() {
            return None;
        }
        let digit = u64::from(*byte - b'0');
        number = number.checked_mul(10)?.checked_add(digit)?;
    }
    Some(number)
}
