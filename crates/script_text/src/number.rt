//! Decimal numbers.
ghost use Rattle.std.specs.Prelude.{◌≡◌};
ghost use Rattle.script_text.specs.InsideNumbers.{digits_in, starts_well};
ghost use Rattle.script_text.specs.Numbers.{number_in};

/// The number whose decimal digits the text is, without sign or leading zeros; None where it is no such
/// text, or above the limit.
pub fn decimal_number(text: &[u8], most: u64) -> Option<u64>
    ensures { result ≡ number_in most text.now }
{
    if !starts_well(text) {
        return None;
    }
    match digits(text) {
        Some(value) if value <= most => Some(value),
        _ => None,
    }
}

/// Whether there is a first byte, which is no zero before others.
fn starts_well(text: &[u8]) -> bool
    ensures { result ≡ starts_well text.now }
{
    match text {
        [] => false,
        [_] => true,
        [first, ..] => *first != b'0',
    }
}

/// What the digits stand for; None where one is no digit, or a u64 does not hold it.
fn digits(text: &[u8]) -> Option<u64>
    ensures { result ≡ digits_in text.now }
{
    let mut value: u64 = 0;
    for byte in text {
        if *byte < b'0' {
            return None;
        }
        if *byte > b'9' {
            return None;
        }
        let digit = u64::from(*byte - b'0');
        if value > (u64::MAX - digit) / 10 {
            return None;
        }
        value = value * 10 + digit;
    }
    Some(value)
}
