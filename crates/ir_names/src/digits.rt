// Digits, and the numbers that they make.
ghost use Rattle.std.specs.Prelude.{◌≡◌, ◌^◌, min};
ghost use Rattle.std.specs.List.{list_all};
ghost use Rattle.ir_names.specs.Names as spec;

/// The number from which on digits aren't counted.
const LIMIT: u128 = 0x1_0000_0000_0000_0000;

/// Whether a byte is one of `0` to `9`.
#[tactic(auto, unfolding(crate::specs::Names::is_digit))]
pub fn is_digit(byte: u8) -> bool
    ensures { result ≡ spec.is_digit byte }
{
    b'0' <= byte && byte <= b'9'
}

/// Whether a text has digits alone, or nothing.
pub fn all_digits(text: &[u8]) -> bool
    ensures { result ≡ list_all spec.is_digit text.now }
{
    text.iter().all(|byte| is_digit(*byte))
}

/// Whether a text is a number: digits, of which the first is no `0` but in `0` alone.
#[tactic(auto, unfolding(crate::specs::Names::is_decimal, crate::specs::Names::is_digit))]
pub fn is_decimal(text: &[u8]) -> bool
    ensures { result ≡ spec.is_decimal text.now }
{
    match text {
        [] => false,
        [digit] => is_digit(*digit),
        [first, ..] => *first != b'0' && all_digits(text),
    }
}

/// The number that digits make, or 2^64 where it is more.
pub fn value_of(digits: &[u8]) -> u128
    ensures { result ≡ min (spec.value_of digits.now) (2 ^ 64) }
{
    let mut value = 0;
    for digit in digits {
        value = LIMIT.min(value * 10 + u128::from(digit.saturating_sub(b'0')));
    }
    value
}
