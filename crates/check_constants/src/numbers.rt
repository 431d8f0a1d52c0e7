// Numbers by their texts, and numbers with their signs.
ghost use Rattle.std.specs.Prelude.{◌≡◌, ◌≤◌, ◌-◌, ◌^◌};
ghost use Rattle.ir_numbers.specs.Numbers.{bits};
ghost use Rattle.check_constants.specs.Numbers as spec;

use ir_names::{all_digits, value_of};
use ir_values::Width;

fn is_negative(text: &[u8]) -> bool
    ensures { result ≡ spec.is_negative text.now }
{
    match text {
        [] => false,
        [first, ..] => *first == b'-',
    }
}

fn digits_of(text: &[u8]) -> &[u8]
    ensures { result.now ≡ spec.digits_of text.now }
{
    if is_negative(text) { &text[1..] } else { text }
}

/// Whether a text is digits, with `-` before them or not.
#[tactic(auto, unfolding(crate::specs::Numbers::is_number))]
pub fn is_number(text: &[u8]) -> bool
    ensures { result ≡ spec.is_number text.now }
{
    let digits = digits_of(text);
    !digits.is_empty() && all_digits(digits)
}

#[tactic(auto, unfolding(crate::specs::Numbers::magnitude))]
fn magnitude(text: &[u8]) -> u128
    ensures { result ≡ spec.magnitude text.now }
{
    value_of(digits_of(text))
}

fn size(width: Width) -> u128
    ensures value { result ≡ 2 ^ bits width }
    ensures most { result ≤ 2 ^ 64 }
{
    match width {
        Width::W1 => 2,
        Width::W8 => 0x100,
        Width::W16 => 0x1_0000,
        Width::W32 => 0x1_0000_0000,
        Width::W64 => 0x1_0000_0000_0000_0000,
    }
}

fn held(width: Width, negative: bool, n: u128) -> Option<u64>
    ensures { result ≡ spec.held (bits width) negative n }
{
    let size = size(width);
    if negative {
        if n > size / 2 {
            return None;
        }
        return Some(((size - n) % size) as u64);
    }
    if n < size { Some(n as u64) } else { None }
}

/// The number that a text writes at an integer type, modulo 2 to the power of its width. `None`: the type can't hold it, or the text is
/// no number.
#[tactic(auto, unfolding(crate::specs::Numbers::number_in))]
pub fn number_in(width: Width, text: &[u8]) -> Option<u64>
    ensures { result ≡ spec.number_in width text.now }
{
    if is_number(text) {
        held(width, is_negative(text), magnitude(text))
    } else {
        None
    }
}

fn half(width: Width) -> u64
    ensures { result ≡ 2 ^ (bits width - 1) }
{
    match width {
        Width::W1 => 1,
        Width::W8 => 0x80,
        Width::W16 => 0x8000,
        Width::W32 => 0x8000_0000,
        Width::W64 => 0x8000_0000_0000_0000,
    }
}

fn high_bits(width: Width) -> u64
    ensures { result ≡ 2 ^ 64 - 2 ^ bits width }
{
    match width {
        Width::W1 => 0xFFFF_FFFF_FFFF_FFFE,
        Width::W8 => 0xFFFF_FFFF_FFFF_FF00,
        Width::W16 => 0xFFFF_FFFF_FFFF_0000,
        Width::W32 => 0xFFFF_FFFF_0000_0000,
        Width::W64 => 0,
    }
}

/// A number with its sign, as one of 64 bits.
#[tactic(auto, unfolding(crate::specs::Numbers::extended))]
pub fn extended(width: Width, n: u64) -> u64
    ensures { result ≡ spec.extended width n }
{
    if n < half(width) {
        n
    } else {
        n.wrapping_add(high_bits(width))
    }
}
