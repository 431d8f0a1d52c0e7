ghost use Rattle.std.specs.Prelude.{◌≡◌, ◌+◌, ◌*◌, ◌^◌, ◌<◌, ◌≤◌, cond, IsTrue, Some, None};
ghost use Rattle.std.specs.Str.Parse.{digits_value};
ghost use Rattle.std.specs.Char.{digit_value, is_ascii_digit};
ghost use Rattle.std.specs.List.{list_all};
ghost use Rattle.ir_lex.specs.Names as names;
ghost use Rattle.ir_numbers.specs.Numbers.{bits};
ghost use Rattle.type_grammar.specs.Left.{offset_at, offset_of};
ghost use Rattle.type_grammar.specs.Numbers as spec;

use ir_values::Width;
use unit_grammar::{are_digits, without_first};

fn more(value: u64, byte: u8) -> Option<u64>
    requires { IsTrue (is_ascii_digit byte) }
    ensures { result ≡ spec.below_64 (value * 10 + digit_value byte) }
{
    let next = value as u128 * 10 + (byte - b'0') as u128;
    if next <= u64::MAX as u128 {
        Some(next as u64)
    } else {
        None
    }
}

fn value(bytes: &[u8]) -> Option<u64>
    requires { IsTrue (list_all is_ascii_digit bytes.now) }
    ensures { result ≡ spec.below_64 (digits_value 10 bytes.now) }
{
    let mut value = 0;
    for byte in bytes {
        match more(value, *byte) {
            Some(next) => value = next,
            None => return None,
        }
    }
    Some(value)
}

fn is_negative(bytes: &[u8]) -> bool
    ensures { result ≡ spec.is_negative bytes.now }
{
    match bytes {
        [] => false,
        [first, ..] => *first == b'-',
    }
}

fn digits_of(bytes: &[u8]) -> &[u8]
    ensures { result.now ≡ spec.digits_of bytes.now }
{
    if is_negative(bytes) {
        without_first(bytes)
    } else {
        bytes
    }
}

fn magnitude(bytes: &[u8]) -> Option<u64>
    ensures { result ≡ spec.magnitude bytes.now }
{
    let digits = digits_of(bytes);
    if are_digits(digits) {
        value(digits)
    } else {
        None
    }
}

/// The length of an array, from 0 to 2^64 - 1; `-0` is 0.
pub fn length_of(bytes: &[u8]) -> Option<u64>
    ensures { result ≡ spec.length_of bytes.now }
{
    let n = magnitude(bytes)?;
    if is_negative(bytes) && n != 0 {
        None
    } else {
        Some(n)
    }
}

fn size(width: Width) -> u128
    ensures value { result ≡ 2 ^ bits width }
    ensures most { result ≤ 2 ^ 64 }
{
    match width {
        Width::W1 => 2,
        Width::W8 => 0x100,
        Width::W16 => 0x1_0000,
        Width::W32 => 0x1_0000_0000,
        Width::W64 => 0x1_0000_0000_0000_0000,
    }
}

fn held(width: Width, negative: bool, n: u64) -> Option<u64>
    ensures { result ≡ spec.held width negative n }
{
    let size = size(width);
    let n = n as u128;
    if negative {
        if n > size / 2 {
            return None;
        }
        return Some(((size - n) % size) as u64);
    }
    if n < size { Some(n as u64) } else { None }
}

/// The number that the bytes write, modulo 2 to the power of the width, where that many bits hold it.
pub fn int_of(width: Width, bytes: &[u8]) -> Option<u64>
    ensures { result ≡ spec.int_of width bytes.now }
{
    let n = magnitude(bytes)?;
    held(width, is_negative(bytes), n)
}

#[tactic(auto, using(crate::proofs::NumberLemmas::is_number_by))]
fn is_number(bytes: &[u8]) -> bool
    ensures { result ≡ names.is_number bytes.now }
{
    if bytes.is_empty() {
        return false;
    }
    if !are_digits(bytes) {
        return false;
    }
    if bytes[0] != b'0' {
        return true;
    }
    bytes.len() == 1
}

fn offset_at(negative: bool, n: u64) -> Option<u64>
    requires { 0 < n }
    ensures { result ≡ offset_at negative n }
{
    if negative {
        if n > 0x8000_0000_0000_0000 {
            return None;
        }
        return Some(u64::MAX - n + 1);
    }
    if n < 0x8000_0000_0000_0000 {
        Some(n)
    } else {
        None
    }
}

/// The offset that a decimal writes, modulo 2^64: without leading zeros, not 0, and one of 64 bits with a sign.
pub fn offset_of(bytes: &[u8]) -> Option<u64>
    ensures { result ≡ offset_of bytes.now }
{
    if !is_number(digits_of(bytes)) {
        return None;
    }
    let n = magnitude(bytes)?;
    if n == 0 {
        return None;
    }
    offset_at(is_negative(bytes), n)
}
