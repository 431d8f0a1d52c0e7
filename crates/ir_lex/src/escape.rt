//! The escapes of quoted texts.
ghost use Rattle.std.specs.Prelude.{◌≡◌, ◌+◌, ◌<◌, ◌≤◌, ◌∷◌, drop, length, true};
ghost use Rattle.std.specs.List.{list_all};
ghost use Rattle.std.specs.Char.{is_ascii_digit, is_ascii_hexdigit, digit_value};
ghost use Rattle.ir_lex.specs.Names as spec;

use crate::class::byte_at;

/// The value of a hexadecimal digit.
#[inline(always)]
fn hex_value(byte: u8) -> u8
    requires { is_ascii_hexdigit byte ≡ true }
    ensures value { result ≡ digit_value byte }
    ensures small { result < 16 }
{
    if byte <= b'9' {
        byte - b'0'
    } else if byte <= b'F' {
        byte - b'A' + 10
    } else {
        byte - b'a' + 10
    }
}

/// Of the bytes behind a backslash, the byte that they stand for with it, and how many belong to it.
fn escape(behind: &[u8]) -> (u8, usize)
    ensures byte { result.0 ≡ spec.escape_byte behind.now }
    ensures len { result.1 ≡ spec.escape_len behind.now }
    ensures within { result.1 ≤ length behind.now }
{
    let high = byte_at(behind, 0);
    if high == b'\\' {
        return (b'\\', 1);
    }
    let low = byte_at(behind, 1);
    if high.is_ascii_hexdigit() && low.is_ascii_hexdigit() {
        return (16 * hex_value(high) + hex_value(low), 2);
    }
    (b'\\', 0)
}

/// The byte that the bytes at the front stand for, and how many they are.
#[tactic(auto, using(crate::proofs::EscapeLemmas::escapes))]
fn unescaped_first(bytes: &[u8]) -> (u8, usize)
    requires { 0 < length bytes.now }
    ensures reads { spec.unescaped bytes.now ≡ result.0 ∷ spec.unescaped (drop result.1 bytes.now) }
    ensures some { 0 < result.1 }
    ensures within { result.1 ≤ length bytes.now }
{
    let byte = bytes[0];
    if byte != b'\\' {
        return (byte, 1);
    }
    let (byte, len) = escape(&bytes[1..]);
    (byte, 1 + len)
}

/// Whether the bytes stand for digits.
#[tactic(auto, using(crate::proofs::EscapeLemmas::escapes))]
fn are_digits(bytes: &[u8]) -> bool
    ensures { result ≡ list_all is_ascii_digit (spec.unescaped bytes.now) }
{
    let mut at = 0;
    'bytes: while at < bytes.len() {
        let (byte, len) = unescaped_first(&bytes[at..]);
        if !byte.is_ascii_digit() {
            return false;
        }
        at += len;
    }
    true
}

/// Whether the bytes stand for `0`, or for digits that don't begin with `0`.
#[tactic(auto, using(crate::proofs::EscapeLemmas::escapes))]
pub fn is_number(bytes: &[u8]) -> bool
    ensures { result ≡ spec.is_number (spec.unescaped bytes.now) }
{
    if bytes.is_empty() {
        return false;
    }
    let (first, len) = unescaped_first(bytes);
    if !first.is_ascii_digit() {
        return false;
    }
    if first == b'0' {
        return len == bytes.len();
    }
    are_digits(&bytes[len..])
}
