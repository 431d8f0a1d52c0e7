ghost use Rattle.std.specs.Prelude.{◌≡◌, ◌++◌, ◌∷◌, [], IfOk, OnOk, drop};
ghost use Rattle.ir_lex.specs.Names as spec;

use crate::bytes::{are_digits, byte_at, hex};
use ltt_base::{List, Memory, Text};
use std::alloc::Global;

fn escape(behind: &[u8]) -> (u8, usize)
    ensures byte { result.0 ≡ spec.escape_byte behind.now }
    ensures len { result.1 ≡ spec.escape_len behind.now }
{
    let high = byte_at(behind, 0);
    if high == b'\\' {
        return (b'\\', 1);
    }
    let low = byte_at(behind, 1);
    if high.is_ascii_hexdigit() && low.is_ascii_hexdigit() {
        return (16 * hex(high) + hex(low), 2);
    }
    (b'\\', 0)
}

fn push(out: &mut List<u8>, byte: u8) -> Result<(), Memory>
    ensures { OnOk result (out.new ≡ out.old ++ byte ∷ []) }
{
    match out.push(byte) {
        Ok(()) => Ok(()),
        Err(_) => Err(Memory),
    }
}

fn take_byte(out: &mut List<u8>, left: usize, first: u8, behind: &[u8]) -> Result<usize, Memory>
    ensures { IfOk result (λ next. out.new ++ spec.unescaped_from next behind.now
        ≡ out.old ++ spec.unescaped_from left (first ∷ behind.now)) }
{
    if left > 0 {
        return Ok(left - 1);
    }
    if first == b'\\' {
        let (byte, len) = escape(behind);
        push(out, byte)?;
        Ok(len)
    } else {
        push(out, first)?;
        Ok(0)
    }
}

#[tactic(auto, unfolding(ir_lex::specs::Names::unescaped))]
fn unescaped(alloc: Global, bytes: &[u8]) -> Result<Text, Memory>
    ensures { IfOk result (λ text. text ≡ spec.unescaped bytes.now) }
{
    let mut out = List::new(alloc);
    let mut left = 0;
    let mut rest = bytes;
    while let [first, behind @ ..] = rest {
        left = take_byte(&mut out, left, *first, behind)?;
        rest = behind;
    }
    Text::copy(alloc, out.items())
}

/// The bytes behind the first.
pub fn without_first(bytes: &[u8]) -> &[u8]
    ensures { result.now ≡ drop 1 bytes.now }
{
    match bytes {
        [] => bytes,
        [_, behind @ ..] => behind,
    }
}

fn between_quotes(bytes: &[u8]) -> &[u8]
    ensures { result.now ≡ spec.between_quotes bytes.now }
{
    if bytes.len() < 2 {
        return &bytes[0..0];
    }
    &bytes[1..bytes.len() - 1]
}

/// A quoted text's bytes after the escapes, and anything else as it stands.
pub fn unquoted(alloc: Global, bytes: &[u8]) -> Result<Text, Memory>
    ensures { IfOk result (λ text. text ≡ spec.unquoted bytes.now) }
{
    if byte_at(bytes, 0) == b'"' {
        unescaped(alloc, between_quotes(bytes))
    } else {
        Text::copy(alloc, bytes)
    }
}

#[tactic(auto, unfolding(ir_lex::specs::Names::without_zeros))]
fn without_zeros(bytes: &[u8]) -> &[u8]
    ensures { result.now ≡ spec.without_zeros bytes.now }
{
    let mut rest = bytes;
    while let [first, behind @ ..] = rest {
        if *first != b'0' || behind.is_empty() {
            return rest;
        }
        rest = behind;
    }
    rest
}

/// A bare name: digits are their number, without leading zeros, and anything else stands for itself.
pub fn bare_name(bytes: &[u8]) -> &[u8]
    ensures { result.now ≡ spec.bare_name bytes.now }
{
    if are_digits(bytes) {
        without_zeros(bytes)
    } else {
        bytes
    }
}

/// A name that may be quoted, without quotes and escapes.
pub fn either_name(alloc: Global, bytes: &[u8]) -> Result<Text, Memory>
    ensures { IfOk result (λ text. text ≡ spec.either_name bytes.now) }
{
    if byte_at(bytes, 0) == b'"' {
        unescaped(alloc, between_quotes(bytes))
    } else {
        Text::copy(alloc, bare_name(bytes))
    }
}
