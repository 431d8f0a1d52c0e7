// Names, bare where they can be.
ghost use Rattle.std.specs.Prelude.{◌≡◌, ◌<◌, true, ◌||◌, flat_map};
ghost use Rattle.std.specs.List.{list_all};
ghost use Rattle.std.specs.Fmt.{digit_glyph};
ghost use Rattle.ir_names.specs.Names as spec;
ghost use Rattle.ir_names.specs.Puts.{Puts};
ghost use Rattle.ir_names.specs.Words as words;

use crate::digits::{is_decimal, is_digit, value_of};
use crate::printer::Printer;

/// Prints a name, without its sign: bare where it can be, else between quotes.
///
/// Source: LLVM Language Reference, "Identifiers".
#[tactic(auto, unfolding(crate::specs::Names::name_text))]
pub fn put_name<P: Printer>(line: &mut P, name: &[u8])
    ensures { Puts (P.state line.old) (P.state line.new) (spec.name_text name.now) }
{
    if needs_no_quotes(name) {
        line.put(name)
    } else {
        put_quoted(line, name)
    }
}

fn needs_no_quotes(name: &[u8]) -> bool
    ensures { result ≡ (spec.is_bare name.now || spec.is_number name.now) }
{
    is_bare(name) || is_number(name)
}

/// Prints a name, without its sign, as a refusal shows it: a number of any size bare.
///
/// Source: LLVM Language Reference, "Identifiers".
pub fn put_shown<P: Printer>(line: &mut P, name: &[u8])
    ensures { Puts (P.state line.old) (P.state line.new) (words.shown_name name.now) }
{
    if is_bare(name) || is_decimal(name) {
        line.put(name)
    } else {
        put_quoted(line, name)
    }
}

/// Prints a global's name, behind `@`.
pub fn put_global<P: Printer>(line: &mut P, name: &[u8])
    ensures { Puts (P.state line.old) (P.state line.new) (spec.global_text name.now) }
{
    line.put(b"@");
    put_name(line, name)
}

/// Prints a register's or a block's name, behind `%`.
pub fn put_local<P: Printer>(line: &mut P, name: &[u8])
    ensures { Puts (P.state line.old) (P.state line.new) (spec.local_text name.now) }
{
    line.put(b"%");
    put_name(line, name)
}

/// Prints bytes between quotes and with escapes.
///
/// Source: LLVM Language Reference, "String constants".
pub fn put_quoted<P: Printer>(line: &mut P, text: &[u8])
    ensures { Puts (P.state line.old) (P.state line.new) (spec.quoted text.now) }
{
    line.put(b"\"");
    put_escapes(line, text);
    line.put(b"\"");
}

fn put_escapes<P: Printer>(line: &mut P, text: &[u8])
    ensures { Puts (P.state line.old) (P.state line.new) (flat_map spec.escape text.now) }
{
    for byte in text {
        put_escape(line, *byte);
    }
}

fn put_escape<P: Printer>(line: &mut P, byte: u8)
    ensures { Puts (P.state line.old) (P.state line.new) (spec.escape byte) }
{
    if is_plain(byte) {
        line.put(&[byte])
    } else {
        line.put(&[b'\\', hex_digit(byte / 16), hex_digit(byte % 16)])
    }
}

fn hex_digit(digit: u8) -> u8
    requires { digit < 16 }
    ensures { result ≡ digit_glyph true digit }
{
    if digit < 10 {
        b'0' + digit
    } else {
        b'A' + (digit - 10)
    }
}

#[tactic(auto, unfolding(crate::specs::Names::is_plain))]
fn is_plain(byte: u8) -> bool
    ensures { result ≡ spec.is_plain byte }
{
    (32..=126).contains(&byte) && byte != b'"' && byte != b'\\'
}

#[tactic(auto, unfolding(crate::specs::Names::is_name_start))]
fn is_name_start(byte: u8) -> bool
    ensures { result ≡ spec.is_name_start byte }
{
    b'A' <= byte && byte <= b'Z'
        || b'a' <= byte && byte <= b'z'
        || byte == b'-'
        || byte == b'$'
        || byte == b'.'
        || byte == b'_'
}

#[tactic(auto, unfolding(crate::specs::Names::is_name_byte))]
fn is_name_byte(byte: u8) -> bool
    ensures { result ≡ spec.is_name_byte byte }
{
    is_name_start(byte) || is_digit(byte)
}

#[tactic(auto, unfolding(crate::specs::Names::is_bare))]
fn is_bare(name: &[u8]) -> bool
    ensures { result ≡ spec.is_bare name.now }
{
    !name.is_empty() && is_name_start(name[0]) && all_name_bytes(name)
}

fn all_name_bytes(name: &[u8]) -> bool
    ensures { result ≡ list_all spec.is_name_byte name.now }
{
    name.iter().all(|byte| is_name_byte(*byte))
}

#[tactic(auto, unfolding(crate::specs::Names::is_number))]
fn is_number(name: &[u8]) -> bool
    ensures { result ≡ spec.is_number name.now }
{
    is_decimal(name) && name.len() <= 10 && value_of(name) < 4_294_967_296
}
