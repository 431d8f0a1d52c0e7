//! The bytes that tokens are made of.
ghost use Rattle.std.specs.Prelude.{◌≡◌, ◌≤◌, length, slice_index};
ghost use Rattle.std.specs.List.{prefix_len};
ghost use Rattle.ir_lex.specs.Letters as spec;
ghost use Rattle.ir_lex.specs.Classes.{passes};

/// A set of bytes, to find a run of them.
#[derive(Clone, Copy)]
pub enum Class {
    WordStart,
    WordByte,
    NameStart,
    NameByte,
    MetaStart,
    MetaByte,
    Digit,
    HexDigit,
    /// Any byte but a quote.
    Inside,
    Mark,
    Minus,
    Sign,
    Exponent,
    /// The letter that tells a hexadecimal float's format.
    Format,
    Blank,
}

#[inline(always)]
fn is_name_sign(byte: u8) -> bool
    ensures { result ≡ spec.is_name_sign byte }
{
    byte == b'-' || byte == b'$' || byte == b'.' || byte == b'_'
}

#[inline(always)]
fn is_mark(byte: u8) -> bool
    ensures { result ≡ spec.is_mark byte }
{
    matches!(
        byte,
        b'=' | b',' | b'(' | b')' | b'{' | b'}' | b'[' | b']' | b'<' | b'>' | b'*' | b'!' | b':'
    )
}

/// Whether a byte is of the class.
#[inline(always)]
pub fn is_in(class: Class, byte: u8) -> bool
    ensures { result ≡ passes class byte }
{
    match class {
        Class::WordStart => byte.is_ascii_alphabetic() || byte == b'_',
        Class::WordByte => byte.is_ascii_alphanumeric() || byte == b'_',
        Class::NameStart => byte.is_ascii_alphabetic() || is_name_sign(byte),
        Class::NameByte => byte.is_ascii_alphanumeric() || is_name_sign(byte),
        Class::MetaStart => byte.is_ascii_alphabetic() || is_name_sign(byte) || byte == b'\\',
        Class::MetaByte => byte.is_ascii_alphanumeric() || is_name_sign(byte) || byte == b'\\',
        Class::Digit => byte.is_ascii_digit(),
        Class::HexDigit => byte.is_ascii_hexdigit(),
        Class::Inside => byte != b'"',
        Class::Mark => is_mark(byte),
        Class::Minus => byte == b'-',
        Class::Sign => byte == b'-' || byte == b'+',
        Class::Exponent => byte == b'e' || byte == b'E',
        Class::Format => {
            byte == b'H' || byte == b'K' || byte == b'L' || byte == b'M' || byte == b'R'
        }
        Class::Blank => byte == b' ' || byte == b'\t' || byte == b'\r' || byte == b'\n',
    }
}

/// The byte at an index, or 0 past the end.
#[inline(always)]
pub fn byte_at(bytes: &[u8], index: usize) -> u8
    ensures { result ≡ slice_index bytes.now index }
{
    if index < bytes.len() { bytes[index] } else { 0 }
}

/// How many bytes at the front are of the class.
#[inline(always)]
pub fn run_len(bytes: &[u8], class: Class) -> usize
    ensures len { result ≡ prefix_len (passes class) bytes.now }
    ensures within { result ≤ length bytes.now }
{
    bytes.iter().take_while(|byte| is_in(class, **byte)).count()
}
