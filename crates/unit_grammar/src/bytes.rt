ghost use Rattle.std.specs.Prelude.{◌≡◌, ◌<◌, IsTrue, slice_index};
ghost use Rattle.std.specs.Char.{is_ascii_digit, is_ascii_hexdigit, digit_value};
ghost use Rattle.std.specs.List.{list_all};

/// The byte at an index, or 0 past the end.
pub fn byte_at(bytes: &[u8], index: usize) -> u8
    ensures { result ≡ slice_index bytes.now index }
{
    if index < bytes.len() { bytes[index] } else { 0 }
}

/// The value of a hexadecimal digit.
pub fn hex(byte: u8) -> u8
    requires { IsTrue (is_ascii_hexdigit byte) }
    ensures value { result ≡ digit_value byte }
    ensures below { result < 16 }
{
    if byte <= b'9' {
        byte - b'0'
    } else if byte <= b'F' {
        byte - b'A' + 10
    } else {
        byte - b'a' + 10
    }
}

/// Whether each byte is a digit.
pub fn are_digits(bytes: &[u8]) -> bool
    ensures { result ≡ list_all is_ascii_digit bytes.now }
{
    bytes.iter().all(|byte| byte.is_ascii_digit())
}
