ghost use Rattle.std.specs.Prelude.{◌≡◌, ◌-◌, ◌%◌, ◌^◌, ◌<◌, ◌≤◌};
ghost use Rattle.ir_numbers.specs.Numbers.{bits, signed, wrapped, fits};

use ir_values::Width;

/// The number of bits of a width.
pub fn bits(width: Width) -> u32
    ensures value { result ≡ bits width }
    ensures least { 1 ≤ result }
    ensures most { result ≤ 64 }
{
    match width {
        Width::W1 => 1,
        Width::W8 => 8,
        Width::W16 => 16,
        Width::W32 => 32,
        Width::W64 => 64,
    }
}

/// The number of `width` bits that are all set.
pub fn all_ones(width: Width) -> u64
    ensures { result ≡ 2 ^ bits width - 1 }
{
    u64::MAX >> (64 - bits(width))
}

/// The number of `width` bits of which only the highest is set.
pub fn sign_bit(width: Width) -> u64
    ensures { result ≡ 2 ^ (bits width - 1) }
{
    1 << (bits(width) - 1)
}

/// The lowest bits of a number.
pub fn low_bits(width: Width, n: u64) -> u64
    ensures { result ≡ n % 2 ^ bits width }
{
    n & all_ones(width)
}

/// The number that `n` stands for where its highest bit is the sign.
pub fn signed(width: Width, n: u64) -> i64
    requires { n < 2 ^ bits width }
    ensures { result ≡ signed (bits width) n }
{
    if n < sign_bit(width) {
        n as i64
    } else {
        -1 - (all_ones(width) - n) as i64
    }
}

/// A number modulo 2 to the power of the width.
pub fn wrapped(width: Width, z: i64) -> u64
    ensures { result ≡ wrapped (bits width) z }
{
    low_bits(width, z.cast_unsigned())
}

/// Whether a number is a signed one of this width.
pub fn fits(width: Width, z: i64) -> bool
    ensures { result ≡ fits (bits width) z }
{
    let greatest = (sign_bit(width) - 1) as i64;
    -1 - greatest <= z && z <= greatest
}
