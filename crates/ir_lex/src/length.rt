//! How long the longest text of a language is at the front of some bytes. `None`: no text of it begins there.
ghost use Rattle.std.specs.Prelude.{◌≡◌, ◌<◌, ◌≤◌, IfSome, Some, length};
ghost use Rattle.std.specs.List.{prefix_len};
ghost use Rattle.ir_lex.specs.Lengths as spec;
ghost use Rattle.ir_lex.specs.Letters.{is_name_byte};
ghost use Rattle.ir_lex.specs.Classes.{passes};

use crate::class::{Class, is_in, run_len};
use crate::escape::is_number;
use crate::token::Kind;

/// The byte.
#[tactic(auto, using(crate::proofs::LengthLemmas::one_rules))]
#[inline(always)]
fn byte(bytes: &[u8], byte: u8) -> Option<usize>
    ensures len { result ≡ spec.byte byte bytes.now }
    ensures single { IfSome result (λ n. n ≡ 1) }
    ensures within { IfSome result (λ n. n ≤ length bytes.now) }
{
    if bytes.is_empty() || bytes[0] != byte {
        return None;
    }
    Some(1)
}

/// A byte of the class.
#[tactic(auto, using(crate::proofs::LengthLemmas::one_rules))]
#[inline(always)]
fn one(bytes: &[u8], class: Class) -> Option<usize>
    ensures len { result ≡ spec.one (passes class) bytes.now }
    ensures within { IfSome result (λ n. n ≤ length bytes.now) }
{
    if bytes.is_empty() || !is_in(class, bytes[0]) {
        return None;
    }
    Some(1)
}

/// A byte of the class, or nothing.
#[tactic(auto, using(crate::proofs::LengthLemmas::one_rules))]
#[inline(always)]
fn maybe(bytes: &[u8], class: Class) -> usize
    ensures len { Some result ≡ spec.maybe (spec.one (passes class)) bytes.now }
    ensures within { result ≤ length bytes.now }
{
    if bytes.is_empty() || !is_in(class, bytes[0]) {
        return 0;
    }
    1
}

/// A byte of the first class and any number of the second.
#[tactic(auto, using(crate::proofs::LengthLemmas::both_rules), unfolding(crate::specs::Lengths::run))]
#[inline(always)]
fn run(bytes: &[u8], first: Class, others: Class) -> Option<usize>
    ensures len { result ≡ spec.run (passes first) (passes others) bytes.now }
    ensures within { IfSome result (λ n. n ≤ length bytes.now) }
{
    let n = one(bytes, first)?;
    Some(n + run_len(&bytes[n..], others))
}

#[tactic(auto, unfolding(crate::specs::Lengths::digits))]
fn digits(bytes: &[u8]) -> Option<usize>
    ensures len { result ≡ spec.digits bytes.now }
    ensures within { IfSome result (λ n. n ≤ length bytes.now) }
{
    run(bytes, Class::Digit, Class::Digit)
}

/// All up to a quote, and the quote.
#[tactic(auto, using(crate::proofs::LengthLemmas::both_rules), unfolding(crate::specs::Lengths::to_quote))]
fn to_quote(bytes: &[u8]) -> Option<usize>
    ensures len { result ≡ spec.to_quote bytes.now }
    ensures some { IfSome result (λ n. 0 < n) }
    ensures within { IfSome result (λ n. n ≤ length bytes.now) }
{
    let n = run_len(bytes, Class::Inside);
    let m = byte(&bytes[n..], b'"')?;
    Some(n + m)
}

#[tactic(auto, using(crate::proofs::LengthLemmas::both_rules), unfolding(crate::specs::Lengths::quoted))]
fn quoted(bytes: &[u8]) -> Option<usize>
    ensures len { result ≡ spec.quoted bytes.now }
    ensures least { IfSome result (λ n. 2 ≤ n) }
    ensures within { IfSome result (λ n. n ≤ length bytes.now) }
{
    let n = byte(bytes, b'"')?;
    let m = to_quote(&bytes[n..])?;
    Some(n + m)
}

/// The longer of two lengths.
#[inline(always)]
fn longer(n: Option<usize>, m: Option<usize>) -> Option<usize>
    ensures { result ≡ spec.longer n m }
{
    match (n, m) {
        (None, other) => other,
        (Some(n), None) => Some(n),
        (Some(n), Some(m)) => { if n < m { Some(m) } else { Some(n) } }
    }
}

/// A quoted text that is no number.
#[tactic(auto, using(crate::proofs::LengthLemmas::unless_none), unfolding(crate::specs::Lengths::quoted_name))]
fn quoted_name(bytes: &[u8]) -> Option<usize>
    ensures len { result ≡ spec.quoted_name bytes.now }
    ensures within { IfSome result (λ n. n ≤ length bytes.now) }
{
    let n = quoted(bytes)?;
    if is_number(&bytes[1..n - 1]) {
        return None;
    }
    Some(n)
}

/// What stands behind the sign of a global or a local.
#[tactic(auto, unfolding(crate::specs::Lengths::name))]
fn name(bytes: &[u8]) -> Option<usize>
    ensures len { result ≡ spec.name bytes.now }
    ensures within { IfSome result (λ n. n ≤ length bytes.now) }
{
    longer(
        run(bytes, Class::NameStart, Class::NameByte),
        longer(digits(bytes), quoted_name(bytes)),
    )
}

/// What stands behind the sign of a comdat.
#[tactic(auto, unfolding(crate::specs::Lengths::comdat_name))]
fn comdat_name(bytes: &[u8]) -> Option<usize>
    ensures len { result ≡ spec.comdat_name bytes.now }
    ensures within { IfSome result (λ n. n ≤ length bytes.now) }
{
    longer(run(bytes, Class::NameStart, Class::NameByte), quoted(bytes))
}

/// What stands behind the sign of metadata.
#[tactic(auto, unfolding(crate::specs::Lengths::meta_name))]
fn meta_name(bytes: &[u8]) -> Option<usize>
    ensures len { result ≡ spec.meta_name bytes.now }
    ensures within { IfSome result (λ n. n ≤ length bytes.now) }
{
    longer(run(bytes, Class::MetaStart, Class::MetaByte), digits(bytes))
}

#[tactic(auto, using(crate::proofs::LengthLemmas::both_rules), unfolding(crate::specs::Lengths::signed_digits))]
fn signed_digits(bytes: &[u8]) -> Option<usize>
    ensures len { result ≡ spec.signed_digits bytes.now }
    ensures within { IfSome result (λ n. n ≤ length bytes.now) }
{
    let n = maybe(bytes, Class::Sign);
    let m = digits(&bytes[n..])?;
    Some(n + m)
}

#[tactic(auto, using(crate::proofs::LengthLemmas::both_rules), unfolding(crate::specs::Lengths::exponent))]
fn exponent(bytes: &[u8]) -> Option<usize>
    ensures len { result ≡ spec.exponent bytes.now }
    ensures within { IfSome result (λ n. n ≤ length bytes.now) }
{
    let n = one(bytes, Class::Exponent)?;
    let m = signed_digits(&bytes[n..])?;
    Some(n + m)
}

/// An exponent, or nothing.
#[tactic(auto, using(crate::proofs::LengthLemmas::one_rules))]
fn maybe_exponent(bytes: &[u8]) -> usize
    ensures len { Some result ≡ spec.maybe spec.exponent bytes.now }
    ensures within { result ≤ length bytes.now }
{
    match exponent(bytes) {
        Some(n) => n,
        None => 0,
    }
}

/// The digits behind a point, and an exponent if one stands there.
#[tactic(auto, using(crate::proofs::LengthLemmas::both_rules), unfolding(crate::specs::Lengths::decimals))]
fn decimals(bytes: &[u8]) -> usize
    ensures len { Some result ≡ spec.decimals bytes.now }
    ensures within { result ≤ length bytes.now }
{
    let n = run_len(bytes, Class::Digit);
    let m = maybe_exponent(&bytes[n..]);
    n + m
}

#[tactic(auto, using(crate::proofs::LengthLemmas::both_rules), unfolding(crate::specs::Lengths::fraction))]
fn fraction(bytes: &[u8]) -> Option<usize>
    ensures len { result ≡ spec.fraction bytes.now }
    ensures within { IfSome result (λ n. n ≤ length bytes.now) }
{
    let n = byte(bytes, b'.')?;
    let m = decimals(&bytes[n..]);
    Some(n + m)
}

#[tactic(auto, using(crate::proofs::LengthLemmas::both_rules), unfolding(crate::specs::Lengths::unsigned_decimal))]
fn unsigned_decimal(bytes: &[u8]) -> Option<usize>
    ensures len { result ≡ spec.unsigned_decimal bytes.now }
    ensures within { IfSome result (λ n. n ≤ length bytes.now) }
{
    let n = digits(bytes)?;
    let m = fraction(&bytes[n..])?;
    Some(n + m)
}

#[tactic(auto, using(crate::proofs::LengthLemmas::both_rules), unfolding(crate::specs::Lengths::decimal))]
fn decimal(bytes: &[u8]) -> Option<usize>
    ensures len { result ≡ spec.decimal bytes.now }
    ensures within { IfSome result (λ n. n ≤ length bytes.now) }
{
    let n = maybe(bytes, Class::Sign);
    let m = unsigned_decimal(&bytes[n..])?;
    Some(n + m)
}

#[tactic(auto, using(crate::proofs::LengthLemmas::both_rules), unfolding(crate::specs::Lengths::hex_digits))]
fn hex_digits(bytes: &[u8]) -> Option<usize>
    ensures len { result ≡ spec.hex_digits bytes.now }
    ensures within { IfSome result (λ n. n ≤ length bytes.now) }
{
    let n = maybe(bytes, Class::Format);
    let m = run(&bytes[n..], Class::HexDigit, Class::HexDigit)?;
    Some(n + m)
}

#[tactic(auto, using(crate::proofs::LengthLemmas::both_rules), unfolding(crate::specs::Lengths::after_zero))]
fn after_zero(bytes: &[u8]) -> Option<usize>
    ensures len { result ≡ spec.after_zero bytes.now }
    ensures within { IfSome result (λ n. n ≤ length bytes.now) }
{
    let n = byte(bytes, b'x')?;
    let m = hex_digits(&bytes[n..])?;
    Some(n + m)
}

#[tactic(auto, using(crate::proofs::LengthLemmas::both_rules), unfolding(crate::specs::Lengths::hex))]
fn hex(bytes: &[u8]) -> Option<usize>
    ensures len { result ≡ spec.hex bytes.now }
    ensures within { IfSome result (λ n. n ≤ length bytes.now) }
{
    let n = byte(bytes, b'0')?;
    let m = after_zero(&bytes[n..])?;
    Some(n + m)
}

#[tactic(auto, using(crate::proofs::LengthLemmas::both_rules), unfolding(crate::specs::Lengths::two_dots))]
fn two_dots(bytes: &[u8]) -> Option<usize>
    ensures len { result ≡ spec.two_dots bytes.now }
    ensures within { IfSome result (λ n. n ≤ length bytes.now) }
{
    let n = byte(bytes, b'.')?;
    let m = byte(&bytes[n..], b'.')?;
    Some(n + m)
}

/// What stands before the colon of a label. `names` bytes of names stand at the front.
fn label_name(bytes: &[u8], names: usize) -> Option<usize>
    requires { names ≡ prefix_len is_name_byte bytes.now }
    ensures len { result ≡ spec.label_name bytes.now }
    ensures within { IfSome result (λ n. n ≤ length bytes.now) }
{
    if names > 0 {
        return Some(names);
    }
    quoted_name(bytes)
}

#[tactic(auto, using(crate::proofs::LengthLemmas::both_rules))]
fn label(bytes: &[u8], names: usize) -> Option<usize>
    requires { names ≡ prefix_len is_name_byte bytes.now }
    ensures len { result ≡ spec.length_of Kind.Label bytes.now }
    ensures within { IfSome result (λ n. n ≤ length bytes.now) }
{
    let n = label_name(bytes, names)?;
    let m = byte(&bytes[n..], b':')?;
    Some(n + m)
}

#[tactic(auto, using(crate::proofs::LengthLemmas::both_rules))]
fn global(bytes: &[u8]) -> Option<usize>
    ensures len { result ≡ spec.length_of Kind.Global bytes.now }
    ensures within { IfSome result (λ n. n ≤ length bytes.now) }
{
    let n = byte(bytes, b'@')?;
    let m = name(&bytes[n..])?;
    Some(n + m)
}

#[tactic(auto, using(crate::proofs::LengthLemmas::both_rules))]
fn local(bytes: &[u8]) -> Option<usize>
    ensures len { result ≡ spec.length_of Kind.Local bytes.now }
    ensures within { IfSome result (λ n. n ≤ length bytes.now) }
{
    let n = byte(bytes, b'%')?;
    let m = name(&bytes[n..])?;
    Some(n + m)
}

#[tactic(auto, using(crate::proofs::LengthLemmas::both_rules))]
fn comdat(bytes: &[u8]) -> Option<usize>
    ensures len { result ≡ spec.length_of Kind.Comdat bytes.now }
    ensures within { IfSome result (λ n. n ≤ length bytes.now) }
{
    let n = byte(bytes, b'$')?;
    let m = comdat_name(&bytes[n..])?;
    Some(n + m)
}

#[tactic(auto, using(crate::proofs::LengthLemmas::both_rules))]
fn meta(bytes: &[u8]) -> Option<usize>
    ensures len { result ≡ spec.length_of Kind.Meta bytes.now }
    ensures within { IfSome result (λ n. n ≤ length bytes.now) }
{
    let n = byte(bytes, b'!')?;
    let m = meta_name(&bytes[n..])?;
    Some(n + m)
}

#[tactic(auto, using(crate::proofs::LengthLemmas::both_rules))]
fn meta_text(bytes: &[u8]) -> Option<usize>
    ensures len { result ≡ spec.length_of Kind.MetaText bytes.now }
    ensures within { IfSome result (λ n. n ≤ length bytes.now) }
{
    let n = byte(bytes, b'!')?;
    let m = quoted(&bytes[n..])?;
    Some(n + m)
}

#[tactic(auto, using(crate::proofs::LengthLemmas::both_rules))]
fn group(bytes: &[u8]) -> Option<usize>
    ensures len { result ≡ spec.length_of Kind.Group bytes.now }
    ensures within { IfSome result (λ n. n ≤ length bytes.now) }
{
    let n = byte(bytes, b'#')?;
    let m = digits(&bytes[n..])?;
    Some(n + m)
}

#[tactic(auto, using(crate::proofs::LengthLemmas::both_rules))]
fn summary_number(bytes: &[u8]) -> Option<usize>
    ensures len { result ≡ spec.length_of Kind.SummaryNumber bytes.now }
    ensures within { IfSome result (λ n. n ≤ length bytes.now) }
{
    let n = byte(bytes, b'^')?;
    let m = digits(&bytes[n..])?;
    Some(n + m)
}

#[tactic(auto, using(crate::proofs::LengthLemmas::both_rules))]
fn bytes_text(bytes: &[u8]) -> Option<usize>
    ensures len { result ≡ spec.length_of Kind.Bytes bytes.now }
    ensures within { IfSome result (λ n. n ≤ length bytes.now) }
{
    let n = byte(bytes, b'c')?;
    let m = quoted(&bytes[n..])?;
    Some(n + m)
}

#[tactic(auto, using(crate::proofs::LengthLemmas::both_rules))]
fn dots(bytes: &[u8]) -> Option<usize>
    ensures len { result ≡ spec.length_of Kind.Dots bytes.now }
    ensures within { IfSome result (λ n. n ≤ length bytes.now) }
{
    let n = byte(bytes, b'.')?;
    let m = two_dots(&bytes[n..])?;
    Some(n + m)
}

#[tactic(auto, using(crate::proofs::LengthLemmas::both_rules))]
fn hash_word(bytes: &[u8]) -> Option<usize>
    ensures len { result ≡ spec.length_of Kind.HashWord bytes.now }
    ensures within { IfSome result (λ n. n ≤ length bytes.now) }
{
    let n = byte(bytes, b'#')?;
    let m = run(&bytes[n..], Class::WordStart, Class::WordByte)?;
    Some(n + m)
}

#[tactic(auto, using(crate::proofs::LengthLemmas::both_rules))]
fn number(bytes: &[u8]) -> Option<usize>
    ensures len { result ≡ spec.length_of Kind.Number bytes.now }
    ensures within { IfSome result (λ n. n ≤ length bytes.now) }
{
    let n = maybe(bytes, Class::Minus);
    let m = digits(&bytes[n..])?;
    Some(n + m)
}

/// The longest token of this kind. `names` bytes of names stand at the front.
#[inline(always)]
pub fn length_of(kind: Kind, bytes: &[u8], names: usize) -> Option<usize>
    requires { names ≡ prefix_len is_name_byte bytes.now }
    ensures len { result ≡ spec.length_of kind bytes.now }
    ensures within { IfSome result (λ n. n ≤ length bytes.now) }
{
    match kind {
        Kind::Word => run(bytes, Class::WordStart, Class::WordByte),
        Kind::Label => label(bytes, names),
        Kind::Global => global(bytes),
        Kind::Local => local(bytes),
        Kind::Comdat => comdat(bytes),
        Kind::Meta => meta(bytes),
        Kind::MetaText => meta_text(bytes),
        Kind::Group => group(bytes),
        Kind::SummaryNumber => summary_number(bytes),
        Kind::HashWord => hash_word(bytes),
        Kind::Number => number(bytes),
        Kind::Float => longer(decimal(bytes), hex(bytes)),
        Kind::Quoted => quoted(bytes),
        Kind::Bytes => bytes_text(bytes),
        Kind::Mark => one(bytes, Class::Mark),
        Kind::Dots => dots(bytes),
    }
}
