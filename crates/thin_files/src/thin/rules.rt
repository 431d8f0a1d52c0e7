ghost use Rattle.std.specs.Prelude.{◌≡◌, ◌<◌, ◌^◌, All, IsTrue, ◌↔◌};
ghost use Rattle.std.specs.List.{list_all};
ghost use Rattle.std.specs.Char.{is_ascii_digit};
ghost use Rattle.thin_files.specs.Thin.{is_reserved, is_free, is_canonical, number_from, IsNodeNumber};
ghost use Rattle.thin_files.specs.Rules.{IsSound, IsSecondSound};

use crate::thin::{Node, Second, Variable};

fn is_reserved(name: &[u8]) -> bool
    ensures { result ≡ is_reserved name.now }
{
    name.starts_with(b".ltt.") || name.starts_with(b"llvm.")
}

fn are_digits(text: &[u8]) -> bool
    ensures { result ≡ list_all is_ascii_digit text.now }
{
    text.iter().all(|byte| byte.is_ascii_digit())
}

pub(super) fn is_free(name: &[u8]) -> bool
    ensures { result ≡ is_free name.now }
{
    !is_reserved(name) && !are_digits(name)
}

fn is_canonical(digits: &[u8]) -> bool
    ensures { result ≡ is_canonical digits.now }
{
    match digits {
        [] => false,
        [digit] => digit.is_ascii_digit(),
        [digit, rest @ ..] => digit.is_ascii_digit() && *digit != b'0' && are_digits(rest),
    }
}

/// Whether the number that digits write is below 2^32.
fn is_below(digits: &[u8]) -> bool
    ensures { IsTrue result ↔ (number_from 0 digits.now < 2 ^ 32) }
{
    let mut value = 0;
    for digit in digits {
        value = 10 * value + u64::from(digit.saturating_sub(b'0'));
        if value > u64::from(u32::MAX) {
            return false;
        }
    }
    true
}

fn is_node_number(digits: &[u8]) -> bool
    ensures { IsTrue result ↔ IsNodeNumber digits.now }
{
    is_canonical(digits) && is_below(digits)
}

pub(super) fn are_node_numbers(nodes: &[Node]) -> bool
    ensures { IsTrue result ↔ All (λ n. IsNodeNumber n.number) nodes.now }
{
    for node in nodes {
        if !is_node_number(node.number.bytes()) {
            return false;
        }
    }
    true
}

/// Whether a variable keeps the rules that speak of no other.
fn is_sound(variable: &Variable) -> bool
    ensures { IsTrue result ↔ IsSound variable.now }
{
    is_free(variable.name.bytes())
        && 1 <= variable.count
        && variable.count <= 1000
        && variable.offset <= 8 * variable.count
}

pub(super) fn are_sound(variables: &[Variable]) -> bool
    ensures { IsTrue result ↔ All IsSound variables.now }
{
    for variable in variables {
        if !is_sound(variable) {
            return false;
        }
    }
    true
}

/// Whether the second function keeps the rules that speak of nothing else.
pub(super) fn is_second_sound(second: &Second) -> bool
    ensures { IsTrue result ↔ IsSecondSound second.now }
{
    is_free(second.name.bytes())
        && is_free(second.register.bytes())
        && second.distance() <= 1_000_000
}
