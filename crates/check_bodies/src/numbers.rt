ghost use Rattle.std.specs.Prelude.{◌≡◌, ◌≤◌, IfOk};
ghost use Rattle.std.specs.Option.{option_copied};
ghost use Rattle.check_bodies.specs.Numbers as spec;

use ir_names::{is_decimal, numeral};
use ir_values::Param;
use ltt_base::{Memory, Text};
use std::alloc::Global;

/// The number at which the count of unnamed values ends.
const MOST: u64 = 4_294_967_296;

/// One more, but at most 2^32.
#[tactic(auto, unfolding(crate::specs::Numbers::most))]
pub(crate) fn up(n: u64) -> u64
    ensures value { result ≡ spec.up n }
    ensures small { result ≤ spec.most }
{
    if n < MOST { n + 1 } else { MOST }
}

#[tactic(auto, unfolding(crate::specs::Numbers::most))]
fn with_digit(n: u64, digit: u8) -> u64
    requires { n ≤ spec.most }
    ensures value { result ≡ spec.with_digit n digit }
    ensures small { result ≤ spec.most }
{
    let longer = n * 10 + u64::from(digit.saturating_sub(b'0'));
    if longer < MOST { longer } else { MOST }
}

fn digits(name: &[u8]) -> u64
    ensures { result ≡ spec.with_digits 0 name.now }
{
    let mut n = 0;
    for digit in name {
        n = with_digit(n, *digit);
    }
    n
}

fn taken(next: u64, name: &[u8]) -> u64
    ensures { result ≡ spec.taken next name.now }
{
    if is_decimal(name) {
        next.max(up(digits(name)))
    } else {
        next
    }
}

/// The next number behind a name, which takes the next number itself where it isn't written.
///
/// Source: LLVM Language Reference, "Identifiers". Differs: a written number need not be the next one.
pub fn behind_name(next: u64, name: Option<&Text>) -> u64
    ensures { result ≡ spec.behind_name next (option_copied name.entry) }
{
    match name {
        Some(name) => taken(next, name.bytes()),
        None => up(next),
    }
}

/// The next number behind parameters.
pub fn behind_parameters(next: u64, params: &[Param]) -> u64
    ensures { result ≡ spec.behind_parameters next params.now }
{
    let mut next = next;
    for param in params {
        next = behind_name(next, param.name.as_ref());
    }
    next
}

/// A copy of a written name, or else the next number as its digits.
pub fn name_or(alloc: Global, next: u64, name: Option<&Text>) -> Result<Text, Memory>
    ensures { IfOk result (λ text. text ≡ spec.name_or next (option_copied name.entry)) }
{
    match name {
        Some(name) => Text::copy(alloc, name.bytes()),
        None => numeral(alloc, next),
    }
}
