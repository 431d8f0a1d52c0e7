ghost use Rattle.std.specs.Prelude.{◌≡◌, IfOk};
ghost use Rattle.check_names.specs.Reserved as spec;

use crate::context::Context;
use crate::flaws::{Flaw, named_when};
use ir_names::{is_decimal, value_of};
use ltt_base::{Code, Memory};
use std::alloc::Global;

const LIMIT: u128 = 4_294_967_296;

fn is_made(name: &[u8]) -> bool
    ensures { result ≡ spec.is_made name.now }
{
    name.starts_with(b".ltt.")
}

/// Whether a name begins as those of intrinsics do.
pub fn is_intrinsic(name: &[u8]) -> bool
    ensures { result ≡ spec.is_intrinsic name.now }
{
    name.starts_with(b"llvm.")
}

fn is_wide_number(name: &[u8]) -> bool
    ensures { result ≡ spec.is_wide_number name.now }
{
    is_decimal(name) && value_of(name) >= LIMIT
}

/// A name that the file must not use, behind its sign: a made one in a source, or a number of 2^32 or more.
pub fn reserved_flaw(
    alloc: Global,
    context: &Context<'_>,
    sign: &[u8],
    name: &[u8],
) -> Result<Option<Flaw>, Memory>
    ensures { IfOk result (λ flaw. flaw ≡ spec.reserved_flaw context.now.output sign.now name.now) }
{
    let broken = !context.is_output() && is_made(name) || is_wide_number(name);
    named_when(alloc, broken, Code::E07, sign, name)
}

/// A variable or a definition that has an intrinsic's name.
pub fn intrinsic_flaw(alloc: Global, name: &[u8]) -> Result<Option<Flaw>, Memory>
    ensures { IfOk result (λ flaw. flaw ≡ spec.intrinsic_flaw name.now) }
{
    named_when(alloc, is_intrinsic(name), Code::E07, b"@", name)
}
