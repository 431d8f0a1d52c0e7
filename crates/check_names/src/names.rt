ghost use Rattle.std.specs.Prelude.{◌≡◌, IfOk};
ghost use Rattle.check_names.specs.Spaces as spaces;
ghost use Rattle.check_names.specs.Reserved as reserved;

use crate::context::Context;
use crate::flaws::{Flaw, counts, named_when};
use crate::reserved::reserved_flaw;
use crate::spaces::{Space, sign};
use ltt_base::{Code, Memory};
use std::alloc::Global;

/// A name that a unit before the one at `at` defines too.
pub fn again_flaw(
    alloc: Global,
    context: &Context<'_>,
    at: usize,
    space: Space,
    name: &[u8],
) -> Result<Option<Flaw>, Memory>
    ensures { IfOk result (λ flaw. flaw ≡ spaces.again_flaw context.now.units at space name.now) }
{
    let broken = context.defines_before(space, name, at);
    named_when(alloc, broken, Code::E04, sign(space), name)
}

/// A name that no unit defines.
pub fn missing_flaw(
    alloc: Global,
    context: &Context<'_>,
    space: Space,
    name: &[u8],
) -> Result<Option<Flaw>, Memory>
    ensures { IfOk result (λ flaw. flaw ≡ spaces.missing_flaw context.now.units space name.now) }
{
    let broken = !context.defines(space, name);
    named_when(alloc, broken, Code::E05, sign(space), name)
}

/// The flaws of a name where the unit at `at` defines it.
pub fn definition_flaw(
    alloc: Global,
    context: &Context<'_>,
    at: usize,
    space: Space,
    name: &[u8],
) -> Result<Option<Flaw>, Memory>
    ensures { IfOk result (λ flaw. flaw
        ≡ reserved.definition_flaw context.now.output context.now.units at space name.now) }
{
    let again = again_flaw(alloc, context, at, space, name)?;
    let reserved = reserved_flaw(alloc, context, sign(space), name)?;
    Ok(counts(again, reserved))
}

/// The flaws of a name where it is used.
pub fn use_flaw(
    alloc: Global,
    context: &Context<'_>,
    space: Space,
    name: &[u8],
) -> Result<Option<Flaw>, Memory>
    ensures { IfOk result (λ flaw. flaw
        ≡ reserved.use_flaw context.now.output context.now.units space name.now) }
{
    let missing = missing_flaw(alloc, context, space, name)?;
    let reserved = reserved_flaw(alloc, context, sign(space), name)?;
    Ok(counts(missing, reserved))
}
