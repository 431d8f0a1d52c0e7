// The values of arguments.
ghost use Rattle.std.specs.Prelude.{◌≡◌, IfOk};
ghost use Rattle.kept_parts.specs.ArgumentValues as spec;

use check_operands::operand_kept;
use check_types::Types;
use ir_values::{Arg, Operand};
use ltt_base::Memory;
use std::alloc::Global;

/// An argument's value as a module keeps it. `None`: it is metadata.
///
/// Source: LLVM Language Reference, "'call' Instruction".
pub fn argument_kept<'a>(
    alloc: Global,
    types: &Types<'a>,
    arg: &'a Arg,
) -> Result<Option<Operand>, Memory>
    ensures { IfOk result (λ kept. kept ≡ spec.argument_kept types.now.units arg.now) }
{
    match arg {
        Arg::Value { ty, value, .. } => Ok(Some(operand_kept(alloc, types, ty, value)?)),
        Arg::Word(_) => Ok(None),
        Arg::Node(_) => Ok(None),
    }
}
