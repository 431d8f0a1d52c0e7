// The arms of phis.
ghost use Rattle.std.specs.Prelude.{◌≡◌, IfOk};
ghost use Rattle.kept_parts.specs.Arms as spec;

use check_operands::operand_kept;
use check_types::Types;
use ir_values::{Operand, Ty};
use ltt_base::{List, Memory, Text};
use std::alloc::Global;

/// The arms of a phi with their values as a module keeps them.
pub fn kept_arms<'a>(
    alloc: Global,
    types: &Types<'a>,
    ty: &'a Ty,
    arms: &'a [(Operand, Text)],
) -> Result<List<(Operand, Text)>, Memory>
    ensures { IfOk result (λ kept. kept ≡ spec.kept_arms types.now.units ty.now arms.now) }
{
    let mut kept = List::new(alloc);
    for arm in arms {
        let value = operand_kept(alloc, types, ty, &arm.0)?;
        let label = Text::copy(alloc, arm.1.bytes())?;
        kept.add((value, label))?;
    }
    Ok(kept)
}
