ghost use Rattle.std.specs.Prelude.{◌≡◌, IfOk};
ghost use Rattle.instruction_grammar.specs.Operands.{operand_at};

use ir_values::{Operand, Ty};
use ltt_base::{Memory, Text};
use std::alloc::Global;
use type_grammar::{Bare, at_type};

/// A value before its type is known.
#[derive(Drop)]
pub enum BareOperand {
    Reg(Text),
    Const(Bare),
}

/// The operand that stands behind a type.
pub fn operand_at(alloc: Global, ty: &Ty, bare: BareOperand) -> Result<Operand, Memory>
    ensures { IfOk result (λ operand. operand ≡ operand_at ty.now bare) }
{
    match bare {
        BareOperand::Reg(name) => Ok(Operand::Reg(name)),
        BareOperand::Const(bare) => Ok(Operand::Const(at_type(alloc, ty, bare)?)),
    }
}
