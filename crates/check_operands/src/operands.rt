ghost use Rattle.std.specs.Prelude.{◌≡◌, IfOk};
ghost use Rattle.std.specs.Option.{option_copied};
ghost use Rattle.check_operands.specs.Operands as spec;

use crate::made::Made;
use crate::registers::register_type;
use check_bodies::{Asked, Body, missing_flaw};
use check_constants::{constant_flaw, kept};
use check_names::{Flaw, counts, reserved_flaw, when};
use check_types::{Allowed, Types, differ, type_flaw};
use ir_values::{Operand, Ty};
use ltt_base::{Code, Memory, Text};
use std::alloc::Global;

/// A type that differs from the one wanted. A quiet unit has no flaw for it.
pub fn other_flaw<'a>(types: &Types<'a>, quiet: bool, own: &'a Ty, ty: &'a Ty) -> Option<Flaw>
    ensures { result ≡ spec.other_flaw types.now.units quiet own.now ty.now }
{
    when(!quiet && differ(types, own, ty), Code::E06)
}

fn known_flaw<'a>(types: &Types<'a>, quiet: bool, own: Option<&'a Ty>, ty: &'a Ty) -> Option<Flaw>
    ensures { result ≡ spec.known_flaw types.now.units quiet (option_copied own.entry) ty.now }
{
    match own {
        Some(own) => other_flaw(types, quiet, own, ty),
        None => None,
    }
}

fn local_flaw<'a>(
    alloc: Global,
    types: &Types<'a>,
    body: &Body<'a>,
    asked: Asked,
    name: &Text,
) -> Result<Option<Flaw>, Memory>
    requires { body.now.units ≡ types.now.units }
    ensures { IfOk result (λ flaw. flaw
        ≡ spec.local_flaw types.now.output types.now.units body.now.head asked name.now) }
{
    let missing = missing_flaw(alloc, body, asked, name)?;
    let reserved = reserved_flaw(alloc, types.context(), b"%", name.bytes())?;
    Ok(counts(missing, reserved))
}

/// The flaws of a label where it is used: no block of the function has it, or its name is reserved.
pub fn label_flaw<'a>(
    alloc: Global,
    types: &Types<'a>,
    body: &Body<'a>,
    name: &Text,
) -> Result<Option<Flaw>, Memory>
    requires { body.now.units ≡ types.now.units }
    ensures { IfOk result (λ flaw. flaw
        ≡ spec.label_flaw types.now.output types.now.units body.now.head name.now) }
{
    local_flaw(alloc, types, body, Asked::Labels, name)
}

/// The flaws of a register at a type: it has no value, a reserved name or another type.
pub fn register_flaw<'a>(
    alloc: Global,
    types: &Types<'a>,
    made: &'a Made,
    body: &Body<'a>,
    quiet: bool,
    ty: &'a Ty,
    name: &Text,
) -> Result<Option<Flaw>, Memory>
    requires { body.now.units ≡ types.now.units }
    ensures { IfOk result (λ flaw. flaw
        ≡ spec.register_flaw types.now.output types.now.units quiet body.now.head ty.now name.now) }
{
    let local = local_flaw(alloc, types, body, Asked::Values, name)?;
    let other = known_flaw(types, quiet, register_type(made, body, name), ty);
    Ok(counts(local, other))
}

/// The flaws of what an instruction reads at a type: a register that has no value, a reserved name or another type, or those of a
/// constant.
///
/// Source: LLVM Language Reference, "Identifiers". Differs: that a definition dominates its uses isn't asked.
pub fn operand_flaw<'a>(
    alloc: Global,
    types: &Types<'a>,
    made: &'a Made,
    body: &Body<'a>,
    quiet: bool,
    ty: &'a Ty,
    operand: &'a Operand,
) -> Result<Option<Flaw>, Memory>
    requires { body.now.units ≡ types.now.units }
    ensures { IfOk result (λ flaw. flaw
        ≡ spec.operand_flaw types.now.output types.now.units quiet body.now.head ty.now operand.now) }
{
    match operand {
        Operand::Reg(name) => register_flaw(alloc, types, made, body, quiet, ty, name),
        Operand::Const(constant) => constant_flaw(alloc, types, quiet, Some(ty), constant),
    }
}

/// The flaws of an operand behind its written type, which is one of those allowed.
pub fn value_flaw<'a>(
    alloc: Global,
    types: &Types<'a>,
    made: &'a Made,
    body: &Body<'a>,
    quiet: bool,
    allowed: Allowed,
    ty: &'a Ty,
    value: &'a Operand,
) -> Result<Option<Flaw>, Memory>
    requires { body.now.units ≡ types.now.units }
    ensures { IfOk result (λ flaw. flaw
        ≡ spec.value_flaw types.now.output types.now.units quiet body.now.head allowed ty.now value.now) }
{
    let written = type_flaw(alloc, types, quiet, allowed, ty)?;
    let operand = operand_flaw(alloc, types, made, body, quiet, ty, value)?;
    Ok(counts(written, operand))
}

/// An operand at a type as a module keeps it.
pub fn operand_kept<'a>(
    alloc: Global,
    types: &Types<'a>,
    ty: &'a Ty,
    operand: &'a Operand,
) -> Result<Operand, Memory>
    ensures { IfOk result (λ it. it ≡ spec.operand_kept types.now.units ty.now operand.now) }
{
    match operand {
        Operand::Reg(name) => Ok(Operand::Reg(Text::copy(alloc, name.bytes())?)),
        Operand::Const(constant) => Ok(Operand::Const(kept(alloc, types, Some(ty), constant)?)),
    }
}
