// Instructions that move an address.
ghost use Rattle.std.specs.Prelude.{◌≡◌, IfOk};
ghost use Rattle.check_names.specs.Flaws.{each};
ghost use Rattle.check_instructions.specs.Addresses as spec;

use check_bodies::Body;
use check_constants::{Index, index_of, indices_flaw};
use check_names::{Flaw, counts};
use check_operands::{Made, operand_flaw, value_flaw};
use check_types::{Allowed, Types, type_flaw};
use ir_values::{Operand, Ty};
use ltt_base::{List, Memory};
use std::alloc::Global;

fn operand_index<'a>(types: &Types<'a>, ty: &'a Ty, operand: &'a Operand) -> Index
    ensures { result ≡ spec.operand_index types.now.units ty.now operand.now }
{
    match operand {
        Operand::Reg(_) => Index::Variable,
        Operand::Const(constant) => index_of(types, Some(ty), constant),
    }
}

fn indices_of<'a>(
    alloc: Global,
    types: &Types<'a>,
    index: &'a [(Ty, Operand)],
) -> Result<List<Index>, Memory>
    ensures { IfOk result (λ indices. indices ≡ spec.indices_of types.now.units index.now) }
{
    let mut indices = List::new(alloc);
    for one in index {
        indices.add(operand_index(types, &one.0, &one.1))?;
    }
    Ok(indices)
}

fn each_index_flaw<'a>(
    alloc: Global,
    types: &Types<'a>,
    made: &'a Made,
    body: &Body<'a>,
    index: &'a [(Ty, Operand)],
) -> Result<Option<Flaw>, Memory>
    requires { body.now.units ≡ types.now.units }
    ensures { IfOk result (λ flaw. flaw
        ≡ each (spec.index_flaw types.now.output types.now.units body.now.head) index.now) }
{
    let mut flaw = None;
    for at in (0..index.len()).rev() {
        let one = &index[at];
        let own = value_flaw(
            alloc,
            types,
            made,
            body,
            false,
            Allowed::Integer,
            &one.0,
            &one.1,
        )?;
        flaw = counts(own, flaw);
    }
    Ok(flaw)
}

pub(crate) fn address_flaw<'a>(
    alloc: Global,
    types: &Types<'a>,
    made: &'a Made,
    body: &Body<'a>,
    ty: &'a Ty,
    base: &'a Operand,
    index: &'a [(Ty, Operand)],
) -> Result<Option<Flaw>, Memory>
    requires { body.now.units ≡ types.now.units }
    ensures { IfOk result (λ flaw. flaw
        ≡ spec.address_flaw types.now.output types.now.units body.now.head ty.now base.now index.now) }
{
    let written = type_flaw(alloc, types, false, Allowed::NonVoid, ty)?;
    let base = operand_flaw(alloc, types, made, body, false, made.pointer(), base)?;
    let each = each_index_flaw(alloc, types, made, body, index)?;
    let indices = indices_of(alloc, types, index)?;
    let led = indices_flaw(types, false, ty, indices.items());
    Ok(counts(written, counts(base, counts(each, led))))
}
