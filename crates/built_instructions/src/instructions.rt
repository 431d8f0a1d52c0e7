ghost use Rattle.std.specs.Prelude.{◌≡◌, IfOk};
ghost use Rattle.built_instructions.specs.Instructions as spec;

use crate::branches::{branch_kept, end_kept};
use crate::calls::call_kept;
use crate::plain::{
    address_kept, binary_kept, cast_kept, compare_kept, extract_kept, load_kept, number_kept,
    phi_kept, select_kept, store_kept,
};
use check_bodies::{Spot, is_named, opened};
use check_operands::Made;
use check_types::Types;
use ir_values::{Form, Inst};
use ltt_base::Memory;
use std::alloc::Global;

/// The instruction that a form says, where an unnamed result has the next number.
fn form_kept<'a>(
    alloc: Global,
    types: &Types<'a>,
    made: &'a Made,
    file: u32,
    next: u64,
    form: &'a Form,
) -> Result<Option<Inst>, Memory>
    ensures { IfOk result (λ it. it ≡ spec.form_kept types.now.output types.now.units file next form.now) }
{
    match form {
        Form::BinaryForm { dst, op, ty, a, b } => {
            let inst = binary_kept(alloc, types, next, dst.as_ref(), *op, ty, a, b)?;
            Ok(Some(inst))
        }
        Form::CompareForm {
            dst,
            pred,
            ty,
            a,
            b,
        } => {
            let inst = compare_kept(alloc, types, next, dst.as_ref(), *pred, ty, a, b)?;
            Ok(Some(inst))
        }
        Form::SelectForm {
            dst,
            cond_ty,
            cond,
            ty,
            a,
            other_ty,
            b,
        } => {
            let dst = dst.as_ref();
            let inst = select_kept(alloc, types, next, dst, cond_ty, cond, ty, a, other_ty, b)?;
            Ok(Some(inst))
        }
        Form::CastForm {
            dst,
            op,
            from,
            a,
            to,
        } => {
            let inst = cast_kept(alloc, types, next, dst.as_ref(), *op, from, a, to)?;
            Ok(Some(inst))
        }
        Form::AddressForm {
            dst,
            ty,
            base,
            index,
        } => {
            let dst = dst.as_ref();
            let inst = address_kept(alloc, types, made, next, dst, ty, base, index.items())?;
            Ok(Some(inst))
        }
        Form::LoadForm { dst, ty, addr } => {
            let inst = load_kept(alloc, types, made, next, dst.as_ref(), ty, addr)?;
            Ok(Some(inst))
        }
        Form::StoreForm { ty, value, addr } => {
            let inst = store_kept(alloc, types, made, ty, value, addr)?;
            Ok(Some(inst))
        }
        Form::CallForm {
            dst,
            result,
            whole,
            callee,
            args,
            ..
        } => {
            let inst = call_kept(
                alloc,
                types,
                made,
                file,
                next,
                is_named(form),
                dst.as_ref(),
                result,
                whole.as_ref(),
                callee,
                args.items(),
            )?;
            Ok(Some(inst))
        }
        Form::ExtractForm { dst, value, part } => {
            let inst = extract_kept(alloc, next, dst.as_ref(), value, *part)?;
            Ok(Some(inst))
        }
        Form::PhiForm { dst, ty, arms } => {
            let inst = phi_kept(alloc, types, next, dst.as_ref(), ty, arms.items())?;
            Ok(Some(inst))
        }
        Form::BranchForm { text } => Ok(Some(branch_kept(alloc, types, made, text)?)),
        Form::EndForm { text } => Ok(Some(end_kept(alloc, types, text)?)),
        Form::NumberForm { dst, value } => {
            let inst = number_kept(alloc, types, made, next, dst.as_ref(), value)?;
            Ok(Some(inst))
        }
        _ => Ok(None),
    }
}

/// The instruction that a unit becomes, which stands at a place among the units of a file and at a spot of a body. `None`: the unit is no
/// instruction.
///
/// `file` is the file's number, from 1, which is part of an identifier that is a node. The register that the instruction sets is its
/// written name, or else its number as digits. What has a flaw becomes some instruction.
///
/// Source: LLVM Language Reference, "Instruction Reference". Differs: names of types are replaced by what they stand for, constants have one
/// form each, and calls of the known intrinsics are instructions of their own.
#[tactic(auto, unfolding(crate::specs::Instructions::instruction_of))]
pub fn instruction_of<'a>(
    alloc: Global,
    types: &Types<'a>,
    made: &'a Made,
    file: u32,
    at: usize,
    spot: Spot,
    form: &'a Form,
) -> Result<Option<Inst>, Memory>
    ensures { IfOk result (λ it. it
        ≡ spec.instruction_of types.now.output types.now.units file at spot form.now) }
{
    form_kept(alloc, types, made, file, opened(at, spot).next, form)
}
