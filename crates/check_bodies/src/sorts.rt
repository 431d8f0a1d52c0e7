ghost use Rattle.std.specs.Prelude.{◌≡◌};
ghost use Rattle.std.specs.Option.{option_copied};
ghost use Rattle.ir_values.specs.declared.types.Ty.{out-Ty};
ghost use Rattle.check_bodies.specs.Sorts as spec;

use ir_values::{Form, Ty};
use ltt_base::Text;

/// What a unit is in a body: the head of a function's definition, a label, a close, a phi, another instruction that
/// ends no block, one that ends its block, a unit that is left out, or a unit that stands in no body.
#[derive(Clone, Copy)]
pub enum Sort {
    Head,
    Label,
    Close,
    Phi,
    Plain,
    Terminator,
    Left,
    Outer,
}

/// What a form is in a body.
pub fn sort_of(form: &Form) -> Sort
    ensures { result ≡ spec.sort_of form.now }
{
    match form {
        Form::DefineForm { .. } => Sort::Head,
        Form::LabelForm { .. } => Sort::Label,
        Form::CloseForm => Sort::Close,
        Form::BinaryForm { .. } => Sort::Plain,
        Form::CompareForm { .. } => Sort::Plain,
        Form::SelectForm { .. } => Sort::Plain,
        Form::CastForm { .. } => Sort::Plain,
        Form::AddressForm { .. } => Sort::Plain,
        Form::LoadForm { .. } => Sort::Plain,
        Form::StoreForm { .. } => Sort::Plain,
        Form::CallForm { .. } => Sort::Plain,
        Form::ExtractForm { .. } => Sort::Plain,
        Form::PhiForm { .. } => Sort::Phi,
        Form::BranchForm { .. } => Sort::Terminator,
        Form::EndForm { .. } => Sort::Terminator,
        Form::NumberForm { .. } => Sort::Plain,
        Form::LeftForm { .. } => Sort::Left,
        _ => Sort::Outer,
    }
}

/// Whether units of this sort are instructions.
pub fn is_instruction(sort: Sort) -> bool
    ensures { result ≡ spec.is_instruction sort }
{
    match sort {
        Sort::Phi => true,
        Sort::Plain => true,
        Sort::Terminator => true,
        _ => false,
    }
}

/// The written name of a label, or of an instruction's result.
pub fn written_name(form: &Form) -> Option<&Text>
    ensures { option_copied result ≡ spec.written_name form.now }
{
    match form {
        Form::LabelForm { name } => Some(name),
        Form::BinaryForm { dst, .. } => dst.as_ref(),
        Form::CompareForm { dst, .. } => dst.as_ref(),
        Form::SelectForm { dst, .. } => dst.as_ref(),
        Form::CastForm { dst, .. } => dst.as_ref(),
        Form::AddressForm { dst, .. } => dst.as_ref(),
        Form::LoadForm { dst, .. } => dst.as_ref(),
        Form::CallForm { dst, .. } => dst.as_ref(),
        Form::ExtractForm { dst, .. } => dst.as_ref(),
        Form::PhiForm { dst, .. } => dst.as_ref(),
        Form::NumberForm { dst, .. } => dst.as_ref(),
        _ => None,
    }
}

fn is_void(ty: &Ty) -> bool
    ensures { result ≡ spec.is_void (out-Ty ty.now) }
{
    match ty {
        Ty::Void => true,
        _ => false,
    }
}

/// Whether an instruction has a result, where it writes no name for one.
pub fn has_result(form: &Form) -> bool
    ensures { result ≡ spec.has_result form.now }
{
    match form {
        Form::BinaryForm { .. } => true,
        Form::CompareForm { .. } => true,
        Form::SelectForm { .. } => true,
        Form::CastForm { .. } => true,
        Form::AddressForm { .. } => true,
        Form::LoadForm { .. } => true,
        Form::CallForm { result, .. } => !is_void(result),
        Form::ExtractForm { .. } => true,
        Form::PhiForm { .. } => true,
        Form::NumberForm { .. } => true,
        _ => false,
    }
}
