ghost use Rattle.std.specs.Prelude.{◌≡◌, ℕ, List, [], ◌∷◌, Some, MatchOption, IsTrue, ◌↔◌};
ghost use Rattle.ir_values.specs.declared.units.Form.TheVariants.{CloseForm};
ghost use Rattle.ir_values.specs.declared.units.Param.{Param};
ghost use Rattle.thin_files.specs.Thin.{declare_form, pointer_param};
ghost use Rattle.thin_files.specs.Shape.{variable_unit, head_unit, test_args, test_unit, end_unit, test_params, node_items, node_unit, is_head};

use crate::thin::shape::{
    argument_word, is_bare_pointer, is_bit, is_metadata, is_pointer_argument, is_register, is_test,
    is_zero, item_offset, item_word, pointer_name, type_node, words,
};
use ir_values::{Arg, EndText, Form, Head, MetaItem, Param};
use ltt_base::Text;

/// What the unit of a variable says: its name, the number of its parts, and its node's number.
pub(super) struct VariableUnit<'a> {
    pub name: &'a Text,
    pub count: u64,
    pub node: &'a Text,
}

/// What a function's head says: its name and that of its parameter.
pub(super) struct HeadUnit<'a> {
    pub name: &'a Text,
    pub pointer: &'a Text,
}

/// What a type test says: the register that it sets, and the type identifier.
pub(super) struct TestUnit<'a> {
    pub register: &'a Text,
    pub tested: &'a Text,
}

/// What the unit of a type node says.
pub(super) struct NodeUnit<'a> {
    pub number: &'a Text,
    pub offset: u64,
    pub id: &'a Text,
}

pub(super) fn variable_unit(form: &Form) -> Option<VariableUnit<'_>>
    ensures { MatchOption result
        ((name : List ℕ) (count : ℕ) (node : List ℕ) → form.now ≡ variable_unit name count node → ⊥)
        (λ unit. form.now ≡ variable_unit unit.name.now unit.count unit.node.now) }
{
    match form {
        Form::VariableForm {
            name,
            linkage: None,
            constant: true,
            ty,
            init,
            align: None,
            attached,
        } => {
            match (words(ty), type_node(attached.items())) {
                (Some(count), Some(node)) => if is_zero(init, count) {
                    Some(VariableUnit { name, count, node })
                } else {
                    None
                },
                _ => None,
            }
        }
        _ => None,
    }
}

pub(super) fn is_head(form: &Form) -> bool
    ensures { result ≡ is_head form.now }
{
    match form {
        Form::DefineForm { .. } => true,
        _ => false,
    }
}

fn lone(params: &[Param]) -> Option<&Param>
    ensures { MatchOption result ((param : Param) → params.now ≡ param ∷ [] → ⊥) (λ param. params.now ≡ param.now ∷ []) }
{
    match params {
        [param] => Some(param),
        _ => None,
    }
}

fn lone_pointer(params: &[Param]) -> Option<&Text>
    ensures { MatchOption result
        ((name : List ℕ) → params.now ≡ pointer_param (Some name) ∷ [] → ⊥)
        (λ name. params.now ≡ pointer_param (Some name.now) ∷ []) }
{
    match lone(params) {
        Some(param) => match pointer_name(param) {
            Some(name) => Some(name),
            None => None,
        },
        None => None,
    }
}

pub(super) fn head_unit(form: &Form) -> Option<HeadUnit<'_>>
    ensures { MatchOption result
        ((name pointer : List ℕ) → form.now ≡ head_unit name pointer → ⊥)
        (λ unit. form.now ≡ head_unit unit.name.now unit.pointer.now) }
{
    match form {
        Form::DefineForm {
            head: Head {
                name,
                linkage: None,
                result: returned,
                params,
                dots: false,
                left,
                attached,
            },
        } => {
            match lone_pointer(params.items()) {
                Some(pointer) => if is_bit(returned) && left.is_empty() && attached.is_empty() {
                    Some(HeadUnit { name, pointer })
                } else {
                    None
                },
                None => None,
            }
        }
        _ => None,
    }
}

fn test_word<'a>(args: &'a [Arg], pointer: &[u8]) -> Option<&'a Text>
    ensures { MatchOption result
        ((word : List ℕ) → args.now ≡ test_args pointer.now word → ⊥)
        (λ word. args.now ≡ test_args pointer.now word.now) }
{
    match args {
        [first, second] => if is_pointer_argument(first, pointer) {
            argument_word(second)
        } else {
            None
        },
        _ => None,
    }
}

pub(super) fn test_unit<'a>(form: &'a Form, pointer: &[u8]) -> Option<TestUnit<'a>>
    ensures { MatchOption result
        ((register tested : List ℕ) → form.now ≡ test_unit register pointer.now tested → ⊥)
        (λ unit. form.now ≡ test_unit unit.register.now pointer.now unit.tested.now) }
{
    match form {
        Form::CallForm {
            dst: Some(register),
            result: returned,
            whole: None,
            dots: false,
            callee,
            args,
            bundle: false,
        } => {
            match test_word(args.items(), pointer) {
                Some(tested) => if is_bit(returned) && is_test(callee) {
                    Some(TestUnit { register, tested })
                } else {
                    None
                },
                None => None,
            }
        }
        _ => None,
    }
}

pub(super) fn is_end(form: &Form, register: &[u8]) -> bool
    ensures { IsTrue result ↔ (form.now ≡ end_unit register.now) }
{
    match form {
        Form::EndForm {
            text: EndText::Ret { ty, value },
        } => is_bit(ty) && is_register(value, register),
        _ => false,
    }
}

pub(super) fn is_close(form: &Form) -> bool
    ensures { IsTrue result ↔ (form.now ≡ CloseForm) }
{
    match form {
        Form::CloseForm => true,
        _ => false,
    }
}

fn are_test_params(params: &[Param]) -> bool
    ensures { IsTrue result ↔ (params.now ≡ test_params) }
{
    match params {
        [first, second] => is_bare_pointer(first) && is_metadata(second),
        _ => false,
    }
}

pub(super) fn is_declaration(form: &Form) -> bool
    ensures { IsTrue result ↔ (form.now ≡ declare_form) }
{
    match form {
        Form::DeclareForm {
            head: Head {
                name,
                linkage: None,
                result: returned,
                params,
                dots: false,
                left,
                attached,
            },
        } => {
            name.bytes() == b"llvm.type.test".as_slice()
                && is_bit(returned)
                && are_test_params(params.items())
                && left.is_empty()
                && attached.is_empty()
        }
        _ => false,
    }
}

fn node_items(items: &[MetaItem]) -> Option<(u64, &Text)>
    ensures { MatchOption result
        ((offset : ℕ) (id : List ℕ) → items.now ≡ node_items offset id → ⊥)
        (λ pair. items.now ≡ node_items pair.0 pair.1.now) }
{
    match items {
        [first, second] => match (item_offset(first), item_word(second)) {
            (Some(offset), Some(id)) => Some((offset, id)),
            _ => None,
        },
        _ => None,
    }
}

pub(super) fn node_unit(form: &Form) -> Option<NodeUnit<'_>>
    ensures { MatchOption result
        ((number : List ℕ) (offset : ℕ) (id : List ℕ) → form.now ≡ node_unit number offset id → ⊥)
        (λ unit. form.now ≡ node_unit unit.number.now unit.offset unit.id.now) }
{
    match form {
        Form::MetadataForm {
            name: number,
            distinct: false,
            items,
        } => match node_items(items.items()) {
            Some((offset, id)) => Some(NodeUnit { number, offset, id }),
            None => None,
        },
        _ => None,
    }
}
