ghost use Rattle.std.specs.Prelude.{◌≡◌, ℕ, List, [], ◌∷◌, Option, map, take, drop, MatchOption, IfOk};
ghost use Rattle.ir_values.specs.declared.constants.Const as const;
ghost use Rattle.ir_values.specs.declared.units.Arg.TheVariants as arg;
ghost use Rattle.ir_values.specs.declared.units.Form.{Form};
ghost use Rattle.thin_files.specs.Shape.{forms, bare_head, plain_operand, moved_index, moved_operand, address_operand, address_args, address_test, end_unit, second_units};

use crate::thin::Second;
use crate::thin::shape::{argument_word, is_bit, is_byte, is_pointer, is_test};
use crate::thin::units::{is_close, is_end};
use ir_values::{Arg, Const, Form, Head, Operand, Ty, Unit, Width};
use ltt_base::{Memory, Place, Placed, Text};
use std::alloc::Global;

/// The address that the second function tests: that of a variable, or the one `offset` bytes behind it.
#[derive(Drop)]
struct Address<'a> {
    object: &'a Text,
    offset: Option<u64>,
}

/// The test in the second function.
#[derive(Drop)]
struct AddressTest<'a> {
    register: &'a Text,
    object: &'a Text,
    offset: Option<u64>,
    tested: &'a Text,
}

/// What the units of the second function say, and the units behind its close.
#[derive(Drop)]
pub(super) struct SecondUnits<'a> {
    pub place: Place,
    pub name: &'a Text,
    pub register: &'a Text,
    pub object: &'a Text,
    pub offset: Option<u64>,
    pub tested: &'a Text,
    pub rest: &'a [Placed<Unit>],
}

/// The name in the head of a function without parameters.
fn bare_head(form: &Form) -> Option<&Text>
    ensures { MatchOption result
        ((name : List ℕ) → form.now ≡ bare_head name → ⊥)
        (λ name. form.now ≡ bare_head name.now) }
{
    match form {
        Form::DefineForm {
            head: Head {
                name,
                linkage: None,
                result: returned,
                params,
                dots: false,
                left,
                attached,
            },
        } => {
            if params.is_empty() && is_bit(returned) && left.is_empty() && attached.is_empty() {
                Some(name)
            } else {
                None
            }
        }
        _ => None,
    }
}

/// The name of a global, as a constant.
fn global_name(value: &Const) -> Option<&Text>
    ensures { MatchOption result
        ((object : List ℕ) → value.now ≡ const.Addr object 0 → ⊥)
        (λ object. value.now ≡ const.Addr object.now 0) }
{
    match value {
        Const::Addr(object, 0) => Some(object),
        _ => None,
    }
}

/// The number of bytes in the one index of an address.
fn index_offset(index: &[Operand]) -> Option<u64>
    ensures { MatchOption result
        ((offset : ℕ) → index.now ≡ moved_index offset → ⊥)
        (λ offset. index.now ≡ moved_index offset) }
{
    match index {
        [Operand::Const(Const::Typed(Ty::Int(Width::W64), part))] => match part.get() {
            Const::Int(Width::W64, offset) => Some(*offset),
            _ => None,
        },
        _ => None,
    }
}

fn plain_operand(value: &Operand) -> Option<&Text>
    ensures { MatchOption result
        ((object : List ℕ) → value.now ≡ plain_operand object → ⊥)
        (λ object. value.now ≡ plain_operand object.now) }
{
    match value {
        Operand::Const(part) => match global_name(part) {
            Some(object) => Some(object),
            None => None,
        },
        _ => None,
    }
}

fn moved_operand(value: &Operand) -> Option<(&Text, u64)>
    ensures { MatchOption result
        ((object : List ℕ) (offset : ℕ) → value.now ≡ moved_operand object offset → ⊥)
        (λ pair. value.now ≡ moved_operand pair.0.now pair.1) }
{
    match value {
        Operand::Const(Const::Gep(ty, base, index)) => {
            match (global_name(base.get()), index_offset(index.items())) {
                (Some(object), Some(offset)) => if is_byte(ty) {
                    Some((object, offset))
                } else {
                    None
                },
                _ => None,
            }
        }
        _ => None,
    }
}

fn address_operand(value: &Operand) -> Option<Address<'_>>
    ensures { MatchOption result
        ((object : List ℕ) (offset : Option ℕ) → value.now ≡ address_operand object offset → ⊥)
        (λ address. value.now ≡ address_operand address.object.now address.offset) }
{
    match plain_operand(value) {
        Some(object) => Some(Address {
            object,
            offset: None,
        }),
        None => match moved_operand(value) {
            Some((object, offset)) => Some(Address {
                object,
                offset: Some(offset),
            }),
            None => None,
        },
    }
}

fn address_argument(argument: &Arg) -> Option<Address<'_>>
    ensures { MatchOption result
        ((object : List ℕ) (offset : Option ℕ) → argument.now ≡ arg.Value Ty.Ptr [] (address_operand object offset) → ⊥)
        (λ address. argument.now ≡ arg.Value Ty.Ptr [] (address_operand address.object.now address.offset)) }
{
    match argument {
        Arg::Value { ty, left, value } => match address_operand(value) {
            Some(address) => if is_pointer(ty) && left.is_empty() {
                Some(address)
            } else {
                None
            },
            None => None,
        },
        _ => None,
    }
}

fn address_args(args: &[Arg]) -> Option<(Address<'_>, &Text)>
    ensures { MatchOption result
        ((object : List ℕ) (offset : Option ℕ) (tested : List ℕ) → args.now ≡ address_args object offset tested → ⊥)
        (λ pair. args.now ≡ address_args pair.0.object.now pair.0.offset pair.1.now) }
{
    match args {
        [first, second] => match (address_argument(first), argument_word(second)) {
            (Some(address), Some(tested)) => Some((address, tested)),
            _ => None,
        },
        _ => None,
    }
}

fn address_test(form: &Form) -> Option<AddressTest<'_>>
    ensures { MatchOption result
        ((register object : List ℕ) (offset : Option ℕ) (tested : List ℕ)
        → form.now ≡ address_test register object offset tested → ⊥)
        (λ test. form.now ≡ address_test test.register.now test.object.now test.offset test.tested.now) }
{
    match form {
        Form::CallForm {
            dst: Some(register),
            result: returned,
            whole: None,
            dots: false,
            callee,
            args,
            bundle: false,
        } => {
            match address_args(args.items()) {
                Some((Address { object, offset }, tested)) => if is_bit(returned)
                    && is_test(callee)
                {
                    Some(AddressTest {
                        register,
                        object,
                        offset,
                        tested,
                    })
                } else {
                    None
                },
                None => None,
            }
        }
        _ => None,
    }
}

/// The name and the test of the second function, by the units before its close.
fn tested_address<'a>(
    head: &'a Form,
    test: &'a Form,
    end: &Form,
) -> Option<(&'a Text, AddressTest<'a>)>
    ensures { MatchOption result
        ((name register object : List ℕ) (offset : Option ℕ) (tested : List ℕ) → head.now ≡ bare_head name
        → test.now ≡ address_test register object offset tested → end.now ≡ end_unit register → ⊥)
        (λ pair. (head.now ≡ bare_head pair.0.now)
        × (test.now ≡ address_test pair.1.register.now pair.1.object.now pair.1.offset pair.1.tested.now)
        × (end.now ≡ end_unit pair.1.register.now)) }
{
    match bare_head(head) {
        Some(name) => match address_test(test) {
            Some(found) => if is_end(end, found.register.bytes()) {
                Some((name, found))
            } else {
                None
            },
            None => None,
        },
        None => None,
    }
}

pub(super) fn second_units(units: &[Placed<Unit>]) -> Option<SecondUnits<'_>>
    ensures { MatchOption result
        ((name register object : List ℕ) (offset : Option ℕ) (tested : List ℕ) (rest : List Form)
        → forms units.now ≡ second_units name register object offset tested rest → ⊥)
        (λ f. (forms units.now ≡ second_units f.name.now f.register.now f.object.now f.offset f.tested.now (forms f.rest.now))
        × (map (λ u. u.place) (take 1 units.now) ≡ f.place ∷ [])) }
{
    match units {
        [head, test, end, close, rest @ ..] if is_close(&close.value.form) => {
            match tested_address(&head.value.form, &test.value.form, &end.value.form) {
                Some(
                    (
                        name,
                        AddressTest {
                            register,
                            object,
                            offset,
                            tested,
                        },
                    ),
                ) => {
                    Some(SecondUnits {
                        place: head.place,
                        name,
                        register,
                        object,
                        offset,
                        tested,
                        rest,
                    })
                }
                None => None,
            }
        }
        _ => None,
    }
}

/// A copy of what the units say.
pub(super) fn copy_second(alloc: Global, function: &SecondUnits<'_>) -> Result<Second, Memory>
    ensures { IfOk result (λ s. s ≡ record {
      place = function.now.place;
      name = function.now.name.now;
      register = function.now.register.now;
      object = function.now.object.now;
      offset = function.now.offset;
      tested = function.now.tested.now;
    }) }
{
    let name = Text::copy(alloc, function.name.bytes())?;
    let register = Text::copy(alloc, function.register.bytes())?;
    let object = Text::copy(alloc, function.object.bytes())?;
    let tested = Text::copy(alloc, function.tested.bytes())?;
    Ok(Second {
        place: function.place,
        name,
        register,
        object,
        offset: function.offset,
        tested,
    })
}
