ghost use Rattle.std.specs.Prelude.{◌≡◌, ℕ, List, [], ◌∷◌, Option, Some, None, MatchOption, IsTrue, ◌↔◌, true, false, codes};
ghost use Rattle.ir_values.specs.declared.types.Width.TheVariants.{W1, W8, W64};
ghost use Rattle.ir_values.specs.declared.types.Ty.{Ty};
ghost use Rattle.ir_values.specs.declared.constants.Const.{Const};
ghost use Rattle.ir_values.specs.declared.constants.Operand.{Operand};
ghost use Rattle.ir_values.specs.declared.units.Arg.TheVariants as arg;
ghost use Rattle.ir_values.specs.declared.units.MetaItem.{MetaItem};
ghost use Rattle.thin_files.specs.Thin.{words_type, test_name, pointer_param};

use ir_values::{Arg, Attach, Const, MetaItem, Operand, Param, Ty, Width};
use ltt_base::Text;

pub(super) fn is_same(one: &[u8], other: &[u8]) -> bool
    ensures { IsTrue result ↔ (one.now ≡ other.now) }
{
    one == other
}

/// The number of parts of an array of 64-bit integers.
pub(super) fn words(ty: &Ty) -> Option<u64>
    ensures { MatchOption result ((count : ℕ) → ty.now ≡ words_type count → ⊥) (λ count. ty.now ≡ words_type count) }
{
    match ty {
        Ty::Array(count, part) => match part.get() {
            Ty::Int(Width::W64) => Some(*count),
            _ => None,
        },
        _ => None,
    }
}

pub(super) fn is_words(ty: &Ty, count: u64) -> bool
    ensures { IsTrue result ↔ (ty.now ≡ words_type count) }
{
    match words(ty) {
        Some(found) => found == count,
        None => false,
    }
}

pub(super) fn is_zero(init: &Option<Const>, count: u64) -> bool
    ensures { IsTrue result ↔ (init.now ≡ Some (Const.Zero (words_type count))) }
{
    match init {
        Some(Const::Zero(ty)) => is_words(ty, count),
        _ => false,
    }
}

fn is_type_kind(attach: &Attach) -> bool
    ensures { IsTrue result ↔ (attach.now.kind ≡ codes "type") }
{
    attach.kind.bytes() == b"type".as_slice()
}

/// The node of a lone attachment of kind `type`.
pub(super) fn type_node(attached: &[Attach]) -> Option<&Text>
    ensures { MatchOption result
        ((node : List ℕ) → attached.now ≡ record { kind = codes "type"; node = node } ∷ [] → ⊥)
        (λ node. attached.now ≡ record { kind = codes "type"; node = node.now } ∷ []) }
{
    match attached {
        [one] => if is_type_kind(one) {
            Some(&one.node)
        } else {
            None
        },
        _ => None,
    }
}

pub(super) fn is_bit(written: &Ty) -> bool
    ensures { IsTrue result ↔ (written.now ≡ Ty.Int W1) }
{
    match written {
        Ty::Int(Width::W1) => true,
        _ => false,
    }
}

pub(super) fn is_byte(written: &Ty) -> bool
    ensures { IsTrue result ↔ (written.now ≡ Ty.Int W8) }
{
    match written {
        Ty::Int(Width::W8) => true,
        _ => false,
    }
}

pub(super) fn is_pointer(written: &Ty) -> bool
    ensures { IsTrue result ↔ (written.now ≡ Ty.Ptr) }
{
    match written {
        Ty::Ptr => true,
        _ => false,
    }
}

pub(super) fn is_register(value: &Operand, name: &[u8]) -> bool
    ensures { IsTrue result ↔ (value.now ≡ Operand.Reg name.now) }
{
    match value {
        Operand::Reg(own) => own.bytes() == name,
        _ => false,
    }
}

pub(super) fn is_test(callee: &Operand) -> bool
    ensures { IsTrue result ↔ (callee.now ≡ Operand.Const (Const.Addr test_name 0)) }
{
    match callee {
        Operand::Const(Const::Addr(name, 0)) => name.bytes() == b"llvm.type.test".as_slice(),
        _ => false,
    }
}

/// The name of a pointer that has one.
pub(super) fn pointer_name(param: &Param) -> Option<&Text>
    ensures { MatchOption result
        ((name : List ℕ) → param.now ≡ pointer_param (Some name) → ⊥)
        (λ name. param.now ≡ pointer_param (Some name.now)) }
{
    match (&param.ty, &param.name) {
        (Ty::Ptr, Some(name)) => if param.left.is_empty() {
            Some(name)
        } else {
            None
        },
        _ => None,
    }
}

pub(super) fn is_bare_pointer(param: &Param) -> bool
    ensures { IsTrue result ↔ (param.now ≡ pointer_param None) }
{
    match (&param.ty, &param.name) {
        (Ty::Ptr, None) => param.left.is_empty(),
        _ => false,
    }
}

pub(super) fn is_metadata(param: &Param) -> bool
    ensures { IsTrue result ↔ (param.now ≡ record { ty = Ty.Left (codes "metadata"); left = []; name = None }) }
{
    match (&param.ty, &param.name) {
        (Ty::Left(text), None) => text.bytes() == b"metadata".as_slice() && param.left.is_empty(),
        _ => false,
    }
}

pub(super) fn is_pointer_argument(argument: &Arg, name: &[u8]) -> bool
    ensures { IsTrue result ↔ (argument.now ≡ arg.Value Ty.Ptr [] (Operand.Reg name.now)) }
{
    match argument {
        Arg::Value { ty, left, value } => is_pointer(ty)
            && left.is_empty()
            && is_register(value, name),
        _ => false,
    }
}

/// The word of `metadata !"WORD"`.
pub(super) fn argument_word(argument: &Arg) -> Option<&Text>
    ensures { MatchOption result
        ((word : List ℕ) → argument.now ≡ arg.Word word → ⊥)
        (λ word. argument.now ≡ arg.Word word.now) }
{
    match argument {
        Arg::Word(word) => Some(word),
        _ => None,
    }
}

/// The number of a 64-bit integer in a metadata node.
pub(super) fn item_offset(item: &MetaItem) -> Option<u64>
    ensures { MatchOption result
        ((offset : ℕ) → item.now ≡ MetaItem.Const (Ty.Int W64) (Const.Int W64 offset) → ⊥)
        (λ offset. item.now ≡ MetaItem.Const (Ty.Int W64) (Const.Int W64 offset)) }
{
    match item {
        MetaItem::Const(Ty::Int(Width::W64), Const::Int(Width::W64, offset)) => Some(*offset),
        _ => None,
    }
}

/// The word of `!"WORD"`.
pub(super) fn item_word(item: &MetaItem) -> Option<&Text>
    ensures { MatchOption result
        ((word : List ℕ) → item.now ≡ MetaItem.Word word → ⊥)
        (λ word. item.now ≡ MetaItem.Word word.now) }
{
    match item {
        MetaItem::Word(word) => Some(word),
        _ => None,
    }
}
