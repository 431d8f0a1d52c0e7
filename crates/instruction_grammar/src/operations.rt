ghost use Rattle.std.specs.Prelude.{◌≡◌, drop};
ghost use Rattle.type_grammar.specs.Levels.{levels};
ghost use Rattle.type_grammar.specs.Reading.{reads};
ghost use Rattle.unit_grammar.specs.Readers.{read};
ghost use Rattle.unit_grammar.specs.Seeing.{Gives, tokens};
ghost use Rattle.instruction_grammar.specs.Operations as spec;

use crate::operands::{next_typed_value, pointer, typed_pair, typed_value};
use crate::words::{binary_words, cast_words, compare_words};
use ir_values::{BinOp, CastOp, Form, Operand, Pred, Ty};
use ltt_base::List;
use std::alloc::Global;
use type_grammar::read_type;
use unit_grammar::{Input, Stop, mark, word, word_of};
use word_grammar::instruction_run;

fn operation_of(bytes: &[u8]) -> BinOp
    ensures { result ≡ spec.operation_of bytes.now }
{
    if bytes == b"add".as_slice() {
        return BinOp::Add;
    }
    if bytes == b"sub".as_slice() {
        return BinOp::Sub;
    }
    if bytes == b"mul".as_slice() {
        return BinOp::Mul;
    }
    if bytes == b"udiv".as_slice() {
        return BinOp::UDiv;
    }
    if bytes == b"sdiv".as_slice() {
        return BinOp::SDiv;
    }
    if bytes == b"urem".as_slice() {
        return BinOp::URem;
    }
    if bytes == b"srem".as_slice() {
        return BinOp::SRem;
    }
    if bytes == b"shl".as_slice() {
        return BinOp::Shl;
    }
    if bytes == b"lshr".as_slice() {
        return BinOp::LShr;
    }
    if bytes == b"ashr".as_slice() {
        return BinOp::AShr;
    }
    if bytes == b"and".as_slice() {
        return BinOp::And;
    }
    if bytes == b"or".as_slice() {
        return BinOp::Or;
    }
    BinOp::Xor
}

#[tactic(auto, unfolding(crate::specs::Operations::operation))]
fn operation(input: &Input<'_>, at: usize) -> Result<(BinOp, usize), Stop>
    ensures { Gives (tokens input.now) result (read (reads levels) spec.operation (drop at (tokens input.now))) }
{
    let (seen, at) = word_of(input, at, binary_words())?;
    Ok((operation_of(seen.bytes), at))
}

fn binary_of(op: BinOp, typed: (Ty, (Operand, Operand))) -> Form
    ensures { result ≡ spec.binary_of (op, (tt, typed)) }
{
    let (ty, (a, b)) = typed;
    Form::BinaryForm {
        dst: None,
        op,
        ty,
        a,
        b,
    }
}

/// `OP W T V, V`.
#[tactic(auto, unfolding(crate::specs::Operations::binary))]
pub fn binary(alloc: Global, input: &Input<'_>, at: usize) -> Result<(Form, usize), Stop>
    ensures { Gives (tokens input.now) result (read (reads levels) spec.binary (drop at (tokens input.now))) }
{
    let (op, at) = operation(input, at)?;
    let at = instruction_run(input, at)?;
    let (typed, at) = typed_pair(alloc, input, at)?;
    Ok((binary_of(op, typed), at))
}

fn predicate_of(bytes: &[u8]) -> Pred
    ensures { result ≡ spec.predicate_of bytes.now }
{
    if bytes == b"eq".as_slice() {
        return Pred::Eq;
    }
    if bytes == b"ne".as_slice() {
        return Pred::Ne;
    }
    if bytes == b"ugt".as_slice() {
        return Pred::Ugt;
    }
    if bytes == b"uge".as_slice() {
        return Pred::Uge;
    }
    if bytes == b"ult".as_slice() {
        return Pred::Ult;
    }
    if bytes == b"ule".as_slice() {
        return Pred::Ule;
    }
    if bytes == b"sgt".as_slice() {
        return Pred::Sgt;
    }
    if bytes == b"sge".as_slice() {
        return Pred::Sge;
    }
    if bytes == b"slt".as_slice() {
        return Pred::Slt;
    }
    Pred::Sle
}

#[tactic(auto, unfolding(crate::specs::Operations::predicate))]
fn predicate(input: &Input<'_>, at: usize) -> Result<(Pred, usize), Stop>
    ensures { Gives (tokens input.now) result (read (reads levels) spec.predicate (drop at (tokens input.now))) }
{
    let (seen, at) = word_of(input, at, compare_words())?;
    Ok((predicate_of(seen.bytes), at))
}

fn compare_of(pred: Pred, typed: (Ty, (Operand, Operand))) -> Form
    ensures { result ≡ spec.compare_of (tt, (pred, typed)) }
{
    let (ty, (a, b)) = typed;
    Form::CompareForm {
        dst: None,
        pred,
        ty,
        a,
        b,
    }
}

/// `icmp W PRED T V, V`.
#[tactic(auto, unfolding(crate::specs::Operations::compare))]
pub fn compare(alloc: Global, input: &Input<'_>, at: usize) -> Result<(Form, usize), Stop>
    ensures { Gives (tokens input.now) result (read (reads levels) spec.compare (drop at (tokens input.now))) }
{
    let at = word(input, at, b"icmp")?;
    let at = instruction_run(input, at)?;
    let (pred, at) = predicate(input, at)?;
    let (typed, at) = typed_pair(alloc, input, at)?;
    Ok((compare_of(pred, typed), at))
}

#[tactic(auto, unfolding(crate::specs::Operations::two_next_values))]
fn two_next_values(
    alloc: Global,
    input: &Input<'_>,
    at: usize,
) -> Result<(((Ty, Operand), (Ty, Operand)), usize), Stop>
    ensures { Gives (tokens input.now) result (read (reads levels) spec.two_next_values (drop at (tokens input.now))) }
{
    let (first, at) = next_typed_value(alloc, input, at)?;
    let (second, at) = next_typed_value(alloc, input, at)?;
    Ok(((first, second), at))
}

fn select_of(chosen: (Ty, Operand), values: ((Ty, Operand), (Ty, Operand))) -> Form
    ensures { result ≡ spec.select_of (chosen, values) }
{
    let (cond_ty, cond) = chosen;
    let ((ty, a), (other_ty, b)) = values;
    Form::SelectForm {
        dst: None,
        cond_ty,
        cond,
        ty,
        a,
        other_ty,
        b,
    }
}

/// `select T V, T V, T V`.
#[tactic(auto, unfolding(crate::specs::Operations::select))]
pub fn select(alloc: Global, input: &Input<'_>, at: usize) -> Result<(Form, usize), Stop>
    ensures { Gives (tokens input.now) result (read (reads levels) spec.select (drop at (tokens input.now))) }
{
    let at = word(input, at, b"select")?;
    let (chosen, at) = typed_value(alloc, input, at)?;
    let (values, at) = two_next_values(alloc, input, at)?;
    Ok((select_of(chosen, values), at))
}

fn cast_op_of(bytes: &[u8]) -> CastOp
    ensures { result ≡ spec.cast_op_of bytes.now }
{
    if bytes == b"zext".as_slice() {
        return CastOp::Zext;
    }
    if bytes == b"sext".as_slice() {
        return CastOp::Sext;
    }
    CastOp::Trunc
}

#[tactic(auto, unfolding(crate::specs::Operations::cast_op))]
fn cast_op(input: &Input<'_>, at: usize) -> Result<(CastOp, usize), Stop>
    ensures { Gives (tokens input.now) result (read (reads levels) spec.cast_op (drop at (tokens input.now))) }
{
    let (seen, at) = word_of(input, at, cast_words())?;
    Ok((cast_op_of(seen.bytes), at))
}

#[tactic(auto, unfolding(crate::specs::Operations::new_type))]
fn new_type(alloc: Global, input: &Input<'_>, at: usize) -> Result<(Ty, usize), Stop>
    ensures { Gives (tokens input.now) result (read (reads levels) spec.new_type (drop at (tokens input.now))) }
{
    let at = word(input, at, b"to")?;
    read_type(alloc, input, at)
}

fn cast_of(op: CastOp, typed: (Ty, Operand), to: Ty) -> Form
    ensures { result ≡ spec.cast_of (op, (tt, (typed, to))) }
{
    let (from, a) = typed;
    Form::CastForm {
        dst: None,
        op,
        from,
        a,
        to,
    }
}

/// `zext W T V to T`, and the same with `sext` and `trunc`.
#[tactic(auto, unfolding(crate::specs::Operations::cast))]
pub fn cast(alloc: Global, input: &Input<'_>, at: usize) -> Result<(Form, usize), Stop>
    ensures { Gives (tokens input.now) result (read (reads levels) spec.cast (drop at (tokens input.now))) }
{
    let (op, at) = cast_op(input, at)?;
    let at = instruction_run(input, at)?;
    let (typed, at) = typed_value(alloc, input, at)?;
    let (to, at) = new_type(alloc, input, at)?;
    Ok((cast_of(op, typed, to), at))
}

#[tactic(auto, unfolding(crate::specs::Operations::indices))]
fn indices(
    alloc: Global,
    input: &Input<'_>,
    at: usize,
) -> Result<(List<(Ty, Operand)>, usize), Stop>
    ensures { Gives (tokens input.now) result (read (reads levels) spec.indices (drop at (tokens input.now))) }
{
    let mut list = List::new(alloc);
    let mut at = at;
    for turn in 0..input.left(at) {
        match next_typed_value(alloc, input, at) {
            Ok((item, behind)) => {
                list.add(item)?;
                at = behind;
            }
            Err(Stop::Absent) => return Ok((list, at)),
            Err(Stop::Deep) => return Err(Stop::Deep),
            Err(Stop::Memory) => return Err(Stop::Memory),
        }
    }
    Ok((list, at))
}

#[tactic(auto, unfolding(crate::specs::Operations::base_and_indices))]
fn base_and_indices(
    alloc: Global,
    input: &Input<'_>,
    at: usize,
) -> Result<((Operand, List<(Ty, Operand)>), usize), Stop>
    ensures { Gives (tokens input.now) result (read (reads levels) spec.base_and_indices (drop at (tokens input.now))) }
{
    let at = mark(input, at, b",")?;
    let (base, at) = pointer(alloc, input, at)?;
    let (index, at) = indices(alloc, input, at)?;
    Ok(((base, index), at))
}

fn address_of(ty: Ty, moved: (Operand, List<(Ty, Operand)>)) -> Form
    ensures { result ≡ spec.address_of (tt, (ty, moved)) }
{
    let (base, index) = moved;
    Form::AddressForm {
        dst: None,
        ty,
        base,
        index,
    }
}

/// `getelementptr W T, ptr V, T V, ..`.
#[tactic(auto, unfolding(crate::specs::Operations::address))]
pub fn address(alloc: Global, input: &Input<'_>, at: usize) -> Result<(Form, usize), Stop>
    ensures { Gives (tokens input.now) result (read (reads levels) spec.address (drop at (tokens input.now))) }
{
    let at = word(input, at, b"getelementptr")?;
    let at = instruction_run(input, at)?;
    let (ty, at) = read_type(alloc, input, at)?;
    let (moved, at) = base_and_indices(alloc, input, at)?;
    Ok((address_of(ty, moved), at))
}
