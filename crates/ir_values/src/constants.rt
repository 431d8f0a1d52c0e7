ghost use Rattle.std.specs.Prelude.{◌≡◌, ◌↔◌, IsTrue, IfOk};
ghost use Rattle.ir_values.specs.Equality.{same_const, same_const-laws, same_operand, same_operand-laws};

use crate::types::{Ty, Width};
use ltt_base::{Boxed, Copied, List, Memory, Same, Text};
use std::alloc::Global;

/// A constant.
///
/// `Int` holds the number modulo 2 to the power of its width, `Addr` a global's name and an offset in
/// bytes modulo 2^64, and `Number` the number of such an address. `Gep`, `Left`, a constant that is left
/// out with its text, and `Typed`, a part with its written type, stand in units alone, and `Number` in
/// units and outputs.
///
/// Source: LLVM Language Reference, "Constants".
#[derive(Drop)]
#[cycle(values)]
pub enum Const {
    Int(Width, u64),
    Null,
    Addr(Text, u64),
    Zero(Ty),
    Array(Ty, List<Const>),
    Struct(List<Const>),
    Bytes(Text),
    Gep(Ty, Boxed<Const>, List<Operand>),
    Number(Text, u64),
    Left(Text),
    Typed(Ty, Boxed<Const>),
}

impl Const {
    /// An equal constant.
    #[cycle(copies)]
    pub fn copy(&self, alloc: Global) -> Result<Const, Memory>
        ensures { IfOk result (λ copy. copy ≡ self.now) }
    {
        match self {
            Const::Int(width, n) => Ok(Const::Int(*width, *n)),
            Const::Null => Ok(Const::Null),
            Const::Addr(name, offset) => Ok(Const::Addr(name.copied(alloc)?, *offset)),
            Const::Zero(ty) => Ok(Const::Zero(ty.copy(alloc)?)),
            Const::Array(ty, parts) => Ok(Const::Array(
                ty.copy(alloc)?,
                copied_consts(alloc, parts)?,
            )),
            Const::Struct(parts) => Ok(Const::Struct(copied_consts(alloc, parts)?)),
            Const::Bytes(bytes) => Ok(Const::Bytes(bytes.copied(alloc)?)),
            Const::Gep(ty, base, index) => {
                let ty = ty.copy(alloc)?;
                let base = base.get().copy(alloc)?;
                let base = Boxed::new(alloc, base)?;
                Ok(Const::Gep(ty, base, copied_operands(alloc, index)?))
            }
            Const::Number(name, offset) => Ok(Const::Number(name.copied(alloc)?, *offset)),
            Const::Left(text) => Ok(Const::Left(text.copied(alloc)?)),
            Const::Typed(ty, part) => {
                let ty = ty.copy(alloc)?;
                let part = part.get().copy(alloc)?;
                Ok(Const::Typed(ty, Boxed::new(alloc, part)?))
            }
        }
    }
}

#[cycle(copies)]
fn copied_consts(alloc: Global, constants: &List<Const>) -> Result<List<Const>, Memory>
    ensures { IfOk result (λ copies. copies ≡ constants.now) }
{
    let mut copies = List::new(alloc);
    for constant in constants.items() {
        copies.add(constant.copy(alloc)?)?;
    }
    Ok(copies)
}

#[cycle(copies)]
fn copied_operands(alloc: Global, operands: &List<Operand>) -> Result<List<Operand>, Memory>
    ensures { IfOk result (λ copies. copies ≡ operands.now) }
{
    let mut copies = List::new(alloc);
    for operand in operands.items() {
        copies.add(operand.copy(alloc)?)?;
    }
    Ok(copies)
}

impl Copied for Const {
    fn copied(&self, alloc: Global) -> Result<Const, Memory> {
        self.copy(alloc)
    }
}

impl Same for Const {
    #[cycle(comparisons)]
    fn is(&self, other: &Const) -> bool {
        match (self, other) {
            (Const::Int(width, n), Const::Int(other_width, other_n)) => {
                width.is(other_width) && n == other_n
            }
            (Const::Null, Const::Null) => true,
            (Const::Addr(name, offset), Const::Addr(other_name, other_offset)) => {
                name.is(other_name) && offset == other_offset
            }
            (Const::Zero(ty), Const::Zero(other_ty)) => ty.is(other_ty),
            (Const::Array(ty, parts), Const::Array(other_ty, other_parts)) => {
                ty.is(other_ty) && same_consts(parts, other_parts)
            }
            (Const::Struct(parts), Const::Struct(other_parts)) => same_consts(parts, other_parts),
            (Const::Bytes(bytes), Const::Bytes(other_bytes)) => bytes.is(other_bytes),
            (Const::Gep(ty, base, index), Const::Gep(other_ty, other_base, other_index)) => {
                ty.is(other_ty)
                    && base.get().is(other_base.get())
                    && same_operands(index, other_index)
            }
            (Const::Number(name, offset), Const::Number(other_name, other_offset)) => {
                name.is(other_name) && offset == other_offset
            }
            (Const::Left(text), Const::Left(other_text)) => text.is(other_text),
            (Const::Typed(ty, part), Const::Typed(other_ty, other_part)) => {
                ty.is(other_ty) && part.get().is(other_part.get())
            }
            _ => false,
        }
    }
}

#[cycle(comparisons)]
fn same_consts(constants: &List<Const>, other_constants: &List<Const>) -> bool
    ensures { IsTrue result ↔ (constants.now ≡ other_constants.now) }
{
    let ones = constants.items();
    let others = other_constants.items();
    if ones.len() != others.len() {
        return false;
    }
    for at in 0..ones.len() {
        if !ones[at].is(&others[at]) {
            return false;
        }
    }
    true
}

#[cycle(comparisons)]
fn same_operands(operands: &List<Operand>, other_operands: &List<Operand>) -> bool
    ensures { IsTrue result ↔ (operands.now ≡ other_operands.now) }
{
    let ones = operands.items();
    let others = other_operands.items();
    if ones.len() != others.len() {
        return false;
    }
    for at in 0..ones.len() {
        if !ones[at].is(&others[at]) {
            return false;
        }
    }
    true
}

impl PartialEq for Const {
    ghost eq = { same_const };

    ghost laws = { same_const-laws };

    fn eq(&self, other: &Const) -> bool
        ensures value { result ≡ same_const self.now other.now }
        ensures same { IsTrue result ↔ (self.now ≡ other.now) }
    {
        self.is(other)
    }
}

/// What an instruction reads: a register, by its name without `%`, or a constant.
#[derive(Drop)]
#[cycle(values)]
pub enum Operand {
    Reg(Text),
    Const(Const),
}

impl Operand {
    /// An equal operand.
    #[cycle(copies)]
    pub fn copy(&self, alloc: Global) -> Result<Operand, Memory>
        ensures { IfOk result (λ copy. copy ≡ self.now) }
    {
        match self {
            Operand::Reg(name) => Ok(Operand::Reg(name.copied(alloc)?)),
            Operand::Const(constant) => Ok(Operand::Const(constant.copy(alloc)?)),
        }
    }
}

impl Copied for Operand {
    fn copied(&self, alloc: Global) -> Result<Operand, Memory> {
        self.copy(alloc)
    }
}

impl Same for Operand {
    #[cycle(comparisons)]
    fn is(&self, other: &Operand) -> bool {
        match (self, other) {
            (Operand::Reg(name), Operand::Reg(other_name)) => name.is(other_name),
            (Operand::Const(constant), Operand::Const(other_constant)) => constant.is(
                other_constant,
            ),
            _ => false,
        }
    }
}

impl PartialEq for Operand {
    ghost eq = { same_operand };

    ghost laws = { same_operand-laws };

    fn eq(&self, other: &Operand) -> bool
        ensures value { result ≡ same_operand self.now other.now }
        ensures same { IsTrue result ↔ (self.now ≡ other.now) }
    {
        self.is(other)
    }
}
