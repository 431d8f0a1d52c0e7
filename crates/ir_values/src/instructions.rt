ghost use Rattle.std.specs.Prelude.{◌≡◌, ◌↔◌, IsTrue, IfOk};
ghost use Rattle.ir_values.specs.Equality.{same_callee, same_callee-laws, same_inst, same_inst-laws};

use crate::constants::Operand;
use crate::modules::TypeId;
use crate::types::{FuncTy, Ty, Width};
use ltt_base::{Copied, List, Memory, Same, Text};
use std::alloc::Global;

/// An operation on two integers of one width.
///
/// Source: LLVM Language Reference, "Binary Operations" and "Bitwise Binary Operations".
#[derive(Clone, Copy, PartialEq, Eq)]
pub enum BinOp {
    Add,
    Sub,
    Mul,
    UDiv,
    SDiv,
    URem,
    SRem,
    Shl,
    LShr,
    AShr,
    And,
    Or,
    Xor,
}

impl Same for BinOp {
    fn is(&self, other: &BinOp) -> bool {
        *self == *other
    }
}

/// A comparison of two integers.
///
/// Source: LLVM Language Reference, "'icmp' Instruction".
#[derive(Clone, Copy, PartialEq, Eq)]
pub enum Pred {
    Eq,
    Ne,
    Ugt,
    Uge,
    Ult,
    Ule,
    Sgt,
    Sge,
    Slt,
    Sle,
}

impl Same for Pred {
    fn is(&self, other: &Pred) -> bool {
        *self == *other
    }
}

/// A change of an integer's width.
///
/// Source: LLVM Language Reference, "Conversion Operations".
#[derive(Clone, Copy, PartialEq, Eq)]
pub enum CastOp {
    Zext,
    Sext,
    Trunc,
}

impl Same for CastOp {
    fn is(&self, other: &CastOp) -> bool {
        *self == *other
    }
}

/// What a call calls: a function by its name, or a pointer.
#[derive(Drop)]
pub enum Callee {
    Function(Text),
    Value(Operand),
}

impl Callee {
    /// An equal callee.
    pub fn copy(&self, alloc: Global) -> Result<Callee, Memory>
        ensures { IfOk result (λ copy. copy ≡ self.now) }
    {
        match self {
            Callee::Function(name) => Ok(Callee::Function(name.copied(alloc)?)),
            Callee::Value(pointer) => Ok(Callee::Value(pointer.copy(alloc)?)),
        }
    }
}

impl Copied for Callee {
    fn copied(&self, alloc: Global) -> Result<Callee, Memory> {
        self.copy(alloc)
    }
}

impl Same for Callee {
    fn is(&self, other: &Callee) -> bool {
        match (self, other) {
            (Callee::Function(name), Callee::Function(other_name)) => name.is(other_name),
            (Callee::Value(pointer), Callee::Value(other_pointer)) => pointer.is(other_pointer),
            _ => false,
        }
    }
}

impl PartialEq for Callee {
    ghost eq = { same_callee };

    ghost laws = { same_callee-laws };

    fn eq(&self, other: &Callee) -> bool
        ensures value { result ≡ same_callee self.now other.now }
        ensures same { IsTrue result ↔ (self.now ≡ other.now) }
    {
        self.is(other)
    }
}

/// An instruction. `dst` is the register that it sets.
///
/// `Test` is `llvm.type.test`, and `PublicTest` `llvm.public.type.test`, which no module holds so far.
/// `Number` is `ptrtoint ptr` to i64 and `Rotate` `llvm.fshr.i64` of one value twice: both stand in
/// outputs alone.
///
/// Source: LLVM Language Reference, "Instruction Reference" and "Intrinsic Functions".
#[derive(Drop)]
pub enum Inst {
    Binary {
        dst: Text,
        op: BinOp,
        width: Width,
        a: Operand,
        b: Operand,
    },
    Compare {
        dst: Text,
        pred: Pred,
        ty: Ty,
        a: Operand,
        b: Operand,
    },
    Select {
        dst: Text,
        cond: Operand,
        ty: Ty,
        a: Operand,
        b: Operand,
    },
    Cast {
        dst: Text,
        op: CastOp,
        from: Width,
        a: Operand,
        to: Width,
    },
    Gep {
        dst: Text,
        ty: Ty,
        base: Operand,
        index: List<(Width, Operand)>,
    },
    Load {
        dst: Text,
        ty: Ty,
        addr: Operand,
    },
    Store {
        ty: Ty,
        value: Operand,
        addr: Operand,
    },
    Call {
        dst: Option<Text>,
        fty: FuncTy,
        callee: Callee,
        args: List<Operand>,
    },
    Extract {
        dst: Text,
        pair: Text,
        part: u8,
    },
    Phi {
        dst: Text,
        ty: Ty,
        arms: List<(Operand, Text)>,
    },
    Br {
        to: Text,
    },
    CondBr {
        cond: Operand,
        yes: Text,
        no: Text,
    },
    Switch {
        width: Width,
        value: Operand,
        other: Text,
        cases: List<(u64, Text)>,
    },
    Ret {
        ty: Ty,
        value: Option<Operand>,
    },
    Unreachable,
    Trap {
        code: Option<u8>,
    },
    Test {
        dst: Text,
        ptr: Operand,
        id: TypeId,
    },
    PublicTest {
        dst: Text,
        ptr: Operand,
        id: TypeId,
    },
    Assume {
        cond: Operand,
    },
    CheckedLoad {
        dst: Text,
        ptr: Operand,
        offset: i32,
        id: TypeId,
    },
    Number {
        dst: Text,
        ptr: Operand,
    },
    Rotate {
        dst: Text,
        value: Operand,
        by: u8,
    },
}

impl Inst {
    /// An equal instruction.
    pub fn copy(&self, alloc: Global) -> Result<Inst, Memory>
        ensures { IfOk result (λ copy. copy ≡ self.now) }
    {
        match self {
            Inst::Binary {
                dst,
                op,
                width,
                a,
                b,
            } => Ok(Inst::Binary {
                dst: dst.copied(alloc)?,
                op: *op,
                width: *width,
                a: a.copy(alloc)?,
                b: b.copy(alloc)?,
            }),
            Inst::Compare {
                dst,
                pred,
                ty,
                a,
                b,
            } => Ok(Inst::Compare {
                dst: dst.copied(alloc)?,
                pred: *pred,
                ty: ty.copy(alloc)?,
                a: a.copy(alloc)?,
                b: b.copy(alloc)?,
            }),
            Inst::Select {
                dst,
                cond,
                ty,
                a,
                b,
            } => Ok(Inst::Select {
                dst: dst.copied(alloc)?,
                cond: cond.copy(alloc)?,
                ty: ty.copy(alloc)?,
                a: a.copy(alloc)?,
                b: b.copy(alloc)?,
            }),
            Inst::Cast {
                dst,
                op,
                from,
                a,
                to,
            } => Ok(Inst::Cast {
                dst: dst.copied(alloc)?,
                op: *op,
                from: *from,
                a: a.copy(alloc)?,
                to: *to,
            }),
            Inst::Gep {
                dst,
                ty,
                base,
                index,
            } => Ok(Inst::Gep {
                dst: dst.copied(alloc)?,
                ty: ty.copy(alloc)?,
                base: base.copy(alloc)?,
                index: index.copied(alloc)?,
            }),
            Inst::Load { dst, ty, addr } => Ok(Inst::Load {
                dst: dst.copied(alloc)?,
                ty: ty.copy(alloc)?,
                addr: addr.copy(alloc)?,
            }),
            Inst::Store { ty, value, addr } => Ok(Inst::Store {
                ty: ty.copy(alloc)?,
                value: value.copy(alloc)?,
                addr: addr.copy(alloc)?,
            }),
            Inst::Call {
                dst,
                fty,
                callee,
                args,
            } => Ok(Inst::Call {
                dst: Copied::copied(dst, alloc)?,
                fty: fty.copy(alloc)?,
                callee: callee.copy(alloc)?,
                args: args.copied(alloc)?,
            }),
            Inst::Extract { dst, pair, part } => Ok(Inst::Extract {
                dst: dst.copied(alloc)?,
                pair: pair.copied(alloc)?,
                part: *part,
            }),
            Inst::Phi { dst, ty, arms } => Ok(Inst::Phi {
                dst: dst.copied(alloc)?,
                ty: ty.copy(alloc)?,
                arms: arms.copied(alloc)?,
            }),
            Inst::Br { to } => Ok(Inst::Br {
                to: to.copied(alloc)?,
            }),
            Inst::CondBr { cond, yes, no } => Ok(Inst::CondBr {
                cond: cond.copy(alloc)?,
                yes: yes.copied(alloc)?,
                no: no.copied(alloc)?,
            }),
            Inst::Switch {
                width,
                value,
                other,
                cases,
            } => Ok(Inst::Switch {
                width: *width,
                value: value.copy(alloc)?,
                other: other.copied(alloc)?,
                cases: cases.copied(alloc)?,
            }),
            Inst::Ret { ty, value } => Ok(Inst::Ret {
                ty: ty.copy(alloc)?,
                value: Copied::copied(value, alloc)?,
            }),
            Inst::Unreachable => Ok(Inst::Unreachable),
            Inst::Trap { code } => Ok(Inst::Trap { code: *code }),
            Inst::Test { dst, ptr, id } => Ok(Inst::Test {
                dst: dst.copied(alloc)?,
                ptr: ptr.copy(alloc)?,
                id: id.copy(alloc)?,
            }),
            Inst::PublicTest { dst, ptr, id } => Ok(Inst::PublicTest {
                dst: dst.copied(alloc)?,
                ptr: ptr.copy(alloc)?,
                id: id.copy(alloc)?,
            }),
            Inst::Assume { cond } => Ok(Inst::Assume {
                cond: cond.copy(alloc)?,
            }),
            Inst::CheckedLoad {
                dst,
                ptr,
                offset,
                id,
            } => Ok(Inst::CheckedLoad {
                dst: dst.copied(alloc)?,
                ptr: ptr.copy(alloc)?,
                offset: *offset,
                id: id.copy(alloc)?,
            }),
            Inst::Number { dst, ptr } => Ok(Inst::Number {
                dst: dst.copied(alloc)?,
                ptr: ptr.copy(alloc)?,
            }),
            Inst::Rotate { dst, value, by } => Ok(Inst::Rotate {
                dst: dst.copied(alloc)?,
                value: value.copy(alloc)?,
                by: *by,
            }),
        }
    }
}

impl Copied for Inst {
    fn copied(&self, alloc: Global) -> Result<Inst, Memory> {
        self.copy(alloc)
    }
}

impl Same for Inst {
    fn is(&self, other: &Inst) -> bool {
        match self {
            Inst::Binary {
                dst,
                op,
                width,
                a,
                b,
            } => match other {
                Inst::Binary {
                    dst: other_dst,
                    op: other_op,
                    width: other_width,
                    a: other_a,
                    b: other_b,
                } => dst.is(other_dst)
                    && op.is(other_op)
                    && width.is(other_width)
                    && a.is(other_a)
                    && b.is(other_b),
                _ => false,
            },
            Inst::Compare {
                dst,
                pred,
                ty,
                a,
                b,
            } => match other {
                Inst::Compare {
                    dst: other_dst,
                    pred: other_pred,
                    ty: other_ty,
                    a: other_a,
                    b: other_b,
                } => dst.is(other_dst)
                    && pred.is(other_pred)
                    && ty.is(other_ty)
                    && a.is(other_a)
                    && b.is(other_b),
                _ => false,
            },
            Inst::Select {
                dst,
                cond,
                ty,
                a,
                b,
            } => match other {
                Inst::Select {
                    dst: other_dst,
                    cond: other_cond,
                    ty: other_ty,
                    a: other_a,
                    b: other_b,
                } => dst.is(other_dst)
                    && cond.is(other_cond)
                    && ty.is(other_ty)
                    && a.is(other_a)
                    && b.is(other_b),
                _ => false,
            },
            Inst::Cast {
                dst,
                op,
                from,
                a,
                to,
            } => match other {
                Inst::Cast {
                    dst: other_dst,
                    op: other_op,
                    from: other_from,
                    a: other_a,
                    to: other_to,
                } => dst.is(other_dst)
                    && op.is(other_op)
                    && from.is(other_from)
                    && a.is(other_a)
                    && to.is(other_to),
                _ => false,
            },
            Inst::Gep {
                dst,
                ty,
                base,
                index,
            } => match other {
                Inst::Gep {
                    dst: other_dst,
                    ty: other_ty,
                    base: other_base,
                    index: other_index,
                } => dst.is(other_dst)
                    && ty.is(other_ty)
                    && base.is(other_base)
                    && index.is(other_index),
                _ => false,
            },
            Inst::Load { dst, ty, addr } => match other {
                Inst::Load {
                    dst: other_dst,
                    ty: other_ty,
                    addr: other_addr,
                } => dst.is(other_dst) && ty.is(other_ty) && addr.is(other_addr),
                _ => false,
            },
            Inst::Store { ty, value, addr } => match other {
                Inst::Store {
                    ty: other_ty,
                    value: other_value,
                    addr: other_addr,
                } => ty.is(other_ty) && value.is(other_value) && addr.is(other_addr),
                _ => false,
            },
            Inst::Call {
                dst,
                fty,
                callee,
                args,
            } => match other {
                Inst::Call {
                    dst: other_dst,
                    fty: other_fty,
                    callee: other_callee,
                    args: other_args,
                } => dst.is(other_dst)
                    && fty.is(other_fty)
                    && callee.is(other_callee)
                    && args.is(other_args),
                _ => false,
            },
            Inst::Extract { dst, pair, part } => match other {
                Inst::Extract {
                    dst: other_dst,
                    pair: other_pair,
                    part: other_part,
                } => dst.is(other_dst) && pair.is(other_pair) && part == other_part,
                _ => false,
            },
            Inst::Phi { dst, ty, arms } => match other {
                Inst::Phi {
                    dst: other_dst,
                    ty: other_ty,
                    arms: other_arms,
                } => dst.is(other_dst) && ty.is(other_ty) && arms.is(other_arms),
                _ => false,
            },
            Inst::Br { to } => match other {
                Inst::Br { to: other_to } => to.is(other_to),
                _ => false,
            },
            Inst::CondBr { cond, yes, no } => match other {
                Inst::CondBr {
                    cond: other_cond,
                    yes: other_yes,
                    no: other_no,
                } => cond.is(other_cond) && yes.is(other_yes) && no.is(other_no),
                _ => false,
            },
            Inst::Switch {
                width,
                value,
                other: fallback,
                cases,
            } => match other {
                Inst::Switch {
                    width: other_width,
                    value: other_value,
                    other: other_fallback,
                    cases: other_cases,
                } => width.is(other_width)
                    && value.is(other_value)
                    && fallback.is(other_fallback)
                    && cases.is(other_cases),
                _ => false,
            },
            Inst::Ret { ty, value } => match other {
                Inst::Ret {
                    ty: other_ty,
                    value: other_value,
                } => ty.is(other_ty) && value.is(other_value),
                _ => false,
            },
            Inst::Unreachable => match other {
                Inst::Unreachable => true,
                _ => false,
            },
            Inst::Trap { code } => match other {
                Inst::Trap { code: other_code } => code.is(other_code),
                _ => false,
            },
            Inst::Test { dst, ptr, id } => match other {
                Inst::Test {
                    dst: other_dst,
                    ptr: other_ptr,
                    id: other_id,
                } => dst.is(other_dst) && ptr.is(other_ptr) && id.is(other_id),
                _ => false,
            },
            Inst::PublicTest { dst, ptr, id } => match other {
                Inst::PublicTest {
                    dst: other_dst,
                    ptr: other_ptr,
                    id: other_id,
                } => dst.is(other_dst) && ptr.is(other_ptr) && id.is(other_id),
                _ => false,
            },
            Inst::Assume { cond } => match other {
                Inst::Assume { cond: other_cond } => cond.is(other_cond),
                _ => false,
            },
            Inst::CheckedLoad {
                dst,
                ptr,
                offset,
                id,
            } => match other {
                Inst::CheckedLoad {
                    dst: other_dst,
                    ptr: other_ptr,
                    offset: other_offset,
                    id: other_id,
                } => dst.is(other_dst)
                    && ptr.is(other_ptr)
                    && offset == other_offset
                    && id.is(other_id),
                _ => false,
            },
            Inst::Number { dst, ptr } => match other {
                Inst::Number {
                    dst: other_dst,
                    ptr: other_ptr,
                } => dst.is(other_dst) && ptr.is(other_ptr),
                _ => false,
            },
            Inst::Rotate { dst, value, by } => match other {
                Inst::Rotate {
                    dst: other_dst,
                    value: other_value,
                    by: other_by,
                } => dst.is(other_dst) && value.is(other_value) && by == other_by,
                _ => false,
            },
        }
    }
}

impl PartialEq for Inst {
    ghost eq = { same_inst };

    ghost laws = { same_inst-laws };

    fn eq(&self, other: &Inst) -> bool
        ensures value { result ≡ same_inst self.now other.now }
        ensures same { IsTrue result ↔ (self.now ≡ other.now) }
    {
        self.is(other)
    }
}
