ghost use Rattle.std.specs.Prelude.{◌≡◌, ◌↔◌, IsTrue, IfOk};
ghost use Rattle.ir_values.specs.Equality.{same_ty, same_ty-laws, same_func_ty, same_func_ty-laws};

use ltt_base::{Boxed, Copied, List, Memory, Same, Text};
use std::alloc::Global;

/// The width of an integer type, in bits.
#[derive(Clone, Copy, PartialEq, Eq)]
pub enum Width {
    W1,
    W8,
    W16,
    W32,
    W64,
}

impl Same for Width {
    fn is(&self, other: &Width) -> bool {
        *self == *other
    }
}

impl Copied for Width {
    fn copied(&self, _alloc: Global) -> Result<Width, Memory> {
        Ok(*self)
    }
}

/// A type.
///
/// `Pair` is `{ ptr, i1 }` where a checked load gives it. `Named` and `Left`, a type that is left out
/// with its text, stand in units alone.
///
/// Source: LLVM Language Reference, "Type System".
#[derive(Drop)]
pub enum Ty {
    Void,
    Int(Width),
    Ptr,
    Pair,
    Array(u64, Boxed<Ty>),
    Struct(List<Ty>),
    Named(Text),
    Left(Text),
}

impl Ty {
    /// An equal type.
    pub fn copy(&self, alloc: Global) -> Result<Ty, Memory>
        ensures { IfOk result (λ copy. copy ≡ self.now) }
    {
        match self {
            Ty::Void => Ok(Ty::Void),
            Ty::Int(width) => Ok(Ty::Int(*width)),
            Ty::Ptr => Ok(Ty::Ptr),
            Ty::Pair => Ok(Ty::Pair),
            Ty::Array(count, part) => {
                let part = part.get().copy(alloc)?;
                Ok(Ty::Array(*count, Boxed::new(alloc, part)?))
            }
            Ty::Struct(parts) => {
                let mut copies = List::new(alloc);
                for part in parts.items() {
                    copies.add(part.copy(alloc)?)?;
                }
                Ok(Ty::Struct(copies))
            }
            Ty::Named(name) => Ok(Ty::Named(name.copied(alloc)?)),
            Ty::Left(text) => Ok(Ty::Left(text.copied(alloc)?)),
        }
    }
}

impl Copied for Ty {
    fn copied(&self, alloc: Global) -> Result<Ty, Memory> {
        self.copy(alloc)
    }
}

impl Same for Ty {
    fn is(&self, other: &Ty) -> bool {
        match (self, other) {
            (Ty::Void, Ty::Void) => true,
            (Ty::Int(one), Ty::Int(two)) => one.is(two),
            (Ty::Ptr, Ty::Ptr) => true,
            (Ty::Pair, Ty::Pair) => true,
            (Ty::Array(one, part), Ty::Array(two, other_part)) => {
                one == two && part.get().is(other_part.get())
            }
            (Ty::Struct(parts), Ty::Struct(other_parts)) => {
                let ones = parts.items();
                let others = other_parts.items();
                if ones.len() != others.len() {
                    return false;
                }
                for at in 0..ones.len() {
                    if !ones[at].is(&others[at]) {
                        return false;
                    }
                }
                true
            }
            (Ty::Named(one), Ty::Named(two)) => one.is(two),
            (Ty::Left(one), Ty::Left(two)) => one.is(two),
            _ => false,
        }
    }
}

impl PartialEq for Ty {
    ghost eq = { same_ty };

    ghost laws = { same_ty-laws };

    fn eq(&self, other: &Ty) -> bool
        ensures value { result ≡ same_ty self.now other.now }
        ensures same { IsTrue result ↔ (self.now ≡ other.now) }
    {
        self.is(other)
    }
}

/// The type of a function.
#[derive(Drop)]
pub struct FuncTy {
    pub result: Ty,
    pub params: List<Ty>,
}

impl FuncTy {
    /// An equal type.
    pub fn copy(&self, alloc: Global) -> Result<FuncTy, Memory>
        ensures { IfOk result (λ copy. copy ≡ self.now) }
    {
        Ok(FuncTy {
            result: self.result.copy(alloc)?,
            params: self.params.copied(alloc)?,
        })
    }
}

impl Copied for FuncTy {
    fn copied(&self, alloc: Global) -> Result<FuncTy, Memory> {
        self.copy(alloc)
    }
}

impl Same for FuncTy {
    fn is(&self, other: &FuncTy) -> bool {
        self.result.is(&other.result) && self.params.is(&other.params)
    }
}

impl PartialEq for FuncTy {
    ghost eq = { same_func_ty };

    ghost laws = { same_func_ty-laws };

    fn eq(&self, other: &FuncTy) -> bool
        ensures value { result ≡ same_func_ty self.now other.now }
        ensures same { IsTrue result ↔ (self.now ≡ other.now) }
    {
        self.is(other)
    }
}
