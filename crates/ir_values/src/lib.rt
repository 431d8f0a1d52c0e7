//! Types, constants, instructions, modules and units: the values that every layer above speaks of.
#![tactic(auto)]

mod constants;
mod instructions;
mod modules;
mod types;
mod units;

pub use constants::{Const, Operand};
pub use instructions::{BinOp, Callee, CastOp, Inst, Pred};
pub use modules::{Block, Entry, Func, Jump, Linkage, Module, TypeId, Var};
pub use types::{FuncTy, Ty, Width};
pub use units::{Arg, Attach, BranchText, EndText, Form, Head, HeaderKind, MetaItem, Param, Unit};
