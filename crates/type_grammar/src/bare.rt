ghost use Rattle.std.specs.Prelude.{◌≡◌, IfOk};
ghost use Rattle.type_grammar.specs.Names.{at_type};

use crate::numbers::int_of;
use ir_values::{Const, Ty};
use ltt_base::{Memory, Text};
use std::alloc::Global;

/// A constant before its type is known: a number by its text, `zeroinitializer`, or a constant that is the same at each type.
#[derive(Drop)]
pub enum Bare {
    Number(Text),
    Zero,
    Plain(Const),
}

fn number_at(ty: &Ty, bytes: Text) -> Const
    ensures { result ≡ at_type ty.now (Bare.Number bytes) }
{
    if let Ty::Int(width) = ty {
        if let Some(value) = int_of(*width, bytes.bytes()) {
            return Const::Int(*width, value);
        }
    }
    Const::Left(bytes)
}

/// The constant that stands behind a type. A number that the type can't hold, or that isn't written at an integer type, is left out.
pub fn at_type(alloc: Global, ty: &Ty, bare: Bare) -> Result<Const, Memory>
    ensures { IfOk result (λ constant. constant ≡ at_type ty.now bare) }
{
    match bare {
        Bare::Number(bytes) => Ok(number_at(ty, bytes)),
        Bare::Zero => Ok(Const::Zero(ty.copy(alloc)?)),
        Bare::Plain(constant) => Ok(constant),
    }
}
