ghost use Rattle.std.specs.Prelude.{◌≡◌, IfOk};
ghost use Rattle.ir_values.specs.declared.types.Ty.TheVariants.{Void, Ptr};
ghost use Rattle.check_operands.specs.Made as spec;

use ir_values::{Ty, Width};
use ltt_base::{List, Memory};
use std::alloc::Global;
use std::marker::Model;

/// Types that no unit writes, to be lent where one is asked for.
#[derive(Drop)]
pub struct Made {
    void: Ty,
    bit: Ty,
    long: Ty,
    pointer: Ty,
    pair: Ty,
}

impl Model for Made {
    ghost use Rattle.std.specs.Coded.{codes};
    ghost use Rattle.std.specs.Prelude.{◌≡◌};
    ghost use Rattle.ir_values.specs.declared.types.Ty.TheVariants.{Void, Ptr};
    ghost use Rattle.ir_values.specs.contracts.types.Ty as ty;
    ghost use Rattle.check_operands.specs.Made.{MadeTypes};
    ghost use Rattle.check_operands.specs.Made as spec;

    ghost Value = { MadeTypes };

    ghost coded = { Prim.hlevel (codes, ty.the_row.coded) };

    ghost view = { λ made. record {
      void = made.void;
      bit = made.bit;
      long = made.long;
      pointer = made.pointer;
      pair = made.pair;
    } };

    // each is the type that its name says
    ghost invariant = { λ made. (made.void ≡ Void) × (made.bit ≡ spec.bit) × (made.long ≡ spec.long) × (made.pointer ≡ Ptr) × (made.pair ≡ spec.pair) };
}

impl Made {
    /// The types.
    pub fn new(alloc: Global) -> Result<Made, Memory> {
        let mut parts = List::new(alloc);
        parts.add(Ty::Ptr)?;
        parts.add(Ty::Int(Width::W1))?;
        Ok(Made {
            void: Ty::Void,
            bit: Ty::Int(Width::W1),
            long: Ty::Int(Width::W64),
            pointer: Ty::Ptr,
            pair: Ty::Struct(parts),
        })
    }

    /// `void`.
    pub fn void(&self) -> &Ty
        ensures { result.now ≡ Void }
    {
        &self.void
    }

    /// `i1`.
    pub fn bit(&self) -> &Ty
        ensures { result.now ≡ spec.bit }
    {
        &self.bit
    }

    /// `i64`.
    pub fn long(&self) -> &Ty
        ensures { result.now ≡ spec.long }
    {
        &self.long
    }

    /// `ptr`.
    pub fn pointer(&self) -> &Ty
        ensures { result.now ≡ Ptr }
    {
        &self.pointer
    }

    /// `{ ptr, i1 }`.
    pub fn pair(&self) -> &Ty
        ensures { result.now ≡ spec.pair }
    {
        &self.pair
    }
}
