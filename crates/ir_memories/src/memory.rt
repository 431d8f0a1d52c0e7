ghost use Rattle.std.specs.Prelude.{◌≡◌, IfOk, MatchBool, Some, None};
ghost use Rattle.ir_memories.specs.Model.{Model};

use crate::values::{Goal, NoMemory, Value};
use ir_values::{Ty, TypeId};
use std::alloc::Global;

/// A memory: what pointers are, what they lead to, and what stands there. None and false mean an undefined step.
pub trait Memory: Drop {
    type Pointer: Copy + Drop;

    /// What the memory means.
    ghost model: { Model Self Self.Pointer };

    /// The null pointer.
    fn null(&self) -> Self::Pointer
        ensures { result ≡ model.null };

    /// The address `offset` bytes from the start of what the name denotes in the module of a file, from 1.
    fn address(&self, file: u32, name: &[u8], offset: u64) -> Self::Pointer
        ensures { result ≡ model.address self.now file name.now offset };

    /// The pointer moved by so many bytes.
    fn moved(&self, p: Self::Pointer, by: u64) -> Self::Pointer
        ensures { result ≡ model.moved p by };

    /// The value of a type that stands at a pointer.
    fn load(&self, ty: &Ty, p: Self::Pointer) -> Option<Value<Self::Pointer>>
        ensures { result ≡ model.load self.now ty.now p };

    /// Puts a value at a pointer.
    fn store(&mut self, v: &Value<Self::Pointer>, p: Self::Pointer) -> bool
        ensures { MatchBool result (model.store self.old v.now p ≡ Some self.new)
            ((model.store self.old v.now p ≡ None) × (self.new ≡ self.old)) };

    /// Whether two pointers are equal.
    fn equal(&self, a: Self::Pointer, b: Self::Pointer) -> Option<bool>
        ensures { result ≡ model.equal self.now a b };

    /// Whether a pointer is associated with a type identifier.
    fn test(&self, id: &TypeId, p: Self::Pointer) -> Option<bool>
        ensures { result ≡ model.test self.now id.now p };

    /// What a called pointer leads to.
    fn goal(&self, alloc: Global, p: Self::Pointer) -> Result<Option<Goal>, NoMemory>
        ensures { IfOk result (λ goal. goal ≡ model.goal self.now p) };

    /// The number of a pointer.
    fn number(&self, p: Self::Pointer) -> Option<u64>
        ensures { result ≡ model.number self.now p };
}
