ghost use Rattle.std.specs.Prelude.{◌≡◌, ◌↔◌, IsTrue};
ghost use Rattle.type_metadata.specs.Same.{same_object, same_carrier, same_id};

use ir_values::TypeId;
use ltt_base::Same;

/// A variable or a function of a list of modules: the number of its file, from 1, and its number among the
/// variables or the functions of that module, from 0.
#[derive(Clone, Copy)]
pub struct Object {
    pub file: u32,
    pub function: bool,
    pub index: u32,
}

impl Same for Object {
    fn is(&self, other: &Object) -> bool {
        self.file == other.file && self.function == other.function && self.index == other.index
    }
}

/// An object, and the offset in bytes at which it carries an identifier.
///
/// Source: LLVM, "Type Metadata".
#[derive(Clone, Copy)]
pub struct Carrier {
    pub object: Object,
    pub offset: u64,
}

impl Same for Carrier {
    fn is(&self, other: &Carrier) -> bool {
        self.object.is(&other.object) && self.offset == other.offset
    }
}

/// What a name denotes: an object that a module defines, or one from outside.
#[derive(Clone, Copy)]
pub enum Denoted {
    Item(Object),
    External,
}

/// Whether two objects are one.
pub fn is_same_object(one: Object, other: Object) -> bool
    ensures { result ≡ same_object one other }
{
    one.is(&other)
}

/// Whether two carriers are one.
pub(crate) fn is_same_carrier(one: Carrier, other: Carrier) -> bool
    ensures { result ≡ same_carrier one other }
{
    one.is(&other)
}

/// Whether two identifiers are one.
pub(crate) fn is_same_id(one: &TypeId, other: &TypeId) -> bool
    ensures { result ≡ same_id one.now other.now }
{
    one.is(other)
}
