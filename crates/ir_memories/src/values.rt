use ir_values::Width;
use ltt_base::Text;
use type_metadata::Object;

/// Want of memory. `Memory` is here the name of the trait.
#[derive(Clone, Copy)]
pub struct NoMemory;

/// A value: an integer of a width, a pointer, or the result of a checked load.
#[derive(Clone, Copy)]
pub enum Value<P: Copy> {
    Int(Width, u64),
    Ptr(P),
    Pair(P, bool),
}

/// What a called pointer leads to: a function that a module defines, or an external one by its name.
#[derive(Drop)]
pub enum Goal {
    Defined(Object),
    External(Text),
}
