ghost use Rattle.std.specs.Prelude.{◌≡◌, ◌+◌, ◌%◌, ◌^◌, IfOk, MatchBool, Some, None, slice_get};
ghost use Rattle.std.specs.Option.{option_copied};
ghost use Rattle.type_metadata.specs.Counted.{AreCounted};
ghost use Rattle.ir_memories.specs.Symbolic as symbols;

use crate::cells::{Cell, cells_in, is_stored, read, write};
use crate::memory::Memory;
use crate::values::{Goal, NoMemory, Value};
use ir_values::{Linkage, Module, Ty, TypeId};
use ltt_base::{Copied, List, Text};
use std::alloc::Global;
use type_metadata::{Denoted, Item, Listing, Object, Types, is_same_object};

/// A pointer of the source: null, or an object and an offset modulo 2^64.
///
/// Null moved by a sum other than 0 is that offset in `NOWHERE`, an object without extent.
#[derive(Clone, Copy)]
pub enum SPtr {
    Null,
    At(Object, u64),
}

/// The object in which null is moved. No file has the number 0.
pub(crate) const NOWHERE: Object = Object {
    file: 0,
    function: false,
    index: 0,
};

/// What an item holds: `cells` are those of a variable that is defined.
#[derive(Drop)]
pub struct Space {
    pub extent: u64,
    pub constant: bool,
    pub cells: List<Cell>,
}

/// The memory of source modules: their items, and beside each what it holds.
#[derive(Drop)]
pub struct Symbolic {
    pub items: Listing,
    pub spaces: List<Space>,
    pub types: Types,
}

impl Symbolic {
    fn space(&self, object: Object) -> Option<&Space>
        ensures { option_copied result ≡ symbols.space_of self.now object }
    {
        match place_of(&self.items, object) {
            Some(at) => self.spaces.get(at),
            None => None,
        }
    }

    fn extent(&self, object: Object) -> u64
        ensures { result ≡ symbols.extent_in self.now object }
    {
        match self.space(object) {
            Some(space) => space.extent,
            None => 0,
        }
    }

    /// Puts a value at an offset of the item at a place.
    fn put(&mut self, at: usize, v: &Value<SPtr>, offset: u64) -> bool
        ensures { MatchBool result (symbols.store_in self.old v.now offset at (slice_get self.old.spaces at) ≡ Some self.new)
            ((symbols.store_in self.old v.now offset at (slice_get self.old.spaces at) ≡ None) × (self.new ≡ self.old)) }
    {
        match self.spaces.get(at) {
            Some(space) => {
                if !may_store(space, v, offset) {
                    return false;
                }
            }
            None => return false,
        }
        let space = self.spaces.at_mut(at);
        write(&mut space.cells, offset as usize, v);
        true
    }

    fn is_inside(&self, p: SPtr) -> bool
        ensures { result ≡ symbols.is_inside self.now p }
    {
        match p {
            SPtr::Null => true,
            SPtr::At(object, offset) => offset < self.extent(object),
        }
    }
}

fn may_store(space: &Space, v: &Value<SPtr>, offset: u64) -> bool
    ensures { result ≡ symbols.may_store space.now v.now offset }
{
    let len = space.cells.len() as u64;
    if space.constant || !is_stored(v) || offset > len {
        return false;
    }
    cells_in(v) as u64 <= len - offset
}

/// The place of an object among items.
fn place_of(items: &Listing, object: Object) -> Option<usize>
    ensures { result ≡ symbols.place_of object 0 items.now }
{
    items.place_of(object)
}

fn moved(p: SPtr, by: u64) -> SPtr
    ensures { result ≡ symbols.moved p by }
{
    match p {
        SPtr::Null => from_nowhere(by),
        SPtr::At(object, offset) => {
            let end = offset.wrapping_add(by);
            if is_same_object(object, NOWHERE) {
                from_nowhere(end)
            } else {
                SPtr::At(object, end)
            }
        }
    }
}

fn from_nowhere(offset: u64) -> SPtr
    ensures { result ≡ symbols.from_nowhere offset }
{
    if offset == 0 {
        SPtr::Null
    } else {
        SPtr::At(NOWHERE, offset)
    }
}

/// The object of a name in a file: that of its definition, or its first declaration.
fn object_of(items: &Listing, file: u32, name: &[u8]) -> Option<Object>
    ensures { result ≡ symbols.object_of items.now file name.now }
{
    match items.denoted(file, name) {
        Denoted::Item(object) => Some(object),
        Denoted::External => items.declared(name),
    }
}

pub(crate) fn pointer_to(items: &Listing, file: u32, name: &[u8], offset: u64) -> SPtr
    ensures { result ≡ symbols.pointer_to items.now file name.now offset }
{
    match object_of(items, file, name) {
        Some(object) => SPtr::At(object, offset),
        None => from_nowhere(offset),
    }
}

fn is_one(a: SPtr, b: SPtr) -> bool
    ensures { result ≡ symbols.is_one a b }
{
    match (a, b) {
        (SPtr::Null, SPtr::Null) => true,
        (SPtr::At(one, _), SPtr::At(other, _)) => is_same_object(one, other),
        _ => false,
    }
}

fn offset_of(p: SPtr) -> u64
    ensures { result ≡ symbols.offset_of p }
{
    match p {
        SPtr::Null => 0,
        SPtr::At(_, offset) => offset,
    }
}

/// What a call of an item leads to.
fn goal_of(alloc: Global, item: &Item) -> Result<Option<Goal>, NoMemory>
    ensures { IfOk result (λ goal. goal ≡ symbols.goal_of item.now) }
{
    if !item.object.function {
        return Ok(None);
    }
    match item.linkage {
        Linkage::External => match item.name.copied(alloc) {
            Ok(name) => Ok(Some(Goal::External(name))),
            Err(_) => Err(NoMemory),
        },
        _ => Ok(Some(Goal::Defined(item.object))),
    }
}

impl Memory for Symbolic {
    type Pointer = SPtr;

    ghost use Rattle.ir_memories.specs.Symbolic.{symbolic};

    ghost model = { symbolic };

    fn null(&self) -> SPtr {
        SPtr::Null
    }

    fn address(&self, file: u32, name: &[u8], offset: u64) -> SPtr {
        pointer_to(&self.items, file, name, offset)
    }

    fn moved(&self, p: SPtr, by: u64) -> SPtr {
        moved(p, by)
    }

    fn load(&self, ty: &Ty, p: SPtr) -> Option<Value<SPtr>> {
        match p {
            SPtr::Null => None,
            SPtr::At(object, offset) => match self.space(object) {
                Some(space) => read(ty, space.cells.items(), offset),
                None => None,
            },
        }
    }

    fn store(&mut self, v: &Value<SPtr>, p: SPtr) -> bool
        ensures { MatchBool result (symbols.store self.old v.now p ≡ Some self.new)
            ((symbols.store self.old v.now p ≡ None) × (self.new ≡ self.old)) }
    {
        match p {
            SPtr::Null => false,
            SPtr::At(object, offset) => match place_of(&self.items, object) {
                Some(at) => self.put(at, v, offset),
                None => false,
            },
        }
    }

    fn equal(&self, a: SPtr, b: SPtr) -> Option<bool> {
        if is_one(a, b) {
            Some(offset_of(a) == offset_of(b))
        } else if self.is_inside(a) && self.is_inside(b) {
            Some(false)
        } else {
            None
        }
    }

    fn test(&self, id: &TypeId, p: SPtr) -> Option<bool> {
        match p {
            SPtr::Null => Some(false),
            SPtr::At(object, offset) => {
                if offset < self.extent(object) {
                    Some(self.types.carries(id, object, offset))
                } else {
                    None
                }
            }
        }
    }

    fn goal(&self, alloc: Global, p: SPtr) -> Result<Option<Goal>, NoMemory> {
        let SPtr::At(object, 0) = p else {
            return Ok(None);
        };
        match place_of(&self.items, object) {
            Some(at) => match self.items.items().get(at) {
                Some(item) => goal_of(alloc, item),
                None => Ok(None),
            },
            None => Ok(None),
        }
    }

    fn number(&self, _p: SPtr) -> Option<u64> {
        None
    }
}
