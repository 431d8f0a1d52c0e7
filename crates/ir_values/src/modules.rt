ghost use Rattle.std.specs.Prelude.{◌≡◌, ◌↔◌, IsTrue, IfOk};
ghost use Rattle.ir_values.specs.Equality.{same_type_id, same_type_id-laws, same_entry, same_entry-laws, same_block, same_block-laws, same_func, same_func-laws, same_var, same_var-laws, same_jump, same_jump-laws, same_module, same_module-laws};

use crate::constants::Const;
use crate::instructions::Inst;
use crate::types::{FuncTy, Ty};
use ltt_base::{Copied, List, Memory, Place, Same, Text};
use std::alloc::Global;

/// A type identifier: a string, shared by all modules, or a distinct node of one module, by the number
/// of its file, from 1, and its own.
///
/// Source: LLVM, "Type Metadata", "Type identifiers".
#[derive(Drop)]
pub enum TypeId {
    Name(Text),
    Node(u32, u32),
}

impl TypeId {
    /// An equal identifier.
    pub fn copy(&self, alloc: Global) -> Result<TypeId, Memory>
        ensures { IfOk result (λ copy. copy ≡ self.now) }
    {
        match self {
            TypeId::Name(name) => Ok(TypeId::Name(name.copied(alloc)?)),
            TypeId::Node(file, number) => Ok(TypeId::Node(*file, *number)),
        }
    }
}

impl Copied for TypeId {
    fn copied(&self, alloc: Global) -> Result<TypeId, Memory> {
        self.copy(alloc)
    }
}

impl Same for TypeId {
    fn is(&self, other: &TypeId) -> bool {
        match (self, other) {
            (TypeId::Name(name), TypeId::Name(other_name)) => name.is(other_name),
            (TypeId::Node(file, number), TypeId::Node(other_file, other_number)) => {
                file == other_file && number == other_number
            }
            _ => false,
        }
    }
}

impl PartialEq for TypeId {
    ghost eq = { same_type_id };

    ghost laws = { same_type_id-laws };

    fn eq(&self, other: &TypeId) -> bool
        ensures value { result ≡ same_type_id self.now other.now }
        ensures same { IsTrue result ↔ (self.now ≡ other.now) }
    {
        self.is(other)
    }
}

/// That the address `offset` bytes from the start of an object belongs to a type identifier.
///
/// Source: LLVM, "Type Metadata".
#[derive(Drop)]
pub struct Entry {
    pub offset: u64,
    pub id: TypeId,
}

impl Entry {
    /// An equal entry.
    pub fn copy(&self, alloc: Global) -> Result<Entry, Memory>
        ensures { IfOk result (λ copy. copy ≡ self.now) }
    {
        Ok(Entry {
            offset: self.offset,
            id: self.id.copy(alloc)?,
        })
    }
}

impl Copied for Entry {
    fn copied(&self, alloc: Global) -> Result<Entry, Memory> {
        self.copy(alloc)
    }
}

impl Same for Entry {
    fn is(&self, other: &Entry) -> bool {
        self.offset == other.offset && self.id.is(&other.id)
    }
}

impl PartialEq for Entry {
    ghost eq = { same_entry };

    ghost laws = { same_entry-laws };

    fn eq(&self, other: &Entry) -> bool
        ensures value { result ≡ same_entry self.now other.now }
        ensures same { IsTrue result ↔ (self.now ≡ other.now) }
    {
        self.is(other)
    }
}

/// Which definitions of a name are one. `External` is a declaration.
///
/// Source: LLVM Language Reference, "Linkage Types".
#[derive(Clone, Copy, PartialEq, Eq)]
pub enum Linkage {
    Private,
    Strong,
    Weak,
    External,
}

impl Same for Linkage {
    fn is(&self, other: &Linkage) -> bool {
        *self == *other
    }
}

/// A block: its label, without the colon, and its instructions.
#[derive(Drop)]
pub struct Block {
    pub label: Text,
    pub insts: List<Inst>,
}

impl Block {
    /// An equal block.
    pub fn copy(&self, alloc: Global) -> Result<Block, Memory>
        ensures { IfOk result (λ copy. copy ≡ self.now) }
    {
        Ok(Block {
            label: self.label.copied(alloc)?,
            insts: self.insts.copied(alloc)?,
        })
    }
}

impl Copied for Block {
    fn copied(&self, alloc: Global) -> Result<Block, Memory> {
        self.copy(alloc)
    }
}

impl Same for Block {
    fn is(&self, other: &Block) -> bool {
        self.label.is(&other.label) && self.insts.is(&other.insts)
    }
}

impl PartialEq for Block {
    ghost eq = { same_block };

    ghost laws = { same_block-laws };

    fn eq(&self, other: &Block) -> bool
        ensures value { result ≡ same_block self.now other.now }
        ensures same { IsTrue result ↔ (self.now ≡ other.now) }
    {
        self.is(other)
    }
}

/// A function. A declaration has no blocks.
#[derive(Drop)]
pub struct Func {
    pub place: Place,
    pub name: Text,
    pub linkage: Linkage,
    pub fty: FuncTy,
    pub params: List<Text>,
    pub blocks: List<Block>,
    pub entries: List<Entry>,
}

impl Func {
    /// An equal function.
    pub fn copy(&self, alloc: Global) -> Result<Func, Memory>
        ensures { IfOk result (λ copy. copy ≡ self.now) }
    {
        Ok(Func {
            place: self.place,
            name: self.name.copied(alloc)?,
            linkage: self.linkage,
            fty: self.fty.copy(alloc)?,
            params: self.params.copied(alloc)?,
            blocks: self.blocks.copied(alloc)?,
            entries: self.entries.copied(alloc)?,
        })
    }
}

impl Copied for Func {
    fn copied(&self, alloc: Global) -> Result<Func, Memory> {
        self.copy(alloc)
    }
}

impl Same for Func {
    fn is(&self, other: &Func) -> bool {
        self.place.is(&other.place)
            && self.name.is(&other.name)
            && self.linkage.is(&other.linkage)
            && self.fty.is(&other.fty)
            && self.params.is(&other.params)
            && self.blocks.is(&other.blocks)
            && self.entries.is(&other.entries)
    }
}

impl PartialEq for Func {
    ghost eq = { same_func };

    ghost laws = { same_func-laws };

    fn eq(&self, other: &Func) -> bool
        ensures value { result ≡ same_func self.now other.now }
        ensures same { IsTrue result ↔ (self.now ≡ other.now) }
    {
        self.is(other)
    }
}

/// A variable. A declaration has no initialiser. `align` is in bytes, and 1 where none is written.
#[derive(Drop)]
pub struct Var {
    pub place: Place,
    pub name: Text,
    pub linkage: Linkage,
    pub constant: bool,
    pub ty: Ty,
    pub init: Option<Const>,
    pub align: u64,
    pub entries: List<Entry>,
    pub visibility: u8,
}

impl Var {
    /// An equal variable.
    pub fn copy(&self, alloc: Global) -> Result<Var, Memory>
        ensures { IfOk result (λ copy. copy ≡ self.now) }
    {
        Ok(Var {
            place: self.place,
            name: self.name.copied(alloc)?,
            linkage: self.linkage,
            constant: self.constant,
            ty: self.ty.copy(alloc)?,
            init: Copied::copied(&self.init, alloc)?,
            align: self.align,
            entries: self.entries.copied(alloc)?,
            visibility: self.visibility,
        })
    }
}

impl Copied for Var {
    fn copied(&self, alloc: Global) -> Result<Var, Memory> {
        self.copy(alloc)
    }
}

impl Same for Var {
    fn is(&self, other: &Var) -> bool {
        self.place.is(&other.place)
            && self.name.is(&other.name)
            && self.linkage.is(&other.linkage)
            && self.constant == other.constant
            && self.ty.is(&other.ty)
            && self.init.is(&other.init)
            && self.align == other.align
            && self.entries.is(&other.entries)
            && self.visibility == other.visibility
    }
}

impl PartialEq for Var {
    ghost eq = { same_var };

    ghost laws = { same_var-laws };

    fn eq(&self, other: &Var) -> bool
        ensures value { result ≡ same_var self.now other.now }
        ensures same { IsTrue result ↔ (self.now ≡ other.now) }
    {
        self.is(other)
    }
}

/// A jump table: entry k, of eight bytes, leads to function k.
///
/// Source: Clang, "Control Flow Integrity Design Documentation", "Forward-Edge CFI for Indirect Function Calls".
#[derive(Drop)]
pub struct Jump {
    pub place: Place,
    pub name: Text,
    pub funcs: List<Text>,
}

impl Jump {
    /// An equal jump table.
    pub fn copy(&self, alloc: Global) -> Result<Jump, Memory>
        ensures { IfOk result (λ copy. copy ≡ self.now) }
    {
        Ok(Jump {
            place: self.place,
            name: self.name.copied(alloc)?,
            funcs: self.funcs.copied(alloc)?,
        })
    }
}

impl Copied for Jump {
    fn copied(&self, alloc: Global) -> Result<Jump, Memory> {
        self.copy(alloc)
    }
}

impl Same for Jump {
    fn is(&self, other: &Jump) -> bool {
        self.place.is(&other.place) && self.name.is(&other.name) && self.funcs.is(&other.funcs)
    }
}

impl PartialEq for Jump {
    ghost eq = { same_jump };

    ghost laws = { same_jump-laws };

    fn eq(&self, other: &Jump) -> bool
        ensures value { result ≡ same_jump self.now other.now }
        ensures same { IsTrue result ↔ (self.now ≡ other.now) }
    {
        self.is(other)
    }
}

/// A module: its variables, functions and jump tables, each in text order.
#[derive(Drop)]
pub struct Module {
    pub vars: List<Var>,
    pub funcs: List<Func>,
    pub jumps: List<Jump>,
}

impl Module {
    /// An equal module.
    pub fn copy(&self, alloc: Global) -> Result<Module, Memory>
        ensures { IfOk result (λ copy. copy ≡ self.now) }
    {
        Ok(Module {
            vars: self.vars.copied(alloc)?,
            funcs: self.funcs.copied(alloc)?,
            jumps: self.jumps.copied(alloc)?,
        })
    }
}

impl Copied for Module {
    fn copied(&self, alloc: Global) -> Result<Module, Memory> {
        self.copy(alloc)
    }
}

impl Same for Module {
    fn is(&self, other: &Module) -> bool {
        self.vars.is(&other.vars) && self.funcs.is(&other.funcs) && self.jumps.is(&other.jumps)
    }
}

impl PartialEq for Module {
    ghost eq = { same_module };

    ghost laws = { same_module-laws };

    fn eq(&self, other: &Module) -> bool
        ensures value { result ≡ same_module self.now other.now }
        ensures same { IsTrue result ↔ (self.now ≡ other.now) }
    {
        self.is(other)
    }
}
