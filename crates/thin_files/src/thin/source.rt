// The module that a thin file is.
ghost use Rattle.std.specs.Prelude.{◌≡◌, [], ◌∷◌, IfOk, Some, map};
ghost use Rattle.thin_files.specs.Thin as spec;

use crate::thin::{Second, Thin, Variable};
use ir_values::{
    Block, Const, Entry, Func, FuncTy, Inst, Linkage, Module, Operand, Ty, TypeId, Var, Width,
};
use ltt_base::{Boxed, List, Memory, Text};
use std::alloc::Global;

/// The module that a thin file is.
pub fn source_module(alloc: Global, thin: &Thin) -> Result<Module, Memory>
    ensures { IfOk result (λ m. m ≡ spec.module_of thin.now) }
{
    let vars = variables(alloc, thin.variables.items())?;
    let funcs = functions(alloc, thin)?;
    Ok(Module {
        vars,
        funcs,
        jumps: List::new(alloc),
    })
}

fn one<T: Drop>(alloc: Global, item: T) -> Result<List<T>, Memory>
    ensures { IfOk result (λ list. list ≡ item ∷ []) }
{
    let mut list = List::new(alloc);
    list.add(item)?;
    Ok(list)
}

fn named(alloc: Global, id: &Text) -> Result<TypeId, Memory>
    ensures { IfOk result (λ copy. copy ≡ TypeId.Name id.now) }
{
    Ok(TypeId::Name(Text::copy(alloc, id.bytes())?))
}

// `[count x i64]`
fn words(alloc: Global, count: u64) -> Result<Ty, Memory>
    ensures { IfOk result (λ words. words ≡ spec.words_type count) }
{
    Ok(Ty::Array(count, Boxed::new(alloc, Ty::Int(Width::W64))?))
}

// The type entry of a variable.
fn entries(alloc: Global, variable: &Variable) -> Result<List<Entry>, Memory>
    ensures { IfOk result (λ entries. entries ≡ (spec.variable_of variable.now).entries) }
{
    let id = named(alloc, &variable.id)?;
    one(
        alloc,
        Entry {
            offset: variable.offset,
            id,
        },
    )
}

fn variable(alloc: Global, variable: &Variable) -> Result<Var, Memory>
    ensures { IfOk result (λ v. v ≡ spec.variable_of variable.now) }
{
    Ok(Var {
        place: variable.place,
        name: Text::copy(alloc, variable.name.bytes())?,
        linkage: Linkage::Strong,
        constant: true,
        ty: words(alloc, variable.count)?,
        init: Some(Const::Zero(words(alloc, variable.count)?)),
        align: 1,
        entries: entries(alloc, variable)?,
        visibility: 0,
    })
}

fn variables(alloc: Global, given: &[Variable]) -> Result<List<Var>, Memory>
    ensures { IfOk result (λ list. list ≡ map spec.variable_of given.now) }
{
    let mut list = List::new(alloc);
    for each in given {
        list.add(variable(alloc, each)?)?;
    }
    Ok(list)
}

// A test into a register, and the return of it.
fn tested_block(
    alloc: Global,
    register: &Text,
    pointer: Operand,
    tested: &Text,
) -> Result<Block, Memory>
    ensures { IfOk result (λ block. block ≡ spec.tested_block register.now pointer tested.now) }
{
    let mut insts = one(alloc, test(alloc, register, pointer, tested)?)?;
    insts.add(returned(alloc, register)?)?;
    Ok(Block {
        label: Text::copy(alloc, b"0")?,
        insts,
    })
}

fn test(alloc: Global, register: &Text, pointer: Operand, tested: &Text) -> Result<Inst, Memory>
    ensures { IfOk result (λ inst. inst ≡ Inst.Test register.now pointer (TypeId.Name tested.now)) }
{
    Ok(Inst::Test {
        dst: Text::copy(alloc, register.bytes())?,
        ptr: pointer,
        id: named(alloc, tested)?,
    })
}

fn returned(alloc: Global, register: &Text) -> Result<Inst, Memory>
    ensures { IfOk result (λ inst. inst ≡ Inst.Ret (Ty.Int Width.W1) (Some (Operand.Reg register.now))) }
{
    Ok(Inst::Ret {
        ty: Ty::Int(Width::W1),
        value: Some(Operand::Reg(Text::copy(alloc, register.bytes())?)),
    })
}

// The function that tests its parameter.
fn function(alloc: Global, thin: &Thin) -> Result<Func, Memory>
    ensures { IfOk result (λ f. f ≡ spec.function_of thin.now) }
{
    let pointer = Operand::Reg(Text::copy(alloc, thin.pointer.bytes())?);
    let block = tested_block(alloc, &thin.register, pointer, &thin.tested)?;
    Ok(Func {
        place: thin.place,
        name: Text::copy(alloc, thin.name.bytes())?,
        linkage: Linkage::Strong,
        fty: FuncTy {
            result: Ty::Int(Width::W1),
            params: one(alloc, Ty::Ptr)?,
        },
        params: one(alloc, Text::copy(alloc, thin.pointer.bytes())?)?,
        blocks: one(alloc, block)?,
        entries: List::new(alloc),
    })
}

// The address that the second function tests.
fn address(alloc: Global, second: &Second) -> Result<Operand, Memory>
    ensures { IfOk result (λ address. address ≡ spec.address_of second.now) }
{
    let object = Text::copy(alloc, second.object.bytes())?;
    Ok(Operand::Const(Const::Addr(object, second.distance())))
}

// The function that tests an address.
fn second_function(alloc: Global, second: &Second) -> Result<Func, Memory>
    ensures { IfOk result (λ f. f ≡ spec.second_function second.now) }
{
    let pointer = address(alloc, second)?;
    let block = tested_block(alloc, &second.register, pointer, &second.tested)?;
    Ok(Func {
        place: second.place,
        name: Text::copy(alloc, second.name.bytes())?,
        linkage: Linkage::Strong,
        fty: FuncTy {
            result: Ty::Int(Width::W1),
            params: List::new(alloc),
        },
        params: List::new(alloc),
        blocks: one(alloc, block)?,
        entries: List::new(alloc),
    })
}

fn functions(alloc: Global, thin: &Thin) -> Result<List<Func>, Memory>
    ensures { IfOk result (λ funcs. funcs ≡ (spec.module_of thin.now).funcs) }
{
    let mut funcs = one(alloc, function(alloc, thin)?)?;
    match &thin.second {
        Some(second) => {
            funcs.add(second_function(alloc, second)?)?;
        }
        None => {}
    }
    Ok(funcs)
}
