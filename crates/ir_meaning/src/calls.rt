ghost use Rattle.std.specs.Prelude.{◌≡◌, [], IfOk};
ghost use Rattle.std.specs.Option.{option_copied};
ghost use Rattle.ir_meaning.specs.Calls.{is_pure_virtual, callee_of, values, bound, is_callable, callee_frame, declaration_in, declaration_of, is_external};

use crate::operands::{pointer_of, value_of};
use crate::places::function_at;
use crate::registers::put;
use crate::states::{Frame, Register};
use ir_memories::{Memory, NoMemory, Value};
use ir_values::{Callee, Func, FuncTy, Module, Operand};
use ltt_base::{List, Text};
use std::alloc::Global;
use type_metadata::Object;

#[tactic(auto, unfolding(crate::specs::Calls::pure_virtual))]
fn is_pure_virtual(name: &[u8]) -> bool
    ensures { result ≡ is_pure_virtual name.now }
{
    name == b"__cxa_pure_virtual".as_slice()
}

/// The pointer that is called.
pub fn callee_of<M: Memory>(
    memory: &M,
    frame: &Frame<M::Pointer>,
    callee: &Callee,
) -> Option<M::Pointer>
    ensures { result ≡ callee_of M.model memory.now frame.now callee.now }
{
    match callee {
        Callee::Function(name) => Some(memory.address(frame.file, name.bytes(), 0)),
        Callee::Value(operand) => pointer_of(memory, frame, operand),
    }
}

/// The values of operands.
pub fn values<M: Memory>(
    alloc: Global,
    memory: &M,
    frame: &Frame<M::Pointer>,
    operands: &[Operand],
) -> Result<Option<List<Value<M::Pointer>>>, NoMemory>
    ensures { IfOk result (λ args. args ≡ values M.model memory.now frame.now [] operands.now) }
{
    let mut done = List::new(alloc);
    for at in 0..operands.len() {
        let Some(value) = value_of(memory, frame, &operands[at]) else {
            return Ok(None);
        };
        if done.add(value).is_err() {
            return Err(NoMemory);
        }
    }
    Ok(Some(done))
}

/// The registers of parameters that hold the arguments.
#[tactic(auto, using(crate::proofs::CallLemmas::bound_unequal))]
fn bound<P: Copy + Drop>(
    alloc: Global,
    names: &[Text],
    args: &[Value<P>],
) -> Result<Option<List<Register<P>>>, NoMemory>
    ensures { IfOk result (λ registers. registers ≡ bound [] names.now args.now) }
{
    if names.len() != args.len() {
        return Ok(None);
    }
    let mut registers = List::new(alloc);
    for at in 0..names.len() {
        put(alloc, &mut registers, names[at].bytes(), args[at])?;
    }
    Ok(Some(registers))
}

/// Whether a function is a definition of a type that may be called.
fn is_callable(function: &Func, fty: &FuncTy) -> bool
    ensures { result ≡ is_callable function.now fty.now }
{
    !function.blocks.is_empty() && function.fty == *fty && !is_pure_virtual(function.name.bytes())
}

/// The frame of a call of a function that a module defines.
pub fn callee_frame<P: Copy + Drop>(
    alloc: Global,
    modules: &[Module],
    object: Object,
    fty: &FuncTy,
    args: &[Value<P>],
) -> Result<Option<Frame<P>>, NoMemory>
    ensures { IfOk result (λ frame. frame ≡ callee_frame modules.now object fty.now args.now) }
{
    let Some(function) = function_at(modules, object.file, object.index) else {
        return Ok(None);
    };
    let Some(registers) = bound(alloc, function.params.items(), args)? else {
        return Ok(None);
    };
    if !object.function || !is_callable(function, fty) {
        return Ok(None);
    }
    Ok(Some(Frame {
        file: object.file,
        func: object.index,
        block: 0,
        place: 0,
        registers,
    }))
}

/// The first of some functions that is a declaration of a name.
fn declaration_in<'a>(functions: &'a [Func], name: &[u8]) -> Option<&'a Func>
    ensures { option_copied result ≡ declaration_in functions.now name.now }
{
    for at in 0..functions.len() {
        let function = &functions[at];
        if function.name.bytes() == name && function.blocks.is_empty() {
            return Some(function);
        }
    }
    None
}

/// The first declaration of a name.
fn declaration_of<'a>(modules: &'a [Module], name: &[u8]) -> Option<&'a Func>
    ensures { option_copied result ≡ declaration_of modules.now name.now }
{
    for at in 0..modules.len() {
        let found = declaration_in(modules[at].funcs.items(), name);
        if found.is_some() {
            return found;
        }
    }
    None
}

/// Whether a name is an external function of a type that may be called.
pub fn is_external(modules: &[Module], name: &[u8], fty: &FuncTy) -> bool
    ensures { result ≡ is_external modules.now name.now fty.now }
{
    if is_pure_virtual(name) {
        return false;
    }
    match declaration_of(modules, name) {
        Some(function) => function.fty == *fty,
        None => false,
    }
}
