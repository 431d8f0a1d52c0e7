// The functions of the output module.
ghost use Rattle.std.specs.Prelude.{◌≡◌, ℕ, [], ◌∷◌, Some, IfOk, Contains, map, ◌++◌, codes};
ghost use Rattle.ir_values.specs.declared.constants.Operand as operand;
ghost use Rattle.ir_values.specs.declared.constants.Const as const;
ghost use Rattle.thin_files.specs.Thin as spec;
ghost use Rattle.test_lowering.specs.Rewriting as output;

use crate::rewriting::{group_name, one};
use ir_values::{Block, Const, Func, FuncTy, Inst, Linkage, Operand, Pred, Ty, Width};
use ltt_base::{List, Memory, Text};
use std::alloc::Global;
use thin_files::{Second, Thin, Variable};

/// The functions with their tests lowered.
pub fn lowered_functions(alloc: Global, thin: &Thin) -> Result<List<Func>, Memory>
    requires { spec.IsAllowed thin.now }
    ensures { IfOk result (λ funcs. funcs ≡ map (output.rewritten_func (spec.module_of thin.now)) (spec.module_of thin.now).funcs) }
{
    let mut funcs = one(alloc, lowered_function(alloc, thin)?)?;
    match &thin.second {
        Some(second) => {
            funcs.append(one(alloc, lowered_second(alloc, thin, second)?)?)?;
        }
        None => {}
    }
    Ok(funcs)
}

// The number of the variable that carries an identifier, and the offset of its entry.
fn carrier(variables: &[Variable], tested: &[u8]) -> (usize, u64)
    requires { Contains (map (λ v. v.id) variables.now) tested.now }
    ensures { spec.CarriesAt variables.now tested.now result.0 result.1 }
{
    for (number, variable) in variables.iter().enumerate() {
        if variable.id.is_bytes(tested) {
            return (number, variable.offset);
        }
    }
    unreachable!()
}

// The number of the variable of this name.
fn object(variables: &[Variable], name: &[u8]) -> Option<usize>
    ensures { result ≡ output.object_from 0 (map spec.variable_of variables.now) name.now }
{
    for (number, variable) in variables.iter().enumerate() {
        if variable.name.is_bytes(name) {
            return Some(number);
        }
    }
    None
}

// The address so many bytes behind a variable, in the output.
fn address(
    alloc: Global,
    variables: &[Variable],
    name: &Text,
    offset: u64,
) -> Result<Operand, Memory>
    ensures { IfOk result (λ address. address
        ≡ operand.Const (output.address_in (output.object_from 0 (map spec.variable_of variables.now) name.now) name.now offset)) }
{
    match object(variables, name.bytes()) {
        Some(object) => Ok(Operand::Const(Const::Addr(group_name(alloc, object)?, offset))),
        None => Ok(Operand::Const(Const::Addr(Text::copy(alloc, name.bytes())?, offset))),
    }
}

fn register(alloc: Global, name: &Text) -> Result<Operand, Memory>
    ensures { IfOk result (λ register. register ≡ operand.Reg name.now) }
{
    Ok(Operand::Reg(Text::copy(alloc, name.bytes())?))
}

// The comparison of a pointer with the address of the member.
fn comparison(
    alloc: Global,
    register: &Text,
    pointer: Operand,
    group: usize,
    offset: u64,
) -> Result<Inst, Memory>
    ensures { IfOk result (λ inst. inst ∷ [] ≡ output.test_shape (record { group = group; offset = offset } ∷ []) register.now pointer) }
{
    Ok(Inst::Compare {
        dst: Text::copy(alloc, register.bytes())?,
        pred: Pred::Eq,
        ty: Ty::Ptr,
        a: pointer,
        b: Operand::Const(Const::Addr(group_name(alloc, group)?, offset)),
    })
}

// The return of a test's register.
fn returned(alloc: Global, register: &Text) -> Result<Inst, Memory>
    ensures { IfOk result (λ inst. inst ≡ Inst.Ret (Ty.Int Width.W1) (Some (Operand.Reg register.now))) }
{
    Ok(Inst::Ret {
        ty: Ty::Int(Width::W1),
        value: Some(Operand::Reg(Text::copy(alloc, register.bytes())?)),
    })
}

// The comparison, and the return of its register.
fn lowered_insts(
    alloc: Global,
    register: &Text,
    pointer: Operand,
    group: usize,
    offset: u64,
) -> Result<List<Inst>, Memory>
    ensures { IfOk result (λ insts. insts ≡ output.test_shape (record { group = group; offset = offset } ∷ []) register.now pointer
        ++ Inst.Ret (Ty.Int Width.W1) (Some (Operand.Reg register.now)) ∷ []) }
{
    let mut insts = one(alloc, comparison(alloc, register, pointer, group, offset)?)?;
    insts.append(one(alloc, returned(alloc, register)?)?)?;
    Ok(insts)
}

fn lone_block(alloc: Global, insts: List<Inst>) -> Result<List<Block>, Memory>
    ensures { IfOk result (λ blocks. blocks ≡ record { label = codes "0"; insts = insts } ∷ []) }
{
    let label = Text::copy(alloc, b"0")?;
    one(alloc, Block { label, insts })
}

// The first function with this body.
fn function_with(alloc: Global, thin: &Thin, insts: List<Inst>) -> Result<Func, Memory>
    ensures { IfOk result (λ f. f ≡ record (spec.function_of thin.now) { blocks = record { label = codes "0"; insts = insts } ∷ [] }) }
{
    Ok(Func {
        place: thin.place,
        name: Text::copy(alloc, thin.name.bytes())?,
        linkage: Linkage::Strong,
        fty: FuncTy {
            result: Ty::Int(Width::W1),
            params: one(alloc, Ty::Ptr)?,
        },
        params: one(alloc, Text::copy(alloc, thin.pointer.bytes())?)?,
        blocks: lone_block(alloc, insts)?,
        entries: List::new(alloc),
    })
}

// The second function with this body.
fn second_with(alloc: Global, second: &Second, insts: List<Inst>) -> Result<Func, Memory>
    ensures { IfOk result (λ f. f ≡ record (spec.second_function second.now) { blocks = record { label = codes "0"; insts = insts } ∷ [] }) }
{
    Ok(Func {
        place: second.place,
        name: Text::copy(alloc, second.name.bytes())?,
        linkage: Linkage::Strong,
        fty: FuncTy {
            result: Ty::Int(Width::W1),
            params: List::new(alloc),
        },
        params: List::new(alloc),
        blocks: lone_block(alloc, insts)?,
        entries: List::new(alloc),
    })
}

// The first function with its test lowered.
fn lowered_function(alloc: Global, thin: &Thin) -> Result<Func, Memory>
    requires { spec.IsAllowed thin.now }
    ensures { IfOk result (λ f. f ≡ output.rewritten_func (spec.module_of thin.now) (spec.function_of thin.now)) }
{
    let (group, offset) = carrier(thin.variables.items(), thin.tested.bytes());
    let pointer = register(alloc, &thin.pointer)?;
    let insts = lowered_insts(alloc, &thin.register, pointer, group, offset)?;
    function_with(alloc, thin, insts)
}

// The second function with its test lowered.
fn lowered_second(alloc: Global, thin: &Thin, second: &Second) -> Result<Func, Memory>
    requires allowed { spec.IsAllowed thin.now }
    requires carried { Contains (map (λ v. v.id) thin.now.variables) second.now.tested }
    ensures { IfOk result (λ f. f ≡ output.rewritten_func (spec.module_of thin.now) (spec.second_function second.now)) }
{
    let variables = thin.variables.items();
    let (group, offset) = carrier(variables, second.tested.bytes());
    let pointer = address(alloc, variables, &second.object, second.distance())?;
    let insts = lowered_insts(alloc, &second.register, pointer, group, offset)?;
    second_with(alloc, second, insts)
}
