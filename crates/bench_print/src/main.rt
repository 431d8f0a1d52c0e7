//! Prints a made module of many functions, a number of times: what docs/speed.md times.
#![tactic(auto)]

use anyhow::{Context, bail};
use ir_print::print_module;
use ir_values::{
    BinOp, Block, Callee, Const, Func, FuncTy, Inst, Linkage, Module, Operand, Pred, Ty, Width,
};
use ltt_base::{List, MemSink, Memory, Place, Text};
use std::alloc::Global;
use std::env;

/// The bytes that one text may take.
const ROOM: usize = 268_435_456;

const NO_PLACE: Place = Place {
    file: 0,
    line: 0,
    column: 0,
};

fn register(alloc: Global, name: &str) -> Result<Operand, Memory> {
    Ok(Operand::Reg(Text::copy(alloc, name.as_bytes())?))
}

fn number(n: u64) -> Operand {
    Operand::Const(Const::Int(Width::W32, n))
}

fn load(alloc: Global, dst: &str, ty: Ty, addr: &str) -> Result<Inst, Memory> {
    Ok(Inst::Load {
        dst: Text::copy(alloc, dst.as_bytes())?,
        ty,
        addr: register(alloc, addr)?,
    })
}

fn sum(alloc: Global, dst: &str, a: &str, n: u64) -> Result<Inst, Memory> {
    Ok(Inst::Binary {
        dst: Text::copy(alloc, dst.as_bytes())?,
        op: BinOp::Add,
        width: Width::W32,
        a: register(alloc, a)?,
        b: number(n),
    })
}

fn comparison(alloc: Global, dst: &str, a: &str) -> Result<Inst, Memory> {
    Ok(Inst::Compare {
        dst: Text::copy(alloc, dst.as_bytes())?,
        pred: Pred::Ult,
        ty: Ty::Int(Width::W32),
        a: register(alloc, a)?,
        b: number(100),
    })
}

fn store(alloc: Global, value: &str, addr: &str) -> Result<Inst, Memory> {
    Ok(Inst::Store {
        ty: Ty::Int(Width::W32),
        value: register(alloc, value)?,
        addr: register(alloc, addr)?,
    })
}

fn pointer_params(alloc: Global) -> Result<FuncTy, Memory> {
    let mut params = List::new(alloc);
    params.add(Ty::Ptr)?;
    Ok(FuncTy {
        result: Ty::Int(Width::W32),
        params,
    })
}

fn call(alloc: Global, dst: &str, callee: &str, argument: &str) -> Result<Inst, Memory> {
    let mut args = List::new(alloc);
    args.add(register(alloc, argument)?)?;
    Ok(Inst::Call {
        dst: Some(Text::copy(alloc, dst.as_bytes())?),
        fty: pointer_params(alloc)?,
        callee: Callee::Value(register(alloc, callee)?),
        args,
    })
}

fn returned(alloc: Global, value: &str) -> Result<Inst, Memory> {
    Ok(Inst::Ret {
        ty: Ty::Int(Width::W32),
        value: Some(register(alloc, value)?),
    })
}

/// A block that loads, adds, compares, calls, stores and returns.
fn block(alloc: Global) -> Result<Block, Memory> {
    let mut insts = List::new(alloc);
    insts.add(load(alloc, "vtable", Ty::Ptr, "this")?)?;
    insts.add(load(alloc, "slot", Ty::Ptr, "vtable")?)?;
    insts.add(call(alloc, "call", "slot", "this")?)?;
    insts.add(sum(alloc, "sum", "call", 4_294_967_295)?)?;
    insts.add(comparison(alloc, "small", "sum")?)?;
    insts.add(store(alloc, "sum", "this")?)?;
    insts.add(returned(alloc, "sum")?)?;
    Ok(Block {
        label: Text::copy(alloc, b"entry")?,
        insts,
    })
}

fn function(alloc: Global) -> Result<Func, Memory> {
    let mut params = List::new(alloc);
    params.add(Text::copy(alloc, b"this")?)?;
    let mut blocks = List::new(alloc);
    blocks.add(block(alloc)?)?;
    Ok(Func {
        place: NO_PLACE,
        name: Text::copy(alloc, b"_ZN5Shape4areaEv")?,
        linkage: Linkage::Strong,
        fty: pointer_params(alloc)?,
        params,
        blocks,
        entries: List::new(alloc),
    })
}

fn functions(alloc: Global, count: usize) -> Result<Module, Memory> {
    let mut funcs = List::new(alloc);
    for _ in 0..count {
        funcs.add(function(alloc)?)?;
    }
    Ok(Module {
        vars: List::new(alloc),
        funcs,
        jumps: List::new(alloc),
    })
}

/// The length of the module's text.
fn printed(alloc: Global, module: &Module) -> anyhow::Result<usize> {
    let mut sink = MemSink::new(alloc, ROOM, ROOM)?;
    match print_module(alloc, module, &mut sink) {
        Ok(()) => Ok(sink.taken().len()),
        Err(fault) => bail!("{fault}"),
    }
}

fn main(rt: HostRuntime) -> anyhow::Result<()> {
    let mut words = env::args(&rt)?;
    let count = words
        .nth(1)
        .context("give a number of functions")?
        .parse::<usize>()?;
    let times = words
        .next()
        .context("and how often to print them")?
        .parse::<usize>()?;
    let module = functions(rt.alloc(), count)?;
    for _ in 0..times {
        println!(&rt; "{} bytes", printed(rt.alloc(), &module)?)?;
    }
    Ok(())
}
