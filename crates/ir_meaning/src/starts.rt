ghost use Rattle.std.specs.Prelude.{◌≡◌, ◌↔◌, [], length, IsTrue, IfOk};
ghost use Rattle.ir_values.specs.declared.types.Ty.{out-Ty};
ghost use Rattle.ir_meaning.specs.Starts.{fits_type, fit, IsEntry, argument, parameters, first_frame};

use crate::places::function_at;
use crate::registers::put;
use crate::states::{Frame, Register};
use ir_memories::{NoMemory, Value};
use ir_numbers::bits;
use ir_values::{Module, Ty, Width};
use ltt_base::{List, Text};
use std::alloc::Global;
use type_metadata::Object;

fn fits_type(ty: &Ty, n: u64) -> bool
    ensures { result ≡ fits_type (out-Ty ty.now) n }
{
    match ty {
        Ty::Int(width) => n <= u64::MAX >> (64 - bits(*width)),
        _ => false,
    }
}

/// Whether there are as many arguments as parameters, and each fits.
#[tactic(auto, using(crate::proofs::StartLemmas::fit_unequal))]
fn fit(tys: &[Ty], args: &[u64]) -> bool
    ensures { result ≡ fit tys.now args.now }
{
    if tys.len() != args.len() {
        return false;
    }
    for at in 0..args.len() {
        if !fits_type(&tys[at], args[at]) {
            return false;
        }
    }
    true
}

/// Whether a run may begin at this function, with these arguments: it is defined, its parameters are
/// integers, and each argument fits its own.
pub fn is_entry(modules: &[Module], entry: Object, args: &[u64]) -> bool
    ensures { IsTrue result ↔ IsEntry modules.now entry args.now }
{
    let Some(function) = function_at(modules, entry.file, entry.index) else {
        return false;
    };
    if !entry.function || function.blocks.is_empty() {
        return false;
    }
    if function.params.len() != function.fty.params.len() {
        return false;
    }
    fit(function.fty.params.items(), args)
}

fn argument<P: Copy>(ty: &Ty, n: u64) -> Value<P>
    ensures { result ≡ argument (out-Ty ty.now) n }
{
    match ty {
        Ty::Int(width) => Value::Int(*width, n),
        _ => Value::Int(Width::W64, n),
    }
}

/// The registers of the parameters.
fn parameters<P: Copy + Drop>(
    alloc: Global,
    names: &[Text],
    tys: &[Ty],
    args: &[u64],
) -> Result<List<Register<P>>, NoMemory>
    requires names { length names.now ≡ length args.now }
    requires types { length tys.now ≡ length args.now }
    ensures { IfOk result (λ registers. registers ≡ parameters [] names.now tys.now args.now) }
{
    let mut registers = List::new(alloc);
    for at in 0..args.len() {
        put(
            alloc,
            &mut registers,
            names[at].bytes(),
            argument(&tys[at], args[at]),
        )?;
    }
    Ok(registers)
}

/// The frame of a call from outside.
#[tactic(auto, using(crate::proofs::StartLemmas::fit_length))]
pub fn first_frame<P: Copy + Drop>(
    alloc: Global,
    modules: &[Module],
    entry: Object,
    args: &[u64],
) -> Result<Frame<P>, NoMemory>
    requires { IsEntry modules.now entry args.now }
    ensures { IfOk result (λ frame. frame ≡ first_frame modules.now entry args.now) }
{
    let function = function_at(modules, entry.file, entry.index).unwrap();
    let names = function.params.items();
    let registers = parameters(alloc, names, function.fty.params.items(), args)?;
    Ok(Frame {
        file: entry.file,
        func: entry.index,
        block: 0,
        place: 0,
        registers,
    })
}
