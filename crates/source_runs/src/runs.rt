// Runs of modules by their meaning.
ghost use Rattle.std.specs.Prelude.{◌≡◌, ◌↔◌, [], All, IsTrue, IfOk, IfErr};
ghost use Rattle.ltt_base.specs.declared.refusal.Fault.TheVariants as fault;
ghost use Rattle.type_metadata.specs.Counted.{AreCounted, IsCounted};
ghost use Rattle.type_metadata.specs.Types.{AreTypes};
ghost use Rattle.ir_memories.specs.Worlds.{IsLaid};
ghost use Rattle.ir_meaning.specs.Starts.{IsEntry};
ghost use Rattle.source_runs.specs.Runs.{IsSource, source_run};

use ir_meaning::{Outcome, run};
use ir_memories::{SPtr, Symbolic};
use ir_numbers::is_laid_out;
use ir_values::Module;
use ltt_base::{Fault, Memory};
use std::alloc::Global;
use type_metadata::{Object, Types, collect};

/// What at most `n` steps of modules come to, from an entry that takes no arguments. The answers are those that calls of
/// external functions take, in the order of the calls.
pub fn run_source(
    alloc: Global,
    modules: &[Module],
    entry: Object,
    answers: &[u64],
    n: u64,
) -> Result<Outcome<SPtr>, Fault>
    requires counted { AreCounted modules.now }
    requires laid { All IsLaid modules.now }
    requires entry { IsEntry modules.now entry [] }
    ensures ran { IfOk result (λ outcome. outcome ≡ source_run modules.now entry answers.now n) }
    ensures fault { IfErr result (λ f. f ≡ fault.Memory) }
{
    let types = collect(alloc, modules)?;
    Ok(run_typed(alloc, modules, &types, entry, answers, n)?)
}

fn run_typed(
    alloc: Global,
    modules: &[Module],
    types: &Types,
    entry: Object,
    answers: &[u64],
    n: u64,
) -> Result<Outcome<SPtr>, Memory>
    requires counted { AreCounted modules.now }
    requires laid { All IsLaid modules.now }
    requires types { AreTypes modules.now types.now }
    requires entry { IsEntry modules.now entry [] }
    ensures { IfOk result (λ outcome. outcome ≡ source_run modules.now entry answers.now n) }
{
    let Ok(memory) = Symbolic::new(alloc, modules, types) else {
        return Err(Memory);
    };
    match run(alloc, modules, memory, entry, &[], answers, n) {
        Ok(outcome) => Ok(outcome),
        Err(_) => Err(Memory),
    }
}

fn is_counted(m: &Module) -> bool
    ensures { IsTrue result ↔ IsCounted m.now }
{
    m.vars.len() <= 1 << 32 && m.funcs.len() <= 1 << 32
}

fn is_laid(m: &Module) -> bool
    ensures { IsTrue result ↔ IsLaid m.now }
{
    m.vars.items().iter().all(|v| is_laid_out(&v.ty))
}

/// Whether modules are such that a run may begin in them: their files and items can be counted by 32 bits, and each
/// variable has a type of a size.
pub fn is_source(modules: &[Module]) -> bool
    ensures { IsTrue result ↔ IsSource modules.now }
{
    modules.len() < 1 << 32
        && modules.iter().all(|m| is_counted(m))
        && modules.iter().all(|m| is_laid(m))
}
