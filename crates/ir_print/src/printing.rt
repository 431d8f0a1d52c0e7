// A module, item by item, to a sink.
ghost use Rattle.std.specs.Prelude.{◌≡◌, ◌≤◌, [], false, flat_map, OnOk, IfErr};
ghost use Rattle.ltt_base.specs.Outside.{Rose, Took, TookPart};
ghost use Rattle.ir_print.specs.ModuleText.{module_text};
ghost use Rattle.ir_print.specs.Printing.{Prints};
ghost use Rattle.ir_names.specs.Puts.{Puts};

use crate::buffer::Buffer;
use crate::forms::{Declarations, Definitions, Form, Tables, Variables};
use crate::intrinsics::put_intrinsics;
use crate::output::Output;
use ir_names::Printer;
use ir_values::Module;
use ltt_base::Sink;
use std::alloc::Global;
use thiserror::Error;

/// The bytes of text that wait in memory at most.
const WAITING: usize = 65_536;

/// Why a module wasn't printed whole: the sink failed, or there was no memory.
#[derive(Debug, Drop, Error)]
pub enum PrintFault {
    #[error("the sink failed")]
    Write,
    #[error("out of memory")]
    Memory,
}

/// Prints a module: variables, jump tables, declarations of the intrinsics that are called,
/// declarations of external functions and then functions, each sort in the order of its list.
///
/// The text goes to the sink through a buffer of fixed size, and memory is taken for that alone.
/// After a failure of the sink no further item is printed.
///
/// Source: LLVM Language Reference, "Module Structure". Differs: loads and stores are printed with
/// `align 1`, types without names, and `jumptable` lines are this project's own; docs/texts.md.
pub fn print_module<O: Sink>(alloc: Global, m: &Module, out: &mut O) -> Result<(), PrintFault>
    ensures ok { OnOk result (Took (O.taken out.old) (O.taken out.new) (module_text m.now)) }
    ensures part { TookPart (O.taken out.old) (O.taken out.new) (module_text m.now) }

    ensures write { IfErr result (λ fault. fault ≡ PrintFault.Write → Rose (O.faults out.old) (O.faults out.new)) }
    ensures counts { O.faults out.old ≤ O.faults out.new }
{
    print_waiting(alloc, WAITING, m, out)
}

/// Prints a module through a buffer of so many bytes.
pub fn print_waiting<O: Sink>(
    alloc: Global,
    waiting: usize,
    m: &Module,
    out: &mut O,
) -> Result<(), PrintFault>
    ensures { Prints (O.taken out.old) (O.taken out.new) (O.faults out.old) (O.faults out.new) (module_text m.now) result }
{
    match Buffer::new(alloc, waiting) {
        Ok(buffer) => print_through(buffer, m, out),
        Err(_) => Err(PrintFault::Memory),
    }
}

fn print_through<O: Sink>(buffer: Buffer, m: &Module, out: &mut O) -> Result<(), PrintFault>
    requires { buffer ≡ [] }
    ensures { Prints (O.taken out.old) (O.taken out.new) (O.faults out.old) (O.faults out.new) (module_text m.now) result }
{
    let mut output = Output {
        sink: out,
        buffer,
        failed: false,
    };
    let result = print_whole(&mut output, m);
    let Output {
        sink,
        buffer: _buffer,
        failed: _failed,
    } = output;
    // No effect at run time. The proof reads what `out` holds from this use of `sink`.
    let _ = &*sink;
    result
}

fn print_whole<O: Sink>(output: &mut Output<'_, O>, m: &Module) -> Result<(), PrintFault>
    requires none_waits { output.old.buffer ≡ [] }
    requires not_failed { output.old.failed ≡ false }
    ensures same_reference { output.new.sink.ghost_name ≡ output.old.sink.ghost_name }
    ensures prints { Prints (O.taken output.old.sink.now) (O.taken output.new.sink.now)
        (O.faults output.old.sink.now) (O.faults output.new.sink.now) (module_text m.now) result }
{
    put_module(output, m);
    match output.finish() {
        Ok(()) => Ok(()),
        Err(_) => Err(PrintFault::Write),
    }
}

fn put_module<P: Printer>(line: &mut P, m: &Module)
    ensures { Puts (P.state line.old) (P.state line.new) (module_text m.now) }
{
    put_items::<Variables, P>(line, m.vars.items());
    put_items::<Tables, P>(line, m.jumps.items());
    put_intrinsics(line, m);
    put_items::<Declarations, P>(line, m.funcs.items());
    put_items::<Definitions, P>(line, m.funcs.items())
}

fn put_items<F: Form, P: Printer>(line: &mut P, items: &[F::Item])
    ensures { Puts (P.state line.old) (P.state line.new) (flat_map F.text items.now) }
{
    for item in items {
        put_item::<F, P>(line, item);
    }
}

fn put_item<F: Form, P: Printer>(line: &mut P, item: &F::Item)
    ensures { Puts (P.state line.old) (P.state line.new) (F.text item.now) }
{
    if !line.has_failed() {
        F::put(line, item)
    }
}
