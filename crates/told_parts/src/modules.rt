// Modules of texts.
use ir_check::{check_output, check_source};
use ir_text::read_units;
use ir_values::{Module, Unit};
use ltt_base::{Copied, Fault, List, Memory, Placed, Same, Text};
use std::alloc::Global;

/// The longest text, in bytes.
const MOST: usize = 1_048_576;

fn units(alloc: Global, text: &[u8]) -> Result<List<Placed<Unit>>, Fault> {
    if text.len() > MOST {
        return Err(Fault::Memory);
    }
    read_units(alloc, text, 1)
}

/// The module of an output.
pub fn output(alloc: Global, text: &[u8]) -> Result<Module, Fault> {
    let units = units(alloc, text)?;
    check_output(alloc, units.items(), 1)
}

/// The module of a source.
pub fn source(alloc: Global, text: &[u8]) -> Result<Module, Fault> {
    let units = units(alloc, text)?;
    check_source(alloc, units.items(), 1)
}

/// A list of one module.
pub fn listed(alloc: Global, module: Module) -> Result<List<Module>, Memory> {
    let mut modules = List::new(alloc);
    modules.add(module)?;
    Ok(modules)
}

/// Tells whether a module's copy is the same.
pub fn is_copied(alloc: Global, out: &mut Text, module: Module) -> Result<(), Fault> {
    let copy = module.copied(alloc)?;
    out.extend(if copy.is(&module) { b"same" } else { b"else" })?;
    Ok(())
}
