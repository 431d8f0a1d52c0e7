// Thin files that are lowered, and their outputs run.
ghost use Rattle.std.specs.Prelude.{IfOk, IfSome};
ghost use Rattle.thin_files.specs.Thin.{IsAllowed};

use crate::machine;
use ir_text::read_units;
use ltt_base::{Fault, Text};
use std::alloc::Global;
use test_lowering::lower_thin;
use thin_files::{Thin, thin_of};

fn thin(alloc: Global, text: &[u8]) -> Result<Option<Thin>, Fault>
    ensures { IfOk result (λ thin. IfSome thin IsAllowed) }
{
    if text.len() > 1000 {
        return Ok(None);
    }
    let units = read_units(alloc, text, 1)?;
    Ok(thin_of(alloc, units.items())?)
}

/// Tells how a run of the output's `@main` ends: where the objects begin, the steps and the answers.
pub fn tell(alloc: Global, out: &mut Text, text: &[u8], words: &str) -> Result<(), Fault> {
    let Some(thin) = thin(alloc, text)? else {
        return Ok(out.extend(b"no thin file")?);
    };
    let module = lower_thin(alloc, &thin)?;
    Ok(machine::tell(alloc, out, module, words)?)
}
