ghost use Rattle.std.specs.Prelude.{◌≡◌, ◌+◌, ◌^◌, ◌<◌, IfOk, OnErr};
ghost use Rattle.ir_meaning.specs.Frames.{given, answered};
ghost use Rattle.ir_meaning.specs.Acts.{Acts};

use crate::registers::put;
use crate::states::Frame;
use ir_memories::{NoMemory, Value};
use ltt_base::Text;
use std::alloc::Global;

/// Sets a register to the value that an instruction gives, and goes behind it.
pub fn give<P: Copy + Drop>(
    alloc: Global,
    frame: &mut Frame<P>,
    dst: &Text,
    value: Option<Value<P>>,
) -> Result<bool, NoMemory>
    requires { frame.old.place + 1 < 2 ^ 64 }
    ensures state { IfOk result (λ done. Acts done (given frame.old dst.now value) frame.old frame.new) }
    ensures same { OnErr result (frame.new ≡ frame.old) }
{
    let Some(value) = value else {
        return Ok(false);
    };
    put(alloc, &mut frame.registers, dst.bytes(), value)?;
    frame.place += 1;
    Ok(true)
}

/// Goes behind a call: what came back is in the call's register, if it has one.
pub fn answer<P: Copy + Drop>(
    alloc: Global,
    frame: &mut Frame<P>,
    dst: &Option<Text>,
    value: Option<Value<P>>,
) -> Result<bool, NoMemory>
    requires { frame.old.place + 1 < 2 ^ 64 }
    ensures state { IfOk result (λ done. Acts done (answered frame.old dst.now value) frame.old frame.new) }
    ensures same { OnErr result (frame.new ≡ frame.old) }
{
    match dst {
        Some(dst) => give(alloc, frame, dst, value),
        None => {
            frame.place += 1;
            Ok(true)
        }
    }
}
