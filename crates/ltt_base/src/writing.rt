// Texts that are written whole, in as many writes as it takes.
ghost use Rattle.std.specs.Prelude.{◌≡◌, ◌≤◌, [], length, OnOk, OnErr};
ghost use Rattle.ltt_base.specs.Outside.{Rose, Took, TookPart};

use crate::outside::{Failed, Sink};

/// Writes a text until it is taken whole, and stops at the first fault. An empty text makes no write.
pub fn write_all<O: Sink>(out: &mut O, text: &[u8]) -> Result<(), Failed>
    ensures whole { OnOk result (Took (O.taken out.old) (O.taken out.new) text.now) }
    ensures part { TookPart (O.taken out.old) (O.taken out.new) text.now }
    ensures untouched { text.now ≡ [] → out.new ≡ out.old }

    ensures counts { O.faults out.old ≤ O.faults out.new }
    ensures failed { OnErr result (Rose (O.faults out.old) (O.faults out.new)) }
{
    let mut done = 0;
    while done < text.len() {
        done += out.write(&text[done..])?;
    }
    Ok(())
}
