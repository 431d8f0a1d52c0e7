// A name in a line, as the printer of modules puts it.
ghost use Rattle.std.specs.Prelude.{◌≡◌, ◌++◌, OnOk};
ghost use Rattle.ir_names.specs.Names.{name_text};

use ir_names::name_word;
use ltt_base::{Memory, Text};
use std::alloc::Global;

/// Adds a global's name without its sign.
pub fn add_name(alloc: Global, line: &mut Text, name: &[u8]) -> Result<(), Memory>
    ensures { OnOk result (line.new ≡ line.old ++ name_text name.now) }
{
    let word = name_word(alloc, name)?;
    line.extend(word.bytes())
}
