ghost use Rattle.std.specs.Prelude.{◌≡◌};

use ltt_base::Memory;

/// Why a part was not read.
#[derive(Drop)]
pub enum Stop {
    /// No text of the part begins there.
    Absent,
    /// A named part is opened too deep.
    Deep,
    /// Want of memory.
    Memory,
}

impl From<Memory> for Stop {
    ghost use Rattle.unit_grammar.specs.declared.stop.Stop.{Stop};

    ghost from_gives = { λ memory stop. stop ≡ Stop.Memory };

    fn from(_memory: Memory) -> Stop {
        Stop::Memory
    }
}
