ghost use Rattle.jump_tables.specs.Laws.{EntriesStand};

/// A law: in each layout entry k of a table stands at 8k.
///
/// Source: Control Flow Integrity Design, "Forward-Edge CFI for Indirect Function Calls".
pub fn entries_stand()
    ensures { EntriesStand }
{}
