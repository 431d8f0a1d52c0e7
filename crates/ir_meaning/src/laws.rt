//! What holds of the machine over every memory.
ghost use Rattle.ir_meaning.specs.Laws.{HoldsWhatWasPut, LeavesTheOthers, RunsAdd, RunsEndInAStep, EndedRunsStay, StaysInItsFrame, CallsComeBack, CallsAreQuiet, SomeCallsComeBack};

use ir_memories::Memory;

/// A register holds what was put into it last, and putting leaves the others as they are.
pub fn registers_hold_what_was_put<M: Memory>()
    ensures same { HoldsWhatWasPut M.Pointer }
    ensures other { LeavesTheOthers M.Pointer }
{}

/// A run is a run of its first steps and then one of the others, and stays as it is once it has ended.
pub fn runs_add<M: Memory>()
    ensures add { RunsAdd M.model }
    ensures last { RunsEndInAStep M.model }
    ensures ended { EndedRunsStay M.model }
{}

/// A plain instruction does the same under all callers.
pub fn plain_instructions_stay_in_their_frame<M: Memory>()
    ensures { StaysInItsFrame M.model }
{}

/// A called function that returns after plain instructions has changed one register of its caller, and
/// until then only its own frame.
pub fn calls_come_back<M: Memory>()
    ensures back { CallsComeBack M.model }
    ensures quiet { CallsAreQuiet M.model }
    ensures some { SomeCallsComeBack M.model }
{}
