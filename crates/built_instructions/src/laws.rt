//! What instructions keep of their units.
ghost use Rattle.built_instructions.specs.Laws.{SortsAreKept, RegistersAreDefined};

/// Exactly the units that are instructions become one: a phi a phi, a terminator a terminator, and any other one that is neither.
///
/// Source: LLVM Language Reference, "Instruction Reference".
pub fn sorts_are_kept()
    ensures { SortsAreKept }
{}

/// The register that an instruction sets is the value that its unit defines in its body, by its written name or its number. Of a call of an
/// intrinsic this holds where it has a result exactly if the intrinsic gives one.
///
/// Source: LLVM Language Reference, "Identifiers".
pub fn registers_are_defined()
    ensures { RegistersAreDefined }
{}
