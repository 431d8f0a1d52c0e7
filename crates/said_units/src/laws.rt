ghost use Rattle.said_units.specs.Laws as law;

/// Law: the units that a text of bytes is read as say what a text can say.
///
/// Source: LLVM Language Reference, "High Level Structure" and "Identifiers".
pub fn read_units_are_said()
    ensures { law.ReadUnitsAreSaid }
{}
