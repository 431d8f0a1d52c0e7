ghost use Rattle.printed_tokens.specs.Laws as law;

/// Law: the tokens of a text that is put together of blanks and tokens are those that it is put together of.
///
/// Source: LLVM Language Reference, "Identifiers" and "High Level Structure".
pub fn atoms_are_cut()
    ensures { law.AtomsAreCut }
{}
