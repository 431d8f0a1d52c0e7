ghost use Rattle.printed_units.specs.Laws as law;

/// Law: the text of a module is read as units that say what its lines say.
///
/// Source: LLVM Language Reference, "High Level Structure".
pub fn printed_reads_again()
    ensures { law.PrintedReadsAgain }
{}
