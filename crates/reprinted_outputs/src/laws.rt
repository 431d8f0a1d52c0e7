ghost use Rattle.reprinted_outputs.specs.Laws as law;

/// Law: the output module of a thin file is as a printed one.
///
/// Source: LLVM Language Reference, "Module Structure".
pub fn outputs_are_printed()
    ensures { law.OutputsArePrinted }
{}

/// Law: the text of the output module of a thin file is read as units whose module is the same, up to places, weak items and the names of
/// parameters of declarations, and has the same text.
///
/// Source: LLVM Language Reference, "Module Structure".
pub fn outputs_are_same_again()
    ensures { law.OutputsAreSameAgain }
{}

/// Law: the text of the output module of a text of bytes that is a thin file is read as units whose module is the same, up to places,
/// weak items and the names of parameters of declarations, and has the same text.
///
/// Source: LLVM Language Reference, "Module Structure".
pub fn read_outputs_are_same_again()
    ensures { law.ReadOutputsAreSameAgain }
{}

/// Law: some thin file is allowed, and its names are texts of bytes.
pub fn example_has_output()
    ensures { law.ExampleHasOutput }
{}
