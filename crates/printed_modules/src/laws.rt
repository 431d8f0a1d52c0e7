ghost use Rattle.printed_modules.specs.Laws as law;

/// Law: units that say what the lines of a printed module say have the same module, up to places, weak items and the names of
/// parameters of declarations.
///
/// Source: LLVM Language Reference, "Module Structure".
pub fn lines_are_the_module()
    ensures { law.LinesAreTheModule }
{}

/// Law: the text of a printed module is read as units whose module is the same, up to places, weak items and the names of parameters
/// of declarations, and has the same text.
///
/// Source: LLVM Language Reference, "Module Structure".
pub fn printed_is_same_again()
    ensures { law.PrintedIsSameAgain }
{}

/// Law: places, whether an item is weak, and the names of parameters of declarations change no text.
pub fn plain_is_printed()
    ensures { law.PlainIsPrinted }
{}

/// Law: some module with a variable, a table, a declaration and a function is as a printed one.
pub fn example_is_printed()
    ensures { law.ExampleIsPrinted }
{}
