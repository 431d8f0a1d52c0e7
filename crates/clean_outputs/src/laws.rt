ghost use Rattle.clean_outputs.specs.Laws as law;

/// Law: the module of an output without flaws is as a printed one, once its declarations stand first, where the types of variables and
/// the source element types of addresses have at most 64 levels with their names replaced.
///
/// Source: LLVM Language Reference, "Module Structure".
pub fn clean_outputs_are_printed()
    ensures { law.CleanOutputsArePrinted }
{}

/// Law: a module has the same text once its declarations stand first.
///
/// Source: LLVM Language Reference, "Module Structure".
pub fn order_is_printed()
    ensures { law.OrderIsPrinted }
{}

/// Law: where an output without flaws has types of variables and source element types of at most 64 levels with their names replaced,
/// the text of its module is read as units whose module is the same, up to places, weak items, the names of parameters of declarations,
/// and the order of declarations, and has the same text.
///
/// Source: LLVM Language Reference, "Module Structure".
pub fn clean_is_same_again()
    ensures { law.CleanIsSameAgain }
{}

/// Law: in a module whose names, types, constants and instructions can be written, the types of variables and the source element types
/// have at most 64 levels.
pub fn written_modules_are_shallow()
    ensures { law.WrittenModulesAreShallow }
{}

/// Law: in the module of an output without flaws that defines no named type they have at most 64 levels.
pub fn outputs_without_named_types_are_shallow()
    ensures { law.OutputsWithoutNamedTypesAreShallow }
{}

/// Law: the text of the module of an output without flaws that defines no named type is read as units whose module is the same, up to
/// places, weak items, the names of parameters of declarations, and the order of declarations, and has the same text.
///
/// Source: LLVM Language Reference, "Module Structure".
pub fn outputs_without_named_types_are_same_again()
    ensures { law.OutputsWithoutNamedTypesAreSameAgain }
{}

/// Law: some text is an output without flaws, of a module with a variable.
pub fn example_is_output()
    ensures { law.ExampleIsOutput }
{}
