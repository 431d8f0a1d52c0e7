ghost use Rattle.sized_modules.specs.Laws as law;

/// Law: no type that a text gives to a name or to a variable holds the pair that a checked load gives.
///
/// Source: LLVM Language Reference, "Type System".
pub fn read_types_have_no_pair()
    ensures { law.ReadAreWritten }
{}

/// Law: where no unit has a flaw, each variable's type has a size.
///
/// Source: LLVM Language Reference, "Global Variables" and "Type System".
pub fn clean_types_have_sizes()
    ensures { law.CleanAreLaid }
{}

/// Law: a file without flaws has no more variables and functions than 32 bits count.
pub fn clean_modules_are_counted()
    ensures { law.CleanAreCounted }
{}

/// Law: in the module of a text whose units have no flaw a run may begin.
pub fn clean_files_can_run()
    ensures { law.CleanCanRun }
{}
