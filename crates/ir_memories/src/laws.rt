// What holds of the memories.
ghost use Rattle.ir_memories.specs.Laws.{SymbolicMoves, SymbolicStores, SymbolicKeeps, NumericKeeps, NumericStores, NumericMoves, TestLaw, AddressLaw, ExampleLaw};
ghost use Rattle.ir_memories.specs.Stated.{StatedLaw};

/// Pointers of the source move by sums, and none differs from itself.
pub fn symbolic_pointers_move()
    ensures { SymbolicMoves }
{}

/// A load of the source gives what was stored.
pub fn symbolic_stores_are_loaded()
    ensures { SymbolicStores }
{}

/// A load of the output gives what was stored.
pub fn numeric_stores_are_loaded()
    ensures { NumericStores }
{}

/// A store of the source changes no other cell.
pub fn symbolic_stores_keep_the_rest()
    ensures { SymbolicKeeps }
{}

/// A store of the output changes no other cell.
pub fn numeric_stores_keep_the_rest()
    ensures { NumericKeeps }
{}

/// Numbers move by sums, and none differs from itself.
pub fn numbers_move()
    ensures { NumericMoves }
{}

/// A test of the source is true exactly at the carriers.
pub fn tests_are_exact()
    ensures { TestLaw }
{}

/// Each object stands at the address that a placement gives its name.
pub fn objects_stand_where_placed()
    ensures { AddressLaw }
{}

/// The stated placement is a placement.
pub fn stated_is_placed()
    ensures { StatedLaw }
{}

/// An example is a source that can be placed, and a test has each of its answers there.
pub fn some_source_is_possible()
    ensures { ExampleLaw }
{}
