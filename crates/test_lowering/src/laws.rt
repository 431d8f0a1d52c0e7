ghost use Rattle.test_lowering.specs.Exact.{LoweredTestsAreExact, PlacementIsPossible};

/// A law: at every placement of the output, a lowered test is true exactly at the addresses of carriers.
///
/// Source: LLVM, "Type Metadata", "Testing Addresses For Type Membership".
pub fn lowered_tests_are_exact()
    ensures { LoweredTestsAreExact }
{}

/// A law: some output has a placement that meets its alignments.
pub fn placement_is_possible()
    ensures { PlacementIsPossible }
{}
