ghost use Rattle.simulation.specs.Laws.{LoweringIsSimulated, AddressesArePossible};

/// A law: at every placement of the output, where n steps of a thin file meet no undefined step, n steps of its output come to
/// the same status and result, with the same calls of externals.
pub fn lowering_is_simulated()
    ensures { LoweringIsSimulated }
{}

/// A law: some output has addresses that are a placement.
pub fn addresses_are_possible()
    ensures { AddressesArePossible }
{}
