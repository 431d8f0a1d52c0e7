ghost use Rattle.built_modules.specs.Laws as law;

/// Laws: the blocks of a body hold all its instructions in the order of the text, each under the label of the block in which it stands.
///
/// Source: LLVM Language Reference, "Functions".
pub fn blocks_hold_their_instructions()
    ensures all { law.BlocksHoldAll }
    ensures labels { law.LabelsAreTheirs }
{}
