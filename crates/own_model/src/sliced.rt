//! Theorems on sliced blocks: their payloads do not overlap, are zero when new, and are found until they are freed.
ghost use Rattle.own_model.specs.SlicedTheorems.{PayloadsLieInWindow, PayloadsLieApart, NewBlocksAreZero, FoundPayloadsFit, PayloadsAreFound, FreedBlocksAreNotFound, GapsFitTheMachine, CoveredBlocksAreGiven};

/// States that payloads of sliced blocks do not overlap and lie within the heap window, each after its own header.
pub fn payloads_lie_apart()
    ensures window { PayloadsLieInWindow }
    ensures apart { PayloadsLieApart }
{}

/// States that a new sliced block is at a place without a block, and that its payload is zero.
pub fn new_blocks_are_zero()
    ensures { NewBlocksAreZero }
{}

/// States that a non-empty range in a payload is found, never in a header, until the block is freed.
pub fn payloads_are_found()
    ensures fit { FoundPayloadsFit }
    ensures found { PayloadsAreFound }
    ensures freed { FreedBlocksAreNotFound }
{}

/// States that each block that fits a machine has a gap in its heap window, at the same address as on the largest
/// machine. So no block that the account covers is refused for lack of a gap.
pub fn gaps_fit_the_machine()
    ensures same { GapsFitTheMachine }
    ensures given { CoveredBlocksAreGiven }
{}
