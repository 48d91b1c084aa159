//! Laws of the definitions: each is the contract of a function that does nothing.

ghost use Rattle.pad_checkpoint.specs.Laws.{RootsRiseToCutsAbove, LinkedPathsAreChains};

/// The higher of a root and of the cut of a path through it is the cut of what stands above the root, on top of it.
pub fn roots_rise_to_cuts_above()
    ensures { RootsRiseToCutsAbove }
{}

/// The linked paths of messages are the chains of their names.
pub fn linked_paths_are_chains()
    ensures { LinkedPathsAreChains }
{}
