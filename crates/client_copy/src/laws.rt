//! Laws: each is the contract of a function that does nothing.

ghost use Rattle.client_copy.specs.Make.{CheckpointsAreMade};
ghost use Rattle.client_copy.specs.Repair.{NotedStands};

/// A checkpoint that is received is made.
pub fn checkpoints_are_made()
    ensures { CheckpointsAreMade }
{}

/// A working copy stands for the same state with a message that a repair heard.
pub fn noted_stands()
    ensures { NotedStands }
{}
