//! Laws: each is the contract of a function that does nothing.

ghost use Rattle.pad_chain.specs.Laws.{NamedTextsAreMet, StoodIsKnown};

/// Where different texts of a run have different hashes, the text that a patch of the chain names is the one that it meets.
pub fn named_texts_are_met()
    ensures { NamedTextsAreMet }
{}

/// A chain that stands for the messages received knows their names.
pub fn stood_is_known()
    ensures { StoodIsKnown }
{}
