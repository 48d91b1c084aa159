//! Laws of the definitions: each is the contract of a function that does nothing.

ghost use Rattle.pad_graph.specs.Laws.{GraphsTellTheSame, ChainsAreOne, NewChainsHaveTheLink};

/// Two graphs that stand for the same links and root tell the same of every name, and have the same counts.
pub fn graphs_tell_the_same()
    ensures { GraphsTellTheSame }
{}

/// A name has one chain.
pub fn chains_are_one()
    ensures { ChainsAreOne }
{}

/// A chain that is new as a link comes has that link on it, and goes through the root where its parent's chain does.
pub fn new_chains_have_the_link()
    ensures { NewChainsHaveTheLink }
{}
