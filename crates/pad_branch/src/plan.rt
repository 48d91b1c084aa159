use crate::won::Won;
use pad_patch::UnitStore;
use pad_text::Name;
use std::collections::BTreeSet;

/// What is to be done as messages became linked.
#[derive(Drop)]
pub struct Plan<S: UnitStore> {
    /// The path that is the best one now, where another was before.
    pub won: Option<Won<S>>,
    /// The names of the messages that were found not to be sound, in this order.
    pub found: Vec<Name>,
    /// The names of messages in which no path ends, as was found out.
    pub pathless: BTreeSet<Name>,
}
