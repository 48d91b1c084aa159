use pad_text::Name;
use std::cmp::Reverse;

/// A linked path, by what decides between two. In its order the better path comes first.
#[derive(Clone, Copy, Debug, PartialEq, Eq, PartialOrd, Ord)]
pub(crate) struct Candidate {
    /// How many messages it has.
    pub(crate) height: Reverse<u64>,
    /// The name of its last message.
    pub(crate) name: Name,
}
