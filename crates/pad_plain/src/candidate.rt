//! Linked paths by what decides between two, and how a path compares with the one that was chosen.

ghost use Rattle.std.specs.Prelude.{◌≡◌, ◌↔◌, ◌<◌, ◌⊎◌, IsTrue, MatchBool, Contains, map, length};
ghost use Rattle.pad_text.specs.Name.{NameLess};
ghost use Rattle.pad_plain.specs.Inside.Candidate.{IsBetterThanTip, names_of};

use crate::path::Tip;
use pad_text::Name;
use std::cmp::{Ordering, Reverse};

/// A linked path, by what decides between two. In its order the better path comes first.
#[derive(Clone, Copy, Debug, PartialEq, Eq, PartialOrd, Ord)]
pub(crate) struct Candidate {
    /// How many messages it has.
    pub height: Reverse<usize>,
    /// The name of its last message.
    pub name: Name,
    /// The place of its last message.
    pub place: usize,
}

/// Whether the candidate is longer than the path with this end, or equally long with a lesser name.
pub(crate) fn is_better(candidate: &Candidate, chosen: &Tip) -> bool
    ensures { IsTrue result ↔ IsBetterThanTip candidate.now chosen.now }
{
    let height = candidate.height.0;
    if height != chosen.height {
        return height > chosen.height;
    }
    candidate.name.cmp(&chosen.name) == Ordering::Less
}

/// Whether one of the candidates has this name.
pub(crate) fn is_among(candidates: &[Candidate], name: &Name) -> bool
    ensures { MatchBool result (Contains (names_of candidates.now) name.now) (¬ (Contains (names_of candidates.now) name.now)) }
{
    for candidate in candidates {
        if candidate.name == *name {
            return true;
        }
    }
    false
}
