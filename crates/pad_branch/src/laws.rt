//! Laws of what a chain knows. Each function does nothing: its contract is the law.

ghost use Rattle.pad_branch.specs.Laws.{RootStays, StaysKnown, KnownAbove, FoundStays, FoundAbove, MarksPass, TrunkStays, RootText};

/// The root stays where no checkpoint came onto the best branch.
pub fn root_stays()
    ensures { RootStays }
{}

/// What is known pathless stays so as a message comes on one that has no mark, and links what has none.
pub fn stays_known()
    ensures { StaysKnown }
{}

/// What is known pathless stays so as the root rises.
pub fn known_above()
    ensures { KnownAbove }
{}

/// What was found stays found as a message comes.
pub fn found_stays()
    ensures { FoundStays }
{}

/// What was found stays found as the root rises.
pub fn found_above()
    ensures { FoundAbove }
{}

/// A message on one that is marked is to be marked, with all that it links.
pub fn marks_pass()
    ensures { MarksPass }
{}

/// A branch stays the path that it is as a message comes.
pub fn trunk_stays()
    ensures { TrunkStays }
{}

/// The text of the root is that of the end with all messages taken back.
pub fn root_text()
    ensures { RootText }
{}
