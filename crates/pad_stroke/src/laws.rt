//! Laws over the definitions, each proved once.
ghost use Rattle.pad_stroke.specs.Laws.{MarksStandOnce, MarksComeFromEither, SecondMarksStay, StrippedMarks, PairsStayWhole, MarksAreShown, EditMarks, JoiningChangesNothing, JointsFitWithin, JointsFitWithRoom};

/// A mark stands once in a work where it stands at all.
pub fn marks_stand_once()
    ensures { MarksStandOnce }
{}

/// Each mark of two works in turn is a mark of one of them.
pub fn marks_come_from_either()
    ensures { MarksComeFromEither }
{}

/// Each mark of the second one of two works in turn stays.
pub fn second_marks_stay()
    ensures { SecondMarksStay }
{}

/// A stripped work has the marks that the other work has not.
pub fn stripped_marks()
    ensures { StrippedMarks }
{}

/// What stays of each insertion of a work is a text, where each pair stays or goes as a whole.
pub fn pairs_stay_whole()
    ensures { PairsStayWhole }
{}

/// Each mark of a work is the mark of a unit of the shown text, in order.
pub fn marks_are_shown()
    ensures { MarksAreShown }
{}

/// An edit puts its marks in place of those of the shown units that it removes.
pub fn edit_marks()
    ensures { EditMarks }
{}

/// Joining operations that touch changes nothing of the text after them.
pub fn joining_changes_nothing()
    ensures { JoiningChangesNothing }
{}

/// The removals of the transformed operations, joined, fit where the text after the other patch has fewer than 2^32 units.
pub fn joints_fit_within()
    ensures { JointsFitWithin }
{}

/// They fit where there is room behind each operation's end for all that the other patch inserts.
pub fn joints_fit_with_room()
    ensures { JointsFitWithRoom }
{}
