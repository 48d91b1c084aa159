//! An edit, as a work on the shown text: what it types and what it removes.
ghost use Rattle.pad_row.specs.Edits.{AllowedApplies, TypedWhole, MarksOfStroke, MarksOfOnce, EditRow, EditTyped, OthersStayTyped, EditIsTyped};

/// What an allowed edit types can be applied to the shown text.
pub fn allowed_applies()
    ensures { AllowedApplies }
{}

/// What an edit of a text types is whole.
pub fn typed_whole()
    ensures { TypedWhole }
{}

/// The marks that one edit types are those of its stroke with the indexes below the count.
pub fn marks_of_stroke()
    ensures { MarksOfStroke }
{}

/// Each of them stands once.
pub fn marks_of_once()
    ensures { MarksOfOnce }
{}

/// An edit puts its marks into the row of the shown text, in place of what it removes.
pub fn edit_row()
    ensures { EditRow }
{}

/// The units of an edit are typed under its marks.
pub fn edit_typed()
    ensures { EditTyped }
{}

/// Those of works without its stroke stay typed under theirs.
pub fn others_stay_typed()
    ensures { OthersStayTyped }
{}

/// An allowed edit with a new stroke is an edit that keeps own work standing once.
pub fn edit_is_typed()
    ensures { EditIsTyped }
{}
