//! Laws of strokes and the texts between them, each proved once.
ghost use Rattle.pad_strokes.specs.Laws.{BackGivesBack, EditStands, UndoStands, RedoStands, ChangeStands};
ghost use Rattle.pad_strokes.specs.TakingOut.{TakesOut, EachMayFollow};

/// What takes an edit back can be done to the text after it, but that the text may become too long. It gives the text before, and what takes it back again
/// is the edit.
pub fn back_gives_back()
    ensures { BackGivesBack }
{}

/// Strokes stand on the shown text after an edit.
pub fn edit_stands()
    ensures { EditStands }
{}

/// They do after an exact undo, which shows the text before the stroke, and a redo shows the text before the undo again.
pub fn undo_stands()
    ensures { UndoStands }
{}

/// They do after a redo, which is allowed.
pub fn redo_stands()
    ensures { RedoStands }
{}

/// They do after another change, whatever the text is then.
pub fn change_stands()
    ensures { ChangeStands }
{}

/// The edits of a row leave of each list with one element for each unit those whose units are not of the stroke.
pub fn takes_out<A>()
    ensures { TakesOut A }
{}

/// Each edit is allowed where it is made, if of each surrogate pair both units are of the stroke or neither.
pub fn each_may_follow()
    ensures { EachMayFollow }
{}
