//! Own work stands once: the steps that keep it so, each proved once.
ghost use Rattle.pad_row.specs.Own.{OwnReverted, OwnApplied, OtherReverted, OtherApplied, Edited, TypedOnce, MadeIsSent, SentStays, Adopted, NothingTyped};

/// Own work stands once after a message of one's own is reverted.
pub fn own_reverted()
    ensures { OwnReverted }
{}

/// Own work stands once after a message of one's own is applied.
pub fn own_applied()
    ensures { OwnApplied }
{}

/// Own work stands once after a message of another's is reverted.
pub fn other_reverted()
    ensures { OtherReverted }
{}

/// Own work stands once after a message of another's is applied.
pub fn other_applied()
    ensures { OtherApplied }
{}

/// Own work stands once after an edit.
pub fn own_edited()
    ensures { Edited }
{}

/// A mark that was typed stands at most once in the work and the messages below together, and once if no edit removed it.
pub fn typed_once()
    ensures { TypedOnce }
{}

/// A work that is sent as it is meets what is asked of a message of one's own.
pub fn made_is_sent()
    ensures { MadeIsSent }
{}

/// A sent work meets it after an edit too.
pub fn sent_stays()
    ensures { SentStays }
{}

/// Own work stands once after it is moved from the empty text to another one, with no message sent yet.
pub fn adopted()
    ensures { Adopted }
{}

/// If nothing was typed yet, own work stands once in each work that can be applied.
pub fn nothing_typed()
    ensures { NothingTyped }
{}
