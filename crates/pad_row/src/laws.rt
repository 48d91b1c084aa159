//! Laws of works over rows, each proved once.
ghost use Rattle.pad_row.specs.Laws.{TurnRow, FirstMarksStay, TurnRemoves, TurnRemovesJust, TurnApplies, TurnCounted, TurnCounts};
ghost use Rattle.pad_row.specs.Laws.{CarriedRemoves, CarriedBackRemoves, CarriedRemovesKept, CarriedApplies, CarriedCounted, CarriedMarks};
ghost use Rattle.pad_row.specs.Laws.{StrippedRemoves, StrippedApplies, StrippedCounted, StrippedCounts, RowIsAsLong, RowMarks, RowCounts, RemovedMarks, MovedAlike, MovedApplies};

/// The row after two works in turn is the row after the first one and then the second one.
pub fn turn_row()
    ensures { TurnRow }
{}

/// A mark of the first of two works in turn stays, or the second one removes its unit.
pub fn first_marks_stay()
    ensures { FirstMarksStay }
{}

/// Two works in turn remove of a text what the first one removes of it and what the second one removes of the rest.
pub fn turn_removes()
    ensures { TurnRemoves }
{}

/// Exactly: what the second one removes of the rest it removes of the row in which the units of the first one have no marks.
pub fn turn_removes_just()
    ensures { TurnRemovesJust }
{}

/// Two works in turn can be applied as one.
pub fn turn_applies()
    ensures { TurnApplies }
{}

/// Two works in turn have one mark for each unit that they insert.
pub fn turn_counted()
    ensures { TurnCounted }
{}

/// A mark stands in two works in turn no more often than in both together.
pub fn turn_counts()
    ensures { TurnCounts }
{}

/// A carried work removes only units that the work removed.
pub fn carried_removes()
    ensures { CarriedRemoves }
{}

/// So does a work that is carried back over a patch.
pub fn carried_back_removes()
    ensures { CarriedBackRemoves }
{}

/// Each unit that a carried work removes is one that the patch kept and the work removed.
pub fn carried_removes_kept()
    ensures { CarriedRemovesKept }
{}

/// A work that is carried over a patch that inserts texts can be applied to the text after that patch.
pub fn carried_applies()
    ensures { CarriedApplies }
{}

/// A carried work has one mark for each unit that it inserts.
pub fn carried_counted()
    ensures { CarriedCounted }
{}

/// A carried work inserts the same units with the same marks.
pub fn carried_marks()
    ensures { CarriedMarks }
{}

/// A stripped work removes just the units that the work removed.
pub fn stripped_removes()
    ensures { StrippedRemoves }
{}

/// A stripped work can be applied where the work can.
pub fn stripped_applies()
    ensures { StrippedApplies }
{}

/// A stripped work has one mark for each unit that it inserts.
pub fn stripped_counted()
    ensures { StrippedCounted }
{}

/// A mark stands in a stripped work no more often than before.
pub fn stripped_counts()
    ensures { StrippedCounts }
{}

/// The row after a patch has one entry for each unit of the text after it.
pub fn row_is_as_long()
    ensures { RowIsAsLong }
{}

/// A mark of the row after a patch is one of the row, or one of what the patch inserts.
pub fn row_marks()
    ensures { RowMarks }
{}

/// A mark stands in the row after a patch and among what is removed as often as in the row and among what is inserted.
pub fn row_counts()
    ensures { RowCounts }
{}

/// The marks that a patch removes of a row are those of the entries that it removes.
pub fn removed_marks()
    ensures { RemovedMarks }
{}

/// A work that is moved to another text makes the same rows and removes the same.
pub fn moved_alike()
    ensures { MovedAlike }
{}

/// A moved work can be applied to each text if the work can be applied to the empty text.
pub fn moved_applies()
    ensures { MovedApplies }
{}
