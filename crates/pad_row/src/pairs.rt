//! Marks and their units: laws of surrogate pairs, each proved once.
ghost use Rattle.pad_row.specs.Pairs.{TypedPaired, TurnWhole, CarriedWhole, StrippedWhole, StripsWhole, TurnTyped, CarriedTyped, StrippedTyped};
ghost use Rattle.pad_row.specs.Pairs.{MovedWhole, MovedTyped, TurnUnits, EditUnits, UnitsAreShown, CarriedUnits, StrippedUnits};

/// The two units of each pair that one edit types have successive marks.
pub fn typed_paired()
    ensures { TypedPaired }
{}

/// So have those of two works in turn, if they have in each.
pub fn turn_whole()
    ensures { TurnWhole }
{}

/// So have those of a carried work.
pub fn carried_whole()
    ensures { CarriedWhole }
{}

/// So have those of a stripped work, of whose pairs both units stay or neither.
pub fn stripped_whole()
    ensures { StrippedWhole }
{}

/// Of two works whose units were typed under their marks the one can be stripped of the other.
pub fn strips_whole()
    ensures { StripsWhole }
{}

/// In two works in turn each mark stays with its unit.
pub fn turn_typed()
    ensures { TurnTyped }
{}

/// In a carried work each mark stays with its unit.
pub fn carried_typed()
    ensures { CarriedTyped }
{}

/// In a stripped work each mark stays with its unit.
pub fn stripped_typed()
    ensures { StrippedTyped }
{}

/// The two units of each pair of a moved work have successive marks.
pub fn moved_whole()
    ensures { MovedWhole }
{}

/// In a moved work each mark stays with its unit.
pub fn moved_typed()
    ensures { MovedTyped }
{}

/// The units with their marks after two works in turn are those after the first one and then the second one.
pub fn turn_units()
    ensures { TurnUnits }
{}

/// An edit puts its units with their marks in place of what it removes.
pub fn edit_units()
    ensures { EditUnits }
{}

/// The units with marks that are shown over a text without any are those that the work inserts.
pub fn units_are_shown()
    ensures { UnitsAreShown }
{}

/// A carried work inserts the same units with the same marks.
pub fn carried_units()
    ensures { CarriedUnits }
{}

/// A stripped work inserts the units, with their marks, whose marks the other work has not.
pub fn stripped_units()
    ensures { StrippedUnits }
{}
