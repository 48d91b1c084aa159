//! Laws over the definitions, each proved once.
ghost use Rattle.pad_transform.specs.Laws.{SumsFitWithRoom, SumsFitWithin, InsertionsStay, OnlyEmptyIsDropped, KeptUnitsStay};

/// Each sum fits where there is room behind each operation's start for all that the other patch inserts.
pub fn sums_fit_with_room()
    ensures { SumsFitWithRoom }
{}

/// Each sum fits if both patches can be applied to a text whose length, with its length after the other patch, is less than 2^32.
pub fn sums_fit_within()
    ensures { SumsFitWithin }
{}

/// The insertion of an operation never changes.
pub fn insertions_stay()
    ensures { InsertionsStay }
{}

/// An operation that is dropped inserts nothing.
pub fn only_empty_is_dropped()
    ensures { OnlyEmptyIsDropped }
{}

/// A kept unit of the text after a patch is the unit that stood at its old place.
pub fn kept_units_stay()
    ensures { KeptUnitsStay }
{}
