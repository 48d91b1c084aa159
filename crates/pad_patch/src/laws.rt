//! Laws over the definitions, each proved once.
ghost use Rattle.pad_patch.specs.Laws.{NoOperationsChangeNothing, LengthIsCounted, TextsStayTexts, FittingApplies, InverseGivesBack, InverseApplies, InverseInsertsTexts, OneOperationEach};
ghost use Rattle.pad_patch.specs.Laws.{CopiesMap, KeptElementsStay, RemovedOrKept, KeptIsNotRemoved, InverseGivesListsBack, InverseTurnsRound, InverseOfInverse, KeptOrNew, RemovedAtPlaces};

/// A patch without operations leaves every text.
pub fn no_operations_change_nothing()
    ensures { NoOperationsChangeNothing }
{}

/// The text after a patch has the units that it keeps and those that it inserts.
pub fn length_is_counted()
    ensures { LengthIsCounted }
{}

/// The text after a patch that inserts texts and cuts no pair is a text.
pub fn texts_stay_texts()
    ensures { TextsStayTexts }
{}

/// A patch that fits a text can be applied to it.
pub fn fitting_applies()
    ensures { FittingApplies }
{}

/// The inverse of a patch gives the text back.
pub fn inverse_gives_back()
    ensures { InverseGivesBack }
{}

/// The inverse of a patch that inserts texts can be applied to the text after the patch.
pub fn inverse_applies()
    ensures { InverseApplies }
{}

/// The inverse of a patch inserts texts.
pub fn inverse_inserts_texts()
    ensures { InverseInsertsTexts }
{}

/// The inverse has one operation for each operation.
pub fn one_operation_each()
    ensures { OneOperationEach }
{}

/// A patch copies what the elements of a list are mapped to as it copies the list.
pub fn copies_map<A, B>()
    ensures { CopiesMap A B }
{}

/// A unit that a patch keeps keeps its element in each list that the patch copies.
pub fn kept_elements_stay<A>()
    ensures { KeptElementsStay A }
{}

/// Each element of a list that a patch copied is a new one or that of a kept unit.
pub fn kept_or_new<A>()
    ensures { KeptOrNew A }
{}

/// A patch removes each unit of a text or keeps it.
pub fn removed_or_kept()
    ensures { RemovedOrKept }
{}

/// It does not remove a unit that it keeps.
pub fn kept_is_not_removed()
    ensures { KeptIsNotRemoved }
{}

/// The inverse of a patch gives back each list that the patch copies.
pub fn inverse_gives_lists_back<A>()
    ensures { InverseGivesListsBack A }
{}

/// The units that the inverse of a patch keeps are those that the patch kept.
pub fn inverse_turns_round()
    ensures { InverseTurnsRound }
{}

/// The inverse of the inverse of a patch has the patch's operations.
pub fn inverse_of_inverse()
    ensures { InverseOfInverse }
{}

/// What a patch removes of a list stands at the places that it removes.
pub fn removed_at_places<A>()
    ensures { RemovedAtPlaces A }
{}
