//! Laws over the definitions alone. Each function does nothing: its contract is the law.

ghost use Rattle.pad_model.specs.Laws.{AtMostOneBest, OneBestExists, OrderIsNoPart, OneLinkedHeight, RootOnChosen, BestThroughItsRoot, BestAtBase, RootRises, NeverWorse, StaysBest, NothingOvertook, AtMostOneChoice, OneChoiceExists, FewOvertake, RepeatChangesNoChoice, OnlyNewPaths, StaysChosen, NothingLinks, CheckpointsCanBeAdopted, AdoptionChangesNothing, AtMostOneReport, OneReportExists, RepeatChangesNoReport, OrderChangesNoBest};

/// Under no clash of names at most one path is the best.
pub fn at_most_one_best()
    ensures { AtMostOneBest }
{}

/// Under no clash of names there is a best path.
pub fn one_best_exists()
    ensures { OneBestExists }
{}

/// What is the best path depends on which messages were received, and not on their order or on repeats.
pub fn order_is_no_part()
    ensures { OrderIsNoPart }
{}

/// Under no clash of names a message has at most one linked height.
pub fn one_linked_height()
    ensures { OneLinkedHeight }
{}

/// The kept root lies on the chosen path.
pub fn root_on_chosen()
    ensures { RootOnChosen }
{}

/// The chosen path is the best through the kept root as it is now.
pub fn best_through_its_root()
    ensures { BestThroughItsRoot }
{}

/// While the kept root is the base, the chosen path is the best chain.
pub fn best_at_base()
    ensures { BestAtBase }
{}

/// The kept root only rises.
pub fn root_rises()
    ensures { RootRises }
{}

/// The chosen path never gets worse.
pub fn never_worse()
    ensures { NeverWorse }
{}

/// The chosen path stays the best chain as long as nothing overtakes.
pub fn stays_best()
    ensures { StaysBest }
{}

/// If nothing overtook, the chosen path is the best chain of all messages received.
pub fn nothing_overtook()
    ensures { NothingOvertook }
{}

/// Under no clash of names there is at most one choice.
pub fn at_most_one_choice()
    ensures { AtMostOneChoice }
{}

/// Under no clash of names there is a choice.
pub fn one_choice_exists()
    ensures { OneChoiceExists }
{}

/// At most as many messages overtook as were received.
pub fn few_overtake()
    ensures { FewOvertake }
{}

/// A message received again changes no choice.
pub fn repeat_changes_no_choice()
    ensures { RepeatChangesNoChoice }
{}

/// Of the paths after one message more, those with the new message on them are all that has to be tried.
pub fn only_new_paths()
    ensures { OnlyNewPaths }
{}

/// A message that links nothing through the root changes the count of those that overtook alone.
pub fn stays_chosen()
    ensures { StaysChosen }
{}

/// If a message links nothing, nothing overtakes.
pub fn nothing_links()
    ensures { NothingLinks }
{}

/// Each checkpoint of a path can be adopted.
pub fn checkpoints_can_be_adopted()
    ensures { CheckpointsCanBeAdopted }
{}

/// Adoption changes nothing: what is best above the adopted message is best from the base that it gives.
pub fn adoption_changes_nothing()
    ensures { AdoptionChangesNothing }
{}

/// Under no clash of names there is at most one report.
pub fn at_most_one_report()
    ensures { AtMostOneReport }
{}

/// Under no clash of names there is a report.
pub fn one_report_exists()
    ensures { OneReportExists }
{}

/// Under no clash of names a message received again changes nothing of a report.
pub fn repeat_changes_no_report()
    ensures { RepeatChangesNoReport }
{}

/// If nothing overtook, reports of the same messages in any order have the same best chain, known and waiting.
pub fn order_changes_no_best()
    ensures { OrderChangesNoBest }
{}
