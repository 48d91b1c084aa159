//! Laws of the definitions: each contract is the law, and there is nothing to do.
ghost use Rattle.pad_text.specs.Joins.{IsKeptByJoins};
ghost use Rattle.pad_text.specs.Name.{AreOrderedByDigits};
ghost use Rattle.pad_text.specs.Text.{IsKeptByCuts, IsKeptByUtf8};

/// The order of names by their bytes is the order of their digits as text.
#[tactic(auto, using(crate::proofs::NameOrder::names_digits))]
pub fn names_are_ordered_by_digits()
    ensures { AreOrderedByDigits }
{}

/// A text in UTF-8 is read back as the same text, and UTF-8 is what it is written as again.
#[tactic(auto, using(crate::proofs::Texts::kept_by_utf8))]
pub fn texts_are_kept_by_utf8()
    ensures { IsKeptByUtf8 }
{}

/// Texts are joined, and cut where no pair is cut, to texts.
#[tactic(auto, using(crate::proofs::Texts::kept_by_cuts))]
pub fn texts_are_kept_by_cuts()
    ensures { IsKeptByCuts }
{}

/// The UTF-8 of joined texts is theirs, joined, and no pair is cut where the first ends.
#[tactic(auto, using(crate::proofs::Joins::kept_by_joins))]
pub fn texts_are_kept_by_joins()
    ensures { IsKeptByJoins }
{}
