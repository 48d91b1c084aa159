//! Laws of the definitions: each contract is the law, and there is nothing to do.
ghost use Rattle.pad_json.specs.Spells.{ArraysHaveOneList, CompactTextsSpell, TextsSpellOneValue};

/// What is written for a value of whole numbers, strings and arrays is plain, and is read as that value again.
#[tactic(auto, using(crate::proofs::Compact::compact_spells))]
pub fn compact_texts_spell()
    ensures { CompactTextsSpell }
{}

/// A text has at most one value.
#[tactic(auto, using(crate::proofs::Values::one_value))]
pub fn texts_spell_one_value()
    ensures { TextsSpellOneValue }
{}

/// Arrays that are equal have the same values.
#[tactic(auto, using(crate::proofs::Values::one_list))]
pub fn arrays_have_one_list()
    ensures { ArraysHaveOneList }
{}
