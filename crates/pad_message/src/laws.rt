//! Laws of the definitions: each contract is the law, and there is nothing to do.
ghost use Rattle.pad_message.specs.Content.{CompactReads, MarkedReads, SpellsOne};

/// The compact text of a message reads as the message, where a content may be as long.
#[tactic(auto, using(crate::proofs::RoundTrip::compact_reads))]
pub fn compact_texts_read_back()
    ensures { CompactReads }
{}

/// So it does with `cp|` in front, where a content may be as long as both.
#[tactic(auto, using(crate::proofs::RoundTrip::marked_reads))]
pub fn marked_texts_read_back()
    ensures { MarkedReads }
{}

/// A content reads as at most one message.
pub fn contents_spell_one_message()
    ensures { SpellsOne }
{}
