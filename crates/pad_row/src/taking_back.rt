//! A work that is taken back after a test.
ghost use Rattle.pad_row.specs.TakenBack.{TakenBackApplies, InverseMergesBack};

/// If the test of taking back answers yes, the work that was sent can be applied to the text before, and the present one to
/// the text after it.
pub fn taken_back_applies()
    ensures { TakenBackApplies }
{}

/// It answers yes where the message was taken back by the inverse of that work's patch.
pub fn inverse_merges_back()
    ensures { InverseMergesBack }
{}
