//! What becomes of own work at each event.
ghost use Rattle.client_own.specs.Laws.{MovedStands, OwnWorkStandsOnce};

use pad_patch::laws::{fitting_applies, inverse_gives_back, texts_stay_texts};
use pad_row::edits::{edit_is_typed, marks_of_stroke};
use pad_row::laws::{
    carried_counted, carried_marks, row_is_as_long, row_marks, stripped_counted, turn_counted,
};
use pad_row::own::{
    adopted, made_is_sent, nothing_typed, other_applied, other_reverted, own_applied, own_edited,
    own_reverted, sent_stays, typed_once,
};
use pad_stroke::laws::{marks_come_from_either, stripped_marks};

/// The best chain changes, and the work is switched along: own work stands once after it.
pub fn moved_stands()
    ensures { MovedStands }
{
    own_reverted();
    own_applied();
    other_reverted();
    other_applied();
    inverse_gives_back();
}

/// Own work stands once, whatever befell the working copy.
pub fn own_work_stands_once()
    ensures { OwnWorkStandsOnce }
{
    moved_stands();
    own_reverted();
    own_applied();
    other_reverted();
    other_applied();
    inverse_gives_back();
    own_edited();
    edit_is_typed();
    sent_stays();
    made_is_sent();
    adopted();
    nothing_typed();
    typed_once();
    row_is_as_long();
    row_marks();
    turn_counted();
    carried_counted();
    carried_marks();
    stripped_counted();
    marks_of_stroke();
    marks_come_from_either();
    stripped_marks();
    fitting_applies();
    texts_stay_texts();
}
