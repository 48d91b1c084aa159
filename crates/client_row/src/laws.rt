//! What is kept follows the best chain, each law proved once.
ghost use Rattle.client_row.specs.Laws.{BeginsAtBase, FollowsMoves, BeginsAnywhere, ShownAlike};

use pad_patch::laws::{fitting_applies, inverse_gives_lists_back};
use pad_row::laws::row_is_as_long;
use pad_stroke::Mark;

/// The row of a base has no marks.
pub fn begins_at_base()
    ensures { BeginsAtBase }
{}

/// As messages leave the path and come onto it, the row goes along.
pub fn follows_moves()
    ensures { FollowsMoves }
{
    fitting_applies();
    inverse_gives_lists_back::<Option<Mark>>();
    row_is_as_long();
}

/// Where only older marks were sent, a row without marks serves on any path.
pub fn begins_anywhere()
    ensures { BeginsAnywhere }
{
    fitting_applies();
    row_is_as_long();
}

/// The row of the shown text has the same newer marks.
pub fn shown_alike()
    ensures { ShownAlike }
{}
