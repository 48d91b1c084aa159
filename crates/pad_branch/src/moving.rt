//! The list of undos as the branch changes. None of this takes memory.

ghost use Rattle.std.specs.Prelude.{◌≡◌, ◌-◌, ◌+◌, ◌≤◌, ◌⊎◌, ◌++◌, length, take, drop, map, reverse, vec_len, vec_capacity};
ghost use Rattle.pad_branch.specs.Move.{move_back};

use crate::moved::Move;
use crate::undo::Undo;

/// Takes the newest undos, down to the first `keep`, and adds them to the moves.
pub(crate) fn unwind(undos: &mut Vec<Undo>, keep: usize, reverted: &mut Vec<Move>)
    requires keep { keep ≤ vec_len undos.old }
    requires reserved { vec_len undos.old - keep ≤ vec_capacity reverted.old - vec_len reverted.old }
    ensures undos { undos.new.items ≡ take keep undos.old.items }
    ensures room { vec_capacity undos.new ≡ vec_capacity undos.old }
    ensures reverted { reverted.new.items ≡ reverted.old.items ++ map move_back (take (length undos.old.items - keep) (reverse undos.old.items)) }
{
    while keep < undos.len() {
        let Some(undo) = undos.pop() else {
            return;
        };
        reverted.push_reserved(Move {
            name: undo.after.name,
            kind: undo.kind,
            patch: undo.inverse,
        });
    }
}

/// Adds these undos. One of the two lists has memory for both.
pub(crate) fn wind(undos: &mut Vec<Undo>, new: Vec<Undo>)
    requires { (vec_len undos.old + vec_len new ≤ vec_capacity undos.old) ⊎ (vec_len undos.old + vec_len new ≤ vec_capacity new) }
    ensures undos { undos.new.items ≡ undos.old.items ++ new.items }
{
    let mut new = new;
    let many = undos.len();
    if new.len() <= undos.capacity() - many {
        let _ = undos.append(&mut new);
        return;
    }
    let _ = new.append(undos);
    new.rotate_right(many);
    *undos = new;
}

/// Forgets the first so many undos.
pub(crate) fn forget_first(undos: &mut Vec<Undo>, by: usize)
    requires { by ≤ vec_len undos.old }
    ensures undos { undos.new.items ≡ drop by undos.old.items }
{
    let _ = undos.drain(..by);
}
