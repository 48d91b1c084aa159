//! What leaves the best branch, and what comes onto it.

ghost use Rattle.std.specs.Prelude.{◌≡◌, map, reverse, IfOk, IfSome};
ghost use Rattle.std.specs.BTreeMap.{get};
ghost use Rattle.pad_text.specs.declared.name.Name.{Name};
ghost use Rattle.pad_graph.specs.State.{name_cmp};
ghost use Rattle.pad_branch.specs.Undo.{undone_name};
ghost use Rattle.pad_branch.specs.Held.{IsHeldAs, messages_at};
ghost use Rattle.pad_branch.specs.Move.{move_back, move_on};

use crate::held::Held;
use crate::moving::unwind;
use crate::undo::Undo;
use pad_message::Kind;
use pad_patch::Patch;
use pad_text::Name;
use std::alloc::{AllocError, Global};
use std::collections::BTreeMap;

/// One message that leaves the best branch, or comes onto it.
#[derive(Debug, Drop)]
pub struct Move {
    /// The message's name.
    pub name: Name,
    /// The message's kind.
    pub kind: Kind,
    /// The inverse of its patch where it leaves; its patch where it comes on.
    pub patch: Patch,
}

/// The messages that these undos take back, as they come on in this order, with copies of their patches. Those that are not held
/// are left out.
pub fn applied(
    alloc: Global,
    messages: &BTreeMap<Name, Held>,
    undos: &[Undo],
) -> Result<Vec<Move>, AllocError>
    requires held { (name : Name) → IfSome (get name_cmp messages.now name) (IsHeldAs name) }
    ensures { IfOk result (λ moves. moves.items ≡ map move_on (messages_at (get name_cmp messages.now) (map undone_name undos.now))) }
{
    let mut moves = Vec::with_capacity(alloc, undos.len())?;
    for undo in undos {
        let Some(held) = messages.get(&undo.after.name) else {
            continue;
        };
        moves.push(Move {
            name: undo.after.name,
            kind: held.message.kind,
            patch: held.message.patch.copy(alloc)?,
        })?;
    }
    Ok(moves)
}

/// The messages that these undos take back, as they leave: the newest first.
pub fn reverted(alloc: Global, undos: Vec<Undo>) -> Result<Vec<Move>, AllocError>
    ensures { IfOk result (λ moves. moves.items ≡ map move_back (reverse undos.items)) }
{
    let mut undos = undos;
    let mut moves = Vec::new(alloc);
    moves.reserve(undos.len())?;
    unwind(&mut undos, 0, &mut moves);
    Ok(moves)
}
