//! The way from a message down to the best branch.

ghost use Rattle.std.specs.Prelude.{◌≡◌, ◌≢◌, ◌+◌, ◌-◌, ◌≤◌, ◌<◌, List, [], ◌∷◌, ◌++◌, length, drop, reverse, map, IfOk, IsSome, Some, slice_get, All};
ghost use Rattle.std.specs.BTreeMap.{get};
ghost use Rattle.pad_text.specs.declared.name.Name.{Name};
ghost use Rattle.pad_message.specs.declared.message.Message.{Message};
ghost use Rattle.pad_model.specs.declared.base.Base.{Base};
ghost use Rattle.pad_model.specs.Path.{last_name, IsLinkedPath, NamesDiffer};
ghost use Rattle.pad_graph.specs.State.{name_cmp};
ghost use Rattle.pad_branch.specs.declared.undo.Undo.{Undo};
ghost use Rattle.pad_branch.specs.Undo.{undone_name};
ghost use Rattle.pad_branch.specs.Held.{HoldsKept, messages_at};
ghost use Rattle.pad_branch.specs.Inside.Candidates.{AreNamed};

use crate::held::Held;
use crate::undo::Undo;
use pad_text::Name;
use std::alloc::{AllocError, Global};
use std::collections::BTreeMap;

/// The way from a message down to the best branch.
#[derive(Drop)]
pub(crate) struct Walk {
    /// The names on it, the newest first, down to the one above the best branch.
    pub(crate) names: Vec<Name>,
    /// How many messages of the best branch above the root stay below it.
    pub(crate) keep: usize,
}

/// The way from the message with this name, which stands so many messages above the root.
pub(crate) fn way_down(
    alloc: Global,
    messages: &BTreeMap<Name, Held>,
    undos: &[Undo],
    name: &Name,
    above: usize,
) -> Result<Walk, AllocError>
    ensures held { IfOk result (λ way. All (λ name. IsSome (get name_cmp messages.now name)) way.names.items) }
    ensures long { IfOk result (λ way. way.keep + length way.names.items ≤ above) }
    ensures keep { IfOk result (λ way. way.keep ≤ length undos.now) }
    ensures fork { IfOk result (λ way. (front : List Name) (last : Name) (undo : Undo) → way.names.items ≡ front ++ last ∷ [] → slice_get undos.now way.keep ≡ Some undo → undone_name undo ≢ last) }
    ensures path { IfOk result (λ way. (base : Base) (received root chosen : List Message) → NamesDiffer received → HoldsKept base received root (get name_cmp messages.now) → AreNamed chosen (reverse undos.now)
        → IsLinkedPath base received (chosen ++ root)
        → (path : List Message) → IsLinkedPath base received (path ++ root) → length path ≡ above → last_name base (path ++ root) ≡ name.now
        → path ≡ messages_at (get name_cmp messages.now) way.names.items ++ drop (length chosen - way.keep) chosen) }
{
    let mut names = Vec::new(alloc);
    let mut at = *name;
    for place in (0..above).rev() {
        if place < undos.len() && undos[place].after.name == at {
            return Ok(Walk {
                names,
                keep: place + 1,
            });
        }
        let Some(held) = messages.get(&at) else {
            return Ok(Walk {
                names: Vec::new(alloc),
                keep: 0,
            });
        };
        names.push(at)?;
        at = held.message.parent;
    }
    Ok(Walk { names, keep: 0 })
}
