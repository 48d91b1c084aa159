//! Going forward on a path, message by message.

ghost use Rattle.std.specs.Prelude.{◌≡◌, ◌+◌, ◌*◌, ◌≤◌, ◌<◌, ◌^◌, ℕ, List, [], ◌∷◌, ◌++◌, length, map, reverse, IfOk, IfErr, IfSome, IsNone, IsSome, All};
ghost use Rattle.std.specs.BTreeMap.{get};
ghost use Rattle.pad_text.specs.declared.name.Name.{Name};
ghost use Rattle.pad_message.specs.declared.message.Message.{Message};
ghost use Rattle.pad_message.specs.Kind.{HasInterval, IsInterval};
ghost use Rattle.pad_message.specs.Message.{name_of};
ghost use Rattle.pad_model.specs.declared.base.Base.{Base};
ghost use Rattle.pad_model.specs.Sound.{IsSound, interval_of};
ghost use Rattle.pad_graph.specs.State.{name_cmp};
ghost use Rattle.pad_branch.specs.declared.tip.Tip.{Tip};
ghost use Rattle.pad_branch.specs.declared.undo.Undo.{Undo};
ghost use Rattle.pad_branch.specs.Tip.{since_after, tip_after};
ghost use Rattle.pad_branch.specs.Undo.{AreUndos, Rewinds, undone_name};
ghost use Rattle.pad_branch.specs.Held.{IsHeldAs, messages_at};
ghost use Rattle.pad_branch.specs.Branch.{Grows, LeadsTo};
ghost use Rattle.pad_branch.specs.Inside.Forward.{IsAt, StopsAt};

use crate::held::Held;
use crate::position::Position;
use crate::tip::Tip;
use crate::undo::Undo;
use pad_message::{Kind, Message};
use pad_patch::{Steps, UnitStore};
use pad_sound::is_sound;
use pad_text::Name;
use std::alloc::{AllocError, Global};
use std::collections::BTreeMap;
use std::sync::ledger::Ledger;

/// A position one message further, and how to take that message back.
#[derive(Drop)]
struct Grown<S: UnitStore> {
    position: Position<S>,
    undo: Undo,
}

/// The end of a path that was tested, and how to take each message back that was applied for it, the oldest first.
#[derive(Drop)]
pub(crate) struct Trial<S: UnitStore> {
    /// The end.
    pub(crate) position: Position<S>,
    /// One for each message that was applied.
    pub(crate) undos: Vec<Undo>,
}

/// What stands after a message with this name, where the text has this hash.
fn tip_next(message: &Message, name: Name, at: &Tip, hash: Name) -> Tip
    requires timed { HasInterval message.now.kind }
    requires before { IsInterval at.now.interval }
    requires room { at.now.since + 1 < 2 ^ 64 }
    ensures name { result.name ≡ name }
    ensures hash { result.hash ≡ hash }
    ensures since { result.since ≡ since_after message.now.kind at.now.since }
    ensures interval { result.interval ≡ interval_of message.now.kind at.now.interval }
    ensures timed { IsInterval result.interval }
{
    match message.kind {
        Kind::Patch => Tip {
            name,
            hash,
            since: at.since + 1,
            interval: at.interval,
        },
        Kind::Checkpoint(interval) => Tip {
            name,
            hash,
            since: 0,
            interval,
        },
    }
}

/// The position after the message, which has this name. None where it is not sound there.
fn grow<S: UnitStore, L: Ledger>(
    alloc: Global,
    message: &Message,
    name: Name,
    at: &Position<S>,
    steps: &mut Steps<L>,
) -> Result<Option<Grown<S>>, AllocError>
    requires timed { HasInterval message.now.kind }
    requires named { name_of message.now ≡ name }
    requires room { at.now.tip.since + 1 < 2 ^ 64 }
    ensures some { IfOk result (λ found. IfSome found (λ next. Grows message.now (S.units at.now.text) at.now.tip next.undo (S.units next.position.text))) }
    ensures tip { IfOk result (λ found. IfSome found (λ next. next.undo.after ≡ next.position.tip)) }
    ensures none { IfOk result (λ found. IsNone found → ¬ (IsSound message.now (at.now.tip.since + 1) at.now.tip.interval (S.units at.now.text))) }
    ensures two { IfOk result (λ found. IsSome found → steps.new ≡ steps.old + 2) }
    ensures nothing { IfOk result (λ found. IsNone found → steps.new ≡ steps.old) }
{
    if !is_sound(
        message,
        at.tip.since + 1,
        at.tip.interval,
        &at.text,
        &at.tip.hash,
    ) {
        return Ok(None);
    }
    let mut text = message.patch.apply_counted(alloc, &at.text, steps)?;
    text.remember(alloc)?;
    let hash = text.hash(alloc)?;
    let inverse = message.patch.invert_counted(alloc, &at.text, &hash, steps)?;
    let tip = tip_next(message, name, &at.tip, hash);
    Ok(Some(Grown {
        position: Position { text, tip },
        undo: Undo {
            kind: message.kind,
            inverse,
            after: tip,
        },
    }))
}

/// Tests the path that goes on from a position through the messages with these names, the newest first. Of a path that is not
/// sound it answers the name of the first message that is not.
pub(crate) fn go_forward<S: UnitStore, L: Ledger>(
    alloc: Global,
    messages: &BTreeMap<Name, Held>,
    mut names: Vec<Name>,
    start: Position<S>,
    steps: &mut Steps<L>,
) -> Result<Result<Trial<S>, Name>, AllocError>
    requires held { All (λ name. IsSome (get name_cmp messages.now name)) names.items }
    requires kept { (name : Name) → IfSome (get name_cmp messages.now name) (IsHeldAs name) }
    requires room { start.tip.since + length names.items + 1 < 2 ^ 64 }
    ensures leads { IfOk result (λ tested. IfOk tested (λ trial. LeadsTo (get name_cmp messages.now) (S.units start.text) start.tip (reverse trial.undos.items) (S.units trial.position.text))) }
    ensures named { IfOk result (λ tested. IfOk tested (λ trial. map undone_name (reverse trial.undos.items) ≡ names.items)) }
    ensures unsound { IfOk result (λ tested. IfErr tested (λ name. (base : Base) (path : List Message) → IsAt base path (S.units start.text) start.tip
        → StopsAt base path (messages_at (get name_cmp messages.now) names.items) name)) }
    ensures long { IfOk result (λ tested. IfOk tested (λ trial. length trial.undos.items ≡ length names.items)) }
    ensures all { IfOk result (λ tested. IfOk tested (λ _. steps.new ≡ steps.old + 2 * length names.items)) }
    ensures some { IfOk result (λ tested. IfErr tested (λ _. steps.new + 2 ≤ steps.old + 2 * length names.items)) }
    ensures rewinds { IfOk result (λ tested. IfOk tested (λ trial. (root : Tip) (low : ℕ) (under : List Undo) → start.tip ≡ tip_after root under → Rewinds root low under (S.units start.text)
        → Rewinds root low (reverse trial.undos.items ++ under) (S.units trial.position.text))) }
{
    let mut position = start;
    let mut undos = Vec::with_capacity(alloc, names.len())?;
    while let Some(name) = names.pop() {
        let Some(held) = messages.get(&name) else {
            return Ok(Err(name));
        };
        let Some(next) = grow(alloc, &held.message, name, &position, steps)? else {
            return Ok(Err(name));
        };
        undos.push(next.undo)?;
        position = next.position;
    }
    Ok(Ok(Trial { position, undos }))
}
