//! What a line of a client script says.
ghost use Rattle.std.specs.Prelude.{◌≡◌, ℕ, List, Option, IfErr, IfNone, IfOk, IfSome, MatchOption};
ghost use Rattle.pad_text.specs.declared.name.Name.{Name};
ghost use Rattle.pad_patch.specs.declared.operation.Operation.{Operation};
ghost use Rattle.netflux_codec.specs.declared.since.Since.{Since};
ghost use Rattle.pad_script.specs.declared.act.Act.{Act};
ghost use Rattle.pad_script.specs.Act.{Says, SpellsAct};
ghost use Rattle.pad_script.specs.Inside.Words.{IsOneWord};

use crate::act::Act;
use crate::line_refused::LineRefused;
use crate::numbers::{interval_from, number_from};
use crate::parts::{behind, does_nothing, operation_from};
use netflux_codec::{Channel, Since};
use pad_text::Name;
use std::alloc::{AllocError, Global};

/// What a line of a client script says, without the newline that ends it: a command, or nothing. An empty line and one that
/// begins with `#` say nothing.
pub fn read_client_line(alloc: Global, line: &[u8]) -> Result<Option<Act>, LineRefused>
    ensures ok { IfOk result (Says line.now) }
    ensures outside { IfErr result (λ refused. refused ≡ LineRefused.Outside
        → (said : Option Act) → ¬ (Says line.now said)) }
{
    let Ok(line) = str::from_utf8(line) else {
        return Err(LineRefused::Outside);
    };
    if does_nothing(line) {
        return Ok(None);
    }
    match act_from(alloc, line)? {
        Some(act) => Ok(Some(act)),
        None => Err(LineRefused::Outside),
    }
}

/// The command that a line spells.
fn act_from(alloc: Global, line: &str) -> Result<Option<Act>, AllocError>
    ensures { IfOk result (λ found. MatchOption found ((act : Act) → ¬ (SpellsAct line.now act)) (SpellsAct line.now)) }
{
    if let Some(act) = word_from(line) {
        return Ok(Some(act));
    }
    if let Some(act) = join_from(line) {
        return Ok(Some(act));
    }
    if let Some(act) = known_from(line) {
        return Ok(Some(act));
    }
    if let Some(act) = edit_from(alloc, line)? {
        return Ok(Some(act));
    }
    if let Some(act) = hear_from(line) {
        return Ok(Some(act));
    }
    if let Some(act) = set_interval_from(line) {
        return Ok(Some(act));
    }
    Ok(None)
}

/// The lines that are always the same.
fn word_from(line: &str) -> Option<Act>
    ensures some { IfSome result (SpellsAct line.now) }
    ensures none { IfNone result ((act : Act) → IsOneWord act → ¬ (SpellsAct line.now act)) }
{
    match line {
        "leave" => Some(Act::Leave),
        "history" => Some(Act::History(Since::Default)),
        "history all" => Some(Act::History(Since::All)),
        "sync" => Some(Act::Sync),
        "resend" => Some(Act::Resend),
        "settle" => Some(Act::Settle),
        "repair" => Some(Act::Repair),
        "show" => Some(Act::Show),
        _ => None,
    }
}

/// `join CHANNEL`
fn join_from(line: &str) -> Option<Act>
    ensures some { IfSome result (SpellsAct line.now) }
    ensures none { IfNone result ((channel : List ℕ) → ¬ (SpellsAct line.now (Act.Join channel))) }
{
    match Channel::from_hex(behind(line, "join ")?) {
        Some(channel) => Some(Act::Join(channel)),
        None => None,
    }
}

/// `history NAME`
fn known_from(line: &str) -> Option<Act>
    ensures some { IfSome result (SpellsAct line.now) }
    ensures none { IfNone result ((key : Name) → ¬ (SpellsAct line.now (Act.History (Since.Known key)))) }
{
    match Name::from_hex(behind(line, "history ")?) {
        Some(key) => Some(Act::History(Since::Known(key))),
        None => None,
    }
}

/// `edit OFFSET REMOVE STRING`
fn edit_from(alloc: Global, line: &str) -> Result<Option<Act>, AllocError>
    ensures { IfOk result (λ found. MatchOption found
        ((operation : Operation) → ¬ (SpellsAct line.now (Act.Edit operation))) (SpellsAct line.now)) }
{
    let Some(text) = behind(line, "edit ") else {
        return Ok(None);
    };
    match operation_from(alloc, text)? {
        Some(operation) => Ok(Some(Act::Edit(operation))),
        None => Ok(None),
    }
}

/// `hear N`
fn hear_from(line: &str) -> Option<Act>
    ensures some { IfSome result (SpellsAct line.now) }
    ensures none { IfNone result ((count : ℕ) → ¬ (SpellsAct line.now (Act.Hear count))) }
{
    match number_from(behind(line, "hear ")?) {
        Some(count) => Some(Act::Hear(count)),
        None => None,
    }
}

/// `interval N`
fn set_interval_from(line: &str) -> Option<Act>
    ensures some { IfSome result (SpellsAct line.now) }
    ensures none { IfNone result ((messages : ℕ) → ¬ (SpellsAct line.now (Act.Interval messages))) }
{
    match interval_from(behind(line, "interval ")?) {
        Some(messages) => Some(Act::Interval(messages)),
        None => None,
    }
}
