//! What a line of a session script says.
ghost use Rattle.std.specs.Prelude.{◌≡◌, ◌≢◌, ℕ, ◌<◌, List, [], ◌∷◌, Option, decimal, IfErr, IfNone, IfOk, IfSome, MatchOption};
ghost use Rattle.pad_text.specs.declared.name.Name.{Name};
ghost use Rattle.pad_patch.specs.declared.operation.Operation.{Operation};
ghost use Rattle.disk_volume.specs.declared.pick.Pick.{Pick};
ghost use Rattle.netflux_codec.specs.declared.since.Since.{Since};
ghost use Rattle.pad_script.specs.declared.session_act.SessionAct.{SessionAct};
ghost use Rattle.pad_script.specs.declared.session_act.TheConstants.{MOST_CLIENTS};
ghost use Rattle.pad_script.specs.Parts.{spaced};
ghost use Rattle.pad_script.specs.SessionAct.{IsPick, SaysInSession, SpellsSessionAct, pick_words};
ghost use Rattle.pad_script.specs.Inside.Words.{IsWordAndClient, word_of};

use crate::line_refused::LineRefused;
use crate::numbers::{byte_from, client_from, interval_from};
use crate::parts::{
    behind, client_before, does_nothing, number_before, operation_from, split_space,
};
use crate::session_act::{MOST_CLIENTS, SessionAct};
use disk_volume::Pick;
use netflux_codec::{Channel, Since};
use pad_text::Name;
use std::alloc::{AllocError, Global};

/// What a line of a session script says, without the newline that ends it: a command, or nothing. An empty line and one that
/// begins with `#` say nothing.
pub fn read_session_line(alloc: Global, line: &[u8]) -> Result<Option<SessionAct>, LineRefused>
    ensures ok { IfOk result (SaysInSession line.now) }
    ensures outside { IfErr result (λ refused. refused ≡ LineRefused.Outside
        → (said : Option SessionAct) → ¬ (SaysInSession line.now said)) }
{
    let Ok(line) = str::from_utf8(line) else {
        return Err(LineRefused::Outside);
    };
    if does_nothing(line) {
        return Ok(None);
    }
    match act_from(alloc, line)? {
        Some(act) => Ok(Some(act)),
        None => Err(LineRefused::Outside),
    }
}

/// The command that a line spells.
fn act_from(alloc: Global, line: &str) -> Result<Option<SessionAct>, AllocError>
    ensures { IfOk result (λ found. MatchOption found
        ((act : SessionAct) → ¬ (SpellsSessionAct line.now act)) (SpellsSessionAct line.now)) }
{
    if let Some(act) = of_client_from(line) {
        return Ok(Some(act));
    }
    if let Some(act) = join_from(line) {
        return Ok(Some(act));
    }
    if let Some(act) = history_from(line) {
        return Ok(Some(act));
    }
    if let Some(act) = edit_from(alloc, line)? {
        return Ok(Some(act));
    }
    if let Some(act) = set_interval_from(line) {
        return Ok(Some(act));
    }
    if let Some(act) = of_keeper_from(line) {
        return Ok(Some(act));
    }
    Ok(None)
}

/// A word and the number of a client.
fn of_client_from(line: &str) -> Option<SessionAct>
    ensures some { IfSome result (SpellsSessionAct line.now) }
    ensures none { IfNone result ((act : SessionAct) → IsWordAndClient act → ¬ (SpellsSessionAct line.now act)) }
{
    let (word, client) = split_space(line)?;
    of_client(word, client_from(client)?)
}

/// The command of a word and the number of a client.
fn of_client(word: &str, client: u8) -> Option<SessionAct>
    requires { client < MOST_CLIENTS }
    ensures some { IfSome result (SpellsSessionAct (spaced (word.now ∷ decimal client ∷ []))) }
    ensures none { IfNone result ((act : SessionAct) → IsWordAndClient act → word.now ≢ word_of act) }
{
    match word {
        "dial" => Some(SessionAct::Dial(client)),
        "hang" => Some(SessionAct::Hang(client)),
        "leave" => Some(SessionAct::Leave(client)),
        "sync" => Some(SessionAct::Sync(client)),
        "resend" => Some(SessionAct::Resend(client)),
        "repair" => Some(SessionAct::Repair(client)),
        "history" => Some(SessionAct::History(client, Since::Default)),
        "up" => Some(SessionAct::Up(client)),
        "down" => Some(SessionAct::Down(client)),
        "repeatup" => Some(SessionAct::RepeatUp(client)),
        "repeatdown" => Some(SessionAct::RepeatDown(client)),
        "loseup" => Some(SessionAct::LoseUp(client)),
        "losedown" => Some(SessionAct::LoseDown(client)),
        "show" => Some(SessionAct::Show(client)),
        _ => None,
    }
}

/// `join K CHANNEL`
fn join_from(line: &str) -> Option<SessionAct>
    ensures some { IfSome result (SpellsSessionAct line.now) }
    ensures none { IfNone result ((client : ℕ) (channel : List ℕ) → ¬ (SpellsSessionAct line.now (SessionAct.Join client channel))) }
{
    let (client, channel) = client_before(behind(line, "join ")?)?;
    match Channel::from_hex(channel) {
        Some(channel) => Some(SessionAct::Join(client, channel)),
        None => None,
    }
}

/// `history K NAME` or `history K all`
fn history_from(line: &str) -> Option<SessionAct>
    ensures some { IfSome result (SpellsSessionAct line.now) }
    ensures known { IfNone result ((client : ℕ) (key : Name) → ¬ (SpellsSessionAct line.now (SessionAct.History client (Since.Known key)))) }
    ensures all { IfNone result ((client : ℕ) → ¬ (SpellsSessionAct line.now (SessionAct.History client Since.All))) }
{
    let (client, from) = client_before(behind(line, "history ")?)?;
    match from {
        "all" => Some(SessionAct::History(client, Since::All)),
        _ => match Name::from_hex(from) {
            Some(key) => Some(SessionAct::History(client, Since::Known(key))),
            None => None,
        },
    }
}

/// `edit K OFFSET REMOVE STRING`
fn edit_from(alloc: Global, line: &str) -> Result<Option<SessionAct>, AllocError>
    ensures { IfOk result (λ found. MatchOption found
        ((client : ℕ) (operation : Operation) → ¬ (SpellsSessionAct line.now (SessionAct.Edit client operation)))
        (SpellsSessionAct line.now)) }
{
    let Some(rest) = behind(line, "edit ") else {
        return Ok(None);
    };
    let Some((client, text)) = client_before(rest) else {
        return Ok(None);
    };
    match operation_from(alloc, text)? {
        Some(operation) => Ok(Some(SessionAct::Edit(client, operation))),
        None => Ok(None),
    }
}

/// `interval K N`
fn set_interval_from(line: &str) -> Option<SessionAct>
    ensures some { IfSome result (SpellsSessionAct line.now) }
    ensures none { IfNone result ((client messages : ℕ) → ¬ (SpellsSessionAct line.now (SessionAct.Interval client messages))) }
{
    let (client, messages) = client_before(behind(line, "interval ")?)?;
    match interval_from(messages) {
        Some(messages) => Some(SessionAct::Interval(client, messages)),
        None => None,
    }
}

/// The lines that name no client.
fn of_keeper_from(line: &str) -> Option<SessionAct>
    ensures some { IfSome result (SpellsSessionAct line.now) }
    ensures run { IfNone result (¬ (SpellsSessionAct line.now SessionAct.Run)) }
    ensures reopen { IfNone result (¬ (SpellsSessionAct line.now SessionAct.Reopen)) }
    ensures stop { IfNone result ((call : ℕ) (pick : Pick) → ¬ (SpellsSessionAct line.now (SessionAct.Stop call pick))) }
    ensures log { IfNone result ((channel : List ℕ) → ¬ (SpellsSessionAct line.now (SessionAct.Log channel))) }
{
    if line == "run" {
        return Some(SessionAct::Run);
    }
    if line == "reopen" {
        return Some(SessionAct::Reopen);
    }
    if let Some(act) = stop_from(line) {
        return Some(act);
    }
    log_from(line)
}

/// `stop N PICK`
fn stop_from(line: &str) -> Option<SessionAct>
    ensures some { IfSome result (SpellsSessionAct line.now) }
    ensures none { IfNone result ((call : ℕ) (pick : Pick) → ¬ (SpellsSessionAct line.now (SessionAct.Stop call pick))) }
{
    let (call, pick) = number_before(behind(line, "stop ")?, 1, u32::MAX)?;
    match pick_from(pick) {
        Some(pick) => Some(SessionAct::Stop(call, pick)),
        None => None,
    }
}

/// `old`, `new` or `torn B`
fn pick_from(text: &str) -> Option<Pick>
    ensures some { IfSome result (λ pick. text.now ≡ spaced (pick_words pick)) }
    ensures typed { IfSome result IsPick }
    ensures none { IfNone result ((pick : Pick) → IsPick pick → text.now ≢ spaced (pick_words pick)) }
{
    match text {
        "old" => Some(Pick::Old),
        "new" => Some(Pick::New),
        _ => Some(Pick::Torn(byte_from(behind(text, "torn ")?)?)),
    }
}

/// `log CHANNEL`
fn log_from(line: &str) -> Option<SessionAct>
    ensures some { IfSome result (SpellsSessionAct line.now) }
    ensures none { IfNone result ((channel : List ℕ) → ¬ (SpellsSessionAct line.now (SessionAct.Log channel))) }
{
    match Channel::from_hex(behind(line, "log ")?) {
        Some(channel) => Some(SessionAct::Log(channel)),
        None => None,
    }
}
