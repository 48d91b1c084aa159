ghost use Rattle.std.specs.Prelude.{◌≡◌, ◌+◌, ◌-◌, ◌^◌, ◌<◌, ◌⊎◌, ℕ, List, ◌∷◌, ◌++◌, false, OnOk, OnErr, IfErr};
ghost use Rattle.std.specs.Io.KnownBytes.{Appends};
ghost use Rattle.pad_edge.specs.Count.{CountsIf};
ghost use Rattle.pad_output.specs.Output.{AppendsPart};
ghost use Rattle.pad_conversation.specs.Ends.{IsRun, IsConversed, IsStopped};
ghost use Rattle.pad_conversation.specs.Inside.Progress.{HasHeard, HasHeardInPart, HasDone, HasDoneInPart};
ghost use Rattle.pad_conversation.specs.Refused.{is_link, is_ended, is_write};
ghost use Rattle.pad_conversation.specs.Told.{Told, told};

use crate::refused::ConversationRefused;
use crate::speaker::Speaker;
use pad_edge::{Arrival, Failed, Link, LinkRefused, Sink, Wire};
use pad_output::write_all;
use std::alloc::Global;

/// Sends texts in order.
fn send_all<L: Link>(link: &mut L, texts: &[Wire]) -> Result<(), ConversationRefused>
    ensures sent { L.tells → OnOk result (L.sent link.new ≡ L.sent link.old ++ texts.now) }
    ensures part { OnErr result ((gone later : List (List ℕ)) × (texts.now ≡ gone ++ later) × (L.tells → L.sent link.new ≡ L.sent link.old ++ gone)) }
    ensures heard { L.tells → L.heard link.new ≡ L.heard link.old }
    ensures counts { (L.ends link.new ≡ L.ends link.old) × (L.given link.new ≡ L.given link.old) }
    ensures cause { CountsIf (is_link result) (L.faults link.old) (L.faults link.new) }
    ensures refused { IfErr result (λ refused. (refused ≡ ConversationRefused.Link) ⊎ (refused ≡ ConversationRefused.NoMemory)) }
{
    for text in texts {
        match link.send(text.as_str()) {
            Ok(()) => {}
            Err(LinkRefused::Failed) => return Err(ConversationRefused::Link),
            Err(LinkRefused::NoMemory) => return Err(ConversationRefused::NoMemory),
        }
    }
    Ok(())
}

/// Writes lines.
fn write_lines<O: Sink>(output: &mut O, lines: &Wire) -> Result<(), ConversationRefused>
    ensures whole { OnOk result (Appends (O.written output.old) (O.written output.new) lines.now) }
    ensures part { OnErr result (AppendsPart (O.written output.old) (O.written output.new) lines.now) }
    ensures cause { CountsIf (is_write result) (O.faults output.old) (O.faults output.new) }
    ensures refused { IfErr result (λ refused. refused ≡ ConversationRefused.Write) }
{
    match write_all(output, lines.as_str().as_bytes()) {
        Ok(()) => Ok(()),
        Err(Failed) => Err(ConversationRefused::Write),
    }
}

/// Carries out one command: its texts are sent, and then its lines are written.
fn carry_out<C, M: Speaker<C>, L: Link, O: Sink>(
    alloc: Global,
    command: &C,
    speaker: &mut M,
    link: &mut L,
    output: &mut O,
) -> Result<(), ConversationRefused>
    requires { (rest : List C) × M.lasts speaker.old (command.now ∷ rest) }
    ensures lasts { OnOk result ((rest : List C) → M.lasts speaker.old (command.now ∷ rest) → M.lasts speaker.new rest) }
    ensures done { OnOk result (HasDone M.machine (M.stands speaker.old) (M.stands speaker.new) command.now L.tells
        (told (L.heard link.old) (L.sent link.old) (O.written output.old)) (told (L.heard link.new) (L.sent link.new) (O.written output.new))) }
    ensures part { IfErr result (HasDoneInPart M.machine (M.stands speaker.old) command.now L.tells
        (told (L.heard link.old) (L.sent link.old) (O.written output.old)) (told (L.heard link.new) (L.sent link.new) (O.written output.new))) }
    ensures link { CountsIf (is_link result) (L.faults link.old) (L.faults link.new) }
    ensures ended { CountsIf (is_ended result) (L.ends link.old) (L.ends link.new) }
    ensures write { CountsIf (is_write result) (O.faults output.old) (O.faults output.new) }
{
    let said = speaker.command(alloc, command)?;
    send_all(link, said.texts.as_slice())?;
    write_lines(output, &said.lines)
}

/// Hears one text, and writes what is to be read of it.
fn hear_one<C, M: Speaker<C>, L: Link, O: Sink>(
    alloc: Global,
    speaker: &mut M,
    link: &mut L,
    output: &mut O,
) -> Result<(), ConversationRefused>
    ensures lasts { OnOk result ((rest : List C) → M.lasts speaker.old rest → M.lasts speaker.new rest) }
    ensures heard { OnOk result (HasHeard M.machine (M.stands speaker.old) (M.stands speaker.new) L.tells
        (told (L.heard link.old) (L.sent link.old) (O.written output.old)) (told (L.heard link.new) (L.sent link.new) (O.written output.new))) }
    ensures part { IfErr result (HasHeardInPart M.machine (M.stands speaker.old) L.tells
        (told (L.heard link.old) (L.sent link.old) (O.written output.old)) (told (L.heard link.new) (L.sent link.new) (O.written output.new))) }
    ensures given { OnOk result ((L.given link.old < 2 ^ 64 - 1) × (L.given link.new ≡ L.given link.old + 1)) }
    ensures link { CountsIf (is_link result) (L.faults link.old) (L.faults link.new) }
    ensures ended { CountsIf (is_ended result) (L.ends link.old) (L.ends link.new) }
    ensures write { CountsIf (is_write result) (O.faults output.old) (O.faults output.new) }
{
    let text = match link.recv() {
        Ok(Arrival::Text(text)) => text,
        Ok(Arrival::Ended) => return Err(ConversationRefused::Ended),
        Err(LinkRefused::Failed) => return Err(ConversationRefused::Link),
        Err(LinkRefused::NoMemory) => return Err(ConversationRefused::NoMemory),
    };
    let lines = speaker.hear(alloc, text.as_str())?;
    write_lines(output, &lines)
}

/// Hears until no text is waited for.
fn hear_on<C, M: Speaker<C>, L: Link, O: Sink>(
    alloc: Global,
    speaker: &mut M,
    link: &mut L,
    output: &mut O,
) -> Result<(), ConversationRefused>
    ensures lasts { OnOk result ((rest : List C) → M.lasts speaker.old rest → M.lasts speaker.new rest) }
    ensures run { (first : M.State) (commands done rest : List C) (before : Told) → commands ≡ done ++ rest
        → IsRun M.machine (M.stands speaker.old) first commands done L.tells before (told (L.heard link.old) (L.sent link.old) (O.written output.old))
        → OnOk result (IsRun M.machine (λ state. M.stands speaker.new state × (M.machine.waits state ≡ false)) first commands done L.tells before (told (L.heard link.new) (L.sent link.new) (O.written output.new))) }
    ensures stopped { (first : M.State) (commands done rest : List C) (before : Told) → commands ≡ done ++ rest
        → IsRun M.machine (M.stands speaker.old) first commands done L.tells before (told (L.heard link.old) (L.sent link.old) (O.written output.old))
        → IfErr result (IsStopped M.machine first commands L.tells before (told (L.heard link.new) (L.sent link.new) (O.written output.new))) }
    ensures link { CountsIf (is_link result) (L.faults link.old) (L.faults link.new) }
    ensures ended { CountsIf (is_ended result) (L.ends link.old) (L.ends link.new) }
    ensures write { CountsIf (is_write result) (O.faults output.old) (O.faults output.new) }
{
    while speaker.waits() {
        hear_one::<C, M, L, O>(alloc, speaker, link, output)?;
    }
    Ok(())
}

/// Carries out commands over a link that was dialled, in order. After each one it hears until the speaker waits for no text any more.
/// `Link` comes only where a call of the link failed, `Ended` exactly where it ended while a command still had to hear a text, and `Write`
/// only where a write failed.
pub fn converse<C, M: Speaker<C>, L: Link, O: Sink>(
    alloc: Global,
    commands: &[C],
    speaker: &mut M,
    link: &mut L,
    output: &mut O,
) -> Result<(), ConversationRefused>
    requires { M.lasts speaker.old commands.now }
    // The speaker waits for nothing yet, and stands for a state.
    ensures conversed { (first : M.State) → M.stands speaker.old first → M.machine.waits first ≡ false
        → OnOk result (IsConversed M.machine (M.stands speaker.new) first commands.now L.tells
        (told (L.heard link.old) (L.sent link.old) (O.written output.old)) (told (L.heard link.new) (L.sent link.new) (O.written output.new))) }
    ensures stopped { (first : M.State) → M.stands speaker.old first → M.machine.waits first ≡ false
        → IfErr result (IsStopped M.machine first commands.now L.tells
        (told (L.heard link.old) (L.sent link.old) (O.written output.old)) (told (L.heard link.new) (L.sent link.new) (O.written output.new))) }
    ensures link { CountsIf (is_link result) (L.faults link.old) (L.faults link.new) }
    ensures ended { CountsIf (is_ended result) (L.ends link.old) (L.ends link.new) }
    ensures write { CountsIf (is_write result) (O.faults output.old) (O.faults output.new) }
{
    for command in commands {
        carry_out(alloc, command, speaker, link, output)?;
        hear_on::<C, M, L, O>(alloc, speaker, link, output)?;
    }
    Ok(())
}
