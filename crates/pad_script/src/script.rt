//! Whole scripts.
ghost use Rattle.std.specs.Prelude.{◌≡◌, ℕ, ◌+◌, ◌*◌, ◌≤◌, [], ◌∷◌, ◌++◌, IfErr, IfOk, OnOk};
ghost use Rattle.pad_script.specs.Act.{Says};
ghost use Rattle.pad_script.specs.SessionAct.{SaysInSession};
ghost use Rattle.pad_script.specs.Requests.{AreFew, makes_requests, session_makes_requests};
ghost use Rattle.pad_script.specs.Script.{IsFirstOutside, IsScript, commands_from};

use crate::act::Act;
use crate::client_line::read_client_line;
use crate::command::{Command, Commands};
use crate::line_refused::LineRefused;
use crate::script_refused::ScriptRefused;
use crate::session_act::SessionAct;
use crate::session_line::read_session_line;
use pad_lines::split_line;
use std::alloc::{AllocError, Global};

/// The commands of a client script, line by line. A line ends at a newline; a last line without one counts where it is not
/// empty.
pub fn read_script(alloc: Global, bytes: &[u8]) -> Result<Commands<Act>, ScriptRefused>
    ensures read { IfOk result (IsScript Says bytes.now) }
    ensures few { IfOk result (AreFew makes_requests bytes.now) }
    ensures bad { IfErr result (λ refused. (number : ℕ) → refused ≡ ScriptRefused.BadLine number
        → IsFirstOutside Says bytes.now number) }
{
    let mut commands = Vec::new(alloc);
    let mut number = 0;
    let mut rest = bytes;
    while let Some((line, after)) = split_line(rest) {
        number += 1;
        match read_client_line(alloc, line) {
            Ok(said) => push_said(&mut commands, number, said)?,
            Err(LineRefused::Outside) => return Err(ScriptRefused::BadLine(number)),
            Err(LineRefused::NoMemory(refused)) => return Err(ScriptRefused::NoMemory(refused)),
        }
        rest = after;
    }
    Ok(Commands::new(commands))
}

/// The commands of a session script, line by line, in the same way.
pub fn read_session(alloc: Global, bytes: &[u8]) -> Result<Commands<SessionAct>, ScriptRefused>
    ensures read { IfOk result (IsScript SaysInSession bytes.now) }
    ensures few { IfOk result (AreFew session_makes_requests bytes.now) }
    ensures bad { IfErr result (λ refused. (number : ℕ) → refused ≡ ScriptRefused.BadLine number
        → IsFirstOutside SaysInSession bytes.now number) }
{
    let mut commands = Vec::new(alloc);
    let mut number = 0;
    let mut rest = bytes;
    while let Some((line, after)) = split_line(rest) {
        number += 1;
        match read_session_line(alloc, line) {
            Ok(said) => push_said(&mut commands, number, said)?,
            Err(LineRefused::Outside) => return Err(ScriptRefused::BadLine(number)),
            Err(LineRefused::NoMemory(refused)) => return Err(ScriptRefused::NoMemory(refused)),
        }
        rest = after;
    }
    Ok(Commands::new(commands))
}

/// Adds the command of a line, where it says one.
fn push_said<A: Drop>(
    commands: &mut Vec<Command<A>>,
    line: u64,
    said: Option<A>,
) -> Result<(), AllocError>
    ensures { OnOk result (commands.new.items ≡ commands.old.items ++ commands_from line (said ∷ [])) }
{
    if let Some(act) = said {
        commands
            .push(Command { line, act })
            .map_err(|_| AllocError)?;
    }
    Ok(())
}
