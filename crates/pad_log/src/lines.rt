ghost use Rattle.std.specs.Prelude.{◌≡◌, ◌++◌, IfOk, MatchOption, string_bytes};
ghost use Rattle.keeper_entry.specs.Entry.{IsEntry};
ghost use Rattle.pad_log.specs.Lines.{numbers_of, rest_of, json_string_of_bytes, line_of_entry, line_of_count};

use keeper_entry::{content_of, moment_of, sender_of};
use serde_json::Value;
use std::alloc::{AllocError, Global};

/// The line of the entry that a payload holds, with this index. There is none exactly if the payload holds no entry.
pub fn entry_line(alloc: Global, index: u64, payload: &[u8]) -> Result<Option<String>, AllocError>
    ensures { IfOk result (λ found. MatchOption found (IsEntry payload.now → ⊥)
        (λ line. IsEntry payload.now × (string_bytes line ≡ line_of_entry index payload.now))) }
{
    let Some(content) = content_of(payload) else {
        return Ok(None);
    };
    let Some(sender) = sender_of(payload) else {
        return Ok(None);
    };
    let told = quoted(alloc, content)?;
    let mut line = String::new(alloc);
    push_numbers(&mut line, index, moment_of(payload))?;
    push_rest(&mut line, sender, &told)?;
    Ok(Some(line))
}

/// Adds an index and a moment, with a space between.
fn push_numbers(line: &mut String, index: u64, moment: u64) -> Result<(), AllocError>
    ensures { IfOk result (λ _. string_bytes line.new ≡ string_bytes line.old ++ numbers_of index moment) }
{
    write!(line, "{index} {moment}")
}

/// Adds a space, a sender, a space, a content and the line's end.
fn push_rest(line: &mut String, sender: &str, told: &str) -> Result<(), AllocError>
    ensures { IfOk result (λ _. string_bytes line.new ≡ string_bytes line.old ++ rest_of sender.now told.now) }
{
    writeln!(line, " {sender} {told}")
}

/// A content as a JSON string.
fn quoted(alloc: Global, content: &str) -> Result<String, AllocError>
    ensures { IfOk result (λ string. string_bytes string ≡ json_string_of_bytes content.now) }
{
    let value = Value::String(String::from_str(alloc, content)?);
    value.to_string(alloc)
}

/// The last line, which tells how many entries there are.
pub fn count_line(alloc: Global, total: u64) -> Result<String, AllocError>
    ensures { IfOk result (λ line. string_bytes line ≡ line_of_count total) }
{
    format!(in alloc; "entries {total}\n")
}
