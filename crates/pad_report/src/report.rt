ghost use Rattle.std.specs.Prelude.{◌≡◌, ◌++◌, decimal, IfOk, string_bytes};
ghost use Rattle.pad_text.specs.Hash.{document_hash};
ghost use Rattle.pad_model.specs.Report.{line, digits, place_text, json_string, report_lines};

use pad_text::{Name, Text};
use serde_json::Value;
use std::alloc::{AllocError, Global};

/// What a report tells, but for the text after the best chain.
#[derive(Clone, Copy, Debug, PartialEq, Eq)]
pub struct Report {
    /// The name of the best chain's last message, or the base's.
    pub best: Name,
    /// How many messages the best chain has.
    pub height: u64,
    /// The document hash of the text after the best chain.
    pub hash: Name,
    /// How many different names were received, the base's not counted.
    pub known: u64,
    /// How many different messages wait for a parent.
    pub waiting: u64,
    /// How many contents were no message.
    pub unreadable: u64,
    /// The name of the last message of the path to the kept root, or the base's.
    pub root: Name,
    /// How many messages the path to the kept root has.
    pub root_height: u64,
    /// How many different messages are linked through the kept root, the root (or the base, if that is the root) included.
    pub kept: u64,
    /// How many messages overtook the path that was chosen as they came.
    pub overtaken: u64,
}

impl Report {
    ghost use Rattle.pad_report.specs.Report.{values, IsWithoutText};

    /// The eleven lines, with this text after the best chain.
    pub fn lines(&self, alloc: Global, text: &Text) -> Result<String, AllocError>
        requires { self.now.hash ≡ document_hash text.now }
        ensures { IfOk result (λ lines. string_bytes lines ≡ report_lines (values self.now text.now)) }
    {
        let mut lines = self.summary(alloc, text)?;
        push_text(alloc, &mut lines, "text", text)?;
        Ok(lines)
    }

    /// The lines without the last one, which has the text after the best chain. That is this text.
    pub fn summary(&self, alloc: Global, text: &Text) -> Result<String, AllocError>
        requires { self.now.hash ≡ document_hash text.now }
        ensures { IfOk result (λ lines. IsWithoutText (values self.now text.now) (string_bytes lines)) }
    {
        let mut lines = String::new(alloc);
        push_name(alloc, &mut lines, "best", &self.best)?;
        push_count(&mut lines, "height", self.height)?;
        push_name(alloc, &mut lines, "hash", &self.hash)?;
        push_count(&mut lines, "units", text.len() as u64)?;
        push_count(&mut lines, "known", self.known)?;
        push_count(&mut lines, "waiting", self.waiting)?;
        push_count(&mut lines, "unreadable", self.unreadable)?;
        push_place(alloc, &mut lines, "root", &self.root, self.root_height)?;
        push_count(&mut lines, "kept", self.kept)?;
        push_count(&mut lines, "overtaken", self.overtaken)?;
        Ok(lines)
    }
}

/// Adds a line: a word, a space, a value, and the line's end.
fn push_line(report: &mut String, word: &str, told: &str) -> Result<(), AllocError>
    ensures { IfOk result (λ _. string_bytes report.new ≡ string_bytes report.old ++ line word.now told.now) }
{
    writeln!(report, "{word} {told}")
}

/// Adds a line with a number.
fn push_count(report: &mut String, word: &str, count: u64) -> Result<(), AllocError>
    ensures { IfOk result (λ _. string_bytes report.new ≡ string_bytes report.old ++ line word.now (decimal count)) }
{
    writeln!(report, "{word} {count}")
}

/// Adds a line with a name.
fn push_name(alloc: Global, report: &mut String, word: &str, name: &Name) -> Result<(), AllocError>
    ensures { IfOk result (λ _. string_bytes report.new ≡ string_bytes report.old ++ line word.now (digits name.now)) }
{
    let told = name.hex(alloc)?;
    push_line(report, word, &told)
}

/// Adds a line with a name and its height.
fn push_place(
    alloc: Global,
    report: &mut String,
    word: &str,
    name: &Name,
    height: u64,
) -> Result<(), AllocError>
    ensures { IfOk result (λ _. string_bytes report.new ≡ string_bytes report.old ++ line word.now (place_text name.now height)) }
{
    let told = name.hex(alloc)?;
    writeln!(report, "{word} {told} {height}")
}

/// Adds a line with a text as a JSON string.
fn push_text(alloc: Global, report: &mut String, word: &str, text: &Text) -> Result<(), AllocError>
    ensures { IfOk result (λ _. string_bytes report.new ≡ string_bytes report.old ++ line word.now (json_string text.now)) }
{
    let told = quoted(alloc, text)?;
    push_line(report, word, &told)
}

/// The text as a JSON string.
fn quoted(alloc: Global, text: &Text) -> Result<String, AllocError>
    ensures { IfOk result (λ string. string_bytes string ≡ json_string text.now) }
{
    let value = Value::String(text.to_string(alloc)?);
    value.to_string(alloc)
}
