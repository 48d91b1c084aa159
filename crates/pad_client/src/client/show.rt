//! The report.

ghost use Rattle.std.specs.Prelude.{◌≡◌, ◌++◌, codes, decimal, length, IfOk, string_bytes};
ghost use Rattle.pad_patch.specs.Piece.{text_after};
ghost use Rattle.pad_model.specs.Report.{line, json_string};
ghost use Rattle.pad_client.specs.State.{ClientState};
ghost use Rattle.pad_client.specs.Report.{own_lines, IsPadReport, IsClientReport};
ghost use Rattle.pad_client.specs.View.{StandsAs};

use crate::client::Client;
use pad_edge::Wire;
use pad_patch::UnitStore;
use pad_report::Report;
use pad_text::Text;
use serde_json::Value;
use std::alloc::{AllocError, Global};

/// The whole text of a store.
fn whole_text<S: UnitStore>(alloc: Global, store: &S) -> Result<Text, AllocError>
    ensures { IfOk result (λ text. text ≡ S.units store.now) }
{
    store.read(alloc, 0, store.length())
}

/// Adds a line with a number.
fn push_count(lines: &mut String, word: &str, count: usize) -> Result<(), AllocError>
    ensures { IfOk result (λ _. string_bytes lines.new ≡ string_bytes lines.old ++ line word.now (decimal count)) }
{
    writeln!(lines, "{word} {count}")
}

/// Adds the line with the shown text, as a JSON string.
fn push_shown(alloc: Global, lines: &mut String, text: &Text) -> Result<(), AllocError>
    ensures { IfOk result (λ _. string_bytes lines.new ≡ string_bytes lines.old ++ line (codes "shown") (json_string text.now)) }
{
    let told = quoted(alloc, text)?;
    writeln!(lines, "shown {told}")
}

/// The text as a JSON string.
fn quoted(alloc: Global, text: &Text) -> Result<String, AllocError>
    ensures { IfOk result (λ string. string_bytes string ≡ json_string text.now) }
{
    let value = Value::String(text.to_string(alloc)?);
    value.to_string(alloc)
}

impl<S: UnitStore> Client<S> {
    /// The report: the eleven lines on its pad, then how many messages were not acknowledged, how many operations the work has, and
    /// the shown text.
    pub fn show(&self, alloc: Global) -> Result<Wire, AllocError>
        ensures { IfOk result (λ report. (client : ClientState) → StandsAs self.now client → IsClientReport client report) }
    {
        let _units = self.text();
        let mut lines = self.pad_lines(alloc)?;
        self.push_own(alloc, &mut lines)?;
        Ok(Wire::new(lines))
    }

    /// The lines on its pad.
    fn pad_lines(&self, alloc: Global) -> Result<String, AllocError>
        ensures { IfOk result (λ lines. (client : ClientState) → StandsAs self.now client → IsPadReport client (string_bytes lines)) }
    {
        let chain = self.copy.chain();
        let text = whole_text(alloc, chain.text())?;
        let best_end = chain.best();
        let root_end = chain.root();
        Report {
            best: best_end.name,
            height: best_end.height,
            hash: chain.hash(),
            known: chain.known(),
            waiting: chain.waiting(),
            unreadable: self.unreadable,
            root: root_end.name,
            root_height: root_end.height,
            kept: chain.kept(),
            overtaken: chain.overtaken(),
        }
        .lines(alloc, &text)
    }

    /// Adds the lines on its own work.
    fn push_own(&self, alloc: Global, lines: &mut String) -> Result<(), AllocError>
        ensures { IfOk result (λ _. string_bytes lines.new
            ≡ string_bytes lines.old ++ own_lines (length self.now.requests.outbox) (length self.now.copy.work.patch.ops) (text_after self.now.copy.work.patch self.now.copy.pad.chain.branch.branch.units)) }
    {
        let patch = self.copy.work().patch(alloc)?;
        let shown = self.copy.shown(alloc)?;
        let text = whole_text(alloc, &shown)?;
        push_count(lines, "outbox", self.requests.outbox().len())?;
        push_count(lines, "work", patch.ops.as_slice().len())?;
        push_shown(alloc, lines, &text)?;
        Ok(())
    }
}
