//! The report of the messages received, as text.

ghost use Rattle.std.specs.Prelude.{◌≡◌, IfOk, string_bytes};
ghost use Rattle.pad_model.specs.Path.{NamesDiffer};
ghost use Rattle.pad_model.specs.Report.{report_lines, IsReport};
ghost use Rattle.pad_plain.specs.Summary.{summary_values};

use crate::messages::Messages;
use crate::summary::Summary;
use pad_model::Base;
use pad_report::Report;
use std::alloc::{AllocError, Global};

/// The lines of a report.
fn lines(alloc: Global, summary: &Summary, unreadable: u64) -> Result<String, AllocError>
    ensures { IfOk result (λ lines. string_bytes lines ≡ report_lines (summary_values summary.now unreadable)) }
{
    let report = Report {
        best: summary.best.name,
        height: summary.best.height as u64,
        hash: summary.text.hash(alloc)?,
        known: summary.known as u64,
        waiting: summary.waiting as u64,
        unreadable,
        root: summary.root.name,
        root_height: summary.root.height as u64,
        kept: summary.kept as u64,
        overtaken: summary.overtaken,
    };
    report.lines(alloc, &summary.text)
}

/// The report of the messages received, in the order in which they came, and of this many unreadable contents: eleven
/// lines.
pub fn report(
    alloc: Global,
    base: &Base,
    messages: &Messages,
    unreadable: u64,
) -> Result<String, AllocError>
    ensures { IfOk result (λ report. NamesDiffer messages.now → IsReport base.now messages.now unreadable (string_bytes report)) }
{
    let summary = Summary::of(alloc, base, messages)?;
    lines(alloc, &summary, unreadable)
}
