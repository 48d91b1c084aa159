//! The edits that take out the units of one stroke.

ghost use Rattle.std.specs.Prelude.{◌≡◌, ◌≤◌, ◌<◌, ◌^◌, ◌++◌, length, IfOk, OnOk};
ghost use Rattle.pad_strokes.specs.Row.{is_of};
ghost use Rattle.pad_strokes.specs.Removal.{IsRemovalOf};
ghost use Rattle.pad_strokes.specs.Runs.{closed, runs};

use pad_patch::{Operation, Operations};
use pad_stroke::Mark;
use pad_text::{Text, texts_are_kept_by_cuts};
use std::alloc::{AllocError, Global};

/// The edits that take out of a text with this row of marks the units of one stroke, to be made from the last one to the first.
pub fn removals(alloc: Global, row: &[Option<Mark>], stroke: u64) -> Result<Operations, AllocError>
    requires { length row.now < 2 ^ 32 }
    ensures is { IfOk result (λ edits. edits ≡ runs stroke row.now) }
    ensures takes { IfOk result (λ edits. IsRemovalOf stroke row.now edits) }
{
    let edits = runs_in(alloc, row, stroke)?;
    Ok(edits)
}

/// The runs of the units of a stroke, from left to right.
fn runs_in(alloc: Global, row: &[Option<Mark>], stroke: u64) -> Result<Operations, AllocError>
    requires { length row.now < 2 ^ 32 }
    ensures { IfOk result (λ edits. edits ≡ runs stroke row.now) }
{
    let mut edits = Vec::new(alloc);
    let mut run = 0;
    for place in 0..row.len() {
        if is_of(stroke, row[place]) {
            run += 1;
        } else {
            close(alloc, &mut edits, place, run)?;
            run = 0;
        }
    }
    close(alloc, &mut edits, row.len(), run)?;
    Ok(Operations::new(edits))
}

/// Adds the edit that takes out so many units that end at a place, if there are any.
fn close(
    alloc: Global,
    edits: &mut Vec<Operation>,
    end: usize,
    run: usize,
) -> Result<(), AllocError>
    requires run { run ≤ end }
    requires small { end < 2 ^ 32 }
    ensures { OnOk result (edits.new.items ≡ edits.old.items ++ closed end run) }
{
    if run == 0 {
        return Ok(());
    }
    texts_are_kept_by_cuts();
    edits.push(Operation {
        offset: (end - run) as u32,
        remove: run as u32,
        insert: Text::from_units(Vec::new(alloc)),
    })?;
    Ok(())
}

/// Whether the unit with this entry is of the stroke.
fn is_of(stroke: u64, entry: Option<Mark>) -> bool
    ensures { result ≡ is_of stroke entry }
{
    match entry {
        Some(mark) => mark.stroke == stroke,
        None => false,
    }
}
