//! Edits that are taken back, undone and redone, and units that are taken out, by texts that were worked out by hand.

use crate::back::back_of;
use crate::stroke::Stroke;
use crate::strokes::Strokes;
use crate::taking_out::removals;
use pad_patch::Operation;
use pad_stroke::Mark;
use pad_text::Text;
use std::alloc::Global;
use std::test::Fail;

fn edit(alloc: Global, offset: u32, remove: u32, insert: &str) -> Result<Operation, Fail> {
    Ok(Operation {
        offset,
        remove,
        insert: Text::from_str(alloc, insert)?,
    })
}

/// What takes an edit of a text back, as a line.
fn back_line(alloc: Global, shown: &str, op: &Operation) -> Result<String, Fail> {
    let shown = Text::from_str(alloc, shown)?;
    match back_of(alloc, op, &shown)? {
        None => Ok(format!(in alloc; "none")?),
        Some(back) => {
            let insert = back.insert.to_string(alloc)?;
            Ok(format!(in alloc; "{} {} {insert}", back.offset, back.remove)?)
        }
    }
}

#[test]
fn what_takes_an_edit_back(rt: HostRuntime) -> Result<(), Fail> {
    let alloc = rt.alloc();
    let line = back_line(alloc, "abcd", &edit(alloc, 1, 2, "xyz")?)?;
    assert_eq!(rt; line.as_str(), "1 3 bc");
    let behind = back_line(alloc, "abcd", &edit(alloc, 3, 2, "")?)?;
    assert_eq!(rt; behind.as_str(), "none");
    let start = back_line(alloc, "a\u{1F600}", &edit(alloc, 2, 0, "b")?)?;
    assert_eq!(rt; start.as_str(), "none");
    let end = back_line(alloc, "a\u{1F600}", &edit(alloc, 1, 1, "b")?)?;
    assert_eq!(rt; end.as_str(), "none");
    Ok(())
}

/// The numbers of the strokes that an undo and an undo of earlier ones take back next, and whether one can be redone.
fn next(strokes: &Strokes) -> (Option<u64>, Option<u64>, bool) {
    let last = strokes.last().map(|stroke| stroke.number);
    (
        last,
        strokes.last_earlier(),
        strokes.last_undone().is_some(),
    )
}

#[test]
fn strokes_over_their_life(rt: HostRuntime) -> Result<(), Fail> {
    let alloc = rt.alloc();
    let mut strokes = Strokes::new(alloc);
    assert_eq!(rt; next(&strokes), (None, None, false));
    let back = edit(alloc, 0, 2, "")?;
    strokes.add(Stroke { number: 1, back })?;
    let back = edit(alloc, 1, 1, "b")?;
    strokes.add(Stroke { number: 2, back })?;
    assert_eq!(rt; next(&strokes), (Some(2), None, false));
    strokes.add_undone(edit(alloc, 1, 1, "X")?)?;
    strokes.take();
    assert_eq!(rt; next(&strokes), (Some(1), None, true));
    let back = edit(alloc, 1, 1, "b")?;
    strokes.add(Stroke { number: 4, back })?;
    strokes.take_undone();
    assert_eq!(rt; next(&strokes), (Some(4), None, false));
    strokes.add_undone(edit(alloc, 1, 1, "X")?)?;
    strokes.take();
    strokes.changed(alloc)?;
    assert_eq!(rt; next(&strokes), (None, Some(1), false));
    let back = edit(alloc, 0, 1, "")?;
    strokes.add(Stroke { number: 6, back })?;
    assert_eq!(rt; next(&strokes), (Some(6), Some(1), false));
    strokes.add_undone(edit(alloc, 0, 0, "y")?)?;
    strokes.take();
    assert_eq!(rt; strokes.take_earlier(), Some(1));
    assert_eq!(rt; next(&strokes), (None, None, false));
    strokes.add_undone(edit(alloc, 0, 0, "y")?)?;
    strokes.forget_undone();
    assert_eq!(rt; next(&strokes), (None, None, false));
    let back = edit(alloc, 0, 1, "")?;
    strokes.add(Stroke { number: 7, back })?;
    strokes.clear();
    assert_eq!(rt; next(&strokes), (None, None, false));
    Ok(())
}

/// A row: a digit is the stroke of a unit, and any other letter stands for a unit without a mark.
fn row(alloc: Global, letters: &str) -> Result<Vec<Option<Mark>>, Fail> {
    let mut row = Vec::new(alloc);
    for (index, letter) in letters.chars().enumerate() {
        let entry = letter.to_digit(10).map(|stroke| Mark {
            stroke: stroke as u64,
            index: index as u64,
        });
        row.push(entry)?;
    }
    Ok(row)
}

/// The edits that take out the units of stroke 1, each as its place and its count, the last one first.
fn edits(alloc: Global, letters: &str) -> Result<String, Fail> {
    let row = row(alloc, letters)?;
    let mut line = String::new(alloc);
    if row.len() < 1000 {
        let mut left = removals(alloc, row.as_slice(), 1)?.into_vec();
        for _ in 0..left.len() {
            if let Some(edit) = left.pop() {
                let told = format!(in alloc; "{},{};", edit.offset, edit.remove)?;
                line.push_str(told.as_str())?;
            }
        }
    }
    Ok(line)
}

#[test]
fn runs_are_taken_out_from_right_to_left(rt: HostRuntime) -> Result<(), Fail> {
    let alloc = rt.alloc();
    assert_eq!(rt; edits(alloc, "")?.as_str(), "");
    assert_eq!(rt; edits(alloc, "a2b")?.as_str(), "");
    assert_eq!(rt; edits(alloc, "1")?.as_str(), "0,1;");
    assert_eq!(rt; edits(alloc, "11a1b211")?.as_str(), "6,2;3,1;0,2;");
    assert_eq!(rt; edits(alloc, "a1112a")?.as_str(), "1,3;");
    Ok(())
}
