//! Rows of values that were worked out by hand.
ghost use Rattle.std.specs.Prelude.{◌≡◌, ◌^◌, ◌<◌, length, IsTrue, IfSome, All};
ghost use Rattle.pad_text.specs.Hash.{document_hash};
ghost use Rattle.pad_text.specs.Text.{IsText};
ghost use Rattle.pad_patch.specs.Piece.{inserted};
ghost use Rattle.pad_patch.specs.declared.misfit.Misfit.TheVariants.{TooLong};
ghost use Rattle.pad_patch.specs.Misfit.{CanApply};
ghost use Rattle.pad_transform.specs.Table.{transformed_all, SumsFitThrough};
ghost use Rattle.pad_stroke.specs.Through.{joined};

use super::*;
use crate::laws::{joints_fit_with_room, pairs_stay_whole};
use pad_patch::{Misfit, VecUnits};
use pad_transform::laws::sums_fit_with_room;
use std::test::Fail;

/// An offset, a number of units to remove, and what to insert.
type Row = (u32, u32, &'static str);

fn operation_of(alloc: Global, (offset, remove, insert): Row) -> Result<Operation, AllocError> {
    Ok(Operation {
        offset,
        remove,
        insert: Text::from_str(alloc, insert)?,
    })
}

/// A patch of these operations.
fn patch_of(alloc: Global, rows: &[Row]) -> Result<Patch, AllocError> {
    let mut ops = Vec::new(alloc);
    for row in rows {
        ops.push(operation_of(alloc, *row)?)?;
    }
    Ok(Patch {
        ops: Operations::new(ops),
        before: Name::BASE,
    })
}

/// A store of this text.
fn store_of(alloc: Global, text: &str) -> Result<VecUnits, AllocError> {
    VecUnits::from_text(alloc, &Text::from_str(alloc, text)?)
}

/// Writes the operations of a work in brackets, and then its marks.
fn write_row(alloc: Global, row: &mut String, work: &Work) -> Result<(), AllocError> {
    for op in work.patch.ops.as_slice() {
        let insert = op.insert.to_string(alloc)?;
        let part = format!(in alloc; "[{},{},{}]", op.offset, op.remove, insert)?;
        row.push_str(part.as_str())?;
    }
    for mark in work.marks.as_slice() {
        let part = format!(in alloc; "({},{})", mark.stroke, mark.index)?;
        row.push_str(part.as_str())?;
    }
    Ok(())
}

/// The word for how an edit went.
fn word_of(edited: Result<(), EditRefused>) -> &'static str {
    match edited {
        Ok(()) => "",
        Err(EditRefused::Range) => "Range ",
        Err(EditRefused::Pair) => "Pair ",
        Err(EditRefused::TooLong) => "TooLong ",
        Err(EditRefused::NoMemory(_)) => "NoMemory ",
    }
}

/// Whether a patch was for a text that is too long after it.
fn is_too_long(misfit: Misfit) -> bool
    ensures { IsTrue result → misfit ≡ TooLong }
{
    match misfit {
        Misfit::TooLong => true,
        _ => false,
    }
}

/// Whether a patch can be applied to a text with this document hash, also where the text is too long after it.
fn can_apply<S: UnitStore>(patch: &Patch, text: &S, hash: &Name) -> bool
    requires { hash.now ≡ document_hash (S.units text.now) }
    ensures { IsTrue result → CanApply patch.now (S.units text.now) }
{
    match patch.fits(text, hash) {
        Ok(()) => true,
        Err(misfit) => is_too_long(misfit),
    }
}

/// Edits a work on a text with this document hash, where the conditions hold, and tells how it went.
fn edit<S: UnitStore>(
    alloc: Global,
    work: &mut Work,
    text: &S,
    hash: &Name,
    op: Operation,
    stroke: u64,
) -> &'static str
    requires { hash.now ≡ document_hash (S.units text.now) }
{
    if work.patch.before == *hash
        && text.length() < 1_000_000
        && can_apply(&work.patch, text, hash)
        && work.is_new_stroke(stroke)
    {
        return word_of(work.edit(alloc, text, op, stroke));
    }
    "unmet "
}

/// Edits a work, each time with the next stroke from 1 on, and writes how the edits went.
fn edit_all<S: UnitStore>(
    alloc: Global,
    work: &mut Work,
    text: &S,
    rows: &[Row],
    told: &mut String,
) -> Result<(), AllocError> {
    let hash = text.hash(alloc)?;
    let mut stroke = 0u64;
    for row in rows {
        stroke = stroke.saturating_add(1);
        told.push_str(edit(alloc, work, text, &hash, operation_of(alloc, *row)?, stroke))?;
    }
    Ok(())
}

/// A new work on this text after edits.
fn edited(alloc: Global, text: &str, rows: &[Row], told: &mut String) -> Result<Work, AllocError> {
    let store = store_of(alloc, text)?;
    let mut work = Work::new(alloc, store.hash(alloc)?)?;
    edit_all(alloc, &mut work, &store, rows, told)?;
    Ok(work)
}

/// How edits of a new work on this text went, and then the work.
fn told(alloc: Global, text: &str, rows: &[Row]) -> Result<String, AllocError> {
    let mut told = String::new(alloc);
    let work = edited(alloc, text, rows, &mut told)?;
    write_row(alloc, &mut told, &work)?;
    Ok(told)
}

#[test]
fn edits_are_merged_with_their_marks(rt: HostRuntime) -> Result<(), Fail> {
    // A text, edits, and the work. Pairs, strokes between one another, and edits that are refused.
    let table: [(&str, &[Row], &str); 7] = [
        (
            "abc",
            &[(3, 0, "xy"), (4, 0, "z"), (7, 0, "a")],
            "Range [3,0,xzy](1,0)(2,0)(1,1)",
        ),
        (
            "abc",
            &[(3, 0, "xy"), (4, 0, "z"), (3, 2, ""), (0, 0, "")],
            "[3,0,y](1,1)",
        ),
        (
            "ab",
            &[(1, 0, "\u{1F600}x"), (3, 0, "y")],
            "[1,0,\u{1F600}yx](1,0)(1,1)(2,0)(1,2)",
        ),
        (
            "ab",
            &[(1, 0, "x\u{1F600}"), (2, 0, "\u{1F601}")],
            "[1,0,x\u{1F601}\u{1F600}](1,0)(2,0)(2,1)(1,1)(1,2)",
        ),
        (
            "ab",
            &[(0, 1, "\u{1F600}\u{1F601}"), (2, 3, "z")],
            "[0,2,\u{1F600}z](1,0)(1,1)(2,0)",
        ),
        (
            "ab",
            &[(1, 0, "\u{1F600}"), (0, 0, "p"), (4, 0, "q"), (2, 2, "")],
            "[0,0,p][1,0,q](2,0)(3,0)",
        ),
        (
            "a\u{1F600}",
            &[
                (2, 0, "x"),
                (0, 2, ""),
                (1, 0, "\u{1F601}"),
                (2, 0, "x"),
                (2, 9, "x"),
                (3, 2, "x"),
            ],
            "Pair Pair Pair Range [1,2,\u{1F601}x](3,0)(3,1)(6,0)",
        ),
    ];
    for (text, rows, wanted) in table {
        assert_eq!(rt; told(rt.alloc(), text, rows)?.as_str(), wanted);
    }
    Ok(())
}

/// How many units a patch inserts, where a number can say so.
fn inserted_units(patch: &Patch) -> Option<usize>
    ensures { IfSome result (λ units. units ≡ length (inserted patch.now)) }
{
    let mut units: usize = 0;
    for op in patch.ops.as_slice() {
        units = units.checked_add(op.insert.len())?;
    }
    Some(units)
}

/// Whether there is room for all that the other patch inserts.
fn has_room(patch: &Patch, by: &Patch) -> bool
    ensures sums { IsTrue result → All (SumsFitThrough by.now.ops) patch.now.ops }
    ensures joints { IsTrue result → All (λ operation. operation.remove < 2 ^ 32) (joined (transformed_all patch.now by.now)) }
{
    sums_fit_with_room();
    joints_fit_with_room();
    let Some(units) = inserted_units(by) else {
        return false;
    };
    units <= 1000 && patch.ops.as_slice().iter().all(|op| op.end() <= 1000)
}

/// Carries a work over a patch, if there is room.
fn through(alloc: Global, work: &mut Work, by: &Patch) -> Result<(), AllocError> {
    if has_room(&work.patch, by) {
        work.through(alloc, by, &Name::BASE)?;
    }
    Ok(())
}

/// Takes back a work that was sent on a text of so many units, if that can be, and writes what comes of it; then carries
/// the work over a patch, and writes it again.
fn go_on(
    alloc: Global,
    work: &mut Work,
    sent: &Work,
    (back, len): (&Patch, usize),
    by: &Patch,
) -> Result<String, AllocError> {
    let mut row = String::new(alloc);
    if len < 1000 && work.can_take_back(sent, back, len) {
        work.take_back(alloc, sent, len)?;
        write_row(alloc, &mut row, work)?;
    }
    through(alloc, work, by)?;
    row.push_str(" by ")?;
    write_row(alloc, &mut row, work)?;
    Ok(row)
}

/// A work that is sent on a text, and then one on the text after it; the patch that takes the message back; another's patch.
type Story = (
    &'static str,
    &'static [Row],
    &'static str,
    &'static [Row],
    &'static [Row],
    Row,
);

fn row_of(
    alloc: Global,
    (text, sent, after, edits, back, by): Story,
) -> Result<String, AllocError> {
    let mut none = String::new(alloc);
    let sent = edited(alloc, text, sent, &mut none)?;
    let mut work = edited(alloc, after, edits, &mut none)?;
    let back = patch_of(alloc, back)?;
    go_on(
        alloc,
        &mut work,
        &sent,
        (&back, text.len()),
        &patch_of(alloc, &[by])?,
    )
}

#[test]
fn work_is_taken_back_and_carried(rt: HostRuntime) -> Result<(), Fail> {
    let table: [(Story, &str); 5] = [
        (
            (
                "",
                &[(0, 0, "hi")],
                "hi",
                &[(0, 0, ""), (1, 0, "o")],
                &[(0, 2, "")],
                (0, 0, "abc"),
            ),
            "[0,0,hoi](1,0)(2,0)(1,1) by [0,0,hoi](1,0)(2,0)(1,1)",
        ),
        // Marks that stand in both works stay as they are, also where a pair takes the place of a unit.
        (
            (
                "",
                &[(0, 0, "\u{1F600}"), (2, 0, "x")],
                "\u{1F600}x",
                &[(0, 0, "a"), (3, 1, "\u{1F601}")],
                &[(0, 3, "")],
                (0, 0, "b"),
            ),
            "[0,0,a\u{1F600}\u{1F601}](1,0)(1,0)(1,1)(2,0)(2,1) by [0,0,a\u{1F600}\u{1F601}](1,0)(1,0)(1,1)(2,0)(2,1)",
        ),
        // A pair between two units of a stroke, and one that goes.
        (
            (
                "ab",
                &[(1, 0, "\u{1F600}x"), (3, 0, "y")],
                "a\u{1F600}yxb",
                &[(3, 0, "\u{1F601}"), (1, 2, "")],
                &[(1, 4, "")],
                (0, 1, ""),
            ),
            "[1,0,\u{1F601}yx](1,0)(1,1)(2,0)(1,2) by [0,0,\u{1F601}yx](1,0)(1,1)(2,0)(1,2)",
        ),
        // Another message was reverted under the name of the one that was sent.
        (
            (
                "abc",
                &[(1, 0, "x")],
                "abc",
                &[(1, 1, "x"), (3, 0, "y")],
                &[(2, 1, "")],
                (2, 1, ""),
            ),
            " by [1,1,xy](1,0)(2,0)",
        ),
        // Operations that come to touch are joined.
        (
            (
                "abcde",
                &[],
                "abcde",
                &[(1, 1, "x"), (3, 1, "y")],
                &[],
                (2, 1, ""),
            ),
            "[1,1,x][3,1,y](1,0)(2,0) by [1,2,xy](1,0)(2,0)",
        ),
    ];
    for (story, wanted) in table {
        assert_eq!(rt; row_of(rt.alloc(), story)?.as_str(), wanted);
    }
    Ok(())
}

/// Whether no unit of a text is a surrogate.
fn is_plain(text: &Text) -> bool
    ensures { IsTrue result → All (λ unit. unit < 55296) text.now }
{
    text.as_units().iter().all(|unit| *unit < 0xD800)
}

/// Whether no inserted unit is a surrogate.
fn is_plain_patch(patch: &Patch) -> bool
    ensures { IsTrue result → All (λ operation. All (λ unit. unit < 55296) operation.insert) patch.now.ops }
{
    patch.ops.as_slice().iter().all(|op| is_plain(&op.insert))
}

/// A work without the units of another one, where it inserts no surrogate.
fn without(mut work: Work, of: &Work) -> Work {
    if is_plain_patch(&work.patch) {
        work.strip(of);
    }
    work
}

/// A work that was sent as it is, without the units of what was sent.
fn without_sent(alloc: Global, mut work: Work) -> Result<Work, AllocError> {
    pairs_stay_whole();
    let sent = work.copy(alloc)?;
    work.strip(&sent);
    Ok(work)
}

/// A work on "abc" without the units of another one; if that has none, without its own.
fn stripped(alloc: Global, rows: &[Row], of: &[Row]) -> Result<String, AllocError> {
    let mut row = String::new(alloc);
    let work = edited(alloc, "abc", rows, &mut row)?;
    let of = edited(alloc, "abc", of, &mut row)?;
    let left = if of.is_empty() {
        without_sent(alloc, work)?
    } else {
        without(work, &of)
    };
    write_row(alloc, &mut row, &left)?;
    Ok(row)
}

#[test]
fn work_is_stripped(rt: HostRuntime) -> Result<(), Fail> {
    // An operation that is empty then is left out, and one that removes stays.
    let table: [(&[Row], &[Row], &str); 3] = [
        (
            &[(3, 0, "xy"), (4, 0, "z")],
            &[(3, 0, "x")],
            "[3,0,zy](2,0)(1,1)",
        ),
        (&[(3, 0, "x"), (0, 1, "")], &[(3, 0, "x")], "[0,1,]"),
        (&[(3, 0, "\u{1F600}"), (1, 1, "x")], &[], "[1,1,]"),
    ];
    for (rows, of, wanted) in table {
        assert_eq!(rt; stripped(rt.alloc(), rows, of)?.as_str(), wanted);
    }
    Ok(())
}

/// A text of so many letters.
fn letters(alloc: Global, count: u32) -> Result<String, AllocError> {
    let mut letters = String::new(alloc);
    for _ in 0..count {
        letters.push('a')?;
    }
    Ok(letters)
}

#[test]
fn a_text_that_is_too_long_may_shrink(rt: HostRuntime) -> Result<(), Fail> {
    let alloc = rt.alloc();
    // A work that inserts the longest text comes to stand on a text of one letter more: it may not grow.
    let mut text = letters(alloc, 262_144)?;
    let rows = [(0, 0, "c"), (0, 1, "c"), (0, 1, ""), (0, 0, "d")];
    assert_eq!(rt;
        told(alloc, text.as_str(), &rows)?.as_str(),
        "TooLong [0,1,d](4,0)"
    );
    text.push('b')?;
    let rows = [
        (0, 0, "c"),
        (0, 1, "cd"),
        (0, 1, ""),
        (0, 0, "c"),
        (262_143, 1, ""),
        (0, 0, "c"),
    ];
    assert_eq!(rt;
        told(alloc, text.as_str(), &rows)?.as_str(),
        "TooLong TooLong TooLong [0,1,c][262144,1,](6,0)"
    );
    Ok(())
}

/// Whether no operation removes anything.
fn removes_nothing(patch: &Patch) -> bool
    ensures { IsTrue result → All (λ operation. operation.remove ≡ 0) patch.now.ops }
{
    patch.ops.as_slice().iter().all(|op| op.remove == 0)
}

/// The work moved to a text with another document hash, if it removes nothing.
fn moved(mut work: Work, before: Name) -> Work {
    if removes_nothing(&work.patch) {
        work.move_to(before);
    }
    work
}

#[test]
fn a_work_tells_what_it_has(rt: HostRuntime) -> Result<(), Fail> {
    let alloc = rt.alloc();
    let mut row = String::new(alloc);
    let work = moved(
        edited(alloc, "abc", &[(1, 0, "x\u{1F600}"), (2, 0, "p")], &mut row)?,
        Name::BASE,
    );
    let marks = work.marks();
    assert!(rt;
        marks.len() == 4
            && work.mark_at(1)
                == Mark {
                    stroke: 2,
                    index: 0
                }
    );
    assert!(rt;
        work.holds(Mark {
            stroke: 1,
            index: 2
        }) && !work.holds(Mark {
            stroke: 1,
            index: 3
        })
    );
    assert!(rt; work.is_new_stroke(3) && !work.is_new_stroke(2) && !work.is_empty());
    let patch = work.patch(alloc)?;
    assert!(rt; patch.before == Name::BASE && patch.ops.as_slice().len() == 1);
    Ok(())
}
