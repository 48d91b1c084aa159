//! Rows of values that were worked out by hand.
ghost use Rattle.std.specs.Prelude.{◌<◌, ◌^◌};
ghost use Rattle.pad_merge.specs.Merge.{CanMerge};

use crate::merging::{merge, merge_from};
use crate::origin::Origin;
use crate::origins::Origins;
use pad_patch::{Operation, Operations, Patch, UnitStore, VecUnits};
use pad_text::{Name, Text};
use std::alloc::{AllocError, Global};
use std::test::Fail;

/// A patch of one operation: an offset, a number of units to remove, and what to insert.
fn patch_of(
    alloc: Global,
    (offset, remove, insert): (u32, u32, &str),
    before: Name,
) -> Result<Patch, AllocError> {
    let insert = Text::from_str(alloc, insert)?;
    let mut ops = Vec::new(alloc);
    ops.push(Operation {
        offset,
        remove,
        insert,
    })?;
    Ok(Patch {
        ops: Operations::new(ops),
        before,
    })
}

/// The operations of a patch, each in brackets.
fn shown(alloc: Global, patch: &Patch) -> Result<String, AllocError> {
    let mut rows = String::new(alloc);
    for op in patch.ops.as_slice() {
        let insert = op.insert.to_string(alloc)?;
        let row = format!(in alloc; "[{},{},{}]", op.offset, op.remove, insert)?;
        rows.push_str(row.as_str())?;
    }
    Ok(rows)
}

/// The merge of two patches, and the origins of what it inserts.
fn row_of(alloc: Global, p: &Patch, q: &Patch, len: usize) -> Result<String, AllocError>
    requires small { len < 2 ^ 32 }
    requires can { CanMerge p.now q.now len }
{
    let both = merge(alloc, p, q, len)?;
    let sourced = merge_from(alloc, p, q, len)?;
    let mut row = shown(alloc, &both)?;
    if shown(alloc, &sourced.patch)?.as_str() != row.as_str() {
        row.push_str(" is another")?;
    }
    for origin in sourced.from.as_slice() {
        let name = format!(in alloc; " {origin:?}")?;
        row.push_str(name.as_str())?;
    }
    Ok(row)
}

/// The merge of two patches of a text, and the origins of what it inserts. It is `none` where one does not fit.
fn merged(
    alloc: Global,
    text: &str,
    first: (u32, u32, &str),
    second: (u32, u32, &str),
) -> Result<String, AllocError> {
    let text = Text::from_str(alloc, text)?;
    let store = VecUnits::from_text(alloc, &text)?;
    let hash = store.hash(alloc)?;
    let p = patch_of(alloc, first, hash)?;
    if p.fits(&store, &hash).is_ok() && store.length() < 100 {
        let after = p.apply(alloc, &store)?;
        let after_hash = after.hash(alloc)?;
        let q = patch_of(alloc, second, after_hash)?;
        if q.fits(&after, &after_hash).is_ok() {
            return row_of(alloc, &p, &q, store.length());
        }
    }
    String::from_str(alloc, "none")
}

#[test]
fn two_patches_become_one(rt: HostRuntime) -> Result<(), Fail> {
    let alloc = rt.alloc();
    // What is typed and taken out again is not inserted.
    assert_eq!(rt;
        merged(alloc, "abc", (1, 1, "XY"), (2, 1, ""))?.as_str(),
        "[1,1,X] First(0)"
    );
    assert_eq!(rt;
        merged(alloc, "abc", (1, 1, "XY"), (1, 2, ""))?.as_str(),
        "[1,1,]"
    );
    assert_eq!(rt; merged(alloc, "abc", (3, 0, "d"), (3, 1, ""))?.as_str(), "");
    // Operations that touch are joined, and those that do not stand apart.
    assert_eq!(rt;
        merged(alloc, "abc", (1, 1, "X"), (2, 1, "Y"))?.as_str(),
        "[1,2,XY] First(0) Second(0)"
    );
    assert_eq!(rt;
        merged(alloc, "abcd", (0, 1, ""), (2, 1, "Z"))?.as_str(),
        "[0,1,][3,1,Z] Second(0)"
    );
    // New units in the middle of new units.
    assert_eq!(rt;
        merged(alloc, "abc", (1, 1, "XY"), (2, 0, "q"))?.as_str(),
        "[1,1,XqY] First(0) Second(0) First(1)"
    );
    // The unit in front is taken out, and the next one keeps its number.
    assert_eq!(rt;
        merged(alloc, "abc", (1, 1, "XY"), (1, 1, "pq"))?.as_str(),
        "[1,1,pqY] Second(0) Second(1) First(1)"
    );
    Ok(())
}

#[test]
fn origins_are_counted(rt: HostRuntime) -> Result<(), Fail> {
    let mut items = Vec::new(rt.alloc());
    assert_eq!(rt; Origins::new(Vec::new(rt.alloc())).is_empty(), true);
    items.push(Origin::First(0))?;
    items.push(Origin::Second(7))?;
    let origins = Origins::new(items);
    assert_eq!(rt; origins.len(), 2);
    assert_eq!(rt; origins.is_empty(), false);
    assert_eq!(rt;
        origins.as_slice(),
        [Origin::First(0), Origin::Second(7)].as_slice()
    );
    Ok(())
}
