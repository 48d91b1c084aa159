//! Rows of values that were worked out by hand.
use crate::misfit::Misfit;
use crate::operation::Operation;
use crate::operations::Operations;
use crate::patch::Patch;
use crate::unit_store::{UnitStore, cuts_pair};
use crate::vec_units::VecUnits;
use pad_text::{Name, Text};
use std::alloc::{AllocError, Global};
use std::test::Fail;

/// A patch of one or more operations, each an offset, a number of units to remove, and what to insert.
fn patch_of(alloc: Global, rows: &[(u32, u32, &str)], before: Name) -> Result<Patch, AllocError> {
    let mut ops = Vec::new(alloc);
    for (offset, remove, insert) in rows {
        let insert = Text::from_str(alloc, insert)?;
        ops.push(Operation {
            offset: *offset,
            remove: *remove,
            insert,
        })?;
    }
    Ok(Patch {
        ops: Operations::new(ops),
        before,
    })
}

/// The whole text of a store.
fn text_of(alloc: Global, store: &VecUnits) -> Result<String, AllocError> {
    let text = store.read(alloc, 0, store.length())?;
    text.to_string(alloc)
}

/// The answer of `fits` for operations on a text with the right hash.
fn answer(
    alloc: Global,
    text: &str,
    rows: &[(u32, u32, &str)],
) -> Result<Result<(), Misfit>, AllocError> {
    let text = Text::from_str(alloc, text)?;
    let store = VecUnits::from_text(alloc, &text)?;
    let hash = store.hash(alloc)?;
    let patch = patch_of(alloc, rows, hash)?;
    Ok(patch.fits(&store, &hash))
}

#[test]
fn the_first_misfit_is_told(rt: HostRuntime) -> Result<(), Fail> {
    let alloc = rt.alloc();
    // One scalar outside the first plane, which is two units.
    let smile = "\u{1F600}";
    assert_eq!(rt; answer(alloc, smile, &[(1, 0, "a")])?, Err(Misfit::Pair(0)));
    assert_eq!(rt; answer(alloc, smile, &[(0, 1, "")])?, Err(Misfit::Pair(0)));
    assert_eq!(rt; answer(alloc, smile, &[(2, 0, "a")])?, Ok(()));
    assert_eq!(rt; answer(alloc, smile, &[(0, 2, "")])?, Ok(()));
    assert_eq!(rt;
        answer(alloc, smile, &[(3, 0, "a")])?,
        Err(Misfit::Range(0))
    );
    // The order of the classes, and of the operations in a class.
    assert_eq!(rt;
        answer(alloc, "hello", &[(0, 3, "J"), (2, 1, "")])?,
        Err(Misfit::Order(1))
    );
    assert_eq!(rt;
        answer(alloc, "hello", &[(9, 0, "q"), (2, 1, "")])?,
        Err(Misfit::Order(1))
    );
    assert_eq!(rt; answer(alloc, "hello", &[(0, 2, "J"), (2, 1, "")])?, Ok(()));
    assert_eq!(rt;
        answer(alloc, "hello", &[(0, 2, "J"), (2, 1, ""), (9, 0, "q")])?,
        Err(Misfit::Range(2))
    );
    Ok(())
}

#[test]
fn the_length_and_the_hash_come_last(rt: HostRuntime) -> Result<(), Fail> {
    let alloc = rt.alloc();
    let empty = Text::from_str(alloc, "")?.hash(alloc)?;
    let text = Text::from_str(alloc, "hello")?;
    let store = VecUnits::from_text(alloc, &text)?;
    let hash = store.hash(alloc)?;
    let patch = patch_of(alloc, &[(5, 0, "!")], empty)?;
    assert_eq!(rt; patch.fits(&store, &hash), Err(Misfit::BeforeHash));

    let letters = std::iter::repeat_n('a', 262_144).collect::<String>(alloc)?;
    assert_eq!(rt;
        answer(alloc, letters.as_str(), &[(0, 0, "b")])?,
        Err(Misfit::TooLong)
    );
    assert_eq!(rt; answer(alloc, letters.as_str(), &[(0, 1, "b")])?, Ok(()));
    // The greatest offset and number of units: no sum wraps.
    assert_eq!(rt;
        answer(alloc, "hello", &[(4_294_967_295, 4_294_967_295, "")])?,
        Err(Misfit::Range(0))
    );
    Ok(())
}

/// The operations of a patch, each in brackets.
fn shown(alloc: Global, patch: &Patch) -> Result<String, AllocError> {
    let mut rows = String::new(alloc);
    for op in patch.ops.as_slice() {
        let insert = op.insert.to_string(alloc)?;
        let row = format!(in alloc; "[{},{},{}]", op.offset, op.remove, insert)?;
        rows.push_str(row.as_str())?;
    }
    Ok(rows)
}

#[test]
fn a_patch_is_applied(rt: HostRuntime) -> Result<(), Fail> {
    let alloc = rt.alloc();
    let text = Text::from_str(alloc, "hello")?;
    let store = VecUnits::from_text(alloc, &text)?;
    let hash = store.hash(alloc)?;
    let patch = patch_of(alloc, &[(0, 2, "J"), (2, 1, "")], hash)?;
    if patch.fits(&store, &hash).is_ok() {
        let after = patch.apply(alloc, &store)?;
        assert_eq!(rt; text_of(alloc, &after)?.as_str(), "Jlo");
        assert_eq!(rt; text_of(alloc, &store)?.as_str(), "hello");
    } else {
        assert!(rt; false, "the patch does not fit");
    }
    Ok(())
}

#[test]
fn an_inverse_takes_a_patch_back(rt: HostRuntime) -> Result<(), Fail> {
    let alloc = rt.alloc();
    let text = Text::from_str(alloc, "hello")?;
    let store = VecUnits::from_text(alloc, &text)?;
    let hash = store.hash(alloc)?;
    let patch = patch_of(alloc, &[(0, 2, "J"), (2, 1, "")], hash)?;
    if patch.fits(&store, &hash).is_ok() {
        let after = patch.apply(alloc, &store)?;
        let after_hash = after.hash(alloc)?;
        if store.length() == 5 && after.length() == 3 {
            let inverse = patch.invert(alloc, &store, &after_hash)?;
            assert_eq!(rt; shown(alloc, &inverse)?.as_str(), "[0,1,he][1,0,l]");
            let back = inverse.apply(alloc, &after)?;
            assert_eq!(rt; text_of(alloc, &back)?.as_str(), "hello");
            assert_eq!(rt; inverse.ops.into_vec().len(), 2);
            return Ok(());
        }
    }
    assert!(rt; false, "the patch cannot be taken back");
    Ok(())
}

#[test]
fn a_copy_keeps_its_text(rt: HostRuntime) -> Result<(), Fail> {
    let alloc = rt.alloc();
    let text = Text::from_str(alloc, "hello")?;
    let mut store = VecUnits::from_text(alloc, &text)?;
    let copy = store.copy(alloc)?;
    let insert = Text::from_str(alloc, "i")?;
    if 4 <= store.length() && !cuts_pair(&store, 1) && !cuts_pair(&store, 4) {
        store.replace(alloc, 1, 4, &insert)?;
    }
    assert_eq!(rt; text_of(alloc, &store)?.as_str(), "hio");
    assert_eq!(rt; text_of(alloc, &copy)?.as_str(), "hello");
    Ok(())
}
