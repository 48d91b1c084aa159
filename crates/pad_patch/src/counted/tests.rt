//! The counted calls answer as the calls that they count.
ghost use Rattle.std.specs.Prelude.{◌≡◌, ◌+◌, ◌<◌};

use crate::operation::Operation;
use crate::operations::Operations;
use crate::patch::Patch;
use crate::steps::Steps;
use crate::unit_store::UnitStore;
use crate::vec_units::VecUnits;
use pad_text::{Name, Text};
use std::alloc::{AllocError, Global};
use std::marker::Brand;
use std::sync::ledger::{Blank, Ledger};
use std::test::Fail;

/// `hello` with `J` in place of its first two letters, and what the patch that takes that back puts there again.
#[derive(Drop)]
struct Answers {
    after: Text,
    removed: Text,
}

/// A patch that puts `J` in place of the first two letters.
fn with_a_letter(alloc: Global, before: Name) -> Result<Patch, AllocError> {
    let mut ops = Vec::new(alloc);
    let insert = Text::from_str(alloc, "J")?;
    ops.push(Operation {
        offset: 0,
        remove: 2,
        insert,
    })?;
    Ok(Patch {
        ops: Operations::new(ops),
        before,
    })
}

/// Both calls, each counted once. There is no answer where the patch does not fit.
fn both_counted<L: Ledger>(alloc: Global, blank: Blank) -> Result<Option<Answers>, AllocError>
    requires name { blank.name ≡ L.name }
    requires parts { blank.parts ≡ L.parts }
    requires some { 0 < blank.parts }
{
    let mut steps = Steps::<L>::new(blank);
    let text = Text::from_str(alloc, "hello")?;
    let store = VecUnits::from_text(alloc, &text)?;
    let hash = store.hash(alloc)?;
    let patch = with_a_letter(alloc, hash)?;
    if let Ok(()) = patch.fits(&store, &hash) {
        let changed = patch.apply_counted(alloc, &store, &mut steps)?;
        let after_hash = changed.hash(alloc)?;
        if store.length() == 5 && changed.length() == 4 {
            let inverse = patch.invert_counted(alloc, &store, &after_hash, &mut steps)?;
            let after = changed.read(alloc, 0, changed.length())?;
            if let [operation] = inverse.ops.as_slice() {
                let removed = operation.insert.copy(alloc)?;
                return Ok(Some(Answers { after, removed }));
            }
        }
    }
    Ok(None)
}

#[test]
fn counted_calls_answer_alike(rt: HostRuntime) -> Result<(), Fail> {
    let alloc = rt.alloc();
    let answers = both_counted::<Brand>(alloc, Blank::new(1))?.ok_or("the patch does not fit")?;
    assert_eq!(rt; answers.after.to_string(alloc)?.as_str(), "Jllo");
    assert_eq!(rt; answers.removed.to_string(alloc)?.as_str(), "he");
    Ok(())
}
