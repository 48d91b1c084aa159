//! A branch with one message to choose: one that is sound, and one that is not.

ghost use Rattle.std.specs.Prelude.{◌≡◌, ◌<◌, IfOk, IfSome};
ghost use Rattle.std.specs.BTreeMap.{get};
ghost use Rattle.pad_text.specs.declared.name.Name.{Name};
ghost use Rattle.pad_graph.specs.State.{name_cmp};
ghost use Rattle.pad_branch.specs.Held.{IsHeldAs};

use crate::branch::Branch;
use crate::held::Held;
use crate::plan::Plan;
use pad_graph::{Added, Graph};
use pad_message::Message;
use pad_model::Base;
use pad_patch::{Steps, UnitStore, VecUnits};
use pad_text::Name;
use std::alloc::{AllocError, Global};
use std::collections::BTreeMap;
use std::marker::Brand;
use std::sync::ledger::{Blank, Ledger};
use std::test::Fail;

/// Inserts `abc` into the empty text.
const EDIT: &str =
    "[2,[[0,0,\"abc\"],\"e3b0c44298fc1c149afbf4c8996fb92427ae41e4649b934ca495991b7852b855\"],\"0000000000000000000000000000000000000000000000000000000000000000\"]";

/// The same, but made for the text `abc`.
const UNFIT: &str =
    "[2,[[0,0,\"abc\"],\"ba7816bf8f01cfea414140de5dae2223b00361a396177a9cb410ff61f20015ad\"],\"0000000000000000000000000000000000000000000000000000000000000000\"]";

/// The SHA-256 of that content.
const UNFIT_NAME: &str = "98fe44eb2d4ea3bf4cdb62c2c0acf7126c92dfa341ca3ece0e3b7726c21b8c6f";

/// The SHA-256 of `abc`, of FIPS 180-4's examples.
const ABC_HASH: &str = "ba7816bf8f01cfea414140de5dae2223b00361a396177a9cb410ff61f20015ad";

/// One message, held at its name.
#[derive(Drop)]
struct Table {
    messages: BTreeMap<Name, Held>,
    name: Name,
}

/// The table of the message that this content spells.
fn table_of(alloc: Global, content: &str) -> Result<Table, Fail>
    ensures { IfOk result (λ table. (name : Name) → IfSome (get name_cmp table.messages name) (IsHeldAs name)) }
{
    let message = Message::read(alloc, content)?;
    let name = message.name(alloc)?;
    let mut messages = BTreeMap::new(alloc);
    let held = Held {
        message,
        pathless: false,
    };
    match messages.insert(name, held) {
        Ok(_) => Ok(Table { messages, name }),
        Err(_) => Err(Fail::from(AllocError)),
    }
}

/// The message that is sound, or the one that is not.
fn content(sound: bool) -> &'static str {
    if sound { EDIT } else { UNFIT }
}

/// The branch of the first base.
fn first_branch(alloc: Global) -> Result<Branch<VecUnits>, AllocError> {
    let base = Base::first(alloc);
    let store = VecUnits::from_text(alloc, &base.text)?;
    Branch::at_root(alloc, base.name, 0, store, base.interval)
}

/// The branch of the first base, after the choice that one message on the base leaves.
fn chosen<L: Ledger>(alloc: Global, sound: bool, blank: Blank) -> Result<Branch<VecUnits>, Fail>
    requires name { blank.name ≡ L.name }
    requires parts { blank.parts ≡ L.parts }
    requires some { 0 < blank.parts }
{
    let mut steps = Steps::<L>::new(blank);
    let table = table_of(alloc, content(sound))?;
    let mut branch = first_branch(alloc)?;
    let mut graph = Graph::new(alloc, Name::BASE)?;
    let Added::Linked(linkings) = graph.add(alloc, table.name, Name::BASE)? else {
        return Ok(branch);
    };
    let plan = branch.choose(
        alloc,
        &table.messages,
        &graph,
        linkings.as_slice(),
        &mut steps,
    )?;
    let Plan {
        won,
        found: _found,
        pathless: _pathless,
    } = plan;
    let Some(mut won) = won else {
        return Ok(branch);
    };
    let mut left = Vec::new(alloc);
    left.reserve(branch.undos().len())?;
    branch.make_room(&mut won)?;
    branch.switch_to(won, &mut left);
    Ok(branch)
}

/// What the test of a path of one message tells, where it is not sound.
fn first_unsound<L: Ledger>(alloc: Global, sound: bool, blank: Blank) -> Result<Option<Name>, Fail>
    requires name { blank.name ≡ L.name }
    requires parts { blank.parts ≡ L.parts }
    requires some { 0 < blank.parts }
{
    let mut steps = Steps::<L>::new(blank);
    let table = table_of(alloc, content(sound))?;
    let branch = first_branch(alloc)?;
    if branch.root_height() > 1 {
        return Ok(None);
    }
    let tested = branch.test_path(alloc, &table.messages, &table.name, 1, &mut steps)?;
    Ok(tested.err())
}

#[test]
fn a_sound_message_becomes_the_end(rt: HostRuntime) -> Result<(), Fail> {
    let mut branch = chosen::<Brand>(rt.alloc(), true, Blank::new(1))?;
    assert_eq!(rt; (branch.root_height(), branch.height()), (0, 1));
    assert_eq!(rt; Some(branch.tip().hash), Name::from_hex(ABC_HASH));
    if !branch.undos().is_empty() {
        branch.rise(1);
    }
    assert_eq!(rt; (branch.root_height(), branch.height()), (1, 1));
    Ok(())
}

#[test]
fn an_unsound_message_is_told(rt: HostRuntime) -> Result<(), Fail> {
    let alloc = rt.alloc();
    let branch = chosen::<Brand>(alloc, false, Blank::new(1))?;
    assert_eq!(rt; branch.height(), 0);
    let told = first_unsound::<Brand>(alloc, false, Blank::new(1))?;
    assert_eq!(rt; told, Name::from_hex(UNFIT_NAME));
    assert_eq!(rt; first_unsound::<Brand>(alloc, true, Blank::new(1))?, None);
    Ok(())
}
