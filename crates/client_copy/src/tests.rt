//! A working copy whose messages leave the best chain, one that makes a checkpoint, one that adopts it, and one at the end of a
//! repair. The expected texts were worked out by hand; names and hashes are those of another program.

ghost use Rattle.std.specs.Prelude.{◌≡◌, ◌<◌};

use crate::working_copy::WorkingCopy;
use pad_chain::Chain;
use pad_message::{MOST_OPERATIONS, Message};
use pad_patch::{Operation, Steps, UnitStore, VecUnits};
use pad_text::{Name, Text};
use std::alloc::Global;
use std::marker::Brand;
use std::sync::ledger::{Blank, Ledger};
use std::test::Fail;

/// The name of the message that inserts `abc` into the empty text.
const FIRST: &str = "f77893ff123539a227a1e6cc9978b6c9a000367720745d32928d3bb0d0cbcdd6";

/// Inserts `abc` into the empty text.
const OWN: &str =
    "[2,[[0,0,\"abc\"],\"e3b0c44298fc1c149afbf4c8996fb92427ae41e4649b934ca495991b7852b855\"],\"0000000000000000000000000000000000000000000000000000000000000000\"]";

/// Inserts `e` in front of `abc`. Its name is greater than that of the message that appends `d`.
const COMES: &str =
    "[2,[[0,0,\"e\"],\"ba7816bf8f01cfea414140de5dae2223b00361a396177a9cb410ff61f20015ad\"],\"f77893ff123539a227a1e6cc9978b6c9a000367720745d32928d3bb0d0cbcdd6\"]";

/// Inserts `f` in front of that.
const WINS: &str =
    "[2,[[0,0,\"f\"],\"123dea0c15f08e64ae7875f313444d5d6c8c2fe2209b3fc31e17d0d6b2a483ff\"],\"bdbfd3b1e5c273457f0f8825a3067d09c40635cd0ee12cca4ab1759b7f9182dc\"]";

/// The checkpoint of the text `abc` after that message, with the usual interval.
const WHOLE: &str =
    "[4,[[0,3,\"abc\"],\"ba7816bf8f01cfea414140de5dae2223b00361a396177a9cb410ff61f20015ad\"],\"f77893ff123539a227a1e6cc9978b6c9a000367720745d32928d3bb0d0cbcdd6\"]";

/// Types into the shown text.
fn type_in(
    alloc: Global,
    copy: &mut WorkingCopy<VecUnits>,
    place: u32,
    typed: &str,
) -> Result<(), Fail> {
    let insert = Text::from_str(alloc, typed)?;
    if copy.strokes() < 1000 {
        copy.edit(
            alloc,
            Operation {
                offset: place,
                remove: 0,
                insert,
            },
        )?;
    }
    Ok(())
}

/// Makes the patch message of the work: its name.
fn send<L: Ledger>(
    alloc: Global,
    copy: &mut WorkingCopy<VecUnits>,
    steps: &mut Steps<L>,
) -> Result<Name, Fail> {
    let message = copy.patch_message(alloc)?;
    if message.patch.ops.as_slice().len() > MOST_OPERATIONS {
        return Ok(Name::BASE);
    }
    let name = message.name(alloc)?;
    copy.make_patch(alloc, name, message, steps)?;
    Ok(name)
}

/// Receives the message of a content.
fn receive<L: Ledger>(
    alloc: Global,
    copy: &mut WorkingCopy<VecUnits>,
    content: &str,
    steps: &mut Steps<L>,
) -> Result<(), Fail> {
    let message = Message::read(alloc, content)?;
    let name = message.name(alloc)?;
    copy.receive(alloc, name, message, steps)?;
    Ok(())
}

/// The committed text and the shown one.
fn texts(alloc: Global, copy: &WorkingCopy<VecUnits>) -> Result<(Name, Name), Fail> {
    let shown = copy.shown(alloc)?;
    Ok((copy.text().hash(alloc)?, shown.hash(alloc)?))
}

/// Two own messages, of which the second leaves again, with more work behind them.
fn overtaken<L: Ledger>(alloc: Global, blank: Blank) -> Result<(Name, Name, Name), Fail>
    requires name { blank.name ≡ L.name }
    requires parts { blank.parts ≡ L.parts }
    requires some { 0 < blank.parts }
{
    let mut steps = Steps::<L>::new(blank);
    let mut copy = WorkingCopy::<VecUnits>::new(alloc)?;
    type_in(alloc, &mut copy, 0, "abc")?;
    let first = send(alloc, &mut copy, &mut steps)?;
    type_in(alloc, &mut copy, 3, "d")?;
    send(alloc, &mut copy, &mut steps)?;
    type_in(alloc, &mut copy, 1, "z")?;
    receive(alloc, &mut copy, COMES, &mut steps)?;
    receive(alloc, &mut copy, WINS, &mut steps)?;
    let (committed, shown) = texts(alloc, &copy)?;
    Ok((first, committed, shown))
}

#[test]
fn work_comes_back_when_its_message_leaves(rt: HostRuntime) -> Result<(), Fail> {
    let alloc = rt.alloc();
    let (first, committed, shown) = overtaken::<Brand>(alloc, Blank::new(1))?;
    assert_eq!(rt; Some(first), Name::from_hex(FIRST));
    assert_eq!(rt; committed, Name::of_bytes("feabc".as_bytes()));
    assert_eq!(rt; shown, Name::of_bytes("feazbcd".as_bytes()));
    Ok(())
}

/// The name of the checkpoint that is made after an own message.
fn checkpointed<L: Ledger>(alloc: Global, blank: Blank) -> Result<Name, Fail>
    requires name { blank.name ≡ L.name }
    requires parts { blank.parts ≡ L.parts }
    requires some { 0 < blank.parts }
{
    let mut steps = Steps::<L>::new(blank);
    let mut copy = WorkingCopy::<VecUnits>::new(alloc)?;
    type_in(alloc, &mut copy, 0, "abc")?;
    send(alloc, &mut copy, &mut steps)?;
    let message = copy.checkpoint(alloc, None)?;
    let name = message.name(alloc)?;
    Ok(name)
}

#[test]
fn a_checkpoint_spells_the_text(rt: HostRuntime) -> Result<(), Fail> {
    let alloc = rt.alloc();
    let name = checkpointed::<Brand>(alloc, Blank::new(1))?;
    let message = Message::read(alloc, WHOLE)?;
    assert_eq!(rt; name, message.name(alloc)?);
    Ok(())
}

#[test]
fn work_stays_when_a_base_is_adopted(rt: HostRuntime) -> Result<(), Fail> {
    let alloc = rt.alloc();
    let message = Message::read(alloc, WHOLE)?;
    let mut copy = WorkingCopy::<VecUnits>::new(alloc)?;
    type_in(alloc, &mut copy, 0, "hi")?;
    let adopted = copy.may_adopt() && copy.adopt(alloc, &message)?;
    let (committed, shown) = texts(alloc, &copy)?;
    assert!(rt; adopted);
    assert_eq!(rt; Some(copy.base()), message.name(alloc).ok());
    assert_eq!(rt; committed, Name::of_bytes("abc".as_bytes()));
    assert_eq!(rt; shown, Name::of_bytes("hiabc".as_bytes()));
    Ok(())
}

/// The texts at the end of a repair that heard these contents, and whether the old best message was found.
fn repaired<L: Ledger>(
    alloc: Global,
    contents: &[&str],
    blank: Blank,
) -> Result<(bool, Name, Name), Fail>
    requires name { blank.name ≡ L.name }
    requires parts { blank.parts ≡ L.parts }
    requires some { 0 < blank.parts }
{
    let mut steps = Steps::<L>::new(blank);
    let mut copy = WorkingCopy::<VecUnits>::new(alloc)?;
    type_in(alloc, &mut copy, 0, "abc")?;
    send(alloc, &mut copy, &mut steps)?;
    type_in(alloc, &mut copy, 1, "z")?;
    let mut chain = Chain::<VecUnits>::whole(alloc)?;
    for content in contents {
        chain.receive(alloc, Message::read(alloc, content)?, &mut steps)?;
    }
    let found = copy.end_repair(alloc, chain, &mut steps)?;
    let (committed, shown) = texts(alloc, &copy)?;
    Ok((found, committed, shown))
}

#[test]
fn work_goes_on_at_the_end_of_a_repair(rt: HostRuntime) -> Result<(), Fail> {
    let alloc = rt.alloc();
    let (found, committed, shown) = repaired::<Brand>(alloc, &[OWN, COMES, WINS], Blank::new(1))?;
    assert!(rt; found);
    assert_eq!(rt; committed, Name::of_bytes("feabc".as_bytes()));
    assert_eq!(rt; shown, Name::of_bytes("feazbc".as_bytes()));
    let (found, committed, shown) = repaired::<Brand>(alloc, &[], Blank::new(1))?;
    assert!(rt; !found);
    assert_eq!(rt; committed, Name::of_bytes("".as_bytes()));
    assert_eq!(rt; shown, Name::of_bytes("".as_bytes()));
    Ok(())
}
