//! New chains, a chain from a checkpoint on, and messages that come in any order.
ghost use Rattle.std.specs.Prelude.{◌≡◌, ◌<◌};

use crate::adopt_refused::AdoptRefused;
use crate::chain::Chain;
use crate::receive_refused::ReceiveRefused;
use pad_checkpoint::Place;
use pad_graph::Standing;
use pad_message::Message;
use pad_patch::{Steps, UnitStore, VecUnits};
use pad_text::Name;
use std::alloc::{AllocError, Global};
use std::marker::Brand;
use std::sync::ledger::{Blank, Ledger};
use std::test::Fail;

/// Spells `abc` whole.
const CHECKPOINT: &str =
    "cp|[4,[[0,3,\"abc\"],\"ba7816bf8f01cfea414140de5dae2223b00361a396177a9cb410ff61f20015ad\"],\"0000000000000000000000000000000000000000000000000000000000000000\"]";

/// The SHA-256 of that content without its mark.
const CHECKPOINT_NAME: &str = "a158f0df4a7d56a601897c1794517de2b77f4ad53ebb96d4eb97b9b3569c3693";

/// The SHA-256 of `abc`, of FIPS 180-4's examples.
const ABC_HASH: &str = "ba7816bf8f01cfea414140de5dae2223b00361a396177a9cb410ff61f20015ad";

/// The SHA-256 of the empty text.
const EMPTY_HASH: &str = "e3b0c44298fc1c149afbf4c8996fb92427ae41e4649b934ca495991b7852b855";

/// Inserts `abc` into the empty text.
const EDIT: &str =
    "[2,[[0,0,\"abc\"],\"e3b0c44298fc1c149afbf4c8996fb92427ae41e4649b934ca495991b7852b855\"],\"0000000000000000000000000000000000000000000000000000000000000000\"]";

/// The counts of a chain: known, waiting, kept, overtaken and found.
fn counts(chain: &Chain<VecUnits>) -> [u64; 5] {
    [
        chain.known(),
        chain.waiting(),
        chain.kept(),
        chain.overtaken(),
        chain.found(),
    ]
}

#[test]
fn a_new_chain_is_its_base_alone(rt: HostRuntime) -> Result<(), Fail> {
    let chain = Chain::<VecUnits>::new(rt.alloc())?;
    assert_eq!(rt; chain.best(), chain.root());
    assert_eq!(rt; chain.text().length(), 0);
    assert_eq!(rt; Some(chain.hash()), Name::from_hex(EMPTY_HASH));
    assert_eq!(rt; (chain.interval(), chain.due()), (50, false));
    assert_eq!(rt; counts(&chain), [0, 0, 1, 0, 0]);
    assert_eq!(rt; chain.standing(&Name::BASE), Standing::Linked(0));
    Ok(())
}

#[test]
fn a_chain_that_drops_nothing_begins_alike(rt: HostRuntime) -> Result<(), Fail> {
    let chain = Chain::<VecUnits>::whole(rt.alloc())?;
    assert_eq!(rt; counts(&chain), [0, 0, 1, 0, 0]);
    Ok(())
}

#[test]
fn a_chain_begins_at_a_checkpoint(rt: HostRuntime) -> Result<(), Fail> {
    let checkpoint = Message::read(rt.alloc(), CHECKPOINT)?;
    let chain = Chain::<VecUnits>::adopt(rt.alloc(), &checkpoint)?;
    assert_eq!(rt; Some(chain.best().name), Name::from_hex(CHECKPOINT_NAME));
    assert_eq!(rt; chain.text().length(), 3);
    assert_eq!(rt; Some(chain.hash()), Name::from_hex(ABC_HASH));
    Ok(())
}

#[test]
fn an_edit_is_not_adopted(rt: HostRuntime) -> Result<(), Fail> {
    let edit = Message::read(rt.alloc(), EDIT)?;
    let refused = Chain::<VecUnits>::adopt(rt.alloc(), &edit).err();
    assert_eq!(rt; refused, Some(AdoptRefused::NotACheckpoint));
    Ok(())
}

/// Appends `d` after that edit.
const WITH_D: &str =
    "[2,[[3,0,\"d\"],\"ba7816bf8f01cfea414140de5dae2223b00361a396177a9cb410ff61f20015ad\"],\"f77893ff123539a227a1e6cc9978b6c9a000367720745d32928d3bb0d0cbcdd6\"]";

/// Appends `e` after that edit. Its name is the lesser.
const WITH_E: &str =
    "[2,[[3,0,\"e\"],\"ba7816bf8f01cfea414140de5dae2223b00361a396177a9cb410ff61f20015ad\"],\"f77893ff123539a227a1e6cc9978b6c9a000367720745d32928d3bb0d0cbcdd6\"]";

/// The SHA-256 of `abce`.
const ABCE_HASH: &str = "84e73dc50f2be9000ab2a87f8026c1f45e1fec954af502e9904031645b190d4f";

/// Inserts `x` into the empty text, and names another text.
const UNSOUND: &str =
    "[2,[[0,0,\"x\"],\"ba7816bf8f01cfea414140de5dae2223b00361a396177a9cb410ff61f20015ad\"],\"0000000000000000000000000000000000000000000000000000000000000000\"]";

/// Appends `y` after the unsound one.
const AFTER_UNSOUND: &str =
    "[2,[[1,0,\"y\"],\"2d711642b726b04401627ca9fbac32f5c8530fb1903cc4db02258717921a4881\"],\"7ec02678ed788aa86a97c8d839664285c5dee06acc86fdbcca3374e4f5ee1a27\"]";

/// Appends `z` after that.
const LAST_UNSOUND: &str =
    "[2,[[2,0,\"z\"],\"769a4e6d0003189c7e96c5d9b7e810a0d11c3a12832527ec94b0f86d277f51ca\"],\"a062f08ecf8653ce73ebdeb990fec783556686f77b645af7a0a574f1355ae872\"]";

/// A message by its digit.
fn content(digit: u8) -> &'static str {
    match digit {
        1 => EDIT,
        2 => WITH_D,
        3 => WITH_E,
        4 => UNSOUND,
        5 => AFTER_UNSOUND,
        _ => LAST_UNSOUND,
    }
}

/// Where a chain ends, and how many messages left and came on as the last message came.
#[derive(Drop)]
struct End {
    best: Place,
    hash: Name,
    counts: [u64; 5],
    left: usize,
    came: usize,
}

/// The end after these messages, in the order of their digits. There is none if one of them cannot be read.
fn received<L: Ledger>(
    alloc: Global,
    blank: Blank,
    order: &[u8],
) -> Result<Option<End>, ReceiveRefused>
    requires name { blank.name ≡ L.name }
    requires parts { blank.parts ≡ L.parts }
    requires some { 0 < blank.parts }
{
    let mut steps = Steps::<L>::new(blank);
    let mut chain = Chain::<VecUnits>::new(alloc)?;
    let mut left = 0;
    let mut came = 0;
    for digit in order {
        let Ok(message) = Message::read(alloc, content(*digit)) else {
            return Ok(None);
        };
        let moved = chain.receive(alloc, message, &mut steps)?;
        left = moved.reverted.as_slice().len();
        came = moved.applied.as_slice().len();
    }
    Ok(Some(End {
        best: chain.best(),
        hash: chain.hash(),
        counts: counts(&chain),
        left,
        came,
    }))
}

/// The same, with a counter of its own.
fn end_after(alloc: Global, order: &[u8]) -> Result<Option<End>, ReceiveRefused> {
    received::<Brand>(alloc, Blank::new(1), order)
}

#[test]
fn unsound_messages_change_nothing_in_any_order(rt: HostRuntime) -> Result<(), Fail> {
    let alloc = rt.alloc();
    for order in [
        [1u8, 4, 5, 6],
        [1, 4, 6, 5],
        [1, 5, 4, 6],
        [1, 5, 6, 4],
        [1, 6, 4, 5],
        [1, 6, 5, 4],
        [4, 1, 5, 6],
        [4, 1, 6, 5],
        [4, 5, 1, 6],
        [4, 5, 6, 1],
        [4, 6, 1, 5],
        [4, 6, 5, 1],
        [5, 1, 4, 6],
        [5, 1, 6, 4],
        [5, 4, 1, 6],
        [5, 4, 6, 1],
        [5, 6, 1, 4],
        [5, 6, 4, 1],
        [6, 1, 4, 5],
        [6, 1, 5, 4],
        [6, 4, 1, 5],
        [6, 4, 5, 1],
        [6, 5, 1, 4],
        [6, 5, 4, 1],
    ] {
        let end = end_after(alloc, &order)?.ok_or("not read")?;
        assert_eq!(rt; end.best.height, 1);
        assert_eq!(rt; Some(end.hash), Name::from_hex(ABC_HASH));
        assert_eq!(rt; end.counts, [4, 0, 5, 0, 1]);
    }
    Ok(())
}

#[test]
fn the_lesser_of_two_names_wins_in_any_order(rt: HostRuntime) -> Result<(), Fail> {
    let alloc = rt.alloc();
    for (order, left, came) in [
        ([1u8, 2, 3], 1usize, 1usize),
        ([1, 3, 2], 0, 0),
        ([2, 3, 1], 0, 2),
    ] {
        let end = end_after(alloc, &order)?.ok_or("not read")?;
        assert_eq!(rt; Some(end.hash), Name::from_hex(ABCE_HASH));
        assert_eq!(rt; (end.left, end.came), (left, came));
        assert_eq!(rt; end.counts, [3, 0, 4, 0, 0]);
    }
    Ok(())
}

/// How many messages leave and come on, from the path to this name to a new chain.
fn moves_to_new<L: Ledger>(
    alloc: Global,
    from: &Name,
    blank: Blank,
) -> Result<Option<(usize, usize)>, AllocError>
    requires name { blank.name ≡ L.name }
    requires parts { blank.parts ≡ L.parts }
    requires some { 0 < blank.parts }
{
    let mut steps = Steps::<L>::new(blank);
    let chain = Chain::<VecUnits>::whole(alloc)?;
    match chain.moves_from(alloc, from, &mut steps)? {
        Some(moved) => Ok(Some((
            moved.reverted.as_slice().len(),
            moved.applied.as_slice().len(),
        ))),
        None => Ok(None),
    }
}

#[test]
fn a_new_chain_comes_from_its_base_alone(rt: HostRuntime) -> Result<(), Fail> {
    let alloc = rt.alloc();
    let other = Name::of_bytes(b"abc");
    assert_eq!(rt;
        moves_to_new::<Brand>(alloc, &Name::BASE, Blank::new(1))?,
        Some((0, 0))
    );
    assert_eq!(rt; moves_to_new::<Brand>(alloc, &other, Blank::new(1))?, None);
    Ok(())
}
