//! Work on a branch that another one overtakes: what was sent there, and what was not. The expected places were worked out by hand.

ghost use Rattle.std.specs.Prelude.{◌≡◌, ℕ, ◌<◌, OnOk, IfOk};
ghost use Rattle.pad_text.specs.Text.{units_of};
ghost use Rattle.pad_stroke.specs.declared.mark.Mark.{Mark};
ghost use Rattle.pad_row.specs.Edits.{with_stroke};
ghost use Rattle.client_work.specs.Carrying.{Ground, IsOwnWork, IsOnGround, AreCarried};

use crate::carrying::carry;
use pad_chain::Chain;
use pad_merge::laws::applied_patches_merge;
use pad_message::Message;
use pad_patch::{Operation, Steps, UnitStore, VecUnits};
use pad_row::edits::{
    allowed_applies, edit_typed, marks_of_stroke, others_stay_typed, typed_whole,
};
use pad_row::pairs::{turn_typed, turn_whole};
use pad_stroke::laws::marks_come_from_either;
use pad_stroke::{Mark, Work};
use pad_text::{Name, Text};
use std::alloc::{AllocError, Global};
use std::collections::BTreeMap;
use std::marker::Brand;
use std::sync::ledger::{Blank, Ledger};
use std::test::Fail;

/// Inserts `abc` into the empty text.
const FIRST: &str =
    "[2,[[0,0,\"abc\"],\"e3b0c44298fc1c149afbf4c8996fb92427ae41e4649b934ca495991b7852b855\"],\"0000000000000000000000000000000000000000000000000000000000000000\"]";

/// Appends `d` after that.
const LEAVES: &str =
    "[2,[[3,0,\"d\"],\"ba7816bf8f01cfea414140de5dae2223b00361a396177a9cb410ff61f20015ad\"],\"f77893ff123539a227a1e6cc9978b6c9a000367720745d32928d3bb0d0cbcdd6\"]";

/// Inserts `e` in front of `abc`. Its name is the greater.
const COMES: &str =
    "[2,[[0,0,\"e\"],\"ba7816bf8f01cfea414140de5dae2223b00361a396177a9cb410ff61f20015ad\"],\"f77893ff123539a227a1e6cc9978b6c9a000367720745d32928d3bb0d0cbcdd6\"]";

/// Inserts `f` in front of that.
const WINS: &str =
    "[2,[[0,0,\"f\"],\"123dea0c15f08e64ae7875f313444d5d6c8c2fe2209b3fc31e17d0d6b2a483ff\"],\"bdbfd3b1e5c273457f0f8825a3067d09c40635cd0ee12cca4ab1759b7f9182dc\"]";

/// A letter that was typed into the chain's text, in a work of its own.
fn typed_letter<S: UnitStore>(
    alloc: Global,
    chain: &Chain<S>,
    place: u32,
    letter: &str,
    stroke: u64,
) -> Result<Work, Fail>
    ensures { IfOk result (λ work. (units : Mark → ℕ) → IsOnGround (record { text = chain.now.branch.branch.units; typed = with_stroke units stroke (units_of letter.now); strokes = stroke }) work) }
{
    applied_patches_merge();
    allowed_applies();
    typed_whole();
    marks_of_stroke();
    edit_typed();
    turn_whole();
    turn_typed();
    marks_come_from_either();
    let text = chain.text();
    let insert = Text::from_str(alloc, letter)?;
    let _units = insert.as_units();
    let operation = Operation {
        offset: place,
        remove: 0,
        insert,
    };
    let mut work = Work::new(alloc, chain.hash())?;
    work.edit(alloc, text, operation, stroke)?;
    Ok(work)
}

/// The works that were sent, where this one was sent as `LEAVES`.
fn sent_first(alloc: Global, own: Work) -> Result<BTreeMap<Name, Work>, Fail>
    ensures { IfOk result (λ sent. (grounds : Ground) → IsOwnWork grounds own → AreCarried grounds sent.entries) }
{
    let name = Message::read(alloc, LEAVES)?.name(alloc)?;
    let mut sent = BTreeMap::new(alloc);
    match sent.insert(name, own) {
        Ok(_) => Ok(sent),
        Err(_) => Err(Fail::from(AllocError)),
    }
}

/// Receives a message, and carries the work along.
fn follow<L: Ledger>(
    alloc: Global,
    chain: &mut Chain<VecUnits>,
    work: &mut Work,
    sent: &BTreeMap<Name, Work>,
    content: &str,
    steps: &mut Steps<L>,
) -> Result<(), Fail>
    requires { (units : Mark → ℕ) × IsOnGround (record { text = chain.old.branch.branch.units; typed = units; strokes = 2 }) work.old × AreCarried (record { text = chain.old.branch.branch.units; typed = units; strokes = 2 }) sent.now.entries }
    ensures { OnOk result ((units : Mark → ℕ) × IsOnGround (record { text = chain.new.branch.branch.units; typed = units; strokes = 2 }) work.new × AreCarried (record { text = chain.new.branch.branch.units; typed = units; strokes = 2 }) sent.now.entries) }
{
    let message = Message::read(alloc, content)?;
    let size = chain.text().length();
    let moved = chain.receive(alloc, message, steps)?;
    let hash = chain.hash();
    carry(alloc, work, sent, &moved, size, &hash)?;
    Ok(())
}

/// The work that was typed once `LEAVES` was sent, after the branch of the two others won.
fn carried_work<L: Ledger>(alloc: Global, blank: Blank) -> Result<Work, Fail>
    requires name { blank.name ≡ L.name }
    requires parts { blank.parts ≡ L.parts }
    requires some { 0 < blank.parts }
{
    others_stay_typed();
    let mut steps = Steps::<L>::new(blank);
    let mut chain = Chain::<VecUnits>::new(alloc)?;
    chain.receive(alloc, Message::read(alloc, FIRST)?, &mut steps)?;
    let own = typed_letter(alloc, &chain, 3, "d", 1)?;
    let sent = sent_first(alloc, own)?;
    chain.receive(alloc, Message::read(alloc, LEAVES)?, &mut steps)?;
    let mut work = typed_letter(alloc, &chain, 1, "X", 2)?;
    follow(alloc, &mut chain, &mut work, &sent, COMES, &mut steps)?;
    follow(alloc, &mut chain, &mut work, &sent, WINS, &mut steps)?;
    Ok(work)
}

#[test]
fn work_stays_where_a_branch_is_overtaken(rt: HostRuntime) -> Result<(), Fail> {
    let alloc = rt.alloc();
    let work = carried_work::<Brand>(alloc, Blank::new(1))?;
    let patch = work.patch(alloc)?;
    let expected = [(3, "X"), (5, "d")];
    assert_eq!(rt; patch.ops.as_slice().len(), expected.len());
    for (op, (offset, insert)) in patch.ops.as_slice().iter().zip(expected) {
        assert_eq!(rt; (op.offset, op.remove), (offset, 0));
        assert_eq!(rt; op.insert.to_string(alloc)?.as_str(), insert);
    }
    let marks = [
        Mark {
            stroke: 2,
            index: 0,
        },
        Mark {
            stroke: 1,
            index: 0,
        },
    ];
    assert_eq!(rt; work.marks(), marks.as_slice());
    Ok(())
}
