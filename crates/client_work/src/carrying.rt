//! A work is carried along as the best chain changes.

ghost use Rattle.std.specs.Prelude.{◌≡◌, ◌++◌, length, OnOk};
ghost use Rattle.client_work.specs.Switch.{reverted, applied, in_order, switched};
ghost use Rattle.client_work.specs.Carrying.{Ground, behind_all, IsOnGround, AreInverses, AreReady, all_moves};
ghost use Rattle.client_work.specs.Inside.Steps.{first_hash};

use crate::stepping::{go_back, go_on};
use pad_branch::Move;
use pad_chain::Moved;
use pad_patch::laws::length_is_counted;
use pad_stroke::Work;
use pad_text::Name;
use std::alloc::{AllocError, Global};
use std::collections::BTreeMap;

/// The document hash for which the first move was made; if there is none, `end`.
fn first_hash(moves: &[Move], end: &Name) -> Name
    ensures { result ≡ first_hash moves.now end.now }
{
    match moves.first() {
        Some(step) => step.patch.before,
        None => *end,
    }
}

/// Carries a work back over all messages that left the best chain, from a text of `size` units to one with the hash `end`.
fn carry_back(
    alloc: Global,
    work: &mut Work,
    sent: &BTreeMap<Name, Work>,
    moves: &[Move],
    size: usize,
    end: &Name,
) -> Result<(), AllocError>
    requires { (grounds : Ground) × AreReady grounds sent.now.entries moves.now size end.now work.old }
    ensures back { OnOk result ((grounds : Ground) → AreReady grounds sent.now.entries moves.now size end.now work.old → AreInverses sent.now.entries moves.now grounds.text
        → record { text = (behind_all moves.now grounds).text; work = work.new } ≡ in_order (reverted sent.now.entries) moves.now (record { text = grounds.text; work = work.old })) }
    ensures stands { OnOk result ((grounds : Ground) → AreReady grounds sent.now.entries moves.now size end.now work.old → IsOnGround (behind_all moves.now grounds) work.new) }
{
    length_is_counted();
    let mut length = size;
    for place in 0..moves.len() {
        let step = &moves[place];
        length = step.patch.length_after(length);
        let later = moves.split_at(place + 1).1;
        let hash = first_hash(later, end);
        go_back(alloc, work, sent.get(&step.name), step, length, &hash)?;
    }
    Ok(())
}

/// Carries a work over all messages that came onto the best chain, to a text with the hash `end`.
fn carry_on(
    alloc: Global,
    work: &mut Work,
    sent: &BTreeMap<Name, Work>,
    moves: &[Move],
    end: &Name,
) -> Result<(), AllocError>
    requires { (grounds : Ground) × AreReady grounds sent.now.entries moves.now (length grounds.text) end.now work.old }
    ensures on { OnOk result ((grounds : Ground) → AreReady grounds sent.now.entries moves.now (length grounds.text) end.now work.old
        → record { text = (behind_all moves.now grounds).text; work = work.new } ≡ in_order (applied sent.now.entries) moves.now (record { text = grounds.text; work = work.old })) }
    ensures stands { OnOk result ((grounds : Ground) → AreReady grounds sent.now.entries moves.now (length grounds.text) end.now work.old → IsOnGround (behind_all moves.now grounds) work.new) }
{
    for place in 0..moves.len() {
        let step = &moves[place];
        let later = moves.split_at(place + 1).1;
        let hash = first_hash(later, end);
        go_on(alloc, work, sent.get(&step.name), step, &hash)?;
    }
    Ok(())
}

/// Carries a work back over these moves and then over those, from a text of `size` units to one with the hash `end`.
fn carry_over(
    alloc: Global,
    work: &mut Work,
    sent: &BTreeMap<Name, Work>,
    back: &[Move],
    on: &[Move],
    size: usize,
    end: &Name,
) -> Result<(), AllocError>
    requires { (grounds : Ground) × AreReady grounds sent.now.entries (back.now ++ on.now) size end.now work.old }
    ensures switched { OnOk result ((grounds : Ground) → AreReady grounds sent.now.entries (back.now ++ on.now) size end.now work.old → AreInverses sent.now.entries back.now grounds.text
        → record { text = (behind_all (back.now ++ on.now) grounds).text; work = work.new } ≡ in_order (applied sent.now.entries) on.now (in_order (reverted sent.now.entries) back.now (record { text = grounds.text; work = work.old }))) }
    ensures stands { OnOk result ((grounds : Ground) → AreReady grounds sent.now.entries (back.now ++ on.now) size end.now work.old → IsOnGround (behind_all (back.now ++ on.now) grounds) work.new) }
{
    let fork = first_hash(on, end);
    carry_back(alloc, work, sent, back, size, &fork)?;
    carry_on(alloc, work, sent, on, end)?;
    Ok(())
}

/// Carries a work along as the best chain changes, from a text of `size` units to one with the hash `end`. `sent` has the works that
/// were sent, by the names of the messages. If memory runs out, the work may stand anywhere on the way.
pub fn carry(
    alloc: Global,
    work: &mut Work,
    sent: &BTreeMap<Name, Work>,
    moved: &Moved,
    size: usize,
    end: &Name,
) -> Result<(), AllocError>
    requires { (grounds : Ground) × AreReady grounds sent.now.entries (all_moves moved.now) size end.now work.old }
    ensures switched { OnOk result ((grounds : Ground) → AreReady grounds sent.now.entries (all_moves moved.now) size end.now work.old → AreInverses sent.now.entries moved.now.reverted grounds.text
        → record { text = (behind_all (all_moves moved.now) grounds).text; work = work.new } ≡ switched sent.now.entries moved.now (record { text = grounds.text; work = work.old })) }
    ensures stands { OnOk result ((grounds : Ground) → AreReady grounds sent.now.entries (all_moves moved.now) size end.now work.old → IsOnGround (behind_all (all_moves moved.now) grounds) work.new) }
{
    let back = moved.reverted.as_slice();
    let on = moved.applied.as_slice();
    carry_over(alloc, work, sent, back, on, size, end)?;
    Ok(())
}
