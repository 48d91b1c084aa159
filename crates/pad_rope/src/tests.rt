//! What no clause says. What a rope holds is compared with the same text in one vector.
use crate::rope::Rope;
use pad_patch::{UnitStore, VecUnits, cuts_pair};
use pad_text::Text;
use std::alloc::{AllocError, Global};
use std::test::Fail;

/// A text of a number of copies of one piece.
fn repeated(alloc: Global, piece: &str, count: usize) -> Result<Text, AllocError> {
    let mut string = String::new(alloc);
    for _i in 0..count {
        string.push_str(piece)?;
    }
    Text::from_str(alloc, string.as_str())
}

/// A replacement, where the range is one of the text.
fn changed<S: UnitStore>(
    alloc: Global,
    store: &mut S,
    from: usize,
    to: usize,
    insert: &Text,
) -> Result<bool, AllocError> {
    if from <= to && to <= store.length() && !cuts_pair(store, from) && !cuts_pair(store, to) {
        store.replace(alloc, from, to, insert)?;
        return Ok(true);
    }
    Ok(false)
}

/// Whether a rope and a vector read and hash alike.
fn are_alike(alloc: Global, rope: &Rope, plain: &VecUnits) -> Result<bool, AllocError> {
    let first = rope.read(alloc, 0, rope.length())?;
    let second = plain.read(alloc, 0, plain.length())?;
    Ok(first.as_units() == second.as_units() && rope.hash(alloc)? == plain.hash(alloc)?)
}

/// The same replacement in a rope and a vector, and whether they are alike after it, before and after the rope remembers.
fn both_changed(
    alloc: Global,
    rope: &mut Rope,
    plain: &mut VecUnits,
    from: usize,
    to: usize,
    insert: &Text,
) -> Result<bool, AllocError> {
    if changed(alloc, rope, from, to, insert)? != changed(alloc, plain, from, to, insert)? {
        return Ok(false);
    }
    let before = are_alike(alloc, rope, plain)?;
    rope.remember(alloc)?;
    Ok(before && are_alike(alloc, rope, plain)?)
}

/// Replacements at each place from one on, and whether they leave both alike.
fn swept(
    alloc: Global,
    rope: &mut Rope,
    plain: &mut VecUnits,
    first: usize,
    remove: usize,
    insert: &Text,
) -> Result<bool, AllocError> {
    for place in first..first.saturating_add(12) {
        if !both_changed(
            alloc,
            rope,
            plain,
            place,
            place.saturating_add(remove),
            insert,
        )? {
            return Ok(false);
        }
    }
    Ok(true)
}

#[test]
fn a_rope_reads_as_a_vector_after_each_change(rt: HostRuntime) -> Result<(), Fail> {
    let alloc = rt.alloc();
    // Pairs across the borders of leaves and of saved hashers.
    let letters = "a".repeat(alloc, 511)?;
    let text = format!(in alloc;
        "{letters}\u{1F600}{letters}\u{1F600}{letters}\u{E9}{letters}\u{1F600}"
    )?;
    let text = Text::from_str(alloc, text.as_str())?;
    let mut rope = Rope::from_text(alloc, &text)?;
    let mut plain = VecUnits::from_text(alloc, &text)?;
    assert!(rt; are_alike(alloc, &rope, &plain)?);
    for (remove, insert) in [
        (0, "b"),
        (0, "\u{1F601}"),
        (2, ""),
        (1, "\u{20AC}"),
        (2, "\u{1F602}"),
        (3, ""),
    ] {
        let insert = Text::from_str(alloc, insert)?;
        for first in [0, 250, 506, 762, 1018, 2040] {
            assert!(rt;
                swept(alloc, &mut rope, &mut plain, first, remove, &insert)?,
                "at {first}, {remove} removed"
            );
        }
    }
    let long = repeated(alloc, "\u{E9}\u{1F600}x", 1_500)?;
    let none = Text::from_str(alloc, "")?;
    for (from, to, insert) in [
        (700, 700, &long),
        (0, 512, &long),
        (1_024, 9_000, &none),
        (512, 1_024, &long),
        (0, rope.length(), &none),
        (0, 0, &none),
        (0, 0, &long),
    ] {
        assert!(rt;
            both_changed(alloc, &mut rope, &mut plain, from, to, insert)?,
            "from {from} to {to}"
        );
    }
    let size = plain.length();
    assert!(rt; both_changed(alloc, &mut rope, &mut plain, 0, size, &none)?);
    assert_eq!(rt; rope.length(), 0);
    assert_eq!(rt; rope.height(), 0);
    Ok(())
}

#[test]
fn ten_thousand_changes(rt: HostRuntime) -> Result<(), Fail> {
    let alloc = rt.alloc();
    let text = repeated(alloc, "a", 262_144)?;
    let insert = Text::from_str(alloc, "bc")?;
    let mut rope = Rope::from_text(alloc, &text)?;
    let mut plain = VecUnits::from_text(alloc, &text)?;
    for i in 0..10_000 {
        let at = i * 7_919 % 262_144;
        changed(alloc, &mut rope, at, at + 1, &insert)?;
        changed(alloc, &mut plain, at, at + 1, &insert)?;
    }
    assert!(rt; are_alike(alloc, &rope, &plain)?);
    assert_eq!(rt; rope.length(), 272_144);
    let height = rope.height();
    assert!(rt; 10 <= height && height <= 36);
    Ok(())
}

#[test]
fn the_longest_text_in_one_insertion_and_letter_by_letter(rt: HostRuntime) -> Result<(), Fail> {
    let alloc = rt.alloc();
    let text = repeated(alloc, "\u{E9}", 262_144)?;
    let letter = Text::from_str(alloc, "\u{E9}")?;
    let none = Text::from_str(alloc, "")?;
    let mut whole = Rope::from_text(alloc, &none)?;
    let mut typed = whole.copy(alloc)?;
    changed(alloc, &mut whole, 0, 0, &text)?;
    for place in 0..262_144 {
        changed(alloc, &mut typed, place, place, &letter)?;
    }
    let hash = text.hash(alloc)?;
    assert_eq!(rt; whole.length(), 262_144);
    assert_eq!(rt; typed.length(), 262_144);
    assert_eq!(rt; whole.hash(alloc)?, hash);
    assert_eq!(rt; typed.hash(alloc)?, hash);
    Ok(())
}

#[test]
fn a_copy_keeps_its_text(rt: HostRuntime) -> Result<(), Fail> {
    let alloc = rt.alloc();
    let mut rope = Rope::from_text(alloc, &Text::from_str(alloc, "hello")?)?;
    let copy = rope.copy(alloc)?;
    rope.remember(alloc)?;
    assert!(rt; changed(alloc, &mut rope, 1, 4, &Text::from_str(alloc, "i")?)?);
    let after = rope.read(alloc, 0, rope.length())?;
    let before = copy.read(alloc, 0, copy.length())?;
    assert_eq!(rt; after.to_string(alloc)?.as_str(), "hio");
    assert_eq!(rt; before.to_string(alloc)?.as_str(), "hello");
    Ok(())
}
