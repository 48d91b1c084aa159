//! Chains that receive checkpoints, and a chain that keeps all. The expected hashes are those of another program.
ghost use Rattle.std.specs.Prelude.{◌≡◌, ◌<◌};

use crate::chain::Chain;
use pad_message::Message;
use pad_patch::{Steps, VecUnits};
use pad_text::Name;
use std::alloc::{AllocError, Global};
use std::marker::Brand;
use std::process::Abort;
use std::sync::ledger::{Blank, Ledger};
use std::test::Fail;

/// A chain, and where the last message that came to it leads.
#[derive(Drop)]
struct Made {
    chain: Chain<VecUnits>,
    /// The last message's name, as digits.
    name: String,
    /// The text after it.
    text: String,
    /// The last message's name at the last `/`.
    fork: Name,
}

/// The digits of the SHA-256 of a text.
fn hash_of(alloc: Global, text: &str) -> Result<String, AllocError> {
    Name::of_bytes(text.as_bytes()).hex(alloc)
}

/// Receives the message of this content, after which the text is this one.
fn take<L: Ledger>(
    alloc: Global,
    made: &mut Made,
    content: &str,
    text: String,
    steps: &mut Steps<L>,
) -> Result<(), Fail> {
    let message = Message::read(alloc, content)?;
    made.name = message.name(alloc)?.hex(alloc)?;
    made.text = text;
    made.chain.receive(alloc, message, steps)?;
    Ok(())
}

/// Receives so many messages that insert a letter in front of the text, one on another.
fn insert<L: Ledger>(
    alloc: Global,
    made: &mut Made,
    letter: char,
    many: u32,
    steps: &mut Steps<L>,
) -> Result<(), Fail> {
    for _ in 0..many {
        let hash = hash_of(alloc, made.text.as_str())?;
        let content = format!(in alloc;
            "[2,[[0,0,\"{letter}\"],\"{hash}\"],\"{}\"]",
            made.name.as_str()
        )?;
        let text = format!(in alloc; "{letter}{}", made.text.as_str())?;
        take(alloc, made, content.as_str(), text, steps)?;
    }
    Ok(())
}

/// Receives a checkpoint of the text, with this text behind the parent.
fn checkpoint<L: Ledger>(
    alloc: Global,
    made: &mut Made,
    behind: &str,
    steps: &mut Steps<L>,
) -> Result<(), Fail> {
    let hash = hash_of(alloc, made.text.as_str())?;
    let content = format!(in alloc;
        "[4,[[0,{},\"{}\"],\"{hash}\"],\"{}\"{behind}]",
        made.text.len(),
        made.text.as_str(),
        made.name.as_str()
    )?;
    let text = String::from_str(alloc, made.text.as_str())?;
    take(alloc, made, content.as_str(), text, steps)
}

/// Goes on from the base.
fn begin_again(alloc: Global, made: &mut Made) -> Result<(), Fail> {
    made.fork = Name::from_hex(made.name.as_str()).ok_or("no name")?;
    made.name = "0".repeat(alloc, 64)?;
    made.text = String::new(alloc);
    Ok(())
}

/// Receives what a word says: `a48` are 48 messages that insert `a`; `k` is a checkpoint, and `k10` one of interval 10; `/` goes
/// on from the base.
fn receive_word<L: Ledger>(
    alloc: Global,
    made: &mut Made,
    word: &str,
    steps: &mut Steps<L>,
) -> Result<(), Fail> {
    let first = word.chars().next().unwrap_or(' ');
    let rest = word.get(1..).unwrap_or("");
    match first {
        '/' => begin_again(alloc, made),
        'k' => {
            let comma = if rest.is_empty() { "" } else { "," };
            let behind = format!(in alloc; "{comma}{rest}")?;
            checkpoint(alloc, made, behind.as_str(), steps)
        }
        _ => insert(alloc, made, first, rest.parse::<u32>().unwrap_or(0), steps),
    }
}

/// What a chain tells at the end of a script.
#[derive(Drop)]
struct End {
    hash: Name,
    /// The heights of the end and of the root, and the counts: known, kept and overtaken.
    counts: [u64; 5],
    interval: u16,
    /// How many messages leave and come on, from where the script last began again.
    moves: Option<(usize, usize)>,
}

/// The end of a script: words with spaces between them.
fn end_of<L: Ledger>(
    alloc: Global,
    chain: Chain<VecUnits>,
    script: String,
    blank: Blank,
) -> Result<End, Fail>
    requires name { blank.name ≡ L.name }
    requires parts { blank.parts ≡ L.parts }
    requires some { 0 < blank.parts }
{
    let mut steps = Steps::<L>::new(blank);
    let mut made = Made {
        chain,
        name: "0".repeat(alloc, 64)?,
        text: String::new(alloc),
        fork: Name::BASE,
    };
    for word in script.as_str().split_whitespace() {
        receive_word(alloc, &mut made, word, &mut steps)?;
    }
    let moves = match made.chain.moves_from(alloc, &made.fork, &mut steps)? {
        Some(moved) => Some((
            moved.reverted.as_slice().len(),
            moved.applied.into_vec().len(),
        )),
        None => None,
    };
    let chain = &made.chain;
    Ok(End {
        hash: chain.hash(),
        counts: [
            chain.best().height,
            chain.root().height,
            chain.known(),
            chain.kept(),
            chain.overtaken(),
        ],
        interval: chain.interval(),
        moves,
    })
}

/// The same, with a counter of its own.
fn made_by(alloc: Global, chain: Chain<VecUnits>, script: String) -> Result<End, Fail> {
    end_of::<Brand>(alloc, chain, script, Blank::new(1))
}

/// The SHA-256 of 67 times `a`.
const HASH_OF_67: &str = "6116c09f89718e829f69b7afb1d9d60c6973935d96b33213e4d28689fe108ee7";

/// The SHA-256 of 76 times `a`.
const HASH_OF_76: &str = "f8b8aba652e5b3cde6bc74bcb7bff15289a222cfdb7759a9809dc08574911f60";

/// The SHA-256 of 98 times `a`.
const HASH_OF_98: &str = "970d31b428de8fea74b16484d8a8adb2c9e1bd974d7c621fd04332bc3499f117";

/// Looks whether a chain that truncates comes to this end.
fn expect_end<R: AllocGlobal + Abort>(
    rt: &R,
    script: &str,
    hash: &str,
    counts: [u64; 5],
    interval: u16,
) -> Result<(), Fail> {
    let alloc = rt.alloc();
    let chain = Chain::<VecUnits>::new(alloc)?;
    let end = made_by(alloc, chain, String::from_str(alloc, script)?)?;
    assert_eq!(rt; Some(end.hash), Name::from_hex(hash), "at {script}");
    assert_eq!(rt; end.counts, counts, "at {script}");
    assert_eq!(rt; end.interval, interval, "at {script}");
    Ok(())
}

#[test]
fn checkpoints_raise_the_root(rt: HostRuntime) -> Result<(), Fail> {
    for (script, hash, counts, interval) in [
        ("a49 k a49 k", HASH_OF_98, [100u64, 50, 100, 51, 0], 50u16),
        ("a49 k10 a9 k10 a9 k10", HASH_OF_67, [70, 60, 70, 11, 0], 10),
        (
            "a49 k10 a9 k10 a9 k10 a9 k",
            HASH_OF_76,
            [80, 70, 80, 11, 0],
            50,
        ),
        // late branches below the root: one that overtakes, and one that is too short
        (
            "a49 k a49 k / a10 f91",
            HASH_OF_98,
            [100, 50, 191, 51, 1],
            50,
        ),
        (
            "a49 k a49 k / a29 b1",
            HASH_OF_98,
            [100, 50, 101, 51, 0],
            50,
        ),
    ] {
        expect_end(&rt, script, hash, counts, interval)?;
    }
    Ok(())
}

#[test]
fn a_whole_chain_takes_the_branch_that_overtook(rt: HostRuntime) -> Result<(), Fail> {
    let alloc = rt.alloc();
    let chain = Chain::<VecUnits>::whole(alloc)?;
    let script = String::from_str(alloc, "a49 k a49 k / a10 f91")?;
    let end = made_by(alloc, chain, script)?;
    assert_eq!(rt; end.counts, [101, 0, 191, 192, 0]);
    assert_eq!(rt; end.moves, Some((90, 91)));
    Ok(())
}
