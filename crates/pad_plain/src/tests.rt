//! Worked rows: what came in, and the report that the definitions give for it.

ghost use Rattle.std.specs.Prelude.{◌≡◌, length, IfOk};
ghost use Rattle.pad_message.specs.Kind.{HasInterval, IsInterval};
ghost use Rattle.pad_message.specs.Message.{name_of};

use crate::messages::Messages;
use crate::summary::Summary;
use crate::writing::report;
use pad_message::{Kind, Message, ReadRefused};
use pad_model::Base;
use pad_patch::{Operation, Operations, Patch};
use pad_text::{Name, Text};
use std::alloc::{AllocError, Global};
use std::test::Fail;

/// Inserts `abc` into the empty text.
const ABC: &str =
    "[2,[[0,0,\"abc\"],\"e3b0c44298fc1c149afbf4c8996fb92427ae41e4649b934ca495991b7852b855\"],\"0000000000000000000000000000000000000000000000000000000000000000\"]";

/// The same message in another spelling.
const ABC_SPELLED: &str =
    "[ 2, [[0,0,\"\\u0061bc\"],\"e3b0c44298fc1c149afbf4c8996fb92427ae41e4649b934ca495991b7852b855\"], \"0000000000000000000000000000000000000000000000000000000000000000\" ]";

/// The same message after the mark.
const ABC_MARKED: &str =
    "cp|[2,[[0,0,\"abc\"],\"e3b0c44298fc1c149afbf4c8996fb92427ae41e4649b934ca495991b7852b855\"],\"0000000000000000000000000000000000000000000000000000000000000000\"]";

/// Inserts `!` at the end of `abc`.
const BANG: &str =
    "[2,[[3,0,\"!\"],\"ba7816bf8f01cfea414140de5dae2223b00361a396177a9cb410ff61f20015ad\"],\"f77893ff123539a227a1e6cc9978b6c9a000367720745d32928d3bb0d0cbcdd6\"]";

/// Inserts `hello` into the empty text.
const HELLO: &str =
    "[2,[[0,0,\"hello\"],\"e3b0c44298fc1c149afbf4c8996fb92427ae41e4649b934ca495991b7852b855\"],\"0000000000000000000000000000000000000000000000000000000000000000\"]";

/// Inserts `x` into the empty text, but speaks of `abc`.
const WRONG_HASH: &str =
    "[2,[[0,0,\"x\"],\"ba7816bf8f01cfea414140de5dae2223b00361a396177a9cb410ff61f20015ad\"],\"0000000000000000000000000000000000000000000000000000000000000000\"]";

/// Inserts `y` after that `x`.
const ON_WRONG: &str =
    "[2,[[1,0,\"y\"],\"2d711642b726b04401627ca9fbac32f5c8530fb1903cc4db02258717921a4881\"],\"7ec02678ed788aa86a97c8d839664285c5dee06acc86fdbcca3374e4f5ee1a27\"]";

/// Inserts `z` after that `y`.
const ON_WRONG_TOO: &str =
    "[2,[[2,0,\"z\"],\"769a4e6d0003189c7e96c5d9b7e810a0d11c3a12832527ec94b0f86d277f51ca\"],\"a062f08ecf8653ce73ebdeb990fec783556686f77b645af7a0a574f1355ae872\"]";

/// Nothing was received.
const NOTHING: &str = "best 0000000000000000000000000000000000000000000000000000000000000000\n\
height 0\n\
hash e3b0c44298fc1c149afbf4c8996fb92427ae41e4649b934ca495991b7852b855\n\
units 0\n\
known 0\n\
waiting 0\n\
unreadable 0\n\
root 0000000000000000000000000000000000000000000000000000000000000000 0\n\
kept 1\n\
overtaken 0\n\
text \"\"\n";

/// The report of `ABC`.
const ONE: &str = "best f77893ff123539a227a1e6cc9978b6c9a000367720745d32928d3bb0d0cbcdd6\n\
height 1\n\
hash ba7816bf8f01cfea414140de5dae2223b00361a396177a9cb410ff61f20015ad\n\
units 3\n\
known 1\n\
waiting 0\n\
unreadable 0\n\
root 0000000000000000000000000000000000000000000000000000000000000000 0\n\
kept 2\n\
overtaken 0\n\
text \"abc\"\n";

/// The report of `BANG` alone.
const WAITS: &str = "best 0000000000000000000000000000000000000000000000000000000000000000\n\
height 0\n\
hash e3b0c44298fc1c149afbf4c8996fb92427ae41e4649b934ca495991b7852b855\n\
units 0\n\
known 1\n\
waiting 1\n\
unreadable 0\n\
root 0000000000000000000000000000000000000000000000000000000000000000 0\n\
kept 1\n\
overtaken 0\n\
text \"\"\n";

/// The report of `ABC` and `BANG`.
const TWO: &str = "best b7c46af67f1fe4e3fd6bab6b46afdc9c5abd9b3017421086438f5dd52a400839\n\
height 2\n\
hash 53e0eff3204626f3e256ca636572d7ccdf8eb5a190c9defa3fa567bc63866b76\n\
units 4\n\
known 2\n\
waiting 0\n\
unreadable 0\n\
root 0000000000000000000000000000000000000000000000000000000000000000 0\n\
kept 3\n\
overtaken 0\n\
text \"abc!\"\n";

/// The report of `ABC` and `HELLO`, whose name is the lesser one.
const TIE: &str = "best ea29cce873bc9a13655c1bdcf23d15c12b9a7b93a20ec35d6f3f85b5f49c2785\n\
height 1\n\
hash 2cf24dba5fb0a30e26e83b2ac5b9e29e1b161e5c1fa7425e73043362938b9824\n\
units 5\n\
known 2\n\
waiting 0\n\
unreadable 0\n\
root 0000000000000000000000000000000000000000000000000000000000000000 0\n\
kept 3\n\
overtaken 0\n\
text \"hello\"\n";

/// The report of `ABC` and the three messages from `WRONG_HASH` on.
const SHORT_BUT_SOUND: &str =
    "best f77893ff123539a227a1e6cc9978b6c9a000367720745d32928d3bb0d0cbcdd6\n\
height 1\n\
hash ba7816bf8f01cfea414140de5dae2223b00361a396177a9cb410ff61f20015ad\n\
units 3\n\
known 4\n\
waiting 0\n\
unreadable 0\n\
root 0000000000000000000000000000000000000000000000000000000000000000 0\n\
kept 5\n\
overtaken 0\n\
text \"abc\"\n";

/// The report of `ABC` and five unreadable contents.
const JUNK: &str = "best f77893ff123539a227a1e6cc9978b6c9a000367720745d32928d3bb0d0cbcdd6\n\
height 1\n\
hash ba7816bf8f01cfea414140de5dae2223b00361a396177a9cb410ff61f20015ad\n\
units 3\n\
known 1\n\
waiting 0\n\
unreadable 5\n\
root 0000000000000000000000000000000000000000000000000000000000000000 0\n\
kept 2\n\
overtaken 0\n\
text \"abc\"\n";

/// `ABC` with a sign.
const MINUS: &str =
    "[2,[[-0,0,\"abc\"],\"e3b0c44298fc1c149afbf4c8996fb92427ae41e4649b934ca495991b7852b855\"],\"0000000000000000000000000000000000000000000000000000000000000000\"]";

/// `ABC` with a fraction.
const POINT: &str =
    "[2,[[0.0,0,\"abc\"],\"e3b0c44298fc1c149afbf4c8996fb92427ae41e4649b934ca495991b7852b855\"],\"0000000000000000000000000000000000000000000000000000000000000000\"]";

/// `ABC` with an exponent.
const EXPONENT: &str =
    "[2,[[0e0,0,\"abc\"],\"e3b0c44298fc1c149afbf4c8996fb92427ae41e4649b934ca495991b7852b855\"],\"0000000000000000000000000000000000000000000000000000000000000000\"]";

/// The report of these contents, in this order.
fn report_of(alloc: Global, contents: &[&str]) -> Result<String, Fail> {
    let base = Base::first(alloc);
    let mut messages = Messages::new(alloc);
    let mut unreadable = 0u64;
    for content in contents {
        match Message::read(alloc, content) {
            Ok(message) => messages.push(alloc, message)?,
            Err(ReadRefused::Unreadable) => unreadable = unreadable.saturating_add(1),
            Err(ReadRefused::NoMemory(refused)) => return Err(refused.into()),
        }
    }
    Ok(report(alloc, &base, &messages, unreadable)?)
}

#[test]
fn reports_of_contents(rt: HostRuntime) -> Result<(), Fail> {
    let alloc = rt.alloc();
    let rows: [(&[&str], &str); 14] = [
        (&[], NOTHING),
        (&[ABC], ONE),
        (&[ABC, ABC_SPELLED], ONE),
        (&[ABC_MARKED], ONE),
        (&[ABC_MARKED, ABC, ABC], ONE),
        (&[BANG], WAITS),
        (&[BANG, BANG], WAITS),
        (&[BANG, ABC], TWO),
        (&[ABC, BANG], TWO),
        (&[BANG, ABC, BANG, ABC], TWO),
        (&[ABC, HELLO], TIE),
        (&[HELLO, ABC], TIE),
        (&[ABC, HELLO, ABC], TIE),
        (&["[3,[],\"\"]", MINUS, ABC, "", POINT, EXPONENT], JUNK),
    ];
    for (contents, expected) in &rows {
        let found = report_of(alloc, contents)?;
        assert_eq!(rt; found.as_str(), *expected);
    }
    Ok(())
}

#[test]
fn every_order_gives_one_report(rt: HostRuntime) -> Result<(), Fail> {
    let alloc = rt.alloc();
    let contents = [ABC, WRONG_HASH, ON_WRONG, ON_WRONG_TOO];
    let mut orders = 0u64;
    for first in contents {
        for second in contents {
            for third in contents {
                for fourth in contents {
                    let order = [first, second, third, fourth];
                    if !contents.iter().all(|content| order.contains(content)) {
                        continue;
                    }
                    let found = report_of(alloc, &order)?;
                    assert_eq!(rt; found.as_str(), SHORT_BUT_SOUND);
                    orders = orders.saturating_add(1);
                }
            }
        }
    }
    assert_eq!(rt; orders, 24);
    Ok(())
}

/// A message whose patch is this one operation.
fn message_of(
    alloc: Global,
    kind: Kind,
    operation: (u32, u32, &str),
    before: &str,
    parent: Name,
) -> Result<Message, AllocError>
    requires { HasInterval kind }
    ensures one { IfOk result (λ message. length message.patch.ops ≡ 1) }
    ensures kind { IfOk result (λ message. message.kind ≡ kind) }
{
    let (offset, remove, insert) = operation;
    let insert = Text::from_str(alloc, insert)?;
    let before = Text::from_str(alloc, before)?.hash(alloc)?;
    let mut ops = Vec::new(alloc);
    ops.push(Operation {
        offset,
        remove,
        insert,
    })?;
    Ok(Message {
        kind,
        patch: Patch {
            ops: Operations::new(ops),
            before,
        },
        parent,
    })
}

/// The end of a path: the name of its last message, and the text after it.
#[derive(Debug, Drop)]
struct End {
    name: Name,
    text: String,
}

impl End {
    /// The base that no message gives.
    fn first(alloc: Global) -> End {
        End {
            name: Name::BASE,
            text: String::new(alloc),
        }
    }

    /// A copy of it.
    fn copy(&self, alloc: Global) -> Result<End, AllocError> {
        Ok(End {
            name: self.name,
            text: String::from_str(alloc, &self.text)?,
        })
    }

    /// The message that inserts a letter at the end, and the end of the path after it.
    fn letter(self, alloc: Global, letter: &str) -> Result<(Message, End), AllocError>
        ensures { IfOk result (λ made. made.1.name ≡ name_of made.0) }
    {
        let mut text = self.text;
        let at = u32::try_from(text.len()).unwrap_or(0);
        let message = message_of(alloc, Kind::Patch, (at, 0, letter), &text, self.name)?;
        let name = message.name(alloc)?;
        text.push_str(letter)?;
        Ok((message, End { name, text }))
    }

    /// The checkpoint of the text, and the end of the path after it.
    fn checkpoint(self, alloc: Global, interval: u16) -> Result<(Message, End), AllocError>
        requires { IsInterval interval }
        ensures { IfOk result (λ made. made.1.name ≡ name_of made.0) }
    {
        let text = self.text;
        let units = u32::try_from(text.len()).unwrap_or(0);
        let kind = Kind::Checkpoint(interval);
        let message = message_of(alloc, kind, (0, units, &text), &text, self.name)?;
        let name = message.name(alloc)?;
        Ok((message, End { name, text }))
    }
}

/// Messages that insert a letter each, one on the other, are received; the end of the path after them.
fn receive_letters(
    alloc: Global,
    messages: &mut Messages,
    from: End,
    letter: &str,
    count: u64,
) -> Result<End, AllocError> {
    let mut end = from;
    for _message in 0..count {
        let (message, after) = end.letter(alloc, letter)?;
        messages.push_named(message, after.name)?;
        end = after;
    }
    Ok(end)
}

/// A checkpoint is received; the end of the path after it.
fn receive_checkpoint(
    alloc: Global,
    messages: &mut Messages,
    from: End,
    interval: u16,
) -> Result<End, AllocError>
    requires { IsInterval interval }
{
    let (message, end) = from.checkpoint(alloc, interval)?;
    messages.push_named(message, end.name)?;
    Ok(end)
}

/// The numbers of a summary: height, units, known, waiting, height of the root, kept, overtaken.
fn numbers(alloc: Global, base: &Base, messages: &Messages) -> Result<[usize; 7], AllocError> {
    let summary = Summary::of(alloc, base, messages)?;
    Ok([
        summary.best.height,
        summary.text.len(),
        summary.known,
        summary.waiting,
        summary.root.height,
        summary.kept,
        summary.overtaken as usize,
    ])
}

#[test]
fn a_checkpoint_stands_at_its_height(rt: HostRuntime) -> Result<(), Fail> {
    let alloc = rt.alloc();
    // How many letters come before the checkpoint.
    let rows = [
        (48, [48, 48, 49, 0, 0, 50, 0]),
        (49, [50, 49, 50, 0, 0, 51, 0]),
        (50, [50, 50, 51, 0, 0, 52, 0]),
    ];
    for (letters, expected) in rows {
        let base = Base::first(alloc);
        let mut messages = Messages::new(alloc);
        let end = receive_letters(alloc, &mut messages, End::first(alloc), "a", letters)?;
        let _end = receive_checkpoint(alloc, &mut messages, end, 50)?;
        assert_eq!(rt; numbers(alloc, &base, &messages)?, expected);
    }
    Ok(())
}

/// A base of another name, with a text and the interval 10, and the end of the path that it is.
fn other_base(alloc: Global) -> Result<(Base, End), AllocError> {
    let name = Name([7; 32]);
    let base = Base {
        name,
        text: Text::from_str(alloc, "abc")?,
        interval: 10,
    };
    let text = String::from_str(alloc, "abc")?;
    Ok((base, End { name, text }))
}

#[test]
fn the_root_moves_up_and_a_long_branch_overtakes(rt: HostRuntime) -> Result<(), Fail> {
    let alloc = rt.alloc();
    let (base, first) = other_base(alloc)?;
    let mut messages = Messages::new(alloc);
    let second = receive_letters(alloc, &mut messages, first, "a", 2)?;
    let end = receive_letters(alloc, &mut messages, second.copy(alloc)?, "a", 7)?;
    let end = receive_checkpoint(alloc, &mut messages, end, 10)?;
    let end = receive_letters(alloc, &mut messages, end, "a", 9)?;
    assert_eq!(rt;
        numbers(alloc, &base, &messages)?,
        [19, 21, 19, 0, 0, 20, 0]
    );
    let end = receive_checkpoint(alloc, &mut messages, end, 10)?;
    assert_eq!(rt;
        numbers(alloc, &base, &messages)?,
        [20, 21, 20, 0, 10, 11, 0]
    );
    // A branch from below the root up to the height of the best chain, and one higher.
    let branch = receive_letters(alloc, &mut messages, second, "b", 17)?;
    assert_eq!(rt;
        numbers(alloc, &base, &messages)?,
        [20, 21, 37, 0, 10, 11, 0]
    );
    let level = receive_letters(alloc, &mut messages, branch, "b", 1)?;
    let ties = usize::from(level.name < end.name);
    assert_eq!(rt;
        numbers(alloc, &base, &messages)?,
        [20, 21, 38, 0, 10, 11, ties]
    );
    let _higher = receive_letters(alloc, &mut messages, level, "b", 1)?;
    assert_eq!(rt;
        numbers(alloc, &base, &messages)?,
        [20, 21, 39, 0, 10, 11, ties + 1]
    );
    Ok(())
}

#[test]
fn the_interval_is_that_of_the_checkpoint_before(rt: HostRuntime) -> Result<(), Fail> {
    let alloc = rt.alloc();
    let base = Base::first(alloc);
    let mut messages = Messages::new(alloc);
    let end = receive_letters(alloc, &mut messages, End::first(alloc), "a", 49)?;
    let end = receive_checkpoint(alloc, &mut messages, end, 10)?;
    let end = receive_letters(alloc, &mut messages, end, "a", 9)?;
    let end = receive_checkpoint(alloc, &mut messages, end, 10)?;
    let end = receive_letters(alloc, &mut messages, end, "a", 9)?;
    let _end = receive_checkpoint(alloc, &mut messages, end, 10)?;
    assert_eq!(rt;
        numbers(alloc, &base, &messages)?,
        [70, 67, 70, 0, 60, 11, 0]
    );
    Ok(())
}

#[test]
fn a_longer_interval_puts_the_next_checkpoint_off(rt: HostRuntime) -> Result<(), Fail> {
    let alloc = rt.alloc();
    let (base, first) = other_base(alloc)?;
    let mut messages = Messages::new(alloc);
    let end = receive_letters(alloc, &mut messages, first, "a", 9)?;
    let end = receive_checkpoint(alloc, &mut messages, end, 20)?;
    // The next one is not sound at 20.
    let early = receive_letters(alloc, &mut messages, end.copy(alloc)?, "b", 9)?;
    let _early = receive_checkpoint(alloc, &mut messages, early, 10)?;
    assert_eq!(rt;
        numbers(alloc, &base, &messages)?,
        [19, 21, 20, 0, 0, 21, 0]
    );
    // It is at 30, and the one after it at 40.
    let late = receive_letters(alloc, &mut messages, end, "c", 19)?;
    let late = receive_checkpoint(alloc, &mut messages, late, 10)?;
    assert_eq!(rt;
        numbers(alloc, &base, &messages)?,
        [30, 31, 40, 0, 10, 31, 0]
    );
    let late = receive_letters(alloc, &mut messages, late, "c", 9)?;
    let _late = receive_checkpoint(alloc, &mut messages, late, 10)?;
    assert_eq!(rt;
        numbers(alloc, &base, &messages)?,
        [40, 40, 50, 0, 30, 11, 0]
    );
    Ok(())
}

#[test]
fn distances_are_counted_from_the_base(rt: HostRuntime) -> Result<(), Fail> {
    let alloc = rt.alloc();
    let (base, first) = other_base(alloc)?;
    let mut messages = Messages::new(alloc);
    let fork = receive_letters(alloc, &mut messages, first, "a", 4)?;
    let end = receive_letters(alloc, &mut messages, fork.copy(alloc)?, "a", 5)?;
    let end = receive_checkpoint(alloc, &mut messages, end, 50)?;
    assert_eq!(rt;
        numbers(alloc, &base, &messages)?,
        [10, 12, 10, 0, 0, 11, 0]
    );
    // Nothing of another base is linked.
    let _other = receive_letters(alloc, &mut messages, End::first(alloc), "z", 3)?;
    assert_eq!(rt;
        numbers(alloc, &base, &messages)?,
        [10, 12, 13, 3, 0, 11, 0]
    );
    // What comes again changes nothing.
    let _again = receive_letters(alloc, &mut messages, fork, "a", 5)?;
    assert_eq!(rt;
        numbers(alloc, &base, &messages)?,
        [10, 12, 13, 3, 0, 11, 0]
    );
    // What hangs on messages that did not come waits.
    let mut late = Messages::new(alloc);
    let _end = receive_letters(alloc, &mut late, end, "y", 2)?;
    assert_eq!(rt; numbers(alloc, &base, &late)?, [0, 3, 2, 2, 0, 1, 0]);
    Ok(())
}

#[test]
fn parents_that_come_late_link_a_whole_branch(rt: HostRuntime) -> Result<(), Fail> {
    let alloc = rt.alloc();
    let (base, first) = other_base(alloc)?;
    let mut messages = Messages::new(alloc);
    let end = receive_letters(alloc, &mut messages, first.copy(alloc)?, "a", 9)?;
    let end = receive_checkpoint(alloc, &mut messages, end, 10)?;
    let end = receive_letters(alloc, &mut messages, end, "a", 9)?;
    let _end = receive_checkpoint(alloc, &mut messages, end, 10)?;
    assert_eq!(rt;
        numbers(alloc, &base, &messages)?,
        [20, 21, 20, 0, 10, 11, 0]
    );
    // A branch from the base, longer than the best chain, waits for its first message.
    let (message, start) = first.letter(alloc, "b")?;
    let name = start.name;
    let _branch = receive_letters(alloc, &mut messages, start, "b", 21)?;
    assert_eq!(rt;
        numbers(alloc, &base, &messages)?,
        [20, 21, 41, 21, 10, 11, 0]
    );
    // Those at heights 21 and 22 overtake, and perhaps the one at 20.
    messages.push_named(message, name)?;
    let told = numbers(alloc, &base, &messages)?;
    assert_eq!(rt; told, [20, 21, 42, 0, 10, 11, told[6]]);
    assert!(rt; told[6] == 2 || told[6] == 3);
    Ok(())
}

/// A checkpoint of two operations.
fn checkpoint_of_two(
    alloc: Global,
    one: (u32, u32, &str),
    two: (u32, u32, &str),
    end: &End,
) -> Result<Message, AllocError>
    ensures few { IfOk result (λ message. length message.patch.ops ≡ 2) }
    ensures interval { IfOk result (λ message. HasInterval message.kind) }
{
    let mut ops = Vec::new(alloc);
    let (offset, remove, insert) = one;
    let insert = Text::from_str(alloc, insert)?;
    ops.push(Operation {
        offset,
        remove,
        insert,
    })?;
    let (offset, remove, insert) = two;
    let insert = Text::from_str(alloc, insert)?;
    ops.push(Operation {
        offset,
        remove,
        insert,
    })?;
    Ok(Message {
        kind: Kind::Checkpoint(50),
        patch: Patch {
            ops: Operations::new(ops),
            before: Text::from_str(alloc, &end.text)?.hash(alloc)?,
        },
        parent: end.name,
    })
}

#[test]
fn a_checkpoint_spells_the_whole_text_once(rt: HostRuntime) -> Result<(), Fail> {
    let alloc = rt.alloc();
    let base = Base::first(alloc);
    let mut messages = Messages::new(alloc);
    let end = receive_letters(alloc, &mut messages, End::first(alloc), "a", 49)?;
    let short = end.text.get(1..).unwrap_or("");
    let front = end.text.get(..20).unwrap_or("");
    let back = end.text.get(20..).unwrap_or("");
    let other = message_of(
        alloc,
        Kind::Checkpoint(50),
        (0, 49, short),
        &end.text,
        end.name,
    )?;
    let pieces = checkpoint_of_two(alloc, (0, 20, front), (20, 29, back), &end)?;
    let added = checkpoint_of_two(alloc, (0, 49, &end.text), (49, 0, ""), &end)?;
    messages.push(alloc, other)?;
    assert_eq!(rt;
        numbers(alloc, &base, &messages)?,
        [49, 49, 50, 0, 0, 51, 0]
    );
    messages.push(alloc, pieces)?;
    messages.push(alloc, added)?;
    assert_eq!(rt;
        numbers(alloc, &base, &messages)?,
        [49, 49, 52, 0, 0, 53, 0]
    );
    Ok(())
}
