//! Conversations of a client with a server. Names and hashes are those of another program; the texts were worked out by hand.

ghost use Rattle.std.specs.Prelude.{◌≡◌, ◌<◌};

use super::{Client, Heard};
use netflux_codec::{Channel, Since};
use pad_edge::Wire;
use pad_patch::{Operation, Steps, UnitStore, VecUnits};
use pad_text::{Name, Text};
use std::alloc::Global;
use std::marker::Brand;
use std::sync::ledger::{Blank, Ledger};
use std::test::Fail;

/// A channel.
const CHANNEL: &str = "00112233445566778899aabbccddeeff";

/// The client's identity.
const IDENT: &str = "[0,\"\",\"IDENT\",\"0000000000000001e56a5d4028bd8653\"]";

/// The client is in the channel.
const OWN: &str =
    "[0,\"0000000000000001e56a5d4028bd8653\",\"JOIN\",\"00112233445566778899aabbccddeeff\"]";

/// A keeper is in the channel.
const KEEPS: &str = "[0,\"ade0b876903df1a0\",\"JOIN\",\"00112233445566778899aabbccddeeff\"]";

/// The first entry: it inserts `abc` into the empty text.
const FIRST: &str =
    "[0,\"ade0b876903df1a0\",\"HISTORY\",\"00112233445566778899aabbccddeeff\",0,\"0000000000000002aaaaaaaaaaaaaaaa\",\"[2,[[0,0,\\\"abc\\\"],\\\"e3b0c44298fc1c149afbf4c8996fb92427ae41e4649b934ca495991b7852b855\\\"],\\\"0000000000000000000000000000000000000000000000000000000000000000\\\"]\"]";

/// Appends `d` after that.
const LEAVES: &str =
    "[0,\"0000000000000002aaaaaaaaaaaaaaaa\",\"MSG\",\"00112233445566778899aabbccddeeff\",\"[2,[[3,0,\\\"d\\\"],\\\"ba7816bf8f01cfea414140de5dae2223b00361a396177a9cb410ff61f20015ad\\\"],\\\"f77893ff123539a227a1e6cc9978b6c9a000367720745d32928d3bb0d0cbcdd6\\\"]\"]";

/// Inserts `e` in front of `abc`. Its name is greater than that of the message that appends `d`.
const COMES: &str =
    "[0,\"0000000000000002aaaaaaaaaaaaaaaa\",\"MSG\",\"00112233445566778899aabbccddeeff\",\"[2,[[0,0,\\\"e\\\"],\\\"ba7816bf8f01cfea414140de5dae2223b00361a396177a9cb410ff61f20015ad\\\"],\\\"f77893ff123539a227a1e6cc9978b6c9a000367720745d32928d3bb0d0cbcdd6\\\"]\"]";

/// Inserts `f` in front of that.
const WINS: &str =
    "[0,\"0000000000000002aaaaaaaaaaaaaaaa\",\"MSG\",\"00112233445566778899aabbccddeeff\",\"[2,[[0,0,\\\"f\\\"],\\\"123dea0c15f08e64ae7875f313444d5d6c8c2fe2209b3fc31e17d0d6b2a483ff\\\"],\\\"bdbfd3b1e5c273457f0f8825a3067d09c40635cd0ee12cca4ab1759b7f9182dc\\\"]\"]";

/// A message to another channel.
const ELSEWHERE: &str =
    "[0,\"0000000000000002aaaaaaaaaaaaaaaa\",\"MSG\",\"ffffffffffffffffffffffffffffffff\",\"[2,[[3,0,\\\"d\\\"],\\\"ba7816bf8f01cfea414140de5dae2223b00361a396177a9cb410ff61f20015ad\\\"],\\\"f77893ff123539a227a1e6cc9978b6c9a000367720745d32928d3bb0d0cbcdd6\\\"]\"]";

/// A content that spells no message.
const SPELLS_NOTHING: &str =
    "[0,\"0000000000000002aaaaaaaaaaaaaaaa\",\"MSG\",\"00112233445566778899aabbccddeeff\",\"hi\"]";

/// The end of the history.
const END: &str = "[0,\"ade0b876903df1a0\",\"HISTORY_END\",\"00112233445566778899aabbccddeeff\",1]";

/// The keeper does not know the key.
const UNKNOWN: &str =
    "[0,\"ade0b876903df1a0\",\"HISTORY_UNKNOWN\",\"00112233445566778899aabbccddeeff\",\"f77893ff123539a227a1e6cc9978b6c9a000367720745d32928d3bb0d0cbcdd6\"]";

/// An entry with a checkpoint of the text `abc`.
const WHOLE: &str =
    "[0,\"ade0b876903df1a0\",\"HISTORY\",\"00112233445566778899aabbccddeeff\",0,\"0000000000000002aaaaaaaaaaaaaaaa\",\"cp|[4,[[0,3,\\\"abc\\\"],\\\"ba7816bf8f01cfea414140de5dae2223b00361a396177a9cb410ff61f20015ad\\\"],\\\"f77893ff123539a227a1e6cc9978b6c9a000367720745d32928d3bb0d0cbcdd6\\\"]\"]";

/// An entry that appends `d` after the checkpoint.
const AFTER: &str =
    "[0,\"ade0b876903df1a0\",\"HISTORY\",\"00112233445566778899aabbccddeeff\",1,\"0000000000000002aaaaaaaaaaaaaaaa\",\"[2,[[3,0,\\\"d\\\"],\\\"ba7816bf8f01cfea414140de5dae2223b00361a396177a9cb410ff61f20015ad\\\"],\\\"f0c396fdb4cbed9accf126ee6f802d059580d28fe0ce5eb74a1b1e01dbbf08e8\\\"]\"]";

/// The third request was done.
const LEFT: &str = "[3,\"ACK\"]";

/// The second request was done.
const DONE: &str = "[2,\"ACK\"]";

/// The second request was not done.
const REFUSED: &str = "[2,\"ERROR\",\"EFULL\",\"00112233445566778899aabbccddeeff\"]";

/// The request for a default history, the second one.
const ASKS: &str =
    "[2,\"MSG\",\"ade0b876903df1a0\",\"[\\\"GET_HISTORY\\\",\\\"00112233445566778899aabbccddeeff\\\"]\"]";

/// What is called, or heard.
#[derive(Clone, Copy)]
enum Step {
    Join,
    Ask,
    Leave,
    Sync,
    Repair,
    Resend,
    Lost,
    Type(u32, &'static str),
    Hear(&'static str),
}

/// The word for an answer.
fn told(heard: &Heard) -> &'static str {
    match heard {
        Heard::Strange => "Strange ",
        Heard::Ident => "Ident ",
        Heard::Error(_, word) => word.as_str(),
        Heard::Joined => "Joined ",
        Heard::Acked(_) => "Acked ",
        Heard::Adopted => "Adopted ",
        Heard::Unreadable => "Unreadable ",
        Heard::Content(_) => "Content ",
        Heard::Repaired(true) => "Repaired ",
        Heard::Repaired(false) => "Emptied ",
        Heard::End(_) => "End ",
        Heard::Unknown => "Unknown ",
        Heard::Ignored => "Ignored ",
    }
}

/// The word for how a call went.
fn word(sent: bool) -> &'static str {
    if sent { "sent " } else { "refused " }
}

/// Types into the shown text.
fn type_in(
    alloc: Global,
    client: &mut Client<VecUnits>,
    place: u32,
    typed: &str,
) -> Result<bool, Fail> {
    let insert = Text::from_str(alloc, typed)?;
    if client.strokes() >= 1000 {
        return Ok(false);
    }
    let edited = client.edit(
        alloc,
        Operation {
            offset: place,
            remove: 0,
            insert,
        },
    );
    Ok(edited.is_ok())
}

/// Does a step, and tells how it went.
fn does<L: Ledger>(
    alloc: Global,
    client: &mut Client<VecUnits>,
    step: Step,
    steps: &mut Steps<L>,
) -> Result<&'static str, Fail> {
    if client.requests() >= 1000 {
        return Ok("full ");
    }
    match step {
        Step::Join => match Channel::from_hex(CHANNEL) {
            Some(channel) => Ok(word(client.join(alloc, channel).is_ok())),
            None => Ok(""),
        },
        Step::Ask => Ok(word(client.ask(alloc, Since::Default).is_ok())),
        Step::Leave => Ok(word(client.leave(alloc).is_ok())),
        Step::Sync => Ok(word(client.sync(alloc, steps).is_ok())),
        Step::Repair => Ok(word(client.repair(alloc, steps).is_ok())),
        Step::Resend => Ok(word(client.resend(alloc).is_ok())),
        Step::Lost => {
            client.lost();
            Ok("")
        }
        Step::Type(place, typed) => Ok(word(type_in(alloc, client, place, typed)?)),
        Step::Hear(text) => Ok(told(&client.hear(alloc, text, steps)?)),
    }
}

/// What a report tells of the client's own work, if anything.
fn own_lines(report: &Wire) -> &str {
    match report.as_str().find("outbox ") {
        Some(at) => &report.as_str()[at..],
        None => "",
    }
}

/// What each step tells, one after another, the hash of the committed text, and the report.
fn tells<L: Ledger>(
    alloc: Global,
    blank: Blank,
    conversation: &[Step],
) -> Result<(String, Name, Wire), Fail>
    requires name { blank.name ≡ L.name }
    requires parts { blank.parts ≡ L.parts }
    requires some { 0 < blank.parts }
{
    let mut steps = Steps::<L>::new(blank);
    let mut client = Client::<VecUnits>::new(alloc)?;
    let mut line = String::new(alloc);
    for step in conversation {
        line.push_str(does(alloc, &mut client, *step, &mut steps)?)?;
    }
    if client.awaits() {
        line.push_str("awaits ")?;
    }
    Ok((line, client.text().hash(alloc)?, client.show(alloc)?))
}

/// The same, with a counter of its own.
fn all_told(alloc: Global, conversation: &[Step]) -> Result<(String, Name, Wire), Fail> {
    tells::<Brand>(alloc, Blank::new(1), conversation)
}

#[test]
fn clients_hear_and_answer(rt: HostRuntime) -> Result<(), Fail> {
    let alloc = rt.alloc();
    let table: [(&[Step], &str, &str, &str); 7] = [
        (
            &[
                Step::Hear(IDENT),
                Step::Join,
                Step::Repair,
                Step::Hear(KEEPS),
                Step::Hear(OWN),
                Step::Type(0, "hi"),
                Step::Sync,
                Step::Repair,
                Step::Repair,
                Step::Hear(FIRST),
                Step::Type(0, "z"),
                Step::Sync,
                Step::Ask,
                Step::Hear(SPELLS_NOTHING),
                Step::Hear(UNKNOWN),
                Step::Hear(LEAVES),
                Step::Hear(END),
                Step::Hear(END),
            ],
            "Ident sent refused Ignored Joined sent sent sent refused Content refused refused refused Unreadable Ignored Content Repaired Ignored awaits ",
            "abcd",
            "outbox 1\nwork 1\nshown \"hiabcd\"\n",
        ),
        (
            &[
                Step::Hear(IDENT),
                Step::Join,
                Step::Hear(KEEPS),
                Step::Hear(OWN),
                Step::Type(0, "hi"),
                Step::Sync,
                Step::Hear(DONE),
                Step::Type(2, "z"),
                Step::Repair,
                Step::Hear(FIRST),
                Step::Hear(END),
            ],
            "Ident sent Ignored Joined sent sent Acked sent sent Content Emptied ",
            "abc",
            "outbox 0\nwork 0\nshown \"abc\"\n",
        ),
        (
            &[
                Step::Hear(IDENT),
                Step::Join,
                Step::Hear(KEEPS),
                Step::Hear(OWN),
                Step::Repair,
                Step::Hear(FIRST),
                Step::Hear(REFUSED),
                Step::Repair,
                Step::Hear(FIRST),
                Step::Lost,
                Step::Hear(END),
                Step::Type(0, "z"),
            ],
            "Ident sent Ignored Joined sent Content EFULLsent Content Ignored sent ",
            "",
            "outbox 0\nwork 1\nshown \"z\"\n",
        ),
        (
            &[
                Step::Hear(IDENT),
                Step::Sync,
                Step::Join,
                Step::Hear(KEEPS),
                Step::Hear(OWN),
                Step::Ask,
                Step::Hear(FIRST),
                Step::Hear(END),
                Step::Type(3, "d"),
                Step::Sync,
                Step::Hear(LEFT),
                Step::Hear(COMES),
                Step::Hear(WINS),
                Step::Type(0, "z"),
            ],
            "Ident refused sent Ignored Joined sent Content End sent sent Acked Content Content sent ",
            "feabc",
            "outbox 0\nwork 2\nshown \"zfeabcd\"\n",
        ),
        (
            &[
                Step::Ask,
                Step::Hear(IDENT),
                Step::Join,
                Step::Join,
                Step::Hear(KEEPS),
                Step::Hear(LEAVES),
                Step::Hear(OWN),
                Step::Ask,
                Step::Type(0, "z"),
                Step::Hear(FIRST),
                Step::Hear(END),
                Step::Hear(LEAVES),
                Step::Hear(COMES),
                Step::Hear(WINS),
                Step::Hear(ELSEWHERE),
                Step::Hear(SPELLS_NOTHING),
                Step::Hear("hello"),
                Step::Leave,
                Step::Hear(LEFT),
                Step::Leave,
            ],
            "refused Ident sent refused Ignored Ignored Joined sent sent Content End Content Content Content Ignored Unreadable Strange sent Acked refused ",
            "feabc",
            "outbox 0\nwork 1\nshown \"zfeabc\"\n",
        ),
        (
            &[
                Step::Hear(IDENT),
                Step::Join,
                Step::Hear(KEEPS),
                Step::Hear(OWN),
                Step::Ask,
                Step::Type(0, "z"),
                Step::Hear(WHOLE),
                Step::Hear(AFTER),
                Step::Hear(UNKNOWN),
                Step::Resend,
            ],
            "Ident sent Ignored Joined sent sent Adopted Content Unknown sent ",
            "abcd",
            "outbox 0\nwork 1\nshown \"zabcd\"\n",
        ),
        (
            &[
                Step::Hear(IDENT),
                Step::Join,
                Step::Hear(KEEPS),
                Step::Hear(OWN),
                Step::Ask,
                Step::Hear(REFUSED),
                Step::Hear(WHOLE),
                Step::Hear(END),
                Step::Lost,
                Step::Ask,
                Step::Join,
            ],
            "Ident sent Ignored Joined sent EFULLContent Ignored refused sent awaits ",
            "",
            "outbox 0\nwork 0\nshown \"\"\n",
        ),
    ];
    for (conversation, words, text, end) in table {
        let (line, hash, report) = all_told(alloc, conversation)?;
        assert_eq!(rt; line.as_str(), words);
        assert_eq!(rt; hash, Name::of_bytes(text.as_bytes()));
        assert_eq!(rt; own_lines(&report), end);
    }
    Ok(())
}
