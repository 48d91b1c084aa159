//! Replays of inputs with checkpoints. The expected names, hashes and counts are those of another program.

use disk_volume::MemVolume;
use pad_edge::{MemSink, MemSource};
use pad_message::{Message, ReadRefused};
use pad_model::Base;
use pad_plain::{Messages, report};
use pad_text::Name;
use pad_top::Status;
use pad_top_trial::{run_alone, spaces, words_of};
use std::alloc::{AllocError, Global};
use std::process::Abort;
use std::test::Fail;

/// Lines that are made one on another, from the base on.
#[derive(Drop)]
struct Lines {
    /// The lines, each with a newline.
    all: String,
    /// The name of the last one's message.
    name: String,
    /// The text after it.
    text: String,
}

/// The digits of the SHA-256 of a text.
fn hash_of(alloc: Global, text: &str) -> Result<String, AllocError> {
    Name::of_bytes(text.as_bytes()).hex(alloc)
}

/// The digits of the name of the message that a line spells. There are none where it spells none.
fn name_of(alloc: Global, line: &str) -> Result<String, AllocError> {
    match Message::read(alloc, line) {
        Ok(message) => message.name(alloc)?.hex(alloc),
        Err(ReadRefused::Unreadable) => Ok(String::new(alloc)),
        Err(ReadRefused::NoMemory(refused)) => Err(refused),
    }
}

/// Adds a line, after which the text is this one.
fn push_line(alloc: Global, lines: &mut Lines, line: &str, text: String) -> Result<(), AllocError> {
    lines.name = name_of(alloc, line)?;
    lines.all.push_str(line)?;
    lines.all.push_str("\n")?;
    lines.text = text;
    Ok(())
}

/// Adds a line that inserts a letter in front of the text.
fn insert(alloc: Global, lines: &mut Lines, letter: char) -> Result<(), AllocError> {
    let hash = hash_of(alloc, lines.text.as_str())?;
    let line = format!(in alloc;
        "[2,[[0,0,\"{letter}\"],\"{hash}\"],\"{}\"]",
        lines.name.as_str()
    )?;
    let text = format!(in alloc; "{letter}{}", lines.text.as_str())?;
    push_line(alloc, lines, line.as_str(), text)
}

/// Adds a checkpoint that spells this text, with this text behind the parent.
fn checkpoint(
    alloc: Global,
    lines: &mut Lines,
    spelled: String,
    behind: &str,
) -> Result<(), AllocError> {
    let hash = hash_of(alloc, lines.text.as_str())?;
    let line = format!(in alloc;
        "[4,[[0,{},\"{}\"],\"{hash}\"],\"{}\"{behind}]",
        lines.text.len(),
        spelled.as_str(),
        lines.name.as_str()
    )?;
    push_line(alloc, lines, line.as_str(), spelled)
}

/// The lines that a script says, in words: `a48` are 48 lines that insert `a`; `k` is a checkpoint, and `k10` one of
/// interval 10; `w` is a checkpoint of another text.
fn lines_of(alloc: Global, script: &str) -> Result<Lines, Fail> {
    let mut lines = Lines {
        all: String::new(alloc),
        name: "0".repeat(alloc, 64)?,
        text: String::new(alloc),
    };
    for word in script.split_whitespace() {
        let first = word.chars().next().unwrap_or(' ');
        let rest = word.get(1..).unwrap_or("");
        match first {
            'k' => {
                let comma = if rest.is_empty() { "" } else { "," };
                let behind = format!(in alloc; "{comma}{rest}")?;
                let spelled = String::from_str(alloc, lines.text.as_str())?;
                checkpoint(alloc, &mut lines, spelled, behind.as_str())?;
            }
            'w' => {
                let spelled = "b".repeat(alloc, lines.text.len())?;
                checkpoint(alloc, &mut lines, spelled, "")?;
            }
            _ => {
                for _ in 0..rest.parse::<u32>().unwrap_or(0) {
                    insert(alloc, &mut lines, first)?;
                }
            }
        }
    }
    Ok(lines)
}

/// Lines, and lines of a branch that come after them, and what a replay reports of both.
#[derive(Clone, Copy)]
struct Row {
    lines: &'static str,
    branch: &'static str,
    best: &'static str,
    height: u32,
    hash: &'static str,
    units: usize,
    counts: [u32; 2],
    root: (&'static str, u32),
    kept: u32,
    overtaken: u32,
}

/// The report of a row, whose best text is one letter again and again.
fn report_of(alloc: Global, row: Row, unreadable: u32) -> Result<String, AllocError> {
    let [known, waiting] = row.counts;
    let (root, height) = row.root;
    let text = "a".repeat(alloc, row.units)?;
    format!(in alloc;
        "best {}\nheight {}\nhash {}\nunits {}\nknown {known}\nwaiting {waiting}\nunreadable {unreadable}\nroot {root} {height}\nkept {}\novertaken {}\ntext \"{}\"\n",
        row.best,
        row.height,
        row.hash,
        row.units,
        row.kept,
        row.overtaken,
        text.as_str()
    )
}

/// How a replay of these bytes ends, and what it writes.
fn replayed(alloc: Global, input: &[u8]) -> Result<(Status, Vec<u8>), AllocError> {
    let words = words_of(alloc, "replay")?;
    let mut source = MemSource::new(input.to_vec(alloc)?, 4096, Vec::new(alloc));
    let mut sink = MemSink::new(spaces(alloc, 2048)?, 512, Vec::new(alloc));
    let mut volume = MemVolume::new(alloc, Vec::new(alloc));
    let status = run_alone(alloc, words.as_slice(), &mut source, &mut sink, &mut volume);
    Ok((status, sink.as_slice().to_vec(alloc)?))
}

/// Checkpoints that are sound at their place, and others that are linked alone.
const SOUND: [Row; 4] = [
    // a checkpoint on the base alone
    Row {
        lines: "k",
        branch: "",
        best: "0000000000000000000000000000000000000000000000000000000000000000",
        height: 0,
        hash: "e3b0c44298fc1c149afbf4c8996fb92427ae41e4649b934ca495991b7852b855",
        units: 0,
        counts: [1, 0],
        root: (
            "0000000000000000000000000000000000000000000000000000000000000000",
            0,
        ),
        kept: 2,
        overtaken: 0,
    },
    // a checkpoint at height 49: linked and not sound
    Row {
        lines: "a48 k",
        branch: "",
        best: "c8782e13bf6108f93ef8954cb76507fc6b637f65848d2404e55e2d9affd6ac92",
        height: 48,
        hash: "97daac0ee9998dfcad6c9c0970da5ca411c86233a944c25b47566f6a7bc1ddd5",
        units: 48,
        counts: [49, 0],
        root: (
            "0000000000000000000000000000000000000000000000000000000000000000",
            0,
        ),
        kept: 50,
        overtaken: 0,
    },
    // at height 50: sound
    Row {
        lines: "a49 k",
        branch: "",
        best: "e9a58060558d551737ec42abad9e8013077774520087ca3c167ba557a729924c",
        height: 50,
        hash: "8f9bec6a62dd28ebd36d1227745592de6658b36974a3bb98a4c582f683ea6c42",
        units: 49,
        counts: [50, 0],
        root: (
            "0000000000000000000000000000000000000000000000000000000000000000",
            0,
        ),
        kept: 51,
        overtaken: 0,
    },
    // at height 50, but of another text
    Row {
        lines: "a49 w",
        branch: "",
        best: "e6466005007ee359698bfeaf118299136cabf4e0fc96bd03fb6bf589ea3b606d",
        height: 49,
        hash: "8f9bec6a62dd28ebd36d1227745592de6658b36974a3bb98a4c582f683ea6c42",
        units: 49,
        counts: [50, 0],
        root: (
            "0000000000000000000000000000000000000000000000000000000000000000",
            0,
        ),
        kept: 51,
        overtaken: 0,
    },
];

/// Two checkpoints, and what comes late below the first of them.
const ROOTS: [Row; 4] = [
    // two checkpoints: the first one is the root
    Row {
        lines: "a49 k a49 k",
        branch: "",
        best: "d5e85fd15695d5a7f30bc9405344a7cedbcc1bb740b5bf0f6c14c39b6fef9cb3",
        height: 100,
        hash: "970d31b428de8fea74b16484d8a8adb2c9e1bd974d7c621fd04332bc3499f117",
        units: 98,
        counts: [100, 0],
        root: (
            "e9a58060558d551737ec42abad9e8013077774520087ca3c167ba557a729924c",
            50,
        ),
        kept: 51,
        overtaken: 0,
    },
    // a late sibling below the root, too short to overtake
    Row {
        lines: "a49 k a49 k",
        branch: "a29 b1",
        best: "d5e85fd15695d5a7f30bc9405344a7cedbcc1bb740b5bf0f6c14c39b6fef9cb3",
        height: 100,
        hash: "970d31b428de8fea74b16484d8a8adb2c9e1bd974d7c621fd04332bc3499f117",
        units: 98,
        counts: [101, 0],
        root: (
            "e9a58060558d551737ec42abad9e8013077774520087ca3c167ba557a729924c",
            50,
        ),
        kept: 51,
        overtaken: 0,
    },
    // a late branch below the root that gets longer: it overtakes once, or twice by a lesser name
    Row {
        lines: "a49 k a49 k",
        branch: "a10 f91",
        best: "d5e85fd15695d5a7f30bc9405344a7cedbcc1bb740b5bf0f6c14c39b6fef9cb3",
        height: 100,
        hash: "970d31b428de8fea74b16484d8a8adb2c9e1bd974d7c621fd04332bc3499f117",
        units: 98,
        counts: [191, 0],
        root: (
            "e9a58060558d551737ec42abad9e8013077774520087ca3c167ba557a729924c",
            50,
        ),
        kept: 51,
        overtaken: 1,
    },
    Row {
        lines: "a49 k a49 k",
        branch: "a10 b91",
        best: "d5e85fd15695d5a7f30bc9405344a7cedbcc1bb740b5bf0f6c14c39b6fef9cb3",
        height: 100,
        hash: "970d31b428de8fea74b16484d8a8adb2c9e1bd974d7c621fd04332bc3499f117",
        units: 98,
        counts: [191, 0],
        root: (
            "e9a58060558d551737ec42abad9e8013077774520087ca3c167ba557a729924c",
            50,
        ),
        kept: 51,
        overtaken: 2,
    },
];

/// Checkpoints of other intervals.
const INTERVALS: [Row; 4] = [
    // checkpoints of interval 10 after one of 50
    Row {
        lines: "a49 k10 a9 k10 a9 k10",
        branch: "",
        best: "50082cd22906b83494bf77358f4eb3557e16a7ac89174ed99207b48ee3138c4f",
        height: 70,
        hash: "6116c09f89718e829f69b7afb1d9d60c6973935d96b33213e4d28689fe108ee7",
        units: 67,
        counts: [70, 0],
        root: (
            "e0908731b8aca6b6cd8e5dfcdacba44c42d2a795f6a225855723e3031b3d0a5c",
            60,
        ),
        kept: 11,
        overtaken: 0,
    },
    // and the usual one after that
    Row {
        lines: "a49 k10 a9 k10 a9 k10 a9 k",
        branch: "",
        best: "8d009b196ef4e5b0029b08e0d108f243d249490c73f682af8afdfdb024924a62",
        height: 80,
        hash: "f8b8aba652e5b3cde6bc74bcb7bff15289a222cfdb7759a9809dc08574911f60",
        units: 76,
        counts: [80, 0],
        root: (
            "50082cd22906b83494bf77358f4eb3557e16a7ac89174ed99207b48ee3138c4f",
            70,
        ),
        kept: 11,
        overtaken: 0,
    },
    // after which the next one is not sound at 90
    Row {
        lines: "a49 k10 a9 k10 a9 k10 a9 k a9 k",
        branch: "",
        best: "43634296470b00d9028977891768525283dcf042c4bdce8b4fad98376945ffff",
        height: 89,
        hash: "842ef530b6dd8c51176fd95d9945df3a756506aa8c4a35fa68bb5e1fa14aca64",
        units: 85,
        counts: [90, 0],
        root: (
            "50082cd22906b83494bf77358f4eb3557e16a7ac89174ed99207b48ee3138c4f",
            70,
        ),
        kept: 21,
        overtaken: 0,
    },
    // but at 130
    Row {
        lines: "a49 k10 a9 k10 a9 k10 a9 k a49 k",
        branch: "",
        best: "b9a8b740b1fbb52c4178399e38d2309975c62769e9934fd89203bc13644a2530",
        height: 130,
        hash: "a8e1a0f35c15c01a458bcb345528b751556c14850f6f9bdcc9933b8003d29b43",
        units: 125,
        counts: [130, 0],
        root: (
            "8d009b196ef4e5b0029b08e0d108f243d249490c73f682af8afdfdb024924a62",
            80,
        ),
        kept: 51,
        overtaken: 0,
    },
];

/// Looks whether replays report what rows want.
fn expect_rows<R: AllocGlobal + Abort>(rt: &R, rows: &[Row]) -> Result<(), Fail> {
    let alloc = rt.alloc();
    for row in rows {
        let mut input = lines_of(alloc, row.lines)?.all;
        input.push_str(lines_of(alloc, row.branch)?.all.as_str())?;
        let (status, output) = replayed(alloc, input.as_bytes())?;
        let report = report_of(alloc, *row, 0)?;
        assert_eq!(rt; status, Status::Ok, "at {} {}", row.lines, row.branch);
        assert_eq!(rt;
            output.as_slice(),
            report.as_bytes(),
            "at {} {}",
            row.lines,
            row.branch
        );
    }
    Ok(())
}

#[test]
fn checkpoints_are_received(rt: HostRuntime) -> Result<(), Fail> {
    expect_rows(&rt, SOUND.as_slice())
}

#[test]
fn the_root_rises_and_late_branches_overtake(rt: HostRuntime) -> Result<(), Fail> {
    expect_rows(&rt, ROOTS.as_slice())
}

#[test]
fn intervals_are_counted_from_the_last_checkpoint(rt: HostRuntime) -> Result<(), Fail> {
    expect_rows(&rt, INTERVALS.as_slice())
}

#[test]
fn some_hundred_lines_are_received(rt: HostRuntime) -> Result<(), Fail> {
    let alloc = rt.alloc();
    let row = Row {
        lines: "a49 k a49 k a30",
        branch: "a49 k a49 k a30",
        best: "8c96ec36748ae2f1f9a3e3af33349fd655aa495e9c7994957f4c01d07e330c8a",
        height: 130,
        hash: "6836cf13bac400e9105071cd6af47084dfacad4e5e302c94bfed24e013afb73e",
        units: 128,
        counts: [130, 0],
        root: (
            "e9a58060558d551737ec42abad9e8013077774520087ca3c167ba557a729924c",
            50,
        ),
        kept: 81,
        overtaken: 0,
    };
    let mut input = lines_of(alloc, row.lines)?.all;
    for _ in 0..40 {
        input.push_str("[4,[],\"\",50]\n")?;
    }
    input.push_str(lines_of(alloc, row.branch)?.all.as_str())?;
    let (status, output) = replayed(alloc, input.as_bytes())?;
    assert_eq!(rt; status, Status::Ok);
    assert_eq!(rt; output.as_slice(), report_of(alloc, row, 40)?.as_bytes());
    Ok(())
}

/// The report of the plain program, of these lines.
fn plain_report(alloc: Global, input: &str) -> Result<String, AllocError> {
    let base = Base::first(alloc);
    let mut messages = Messages::new(alloc);
    let mut unreadable = 0u64;
    for line in input.lines() {
        match Message::read(alloc, line) {
            Ok(message) => messages.push(alloc, message)?,
            Err(ReadRefused::Unreadable) => unreadable = unreadable.saturating_add(1),
            Err(ReadRefused::NoMemory(refused)) => return Err(refused),
        }
    }
    report(alloc, &base, &messages, unreadable)
}

/// The lines, the last one first.
fn reversed(alloc: Global, input: &str) -> Result<String, AllocError> {
    let mut lines = String::new(alloc);
    for line in input.lines() {
        lines = format!(in alloc; "{line}\n{}", lines.as_str())?;
    }
    Ok(lines)
}

#[test]
fn the_chain_reports_what_the_plain_program_does(rt: HostRuntime) -> Result<(), Fail> {
    let alloc = rt.alloc();
    for (first, then) in [
        ("a3 k b2", "b4"),
        ("a9 w a3", "a4 k b9"),
        ("a49 k10 a9 k10", "a10 b55"),
    ] {
        let mut input = lines_of(alloc, first)?.all;
        input.push_str(lines_of(alloc, then)?.all.as_str())?;
        let turned = reversed(alloc, input.as_str())?;
        for lines in [input.as_str(), turned.as_str()] {
            let (status, output) = replayed(alloc, lines.as_bytes())?;
            let report = plain_report(alloc, lines)?;
            assert_eq!(rt; status, Status::Ok, "at {first} {then}");
            assert_eq!(rt; output.as_slice(), report.as_bytes(), "at {first} {then}");
        }
    }
    Ok(())
}
