use super::*;
use std::process::Abort;
use std::test::Fail;

/// Calls on a file that stands as "abcd", and what is then left of it. `-` is the empty file.
struct Row {
    /// `w4ef` writes "ef" at 4, `c2` cuts to 2, `s` syncs, `o` writes and syncs another file, and `!` lets the next call
    /// stop.
    calls: &'static str,
    /// The number of the call that fails: the first of these calls is the call 6, the next one 8. There is no call 99.
    fails: u64,
    /// What a crash then may leave of the file.
    may: &'static str,
    /// What it must not leave.
    must_not: &'static str,
    /// What each pick leaves: the old bytes, the new ones, and the new ones torn by `#`.
    picks: [&'static str; 3],
}

const ROWS: [Row; 27] = [
    Row {
        calls: "w1XY",
        fails: 99,
        may: "abcd aXYd aQRd aXcd",
        must_not: "abc abcde ZXYd aXYZ -",
        picks: ["abcd", "aXYd", "a##d"],
    },
    Row {
        calls: "w4ef",
        fails: 99,
        may: "abcd abcde abcdef abcdQ abcdQR",
        must_not: "abc abcdefg abcQef",
        picks: ["abcd", "abcdef", "abcd##"],
    },
    Row {
        calls: "w3XYZ",
        fails: 99,
        may: "abcd abcX abcQ abcQR abcXYZ",
        must_not: "abc abQXYZ abcXYZQ",
        picks: ["abcd", "abcXYZ", "abc###"],
    },
    Row {
        calls: "w0X w3Z",
        fails: 99,
        may: "abcd XbcZ QbcR XbcR",
        must_not: "XQcZ XbQZ Xbc XbcZQ",
        picks: ["abcd", "XbcZ", "#bc#"],
    },
    Row {
        calls: "w0XY w1Z",
        fails: 99,
        may: "XZcd QRcd abcd",
        must_not: "XZQd XZc",
        picks: ["abcd", "XZcd", "##cd"],
    },
    Row {
        calls: "w4",
        fails: 99,
        may: "abcd",
        must_not: "abc abcQ abcdQ",
        picks: ["abcd", "abcd", "abcd"],
    },
    Row {
        calls: "c2",
        fails: 99,
        may: "ab abc abcd",
        must_not: "a abQ abcQ abcde",
        picks: ["abcd", "ab", "ab"],
    },
    Row {
        calls: "c3 c1",
        fails: 99,
        may: "a ab abc abcd",
        must_not: "- Q aQ abcde",
        picks: ["abcd", "a", "a"],
    },
    Row {
        calls: "c0",
        fails: 99,
        may: "- a ab abc abcd",
        must_not: "Q abcdQ",
        picks: ["abcd", "-", "-"],
    },
    Row {
        calls: "c2 w0X",
        fails: 99,
        may: "Xb Qb abcd XbQR QbQ",
        must_not: "X XQ XbQRS",
        picks: ["abcd", "Xb", "#b"],
    },
    Row {
        calls: "c2 w2XYZ",
        fails: 99,
        may: "ab abQ abQRS abcd abXYZ",
        must_not: "a aQXYZ abXYZQ",
        picks: ["abcd", "abXYZ", "ab###"],
    },
    Row {
        calls: "c2 w2",
        fails: 99,
        may: "ab abQ abQR abcd",
        must_not: "a aQ abQRS",
        picks: ["abcd", "ab", "ab"],
    },
    Row {
        calls: "c3 w3XY c1",
        fails: 99,
        may: "a ab abc abcQ abcQR",
        must_not: "- aQ aQcXY abcQRS",
        picks: ["abcd", "a", "a"],
    },
    Row {
        calls: "w4ef c5",
        fails: 99,
        may: "abcd abcde abcdQ abcdQR",
        must_not: "abc abcdefg abcQe",
        picks: ["abcd", "abcde", "abcd#"],
    },
    Row {
        calls: "w4ef c2",
        fails: 99,
        may: "ab abc abcd abcdef abcdQR",
        must_not: "a abQ abcQef abcdefg",
        picks: ["abcd", "ab", "ab"],
    },
    Row {
        calls: "c2 s",
        fails: 99,
        may: "ab",
        must_not: "a abc abcd abQ",
        picks: ["ab", "ab", "ab"],
    },
    Row {
        calls: "w4ef s",
        fails: 99,
        may: "abcdef",
        must_not: "abcd abcde abcdeQ abcdefg",
        picks: ["abcdef", "abcdef", "abcdef"],
    },
    Row {
        calls: "w1XY s w0Z",
        fails: 99,
        may: "ZXYd aXYd QXYd",
        must_not: "abcd ZbYd ZXY",
        picks: ["aXYd", "ZXYd", "#XYd"],
    },
    Row {
        calls: "c0 s w0hi",
        fails: 99,
        may: "- Q h hi QR",
        must_not: "hiQ",
        picks: ["-", "hi", "##"],
    },
    Row {
        calls: "w4ef o",
        fails: 99,
        may: "abcd abcde abcdef abcdQ",
        must_not: "abc abcdefg",
        picks: ["abcd", "abcdef", "abcd##"],
    },
    Row {
        calls: "w4ef",
        fails: 6,
        may: "abcd",
        must_not: "abcde abcdef",
        picks: ["abcd", "abcd", "abcd"],
    },
    Row {
        calls: "w4ef s",
        fails: 8,
        may: "abcd abcde abcdef abcdQR",
        must_not: "abc abcdefg",
        picks: ["abcd", "abcdef", "abcd##"],
    },
    Row {
        calls: "c2",
        fails: 6,
        may: "abcd",
        must_not: "ab abc",
        picks: ["abcd", "abcd", "abcd"],
    },
    Row {
        calls: "! w4ef",
        fails: 99,
        may: "abcd abcde abcdef abcdQR",
        must_not: "abc abcdefg",
        picks: ["abcd", "abcdef", "abcd##"],
    },
    Row {
        calls: "w1XY ! c3",
        fails: 99,
        may: "abcd aXYd aXY aQR",
        must_not: "ab aXYdQ ZXY",
        picks: ["abcd", "aXY", "a##"],
    },
    Row {
        calls: "w4ef ! s",
        fails: 99,
        may: "abcd abcde abcdef abcdQR",
        must_not: "abc abcdefg",
        picks: ["abcd", "abcdef", "abcd##"],
    },
    Row {
        calls: "w4ef s ! w0Z",
        fails: 99,
        may: "abcdef Zbcdef Qbcdef",
        must_not: "abcd ZQcdef",
        picks: ["abcdef", "Zbcdef", "#bcdef"],
    },
];

/// The bytes that a word stands for.
fn content(word: &str) -> &[u8] {
    if word == "-" { &[] } else { word.as_bytes() }
}

/// Makes the call of a word on the file "a".
fn make_call<V: Volume>(volume: &mut V, word: &str) -> Result<(), Failed> {
    let size = volume.length("a")?;
    match word.as_bytes() {
        [b'w', digit, piece @ ..] => {
            let at = u64::from(digit.saturating_sub(b'0'));
            if size < at {
                return Err(Failed);
            }
            volume.write_at("a", at, piece)
        }
        [b'c', digit] => {
            let to = u64::from(digit.saturating_sub(b'0'));
            if size < to {
                return Err(Failed);
            }
            volume.cut("a", to)
        }
        [b'o'] => put_other(volume),
        _ => volume.sync("a"),
    }
}

/// Writes and syncs the file "b".
fn put_other<V: Volume>(volume: &mut V) -> Result<(), Failed> {
    volume.write_at("b", 0, b"whole")?;
    volume.sync("b")
}

/// Writes and syncs both files.
fn begin<V: Volume>(volume: &mut V) -> Result<(), Failed> {
    volume.root("folder")?;
    volume.write_at("a", 0, b"abcd")?;
    volume.sync("a")?;
    put_other(volume)
}

/// A volume after these calls, of which the one of a number fails, and which stops with this pick where they say so.
fn run(alloc: Global, calls: &str, fails: u64, pick: Pick) -> Result<MemVolume, Fail> {
    let mut volume = MemVolume::new(alloc, Vec::from_slice(alloc, &[fails])?);
    begin(&mut volume)?;
    for word in calls.split(' ') {
        if word == "!" {
            volume.stop_at(volume.calls().saturating_add(1), pick);
        } else {
            let _ = make_call(&mut volume, word);
        }
    }
    Ok(volume)
}

/// Each of these words is bytes that a crash may leave, or each is none.
fn check_words(
    rt: &impl Abort,
    alloc: Global,
    volume: &MemVolume,
    words: &str,
    wanted: bool,
) -> Result<(), Fail> {
    for word in words.split(' ') {
        let may_leave = volume.may_leave(alloc, "a", content(word))?;
        assert_eq!(rt; may_leave, wanted, "{word}");
    }
    Ok(())
}

/// A file has these bytes.
fn check_bytes<V: Volume>(
    rt: &impl Abort,
    volume: &mut V,
    file: &str,
    wanted: &[u8],
) -> Result<(), Fail> {
    let mut bytes = [0; 16];
    let count = volume.read_at(file, 0, &mut bytes)?;
    assert_eq!(rt; &bytes[..count], wanted);
    Ok(())
}

/// A stop after these calls leaves the file "a" as wanted, and the other file as it was.
fn check_pick(
    rt: &impl Abort,
    alloc: Global,
    row: &Row,
    pick: Pick,
    wanted: &str,
) -> Result<(), Fail> {
    let mut volume = run(alloc, row.calls, row.fails, pick)?;
    volume.stop_at(volume.calls(), pick);
    assert!(rt; volume.sync("a").is_err());
    assert!(rt; volume.length("a").is_err());
    let mut image = volume.image(alloc)?;
    check_bytes(rt, &mut image, "a", content(wanted))?;
    check_bytes(rt, &mut image, "b", b"whole")
}

fn check_row(rt: &impl Abort, alloc: Global, row: &Row) -> Result<(), Fail> {
    let volume = run(alloc, row.calls, row.fails, Pick::New)?;
    check_words(rt, alloc, &volume, row.may, true)?;
    check_words(rt, alloc, &volume, row.must_not, false)?;
    check_pick(rt, alloc, row, Pick::Old, row.picks[0])?;
    check_pick(rt, alloc, row, Pick::New, row.picks[1])?;
    check_pick(rt, alloc, row, Pick::Torn(b'#'), row.picks[2])
}

fn check_rows(rt: &impl Abort, alloc: Global, rows: &[Row]) -> Result<(), Fail> {
    for row in rows {
        check_row(rt, alloc, row)?;
    }
    Ok(())
}

#[test]
fn a_crash_leaves_what_the_table_says(rt: HostRuntime) -> Result<(), Fail> {
    check_rows(&rt, rt.alloc(), &ROWS)
}

/// Makes each of the six calls, and tells which failed.
fn failures<V: Volume>(volume: &mut V) -> [bool; 6] {
    [
        volume.root("folder").is_err(),
        volume.write_at("a", 0, b"").is_err(),
        volume.length("a").is_err(),
        volume.read_at("a", 0, &mut [0; 4]).is_err(),
        volume.cut("a", 0).is_err(),
        volume.sync("a").is_err(),
    ]
}

#[test]
fn each_call_in_turn_fails(rt: HostRuntime) -> Result<(), Fail> {
    for failing in 0..6 {
        let mut volume = MemVolume::new(rt.alloc(), Vec::from_slice(rt.alloc(), &[failing])?);
        for (call, failed) in failures(&mut volume).iter().enumerate() {
            assert_eq!(&rt; *failed, call as u64 == failing, "{call} of {failing}");
        }
        assert_eq!(&rt; (volume.calls(), volume.starved()), (6, 0));
    }
    Ok(())
}
