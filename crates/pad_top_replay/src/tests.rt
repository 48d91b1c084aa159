//! Replays over sources and sinks in memory. The expected names and hashes are those of another program.
use disk_volume::MemVolume;
use pad_edge::{MemSink, MemSource};
use pad_top::Status;
use pad_top_trial::{run_alone, spaces, words_of};
use std::alloc::{AllocError, Global};
use std::process::Abort;
use std::test::Fail;

/// The name of the base.
const BASE: &str = "0000000000000000000000000000000000000000000000000000000000000000";

/// The document hashes of the empty text, `abc`, `abc!`, `abc?`, `abc??`, `hello`, `x` and `xy`.
const EMPTY_HASH: &str = "e3b0c44298fc1c149afbf4c8996fb92427ae41e4649b934ca495991b7852b855";

const ABC_HASH: &str = "ba7816bf8f01cfea414140de5dae2223b00361a396177a9cb410ff61f20015ad";

const ABC_END_HASH: &str = "53e0eff3204626f3e256ca636572d7ccdf8eb5a190c9defa3fa567bc63866b76";

const ABC_ASK_HASH: &str = "aec67544b77bd8248ce90860d6c4db378511774c85441d64c69d8a6a04e132d5";

const ABC_ASKS_HASH: &str = "79af6ec53c4bdce569aa3fba3051e27bcc971489665e6ec2dbbcfba6d3aa9abc";

const HELLO_HASH: &str = "2cf24dba5fb0a30e26e83b2ac5b9e29e1b161e5c1fa7425e73043362938b9824";

const X_HASH: &str = "2d711642b726b04401627ca9fbac32f5c8530fb1903cc4db02258717921a4881";

const XY_HASH: &str = "769a4e6d0003189c7e96c5d9b7e810a0d11c3a12832527ec94b0f86d277f51ca";

/// The names of the messages below.
const ABC_NAME: &str = "f77893ff123539a227a1e6cc9978b6c9a000367720745d32928d3bb0d0cbcdd6";

const ABC_END_NAME: &str = "b7c46af67f1fe4e3fd6bab6b46afdc9c5abd9b3017421086438f5dd52a400839";

const ABC_ASK_NAME: &str = "0dc6a5705e0adc755ca107cd2ce833ed168916f750a3c64a6f05de91841f5db3";

const ABC_ASKS_NAME: &str = "52b09a680633eacffc6ab0b8cf572c350281c30c898ed3d226f698f6218e9f13";

const HELLO_NAME: &str = "ea29cce873bc9a13655c1bdcf23d15c12b9a7b93a20ec35d6f3f85b5f49c2785";

const X_NAME: &str = "7ec02678ed788aa86a97c8d839664285c5dee06acc86fdbcca3374e4f5ee1a27";

const XY_NAME: &str = "a062f08ecf8653ce73ebdeb990fec783556686f77b645af7a0a574f1355ae872";

/// A message that inserts a text.
fn message(
    alloc: Global,
    offset: &str,
    insert: &str,
    before: &str,
    parent: &str,
) -> Result<String, AllocError> {
    format!(in alloc; "[2,[[{offset},0,\"{insert}\"],\"{before}\"],\"{parent}\"]")
}

/// The line of a letter.
fn line_of(alloc: Global, letter: char) -> Result<String, AllocError> {
    match letter {
        // `abc` on the base, and the same message in other spellings
        'a' => message(alloc, "0", "abc", EMPTY_HASH, BASE),
        'b' => message(alloc, " 0 ", "\\u0061bc", EMPTY_HASH, BASE),
        'c' => format!(in alloc; "cp|[2,[[0,0,\"abc\"],\"{EMPTY_HASH}\"],\"{BASE}\"]"),
        'r' => format!(in alloc; "[2,[[0,0,\"abc\"],\"{EMPTY_HASH}\"],\"{BASE}\"]\r"),

        // `!` after that, and on another branch `?` and one more
        'd' => message(alloc, "3", "!", ABC_HASH, ABC_NAME),
        'p' => message(alloc, "3", "?", ABC_HASH, ABC_NAME),
        'q' => message(alloc, "4", "?", ABC_ASK_HASH, ABC_ASK_NAME),

        // `hello` on the base: its name is less than that of `abc`
        'h' => message(alloc, "0", "hello", EMPTY_HASH, BASE),

        // `x` on the base, but made for another text, and `y` and `z` in turn on that
        'x' => message(alloc, "0", "x", ABC_HASH, BASE),
        'y' => message(alloc, "1", "y", X_HASH, X_NAME),
        'z' => message(alloc, "2", "z", XY_HASH, XY_NAME),

        // a checkpoint on the base
        'k' => format!(in alloc; "[4,[[0,0,\"\"],\"{EMPTY_HASH}\"],\"{BASE}\"]"),

        // no messages: signs, fractions and exponents, another kind, two marks, and an empty line
        's' => message(alloc, "-0", "abc", EMPTY_HASH, BASE),
        'f' => message(alloc, "0.0", "abc", EMPTY_HASH, BASE),
        'e' => message(alloc, "0e0", "abc", EMPTY_HASH, BASE),
        't' => String::from_str(alloc, "[3,[],\"\"]"),
        'm' => format!(in alloc; "cp|cp|[2,[[0,0,\"abc\"],\"{EMPTY_HASH}\"],\"{BASE}\"]"),
        _ => Ok(String::new(alloc)),
    }
}

/// The lines of these letters, each with a newline.
fn input_of(alloc: Global, letters: &str) -> Result<String, AllocError> {
    let mut input = String::new(alloc);
    for letter in letters.chars() {
        input.push_str(line_of(alloc, letter)?.as_str())?;
        input.push_str("\n")?;
    }
    Ok(input)
}

/// The best chains of the reports.
#[derive(Clone, Copy, Debug)]
enum Best {
    Base,
    Abc,
    AbcEnd,
    AbcAsks,
    Hello,
}

/// The first four lines of a report.
fn first_lines(alloc: Global, best: Best) -> Result<String, AllocError> {
    match best {
        Best::Base => format!(in alloc; "best {BASE}\nheight 0\nhash {EMPTY_HASH}\nunits 0\n"),
        Best::Abc => format!(in alloc; "best {ABC_NAME}\nheight 1\nhash {ABC_HASH}\nunits 3\n"),
        Best::AbcEnd => {
            format!(in alloc; "best {ABC_END_NAME}\nheight 2\nhash {ABC_END_HASH}\nunits 4\n")
        }
        Best::AbcAsks => {
            format!(in alloc; "best {ABC_ASKS_NAME}\nheight 3\nhash {ABC_ASKS_HASH}\nunits 5\n")
        }
        Best::Hello => {
            format!(in alloc; "best {HELLO_NAME}\nheight 1\nhash {HELLO_HASH}\nunits 5\n")
        }
    }
}

/// The last line of a report.
fn last_line(alloc: Global, best: Best) -> Result<String, AllocError> {
    let line = match best {
        Best::Base => "text \"\"\n",
        Best::Abc => "text \"abc\"\n",
        Best::AbcEnd => "text \"abc!\"\n",
        Best::AbcAsks => "text \"abc??\"\n",
        Best::Hello => "text \"hello\"\n",
    };
    String::from_str(alloc, line)
}

/// The eleven lines of a report.
fn report_of(
    alloc: Global,
    best: Best,
    [known, waiting, unreadable, kept]: [u32; 4],
) -> Result<String, AllocError> {
    let first = first_lines(alloc, best)?;
    let last = last_line(alloc, best)?;
    format!(in alloc;
        "{first}known {known}\nwaiting {waiting}\nunreadable {unreadable}\nroot {BASE} 0\nkept {kept}\novertaken 0\n{last}"
    )
}

/// How a replay of these bytes ends, and what is written. A read or a write moves a few bytes.
fn ran(alloc: Global, input: &[u8]) -> Result<(Status, Vec<u8>), AllocError> {
    let words = words_of(alloc, "replay")?;
    let mut source = MemSource::new(input.to_vec(alloc)?, 7, Vec::new(alloc));
    let mut sink = MemSink::new(spaces(alloc, 1024)?, 5, Vec::new(alloc));
    let mut volume = MemVolume::new(alloc, Vec::new(alloc));
    let status = run_alone(alloc, words.as_slice(), &mut source, &mut sink, &mut volume);
    Ok((status, sink.as_slice().to_vec(alloc)?))
}

/// Looks whether a replay of these bytes writes the report that is wanted.
fn expect_report<R: AllocGlobal + Abort>(
    rt: &R,
    input: &[u8],
    best: Best,
    counts: [u32; 4],
) -> Result<(), AllocError> {
    let alloc = rt.alloc();
    let (status, output) = ran(alloc, input)?;
    let report = report_of(alloc, best, counts)?;
    assert_eq!(rt; status, Status::Ok, "at {best:?} {counts:?}");
    assert_eq!(rt;
        output.as_slice(),
        report.as_bytes(),
        "at {best:?} {counts:?}"
    );
    Ok(())
}

#[test]
fn replays_report_the_best_chain(rt: HostRuntime) -> Result<(), Fail> {
    let alloc = rt.alloc();
    for (letters, best, counts) in [
        // nothing, one message, and the same one again
        ("", Best::Base, [0, 0, 0, 1]),
        ("a", Best::Abc, [1, 0, 0, 2]),
        ("abca", Best::Abc, [1, 0, 0, 2]),
        // a carriage return before the newline
        ("rd", Best::AbcEnd, [2, 0, 0, 3]),
        // a message that waits for its parent
        ("d", Best::Base, [1, 1, 0, 1]),
        ("da", Best::AbcEnd, [2, 0, 0, 3]),
        // of two equally long chains the one with the lesser name
        ("ah", Best::Hello, [2, 0, 0, 3]),
        ("ha", Best::Hello, [2, 0, 0, 3]),
        // of branches the longest, and one that waits for what it stands on is none
        ("hadpq", Best::AbcAsks, [5, 0, 0, 6]),
        ("qqpdrh", Best::AbcAsks, [5, 0, 0, 6]),
        ("qadh", Best::AbcEnd, [4, 1, 0, 4]),
        // lines that read as no message
        ("zyatx sfe", Best::Abc, [4, 0, 5, 5]),
        ("m  ad", Best::AbcEnd, [2, 0, 3, 3]),
        // a checkpoint on the base is linked and not sound
        ("k", Best::Base, [1, 0, 0, 2]),
        ("kad", Best::AbcEnd, [3, 0, 0, 4]),
    ] {
        let input = input_of(alloc, letters)?;
        expect_report(&rt, input.as_bytes(), best, counts)?;
    }
    Ok(())
}

#[test]
fn unsound_messages_are_linked_in_any_order(rt: HostRuntime) -> Result<(), Fail> {
    let alloc = rt.alloc();
    for order in [
        "xyza", "xyaz", "xzya", "xzay", "xayz", "xazy", "yxza", "yxaz", "yzxa", "yzax", "yaxz",
        "yazx", "zxya", "zxay", "zyxa", "zyax", "zaxy", "zayx", "axyz", "axzy", "ayxz", "ayzx",
        "azxy", "azyx",
    ] {
        let input = input_of(alloc, order)?;
        expect_report(&rt, input.as_bytes(), Best::Abc, [4, 0, 0, 5])?;
    }
    Ok(())
}

#[test]
fn last_lines_need_no_newline_and_lines_need_be_utf8(rt: HostRuntime) -> Result<(), Fail> {
    let alloc = rt.alloc();
    let mut input = line_of(alloc, 'a')?.as_bytes().to_vec(alloc)?;
    expect_report(&rt, input.as_slice(), Best::Abc, [1, 0, 0, 2])?;
    input.extend_from_slice(b"\n\xff\n\"\xc3\"\n\x00")?;
    expect_report(&rt, input.as_slice(), Best::Abc, [1, 0, 3, 2])?;
    Ok(())
}

/// Lines that read as no message: brackets that nest too deep, a byte that is no UTF-8, a digit in upper case, a number
/// that is too great, and intervals that a checkpoint may not have.
const UNREADABLE: [&str; 8] = [
    "[2,[[0,0,\"abc\"],\"e3B0c44298fc1c149afbf4c8996fb92427ae41e4649b934ca495991b7852b855\"],\"Z\"]",
    "[2,[[4294967296,0,\"abc\"],\"E\"],\"Z\"]",
    "[4,[[0,0,\"\"],\"E\"],\"Z\",9]",
    "[4,[[0,0,\"\"],\"E\"],\"Z\",1001]",
    "[4,[[0,0,\"\"],\"E\"],\"Z\",10.0]",
    "[4,[[0,0,\"\"],\"E\"],\"Z\",-10]",
    "[4,[[0,0,\"\"],\"E\"],\"Z\",50,50]",
    "[2,[[0,0,\"abc\"],\"E\"],\"Z\",50]",
];

#[test]
fn unreadable_lines_are_counted(rt: HostRuntime) -> Result<(), Fail> {
    let alloc = rt.alloc();
    let mut input = line_of(alloc, 'a')?.as_bytes().to_vec(alloc)?;
    input.extend_from_slice(b"\n\xff\n")?;
    input.extend_from_slice("[".repeat(alloc, 200)?.as_bytes())?;
    for line in UNREADABLE {
        input.extend_from_slice(b"\n")?;
        for c in line.chars() {
            match c {
                'E' => input.extend_from_slice(EMPTY_HASH.as_bytes())?,
                'Z' => input.extend_from_slice(BASE.as_bytes())?,
                _ => {
                    let mut room = [0; 4];
                    input.extend_from_slice(c.encode_utf8(&mut room).as_bytes())?;
                }
            }
        }
    }
    expect_report(&rt, input.as_slice(), Best::Abc, [1, 0, 10, 2])?;
    Ok(())
}

#[test]
fn faults_end_a_replay(rt: HostRuntime) -> Result<(), Fail> {
    let alloc = rt.alloc();
    let words = words_of(alloc, "replay")?;
    let input = input_of(alloc, "a")?;

    // the second read fails, the second write fails, and a read and then a write fail
    for (read, write, room, want, output) in [
        (1, 99, 1024, Status::ReadFault, "read fault\n"),
        (999, 1, 1024, Status::WriteFault, "b"),
        (0, 99, 4, Status::WriteFault, "read"),
    ] {
        let bytes = input.as_bytes().to_vec(alloc)?;
        let mut source = MemSource::new(bytes, 1, [read].to_vec(alloc)?);
        let mut sink = MemSink::new(spaces(alloc, room)?, 1, [write].to_vec(alloc)?);
        let mut volume = MemVolume::new(alloc, Vec::new(alloc));
        let status = run_alone(alloc, words.as_slice(), &mut source, &mut sink, &mut volume);
        assert_eq!(rt; status, want, "at {output:?}");
        assert_eq!(rt; sink.as_slice(), output.as_bytes(), "at {output:?}");
    }
    Ok(())
}

#[test]
fn an_input_has_at_most_2_pow_28_bytes(rt: HostRuntime) -> Result<(), Fail> {
    let alloc = rt.alloc();
    let words = words_of(alloc, "replay")?;
    let bytes = spaces(alloc, (1 << 28) + 1)?;
    let mut source = MemSource::new(bytes, 1 << 20, Vec::new(alloc));
    let mut sink = MemSink::new(spaces(alloc, 64)?, 64, Vec::new(alloc));
    let mut volume = MemVolume::new(alloc, Vec::new(alloc));
    let status = run_alone(alloc, words.as_slice(), &mut source, &mut sink, &mut volume);
    assert_eq!(rt; status, Status::Limit);
    assert_eq!(rt; sink.as_slice(), b"limit\n".as_slice());
    Ok(())
}
