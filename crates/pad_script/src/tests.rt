use super::{
    Act, Commands, LineRefused, ScriptRefused, may_request, read_client_line, read_script,
    read_session, read_session_line,
};
use std::alloc::{AllocError, Global};
use std::test::Fail;

/// The digits of a channel, `@` below.
const CHANNEL: &str = "00112233445566778899aabbccddeeff";

/// The digits of a name, `&` below: the SHA-256 of `abc`.
const NAME: &str = "ba7816bf8f01cfea414140de5dae2223b00361a396177a9cb410ff61f20015ad";

/// Lines of client scripts: behind `+` a command, behind `0` nothing, behind `-` a line outside the grammar.
const CLIENT_LINES: &str = r##"+join @
-join
-join  @
-join @ 
-join @0
-join 00112233445566778899AABBCCDDEEFF
-Join @
- join @
+leave
-leave now
+history
+history all
+history &
-history all 
-history "&"
-history @
+edit 0 0 "hi"
+edit 4294967295 4294967295 ""
+edit 0 1  "two spaces" 
+edit 1 0 "\u0061\n\ud83d\ude00 # 😀 -1.5e3"
-edit 4294967296 0 ""
-edit 00 0 ""
-edit +1 0 ""
-edit -1 0 ""
-edit 0  0 ""
-edit 0 0
-edit 0 0 
-edit 0 0 hi
-edit 0 0 "ab
-edit 0 0 "\ud83d"
-edit 0 0 "a" "b"
-edit 0 0 7
-edit 0 0 ["a"]
+sync
+resend
+settle
-settle 1
+hear 0
+hear 4294967295
-hear 4294967296
-hear 07
-hear
-hear 1 
+repair
+interval 10
+interval 1000
-interval 9
-interval 1001
-interval 010
+show
-show 0
-undo
-redo
0#
0# show
0#show
- # show
- "##;

/// Lines of session scripts, in the same way.
const SESSION_LINES: &str = r##"+dial 0
+hang 63
-hang 64
-dial
-dial 00
-dial 0 
+join 0 @
-join @
-join 0
-join 64 @
+leave 1
+sync 1
+resend 1
+repair 1
+history 1
+history 1 all
+history 1 &
-history all
-history 1 @
+edit 1 0 0 "hi"
-edit 0 0 "hi"
-edit 64 0 0 "hi"
+interval 63 1000
-interval 1000
-interval 0 9
+up 0
+down 0
+repeatup 0
+repeatdown 0
+loseup 0
+losedown 0
-up
-up @
-repeat 0
+run
-run 0
+stop 1 old
+stop 4294967295 new
+stop 3 torn 0
+stop 3 torn 255
-stop 0 old
-stop 4294967296 old
-stop 3 torn 256
-stop 3 torn
-stop 3 old 1
-stop 3
+reopen
+show 63
-show
+log @
-log
-log 0 @
-settle
-hear 1
0# run"##;

/// A line with its digits filled in.
fn filled(alloc: Global, line: &str) -> Result<String, AllocError> {
    let mut text = String::new(alloc);
    for c in line.chars() {
        match c {
            '@' => text.push_str(CHANNEL)?,
            '&' => text.push_str(NAME)?,
            c => text.push(c)?,
        }
    }
    Ok(text)
}

/// How what is read of a line is marked in the tables.
fn mark_of<A: Drop>(said: Result<Option<A>, LineRefused>) -> Option<char> {
    match said {
        Ok(Some(_)) => Some('+'),
        Ok(None) => Some('0'),
        Err(LineRefused::Outside) => Some('-'),
        Err(LineRefused::NoMemory(_)) => None,
    }
}

#[test]
fn client_lines_are_read(rt: HostRuntime) -> Result<(), Fail> {
    let alloc = rt.alloc();
    for row in CLIENT_LINES.lines() {
        let line = filled(alloc, row.get(1..).unwrap_or(""))?;
        let mark = mark_of(read_client_line(alloc, line.as_bytes()));
        assert_eq!(rt; mark, row.chars().next(), "at {row}");
    }
    assert_eq!(rt; mark_of(read_client_line(alloc, b"")), Some('0'));
    assert_eq!(rt; mark_of(read_client_line(alloc, b"#\xff")), Some('-'));
    assert_eq!(rt; mark_of(read_client_line(alloc, b"show\r")), Some('-'));
    assert_eq!(rt;
        mark_of(read_client_line(alloc, b"edit 0 0 \"\"\r")),
        Some('+')
    );
    Ok(())
}

#[test]
fn session_lines_are_read(rt: HostRuntime) -> Result<(), Fail> {
    let alloc = rt.alloc();
    for row in SESSION_LINES.lines() {
        let line = filled(alloc, row.get(1..).unwrap_or(""))?;
        let mark = mark_of(read_session_line(alloc, line.as_bytes()));
        assert_eq!(rt; mark, row.chars().next(), "at {row}");
    }
    assert_eq!(rt; mark_of(read_session_line(alloc, b"")), Some('0'));
    assert_eq!(rt; mark_of(read_session_line(alloc, b"run\xff")), Some('-'));
    Ok(())
}

#[test]
fn scripts_have_commands_with_their_lines(rt: HostRuntime) -> Result<(), Fail> {
    let alloc = rt.alloc();
    let script = filled(
        alloc,
        "# two lines that do nothing\n\njoin @\nedit 1 2 \"h\\u0069\"\nhear 7",
    )?;
    let commands = read_script(alloc, script.as_bytes())?;
    assert_eq!(rt; commands.as_slice().len(), 3);
    for (command, line) in commands.as_slice().iter().zip([3, 4, 5]) {
        assert_eq!(rt; command.line, line);
        match &command.act {
            Act::Join(channel) => assert_eq!(rt; channel.as_str(), CHANNEL),
            Act::Edit(operation) => {
                assert_eq!(rt; (operation.offset, operation.remove), (1, 2));
                assert_eq!(rt; operation.insert.to_string(alloc)?.as_str(), "hi");
            }
            Act::Hear(count) => assert_eq!(rt; *count, 7),
            _ => assert!(rt; false),
        }
    }
    Ok(())
}

/// The first line outside the grammar.
fn bad_line<A: Drop>(read: Result<Commands<A>, ScriptRefused>) -> Option<u64> {
    match read {
        Err(ScriptRefused::BadLine(number)) => Some(number),
        _ => None,
    }
}

#[test]
fn the_first_bad_line_is_told(rt: HostRuntime) -> Result<(), Fail> {
    let alloc = rt.alloc();
    for (script, want) in [
        ("", None),
        ("# a last line without a newline", None),
        ("#\n\n", None),
        ("# show\nedit 0 0 \"ab", Some(2)),
        (" \nundo", Some(1)),
        ("#\n\n\nundo\nredo\n", Some(4)),
    ] {
        assert_eq!(rt;
            bad_line(read_script(alloc, script.as_bytes())),
            want,
            "at {script}"
        );
        assert_eq!(rt;
            bad_line(read_session(alloc, script.as_bytes())),
            want,
            "at {script}"
        );
    }
    Ok(())
}

#[test]
fn requests_end_at_their_bound(rt: HostRuntime) {
    assert!(rt; may_request(4_294_966_999));
    assert!(rt; !may_request(4_294_967_000));
}
