//! Scripts over links in memory. Names and hashes are those of another program.
ghost use Rattle.std.specs.Prelude.{◌≡◌, ◌<◌, ◌≤◌, ◌^◌, length};

use super::ScriptedClient;
use pad_conversation::{ConversationRefused, converse};
use pad_edge::{MemLink, MemSink, Wire};
use pad_patch::VecUnits;
use pad_script::read_script;
use std::alloc::Global;
use std::marker::Brand;
use std::sync::ledger::{Blank, Ledger};
use std::test::Fail;

/// A script, the texts that the link gives, what was sent, a text a line each, and what was written.
#[derive(Clone, Copy, Drop)]
struct Case {
    script: &'static str,
    heard: &'static str,
    sent: &'static str,
    written: &'static str,
}

/// What a client comes to.
const REPORTS: [Case; 5] = [
    // An edit is sent and acknowledged.
    Case {
        script: "join @\nedit 0 0 \"hi\"\nsync\nsettle\nshow\n",
        heard: "[0,\"\",\"IDENT\",\"<\"]\n[1,\"JACK\",\"@\"]\n[0,\"%\",\"JOIN\",\"@\"]\n[0,\"<\",\"JOIN\",\"@\"]\n[2,\"ACK\"]\n",
        sent: "[1,\"JOIN\",\"@\"]\n[2,\"MSG\",\"@\",\"[2,[[0,0,\\\"hi\\\"],\\\"^\\\"],\\\"~\\\"]\"]\n",
        written: "best 1ed74cb24bb725165b4f4028701cb378cd368c10cced8875b6a3f2d70569f0f3\nheight 1\nhash 8f434346648f6b96df89dda901c5176b10a6d83961dd3c1ac88b59b2dc327aa4\nunits 2\nknown 1\nwaiting 0\nunreadable 0\nroot ~ 0\nkept 2\novertaken 0\ntext \"hi\"\noutbox 0\nwork 0\nshown \"hi\"\n",
    },
    // Others win.
    Case {
        script: "join @\nedit 0 0 \"hi\"\nsync\nhear 2\nshow\n",
        heard: "[0,\"\",\"IDENT\",\"<\"]\n[1,\"JACK\",\"@\"]\n[0,\"%\",\"JOIN\",\"@\"]\n[0,\"<\",\"JOIN\",\"@\"]\n[0,\">\",\"MSG\",\"@\",\"[2,[[0,0,\\\"abc\\\"],\\\"^\\\"],\\\"~\\\"]\"]\n[0,\">\",\"MSG\",\"@\",\"[2,[[3,0,\\\"!\\\"],\\\"&\\\"],\\\"f77893ff123539a227a1e6cc9978b6c9a000367720745d32928d3bb0d0cbcdd6\\\"]\"]\n",
        sent: "[1,\"JOIN\",\"@\"]\n[2,\"MSG\",\"@\",\"[2,[[0,0,\\\"hi\\\"],\\\"^\\\"],\\\"~\\\"]\"]\n",
        written: "best b7c46af67f1fe4e3fd6bab6b46afdc9c5abd9b3017421086438f5dd52a400839\nheight 2\nhash 53e0eff3204626f3e256ca636572d7ccdf8eb5a190c9defa3fa567bc63866b76\nunits 4\nknown 3\nwaiting 0\nunreadable 0\nroot ~ 0\nkept 4\novertaken 0\ntext \"abc!\"\noutbox 1\nwork 1\nshown \"hiabc!\"\n",
    },
    // And lose again.
    Case {
        script: "join @\nedit 0 0 \"hi\"\nsync\nhear 4\nshow\n",
        heard: "[0,\"\",\"IDENT\",\"<\"]\n[1,\"JACK\",\"@\"]\n[0,\"%\",\"JOIN\",\"@\"]\n[0,\"<\",\"JOIN\",\"@\"]\n[0,\">\",\"MSG\",\"@\",\"[2,[[0,0,\\\"abc\\\"],\\\"^\\\"],\\\"~\\\"]\"]\n[0,\">\",\"MSG\",\"@\",\"[2,[[3,0,\\\"!\\\"],\\\"&\\\"],\\\"f77893ff123539a227a1e6cc9978b6c9a000367720745d32928d3bb0d0cbcdd6\\\"]\"]\n[0,\">\",\"MSG\",\"@\",\"[2,[[2,0,\\\"1\\\"],\\\"8f434346648f6b96df89dda901c5176b10a6d83961dd3c1ac88b59b2dc327aa4\\\"],\\\"1ed74cb24bb725165b4f4028701cb378cd368c10cced8875b6a3f2d70569f0f3\\\"]\"]\n[0,\">\",\"MSG\",\"@\",\"[2,[[3,0,\\\"2\\\"],\\\"fc8edc701a9a956acf1c36513aabc5d3cc66b92c152ae5d29f43020cc1373c80\\\"],\\\"b0210392b776206e3678286f71ab9732e86b3e6e9b1064e3397625f6f479ba68\\\"]\"]\n",
        sent: "[1,\"JOIN\",\"@\"]\n[2,\"MSG\",\"@\",\"[2,[[0,0,\\\"hi\\\"],\\\"^\\\"],\\\"~\\\"]\"]\n",
        written: "best 8c4bf251121582c5db9d7f16cebcedb44fffedbced94afde4aadf9ff5961a298\nheight 3\nhash 9d96e21a72c0a447697f42c3aff3655407aa96fdf5387ded84090ccddd4e4a53\nunits 4\nknown 5\nwaiting 0\nunreadable 0\nroot ~ 0\nkept 6\novertaken 0\ntext \"hi12\"\noutbox 1\nwork 0\nshown \"hi12\"\n",
    },
    // The first entry is adopted.
    Case {
        script: "join @\nedit 0 0 \"hi\"\nhistory\nshow\n",
        heard: "[0,\"\",\"IDENT\",\"<\"]\n[1,\"JACK\",\"@\"]\n[0,\"%\",\"JOIN\",\"@\"]\n[0,\"<\",\"JOIN\",\"@\"]\n[2,\"ACK\"]\n[0,\"%\",\"HISTORY\",\"@\",0,\">\",\"cp|[4,[[0,3,\\\"abc\\\"],\\\"&\\\"],\\\"1111111111111111111111111111111111111111111111111111111111111111\\\"]\"]\n[0,\"%\",\"HISTORY_END\",\"@\",1]\n",
        sent: "[1,\"JOIN\",\"@\"]\n[2,\"MSG\",\"%\",\"[\\\"GET_HISTORY\\\",\\\"@\\\"]\"]\n",
        written: "best 2d2b491dfdb3d4632af9db8b73a6eae3866ee5ed236a355151f412ed420245b8\nheight 0\nhash &\nunits 3\nknown 0\nwaiting 0\nunreadable 0\nroot 2d2b491dfdb3d4632af9db8b73a6eae3866ee5ed236a355151f412ed420245b8 0\nkept 1\novertaken 0\ntext \"abc\"\noutbox 0\nwork 1\nshown \"hiabc\"\n",
    },
    // A repair.
    Case {
        script: "join @\nedit 0 0 \"x\"\nrepair\ninterval 10\nshow\n",
        heard: "[0,\"\",\"IDENT\",\"<\"]\n[1,\"JACK\",\"@\"]\n[0,\"%\",\"JOIN\",\"@\"]\n[0,\"<\",\"JOIN\",\"@\"]\n[2,\"ACK\"]\n[0,\"%\",\"HISTORY\",\"@\",0,\">\",\"[2,[[0,0,\\\"abc\\\"],\\\"^\\\"],\\\"~\\\"]\"]\n[0,\"%\",\"HISTORY_END\",\"@\",1]\n",
        sent: "[1,\"JOIN\",\"@\"]\n[2,\"MSG\",\"%\",\"[\\\"GET_FULL_HISTORY\\\",\\\"@\\\"]\"]\n",
        written: "best f77893ff123539a227a1e6cc9978b6c9a000367720745d32928d3bb0d0cbcdd6\nheight 1\nhash &\nunits 3\nknown 1\nwaiting 0\nunreadable 0\nroot ~ 0\nkept 2\novertaken 0\ntext \"abc\"\noutbox 0\nwork 1\nshown \"xabc\"\n",
    },
];

/// Requests, refusals and errors.
const CALLS: [Case; 5] = [
    // An edit past the end.
    Case {
        script: "edit 1 0 \"x\"\n",
        heard: "",
        sent: "",
        written: "refused 1 Range\n",
    },
    // No channel is joined.
    Case {
        script: "leave\n",
        heard: "",
        sent: "",
        written: "refused 1 NotJoined\n",
    },
    // Errors are written, also another number's.
    Case {
        script: "join @\nleave\nhear 1\n",
        heard: "[9,\"ERROR\",\"ENOENT\",\"\"]\n[1,\"ERROR\",\"EFULL\",\"\"]\nstrange\n",
        sent: "[1,\"JOIN\",\"@\"]\n",
        written: "error 9 ENOENT\nerror 1 EFULL\nrefused 2 NotJoined\n",
    },
    // Each request has its answer.
    Case {
        script: "# a comment\n\njoin @\njoin @\nhistory aaaaaaaaaaaaaaaaaaaaaaaaaaaaaaaaaaaaaaaaaaaaaaaaaaaaaaaaaaaaaaaa\nhistory all\nleave\nresend\nhear 0\nsettle\n",
        heard: "[0,\"\",\"IDENT\",\"<\"]\n[1,\"JACK\",\"@\"]\n[0,\"%\",\"JOIN\",\"@\"]\n[0,\"<\",\"JOIN\",\"@\"]\n[0,\"%\",\"HISTORY_UNKNOWN\",\"@\",\"aaaaaaaaaaaaaaaaaaaaaaaaaaaaaaaaaaaaaaaaaaaaaaaaaaaaaaaaaaaaaaaa\"]\n[3,\"ERROR\",\"ESTORE\",\"\"]\n[4,\"ACK\"]\n",
        sent: "[1,\"JOIN\",\"@\"]\n[2,\"MSG\",\"%\",\"[\\\"GET_HISTORY\\\",\\\"@\\\",\\\"aaaaaaaaaaaaaaaaaaaaaaaaaaaaaaaaaaaaaaaaaaaaaaaaaaaaaaaaaaaaaaaa\\\"]\"]\n[3,\"MSG\",\"%\",\"[\\\"GET_FULL_HISTORY\\\",\\\"@\\\"]\"]\n[4,\"LEAVE\",\"@\"]\n",
        written: "refused 4 Joined\nerror 3 ESTORE\nrefused 8 NotJoined\n",
    },
    // No keeper was heard.
    Case {
        script: "join @\nhistory\nrepair\n",
        heard: "[0,\"\",\"IDENT\",\"<\"]\n[1,\"JACK\",\"@\"]\n[0,\"<\",\"JOIN\",\"@\"]\n",
        sent: "[1,\"JOIN\",\"@\"]\n",
        written: "refused 2 NoKeeper\nrefused 3 NoKeeper\n",
    },
];

/// The link ends too early.
const ENDED: [Case; 2] = [
    // The acknowledgement does not come.
    Case {
        script: "join @\nedit 0 0 \"hi\"\nsync\nsettle\nshow\n",
        heard: "[0,\"\",\"IDENT\",\"<\"]\n[1,\"JACK\",\"@\"]\n[0,\"%\",\"JOIN\",\"@\"]\n[0,\"<\",\"JOIN\",\"@\"]\n",
        sent: "[1,\"JOIN\",\"@\"]\n[2,\"MSG\",\"@\",\"[2,[[0,0,\\\"hi\\\"],\\\"^\\\"],\\\"~\\\"]\"]\n",
        written: "",
    },
    // The history does not end.
    Case {
        script: "join @\nhistory\nshow\n",
        heard: "[0,\"\",\"IDENT\",\"<\"]\n[1,\"JACK\",\"@\"]\n[0,\"%\",\"JOIN\",\"@\"]\n[0,\"<\",\"JOIN\",\"@\"]\n[2,\"ACK\"]\n",
        sent: "[1,\"JOIN\",\"@\"]\n[2,\"MSG\",\"%\",\"[\\\"GET_HISTORY\\\",\\\"@\\\"]\"]\n",
        written: "",
    },
];

/// A text with `@` for the channel's digits, `%` for the keeper's, `<` for the client's and `>` for those of another one, `~` for the
/// first name, and `^` and `&` for the hashes of no text and of `abc`.
fn spelled(alloc: Global, text: &str) -> Result<String, Fail> {
    let mut whole = String::new(alloc);
    for sign in text.chars() {
        match sign {
            '@' => whole.push_str("00112233445566778899aabbccddeeff")?,
            '%' => whole.push_str("ade0b876903df1a0")?,
            '<' => whole.push_str("0000000000000001e56a5d4028bd8653")?,
            '>' => whole.push_str("0000000000000002b819d2bd1aed8da0")?,
            '~' => whole.push_str(
                "0000000000000000000000000000000000000000000000000000000000000000",
            )?,
            '^' => whole.push_str(
                "e3b0c44298fc1c149afbf4c8996fb92427ae41e4649b934ca495991b7852b855",
            )?,
            '&' => whole.push_str(
                "ba7816bf8f01cfea414140de5dae2223b00361a396177a9cb410ff61f20015ad",
            )?,
            other => whole.push(other)?,
        }
    }
    Ok(whole)
}

/// How a script ends, what was sent, and what was written.
#[derive(Drop)]
struct Told {
    ended: Result<(), ConversationRefused>,
    sent: String,
    written: String,
}

/// The texts of these lines.
fn wires_of(alloc: Global, lines: &str) -> Result<Vec<Wire>, Fail> {
    let mut wires = Vec::new(alloc);
    for line in lines.lines() {
        wires.push(Wire::new(spelled(alloc, line)?))?;
    }
    Ok(wires)
}

/// Runs a script with a new client.
fn conversed<L: Ledger>(
    alloc: Global,
    blank: Blank,
    script: &[u8],
    link: &mut MemLink,
    output: &mut MemSink,
) -> Result<(), ConversationRefused>
    requires name { blank.name ≡ L.name }
    requires parts { blank.parts ≡ L.parts }
    requires some { 0 < blank.parts }
    requires short { length script.now ≤ 2 ^ 28 }
{
    let Ok(commands) = read_script(alloc, script) else {
        return Err(ConversationRefused::Write);
    };
    let Ok(mut client) = ScriptedClient::<VecUnits, L>::new(alloc, blank) else {
        return Err(ConversationRefused::NoMemory);
    };
    converse(alloc, commands.as_slice(), &mut client, link, output)
}

/// Runs a script over a link that gives the texts of these lines, and whose calls of these numbers fail.
fn carried_out(alloc: Global, script: &str, heard: &str, failing: &[u64]) -> Result<Told, Fail> {
    let script = spelled(alloc, script)?;
    let mut link = MemLink::new(wires_of(alloc, heard)?, failing.to_vec(alloc)?);
    let mut output = MemSink::new(vec![in alloc; b'.'; 4096]?, 100, Vec::new(alloc));
    let ended = if script.len() < 100_000 {
        conversed::<Brand>(
            alloc,
            Blank::new(1),
            script.as_bytes(),
            &mut link,
            &mut output,
        )
    } else {
        Err(ConversationRefused::Write)
    };
    let mut sent = String::new(alloc);
    for text in link.sent() {
        sent.push_str(text.as_str())?;
        sent.push('\n')?;
    }
    let mut written = String::new(alloc);
    for byte in output.as_slice() {
        written.push(char::from(*byte))?;
    }
    Ok(Told {
        ended,
        sent,
        written,
    })
}

#[test]
fn a_script_tells_the_text_that_it_comes_to(rt: HostRuntime) -> Result<(), Fail> {
    let alloc = rt.alloc();
    for case in &REPORTS {
        let told = carried_out(alloc, case.script, case.heard, &[])?;
        assert_eq!(rt; told.sent.as_str(), spelled(alloc, case.sent)?.as_str());
        assert_eq!(rt;
            told.written.as_str(),
            spelled(alloc, case.written)?.as_str()
        );
        assert_eq!(rt; told.ended, Ok(()));
    }
    Ok(())
}

#[test]
fn each_call_is_done_or_refused(rt: HostRuntime) -> Result<(), Fail> {
    let alloc = rt.alloc();
    for case in &CALLS {
        let told = carried_out(alloc, case.script, case.heard, &[])?;
        assert_eq!(rt; told.sent.as_str(), spelled(alloc, case.sent)?.as_str());
        assert_eq!(rt;
            told.written.as_str(),
            spelled(alloc, case.written)?.as_str()
        );
        assert_eq!(rt; told.ended, Ok(()));
    }
    Ok(())
}

#[test]
fn a_link_that_ends_too_early_ends_the_script(rt: HostRuntime) -> Result<(), Fail> {
    let alloc = rt.alloc();
    for case in &ENDED {
        let told = carried_out(alloc, case.script, case.heard, &[])?;
        assert_eq!(rt; told.sent.as_str(), spelled(alloc, case.sent)?.as_str());
        assert_eq!(rt;
            told.written.as_str(),
            spelled(alloc, case.written)?.as_str()
        );
        assert_eq!(rt; told.ended, Err(ConversationRefused::Ended));
    }
    Ok(())
}

#[test]
fn each_failed_call_of_the_link_is_told(rt: HostRuntime) -> Result<(), Fail> {
    let alloc = rt.alloc();
    let case = REPORTS[0];
    // two sends and five texts
    for failing in 0..8u64 {
        let told = carried_out(alloc, case.script, case.heard, &[failing])?;
        if failing < 7 {
            assert_eq!(rt; told.ended, Err(ConversationRefused::Link));
            assert_eq!(rt; told.written.as_str(), "");
        } else {
            assert_eq!(rt; told.ended, Ok(()));
        }
    }
    Ok(())
}

#[test]
fn an_outbox_holds_64_messages(rt: HostRuntime) -> Result<(), Fail> {
    let alloc = rt.alloc();
    let mut script = String::from_str(alloc, "join @\n")?;
    for _ in 0..64 {
        script.push_str("edit 0 0 \"a\"\nsync\n")?;
    }
    let told = carried_out(alloc, script.as_str(), REPORTS[0].heard, &[])?;
    assert_eq!(rt; told.ended, Ok(()));
    // 63 syncs sent 64 messages, since one of these is a checkpoint
    assert_eq!(rt; told.written.as_str(), "refused 129 OutboxFull\n");
    assert_eq!(rt; told.sent.as_str().lines().count(), 65);
    Ok(())
}
