use super::{
    Ask, AskRefused, Body, Channel, Id, KeeperId, Reply, ReplyRefused, Request, RequestRefused,
    Since, Who, Word, ask_texts_spell, read_ask, read_reply, read_request, reply_texts_spell,
    request_texts_spell, texts_spell_one_ask, texts_spell_one_reply, texts_spell_one_request,
};
use pad_edge::Wire;
use pad_text::Name;
use std::alloc::{AllocError, Global};
use std::process::Abort;
use std::test::Fail;

/// The digits of a channel, `#` below.
const CHANNEL: &str = "00112233445566778899aabbccddeeff";

/// The digits of the keeper's identity, `@` below.
const KEEPER: &str = "ade0b876903df1a0";

/// The digits of a connection's identity, `$` below.
const FIRST: &str = "0000000000000001e56a5d4028bd8653";

/// The digits of another connection's identity, `%` below.
const SECOND: &str = "0000000000000002b819d2bd1aed8da0";

/// The digits of a key, `&` below: the SHA-256 of `abc`.
const KEY: &str = "ba7816bf8f01cfea414140de5dae2223b00361a396177a9cb410ff61f20015ad";

/// Requests as they are written.
const REQUESTS: &str = r##"[1,"JOIN","#"]
[2,"MSG","#","m"]
[4,"MSG","nobody","m"]
[7,"PING"]
[8,"MSG","@","[\"GET_HISTORY\",\"#\"]"]
[8,"MSG","@","[\"GET\"]"]
[9,"MSG","$",""]
[5,"MSG","","\u0001\n\"\\/😀"]
[0,"LEAVE","#"]
[4294967295,"LEAVE","#","bye"]"##;

/// Requests as they are written, each before another text of it.
const SPELLINGS: &str = r##"[2,"LEAVE","#"] <- [ 2 , "LEAVE","#" , "" ] 
[9,"PING"] <- [9,"\u0050ING"]
[1,"JOIN","#"] <- [1,"JOIN","\u00300112233445566778899aabbccddeeff"]
[5,"MSG","😀","/e-"] <- [5,"MSG","\ud83d\ude00","\/\u0065-"]"##;

/// Texts that are no request, each behind its number.
const WRONG_REQUESTS: &str = r##"0 hello
0 null
0 7
0 "PING"
0 {"6":6}
0 []
0 [[6,"PING"]]
0 ["6","PING"]
0 ["PING",6]
0 [null,"PING"]
6 [6]
6 [6,"NOPE"]
6 [6,"ping"]
6 [6,null]
6 [6,["PING"]]
6 [6,{"PING":0}]
6 [6,"PING",0]
6 [6,"PING",""]
6 [6,"JOIN"]
6 [6,"JOIN",7]
6 [6,"JOIN",""]
6 [6,"JOIN","#0"]
6 [6,"JOIN","00112233445566778899aabbccddeef"]
6 [6,"JOIN","00112233445566778899AABBCCDDEEFF"]
6 [6,"JOIN","g0112233445566778899aabbccddeeff"]
6 [6,"JOIN","#",""]
6 [6,"LEAVE"]
6 [6,"LEAVE","@"]
6 [6,"LEAVE","#",7]
6 [6,"LEAVE","#",null]
6 [6,"LEAVE","#","",""]
6 [6,"MSG","#"]
6 [6,"MSG","#","m","m"]
6 [6,"MSG",7,"m"]
6 [6,"MSG","#",["m"]]
6 [6,18446744073709551616]
4294967295 [4294967295]
0 [4294967296,"PING"]
0 [18446744073709551615,"PING"]
0 [18446744073709551616,"PING"]
0 [06,"PING"]
0 [-6,"PING"]
0 [+6,"PING"]
0 [6.0,"PING"]
0 [6e0,"PING"]
0 [6E0,"PING"]
0 [6,"PING",-0]
0 [6,"MSG","#",true]
0 [6,false]
0 [6,"MSG","#","\ud83d"]
0 [6,"MSG","\ude00\ud83d","m"]
0 [6,"PING"
0 [6,"PING]
0 [6,"PING",]
0 [6,"PING"]]
0 [6,"PING"] x
0 [6,'PING']
0 ﻿[6,"PING"]"##;

/// Replies as they are written.
const REPLIES: &str = r##"[0,"","IDENT","$"]
[1,"JACK","#"]
[0,"@","JOIN","#"]
[0,"%","JOIN","#"]
[2,"ACK"]
[4294967295,"ACK"]
[0,"%","MSG","#","m"]
[0,"%","MSG","$","\u0001\n\"\\/😀"]
[3,"ERROR","EJOINED","#"]
[4,"ERROR","ENOENT","nobody"]
[5,"ERROR","ETOOBIG","#"]
[0,"ERROR","EINVAL",""]
[0,"ERROR","EFULL",""]
[6,"ERROR","EDAMAGED","#"]
[2,"ERROR","ESTORE","#"]
[0,"@","HISTORY","#",0,"%","m"]
[0,"@","HISTORY","#",1048576,"%",""]
[0,"@","ENTRY","#",0,0,"%",""]
[0,"@","ENTRY","#",1,6,"%","b"]
[0,"@","ENTRY","#",1048576,18446744073709551615,"%","cp|\"b\""]
[0,"@","HISTORY_END","#",0]
[0,"@","HISTORY_END","#",1048576]
[0,"@","HISTORY_UNKNOWN","#","&"]
[0,"$","LEAVE","#","Quit"]
[0,"$","LEAVE","#",""]"##;

/// Texts that are no reply.
const STRANGE_REPLIES: &str = r##"hello
7
{}
[]
[7]
[7,"PING"]
[7,"ack"]
[7,"ACK",""]
["7","ACK"]
[-7,"ACK"]
[7.0,"ACK"]
[true,"ACK"]
[4294967296,"ACK"]
[7,"ACK"] x
[0,"","IDENT"]
[1,"","IDENT","$"]
[0,"$","IDENT","$"]
[0,"","IDENT","@"]
[0,"","IDENT","0000000000000001E56A5D4028BD8653"]
[0,"","IDENT","$",""]
[1,"JACK"]
[1,"JACK","@"]
[1,"JACK","#",""]
[0,"","JOIN","#"]
[1,"$","JOIN","#"]
[0,"ade0b876903df1a","JOIN","#"]
[0,"ADE0B876903DF1A0","JOIN","#"]
[0,"@","JOIN","@"]
[0,"@","LEAVE","#","Quit"]
[0,"$","LEAVE","#"]
[0,"$","LEAVE","#","Quit",""]
[0,"@","MSG","#","m"]
[0,"$","MSG","#"]
[0,"$","MSG","#",7]
[0,"$","MSG","#","\ud83d"]
[0,"$","MSG","#","m","m"]
[4,"ERROR","ENOENT"]
[4,"ERROR","ENOTHING","nobody"]
[4,"ERROR","enoent","nobody"]
[4,"ERROR","EINVAL",null]
[4,"ERROR","EINVAL","",""]
[1,"@","HISTORY","#",0,"$","m"]
[0,"$","HISTORY","#",0,"$","m"]
[0,"@","HISTORY","#",1048577,"$","m"]
[0,"@","HISTORY","#",-0,"$","m"]
[0,"@","HISTORY","#","0","$","m"]
[0,"@","HISTORY","#",0,"@","m"]
[0,"@","HISTORY","#",0,"$"]
[0,"@","HISTORY","#",0,"$","m","m"]
[1,"@","ENTRY","#",0,5,"$","m"]
[0,"$","ENTRY","#",0,5,"$","m"]
[0,"@","ENTRY","@",0,5,"$","m"]
[0,"@","ENTRY","#",1048577,5,"$","m"]
[0,"@","ENTRY","#",0,18446744073709551616,"$","m"]
[0,"@","ENTRY","#",0,-5,"$","m"]
[0,"@","ENTRY","#",0,5.0,"$","m"]
[0,"@","ENTRY","#",0,"5","$","m"]
[0,"@","ENTRY","#",0,5,"@","m"]
[0,"@","ENTRY","#",0,5,"$",7]
[0,"@","ENTRY","#",0,"$","m"]
[0,"@","ENTRY","#",0,5,"$"]
[0,"@","ENTRY","#",0,5,"$","m","m"]
[0,"@","HISTORY","#",0,5,"$","m"]
[0,"@","HISTORY_END","#",1048577]
[0,"@","HISTORY_END","#",4294967296]
[0,"$","HISTORY_END","#",1]
[0,"@","HISTORY_END","#"]
[0,"@","HISTORY_END","#",1,1]
[0,"@","HISTORY_UNKNOWN","#"]
[0,"@","HISTORY_UNKNOWN","#","#"]
[0,"@","HISTORY_UNKNOWN","#","BA7816BF8F01CFEA414140DE5DAE2223B00361A396177A9CB410FF61F20015AD"]
[0,"@","HISTORY_UNKNOWN","#","&","&"]"##;

/// Questions as they are written.
const ASKS: &str = r##"["GET_HISTORY","#"]
["GET_HISTORY","#","&"]
["GET_FULL_HISTORY","#"]
["GET_HISTORY_AT","#",0]
["GET_HISTORY_AT","#",1]
["GET_HISTORY_AT","#",1048576]"##;

/// Contents that are no question.
const WRONG_ASKS: &str = r##"hello
{}
[]
["GET"]
["GET_HISTORY"]
["get_history","#"]
["GET_HISTORY","@"]
["GET_HISTORY","00112233445566778899AABBCCDDEEFF"]
["GET_HISTORY","#",""]
["GET_HISTORY","#","#"]
["GET_HISTORY","#",null]
["GET_HISTORY","#",0]
["GET_HISTORY","#","&","&"]
["GET_FULL_HISTORY"]
["GET_FULL_HISTORY","#","&"]
["GET_HISTORY_AT"]
["GET_HISTORY_AT","#"]
["GET_HISTORY_AT","@",0]
["GET_HISTORY_AT","#",1048577]
["GET_HISTORY_AT","#",4294967296]
["GET_HISTORY_AT","#",-1]
["GET_HISTORY_AT","#",1.0]
["GET_HISTORY_AT","#","1"]
["GET_HISTORY_AT","#",null]
["GET_HISTORY_AT","#","&"]
["GET_HISTORY_AT","#",1,1]
["GET_HISTORY","#",1]
["GET_FULL_HISTORY","#",1]
[0,"GET_HISTORY","#"]
["GET_HISTORY","#"] x
["GET_HISTORY","#",true]"##;

/// Texts that are no identity and no channel.
const OTHER_DIGITS: &str = r##"0
ade0b876903df1a
ade0b876903df1a00
ADE0B876903DF1A0
ade0b876903df1ag
00112233445566778899aabbccddeef
00112233445566778899aabbccddeeff0
00112233445566778899AABBCCDDEEFF
00112233445566778899aabbccddeef/
00112233445566778899aabbccddeéf"##;

/// A text, from one in that writing.
fn text_from(alloc: Global, short: &str) -> Result<String, AllocError> {
    let mut text = String::new(alloc);
    for c in short.chars() {
        match c {
            '#' => text.push_str(CHANNEL)?,
            '@' => text.push_str(KEEPER)?,
            '$' => text.push_str(FIRST)?,
            '%' => text.push_str(SECOND)?,
            '&' => text.push_str(KEY)?,
            _ => text.push(c)?,
        }
    }
    Ok(text)
}

/// So many copies of a text between two others.
fn copies(
    alloc: Global,
    front: &str,
    text: &str,
    count: usize,
    back: &str,
) -> Result<String, AllocError> {
    let mut all = String::from_str(alloc, front)?;
    for _ in 0..count {
        all.push_str(text)?;
    }
    all.push_str(back)?;
    Ok(all)
}

/// The request that a text spells, as it is written; or else the number of the text.
fn request_again(alloc: Global, text: &str) -> Result<String, AllocError> {
    match read_request(alloc, text) {
        Ok(request) => String::from_str(alloc, request.text(alloc)?.as_str()),
        Err(RequestRefused::Invalid(seq)) => format!(in alloc; "{seq}"),
        Err(RequestRefused::NoMemory(refused)) => Err(refused),
    }
}

/// The reply that a text spells, as it is written; or else no text.
fn reply_again(alloc: Global, text: &str) -> Result<String, AllocError> {
    match read_reply(alloc, text) {
        Ok(reply) => String::from_str(alloc, reply.text(alloc)?.as_str()),
        Err(ReplyRefused::Strange) => Ok(String::new(alloc)),
        Err(ReplyRefused::NoMemory(refused)) => Err(refused),
    }
}

/// The question that a content spells, as it is written; or else no text.
fn ask_again(alloc: Global, content: &str) -> Result<String, AllocError> {
    match read_ask(alloc, content) {
        Ok(ask) => String::from_str(alloc, ask.text(alloc)?.as_str()),
        Err(AskRefused::Invalid) => Ok(String::new(alloc)),
        Err(AskRefused::NoMemory(refused)) => Err(refused),
    }
}

/// The channel `#`.
fn channel(rt: &impl Abort) -> Channel {
    Channel::from_hex(CHANNEL).expect(rt, "32 digits")
}

/// The connection `$`.
fn id(rt: &impl Abort) -> Id {
    Id::from_hex(FIRST).expect(rt, "32 digits")
}

/// The keeper `@`.
fn keeper(rt: &impl Abort) -> KeeperId {
    KeeperId::from_hex(KEEPER).expect(rt, "16 digits")
}

#[test]
fn requests_are_read_and_written(rt: HostRuntime) -> Result<(), Fail> {
    let alloc = rt.alloc();
    for line in REQUESTS.lines() {
        let text = text_from(alloc, line)?;
        let again = request_again(alloc, text.as_str())?;
        assert_eq!(rt; again.as_str(), text.as_str(), "at {line}");
    }
    for line in SPELLINGS.lines() {
        let (short, spelled) = line.split_once(" <- ").expect(&rt, "two texts");
        let want = text_from(alloc, short)?;
        let text = text_from(alloc, spelled)?;
        let again = request_again(alloc, text.as_str())?;
        assert_eq!(rt; again.as_str(), want.as_str(), "at {line}");
    }
    Ok(())
}

#[test]
fn texts_that_are_no_request_have_a_number(rt: HostRuntime) -> Result<(), Fail> {
    let alloc = rt.alloc();
    for line in WRONG_REQUESTS.lines() {
        let (want, short) = line.split_once(' ').expect(&rt, "a number and a text");
        let text = text_from(alloc, short)?;
        let again = request_again(alloc, text.as_str())?;
        assert_eq!(rt; again.as_str(), want, "at {line}");
    }
    assert_eq!(rt; request_again(alloc, "")?.as_str(), "0");
    Ok(())
}

#[test]
fn large_texts_are_answered(rt: HostRuntime) -> Result<(), Fail> {
    let alloc = rt.alloc();
    for (front, text, count, back, want) in [
        ("", "x", 1_000_000, "", "0"),
        ("", "[", 1_000_000, "", "0"),
        ("[6,\"", "\\\"", 1_000_000, "", "0"),
        ("[6", ",0", 1_000_000, "]", "6"),
        ("[6", ",[]", 1_000_000, "", "0"),
        ("[6,", "9", 308, "]", "6"),
        ("[6,", "9", 309, "]", "0"),
    ] {
        let long = copies(alloc, front, text, count, back)?;
        assert_eq!(rt;
            request_again(alloc, long.as_str())?.as_str(),
            want,
            "at {front} and {count} times {text}"
        );
        assert_eq!(rt; reply_again(alloc, long.as_str())?.as_str(), "");
        assert_eq!(rt; ask_again(alloc, long.as_str())?.as_str(), "");
    }
    let long = copies(alloc, "[5,\"MSG\",\"c\",\"", "a", 2_097_153, "\"]")?;
    assert_eq!(rt;
        request_again(alloc, long.as_str())?.as_str(),
        long.as_str()
    );
    Ok(())
}

#[test]
fn nesting_ends_at_a_limit(rt: HostRuntime) -> Result<(), Fail> {
    let alloc = rt.alloc();
    for (inner, want) in [(126, "6"), (127, "0"), (100_000, "0")] {
        let front = copies(alloc, "[6,", "[", inner, "")?;
        let text = copies(alloc, front.as_str(), "]", inner, "]")?;
        assert_eq!(rt;
            request_again(alloc, text.as_str())?.as_str(),
            want,
            "at {inner} levels within the first"
        );
    }
    Ok(())
}

#[test]
fn replies_are_read_and_written(rt: HostRuntime) -> Result<(), Fail> {
    let alloc = rt.alloc();
    for line in REPLIES.lines() {
        let text = text_from(alloc, line)?;
        let again = reply_again(alloc, text.as_str())?;
        assert_eq!(rt; again.as_str(), text.as_str(), "at {line}");
    }
    let again = reply_again(alloc, " [ 7 , \"\\u0041CK\" ] ")?;
    assert_eq!(rt; again.as_str(), "[7,\"ACK\"]");
    Ok(())
}

#[test]
fn other_texts_are_no_reply(rt: HostRuntime) -> Result<(), Fail> {
    let alloc = rt.alloc();
    for line in STRANGE_REPLIES.lines() {
        let text = text_from(alloc, line)?;
        let again = reply_again(alloc, text.as_str())?;
        assert_eq!(rt; again.as_str(), "", "at {line}");
    }
    Ok(())
}

#[test]
fn questions_are_read_and_written(rt: HostRuntime) -> Result<(), Fail> {
    let alloc = rt.alloc();
    for line in ASKS.lines() {
        let content = text_from(alloc, line)?;
        let again = ask_again(alloc, content.as_str())?;
        assert_eq!(rt; again.as_str(), content.as_str(), "at {line}");
    }
    for line in WRONG_ASKS.lines() {
        let content = text_from(alloc, line)?;
        let again = ask_again(alloc, content.as_str())?;
        assert_eq!(rt; again.as_str(), "", "at {line}");
    }
    Ok(())
}

#[test]
fn identities_are_so_many_digits(rt: HostRuntime) {
    assert_eq!(rt; channel(&rt).digits(), CHANNEL.as_bytes());
    assert_eq!(rt; id(&rt).digits(), FIRST.as_bytes());
    assert_eq!(rt; keeper(&rt).digits(), KEEPER.as_bytes());
    assert_eq!(rt; Who::Member(id(&rt)).as_str(), FIRST);
    assert_eq!(rt; Who::Keeper(keeper(&rt)).as_str(), KEEPER);
}

#[test]
fn other_texts_are_no_identity(rt: HostRuntime) {
    assert!(rt; Channel::from_hex("").is_none());
    assert!(rt; Id::from_hex("").is_none());
    assert!(rt; KeeperId::from_hex("").is_none());
    for text in OTHER_DIGITS.lines() {
        assert!(rt; Channel::from_hex(text).is_none(), "at {text}");
        assert!(rt; Id::from_hex(text).is_none(), "at {text}");
        assert!(rt; KeeperId::from_hex(text).is_none(), "at {text}");
    }
}

#[test]
fn requests_say_what_they_have(rt: HostRuntime) -> Result<(), Fail> {
    let alloc = rt.alloc();
    let reason = Wire::new(String::from_str(alloc, "bye")?);
    let leave = Request {
        seq: 3,
        body: Body::Leave(channel(&rt), reason),
    };
    let want = text_from(alloc, "[3,\"LEAVE\",\"#\",\"bye\"]")?;
    assert_eq!(rt; leave.text(alloc)?.as_str(), want.as_str());
    let target = Wire::new(String::from_str(alloc, "you")?);
    let content = Wire::new(String::from_str(alloc, "m")?);
    let msg = Request {
        seq: 2,
        body: Body::Msg(target, content),
    };
    assert_eq!(rt; msg.text(alloc)?.as_str(), "[2,\"MSG\",\"you\",\"m\"]");
    Ok(())
}

#[test]
fn replies_say_what_they_have(rt: HostRuntime) -> Result<(), Fail> {
    let alloc = rt.alloc();
    let member = Reply::Member(Who::Keeper(keeper(&rt)), channel(&rt));
    let want = text_from(alloc, "[0,\"@\",\"JOIN\",\"#\"]")?;
    assert_eq!(rt; member.text(alloc)?.as_str(), want.as_str());
    let about = Wire::new(String::from_str(alloc, "nobody")?);
    let error = Reply::Error(4, Word::Enoent, about);
    assert_eq!(rt;
        error.text(alloc)?.as_str(),
        "[4,\"ERROR\",\"ENOENT\",\"nobody\"]"
    );
    Ok(())
}

#[test]
fn histories_say_what_they_have(rt: HostRuntime) -> Result<(), Fail> {
    let alloc = rt.alloc();
    let content = Wire::new(String::from_str(alloc, "m")?);
    let entry = Reply::History(keeper(&rt), channel(&rt), 7, id(&rt), content);
    let want = text_from(alloc, "[0,\"@\",\"HISTORY\",\"#\",7,\"$\",\"m\"]")?;
    assert_eq!(rt; entry.text(alloc)?.as_str(), want.as_str());
    let key = Name::from_hex(KEY).expect(&rt, "64 digits");
    let unknown = Reply::HistoryUnknown(keeper(&rt), channel(&rt), key);
    let want = text_from(alloc, "[0,\"@\",\"HISTORY_UNKNOWN\",\"#\",\"&\"]")?;
    assert_eq!(rt; unknown.text(alloc)?.as_str(), want.as_str());
    Ok(())
}

#[test]
fn questions_say_what_they_have(rt: HostRuntime) -> Result<(), Fail> {
    let alloc = rt.alloc();
    let ask = Ask::History(channel(&rt), Since::All);
    let want = text_from(alloc, "[\"GET_FULL_HISTORY\",\"#\"]")?;
    assert_eq!(rt; ask.text(alloc)?.as_str(), want.as_str());
    Ok(())
}

#[test]
fn laws_are_called() {
    texts_spell_one_request();
    request_texts_spell();
    texts_spell_one_reply();
    reply_texts_spell();
    texts_spell_one_ask();
    ask_texts_spell();
}
