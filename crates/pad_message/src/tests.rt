ghost use Rattle.std.specs.Prelude.{◌≤◌, length, IfOk, IfSome};
ghost use Rattle.pad_message.specs.Content.{most_operations};
ghost use Rattle.pad_message.specs.Kind.{HasInterval};

use super::{
    Kind, LONGEST_CONTENT, MOST_OPERATIONS, Message, ReadRefused, compact_texts_read_back,
    contents_spell_one_message, is_interval, marked_texts_read_back,
};
use std::alloc::{AllocError, Global};
use std::test::Fail;

/// The document hash of the empty text.
const EMPTY: &str = "e3b0c44298fc1c149afbf4c8996fb92427ae41e4649b934ca495991b7852b855";

/// The document hash of `abc`.
const ABC: &str = "ba7816bf8f01cfea414140de5dae2223b00361a396177a9cb410ff61f20015ad";

/// The name of the base.
const BASE: &str = "0000000000000000000000000000000000000000000000000000000000000000";

/// The name of the message that inserts `abc` into the empty text of the base.
const FIRST: &str = "f77893ff123539a227a1e6cc9978b6c9a000367720745d32928d3bb0d0cbcdd6";

/// Contents, each behind the name of the message that it spells. The digits of `EMPTY`, `ABC`, `BASE` and `FIRST` are written `E`, `A`, `Z` and `N`.
const SPELLINGS: &str = r#"N [2,[[0,0,"abc"],"E"],"Z"]
N [ 2, [[0,0,"\u0061bc"],"E"], "Z" ]
N cp|[2,[[0,0,"abc"],"E"],"Z"]
N cp|  [2 , [[0,0 ,"a\u0062c"] ,"E"],"Z"]  
b7c46af67f1fe4e3fd6bab6b46afdc9c5abd9b3017421086438f5dd52a400839 [2,[[3,0,"!"],"A"],"N"]
f0c396fdb4cbed9accf126ee6f802d059580d28fe0ce5eb74a1b1e01dbbf08e8 [4,[[0,3,"abc"],"A"],"N"]
f0c396fdb4cbed9accf126ee6f802d059580d28fe0ce5eb74a1b1e01dbbf08e8 cp|[4,[[0,3,"abc"],"A"],"N"]
f0c396fdb4cbed9accf126ee6f802d059580d28fe0ce5eb74a1b1e01dbbf08e8 [4,[[0,3,"abc"],"A"],"N",50]
5fbe73a1df7d9c92d619e1f667619fdf2b0a6f920080e194fa9cc3632f4c3e94 cp|[4,[[0,3,"abc"],"A"],"N", 49 ]
8e49ea98e2d4628c6b5c533d14acdbf92c7413b8cd2274b37ff090ec42869dc8 [4,[[0,0,""],"E"],"Z"]
8e49ea98e2d4628c6b5c533d14acdbf92c7413b8cd2274b37ff090ec42869dc8 [4,[[0,0,""],"E"],"Z",50]
27b6c8681718d58b5d707c3eb87ca9277ad3b3a78e73feeba87b30ed078049f3 [4,[[0,0,""],"E"],"Z",10]
eb06034c48067e25c03066154e4f0becfb0b7619b17ffd585699ba0dfa7fba17 [4,[[0,0,""],"E"],"Z",1000]
a4b411975be1d48a91f0ebfcd967add000f69564b2dc5ee644b87bf2bbfd786f [2,["E"],"Z"]
71224f9ead3e50fcc146258a499f0cdd5504daad18d450533cb2aaf003ba1238 [2,[[4294967295,4294967295,""],"E"],"Z"]
b6a577eea829fc675d39e84cffed83ebfd7209013bcbab098bec562424dde734 [2,[[0,0,"\"\\\/\b\f\n\r\t\u0000\u001F\u007f\u00e9\u2028\ud83d\ude00"],"E"],"Z"]"#;

/// Contents that spell no message, in the same writing.
const OTHERS: &str = r#"
cp|
hello
[3,[],""]
[3,[[0,0,"abc"],"E"],"Z"]
[0,[[0,0,"abc"],"E"],"Z"]
[4294967298,[[0,0,"abc"],"E"],"Z"]
["2",[[0,0,"abc"],"E"],"Z"]
[true,[[0,0,"abc"],"E"],"Z"]
[2,[[-0,0,"abc"],"E"],"Z"]
[2,[[0.0,0,"abc"],"E"],"Z"]
[2,[[0e0,0,"abc"],"E"],"Z"]
[2,[[0,-1,"abc"],"E"],"Z"]
[2.0,[[0,0,"abc"],"E"],"Z"]
[2,[[01,0,"abc"],"E"],"Z"]
[2,[[4294967296,0,"abc"],"E"],"Z"]
[2,[[0,4294967296,"abc"],"E"],"Z"]
[2,[[18446744073709551616,0,"abc"],"E"],"Z"]
[2,[[0,0,"abc"],"E"],"Z",0]
[2,[[0,0,"abc"],"E"],"Z",50]
[4,[[0,0,""],"E"],"Z",9]
[4,[[0,0,""],"E"],"Z",1001]
[4,[[0,0,""],"E"],"Z",0]
[4,[[0,0,""],"E"],"Z",65546]
[4,[[0,0,""],"E"],"Z",4294967306]
[4,[[0,0,""],"E"],"Z",10.0]
[4,[[0,0,""],"E"],"Z",-10]
[4,[[0,0,""],"E"],"Z",010]
[4,[[0,0,""],"E"],"Z","50"]
[4,[[0,0,""],"E"],"Z",null]
[4,[[0,0,""],"E"],"Z",[50]]
[4,[[0,0,""],"E"],"Z",50,50]
[4,[[0,0,""],"E"],"Z",50,"Z"]
[2,[[0,0,"abc"],"E"],"Z","Z"]
[2,[[0,0,"abc"],"E"]]
[2,[[0,0,"abc",0],"E"],"Z"]
[2,[[0,0],"E"],"Z"]
[2,[[0,0,"abc"]],"Z"]
[2,[],"Z"]
[2,"E","Z"]
[2,[[0,0,null],"E"],"Z"]
[2,[[0,0,"abc"],"E"],null]
[2,["E",[0,0,"abc"]],"Z"]
{"kind":2}
[2,[[0,0,"abc"],"e3B0C44298FC1C149AFBF4C8996FB92427AE41E4649B934CA495991B7852B855"],"Z"]
[2,[[0,0,"abc"],"E"],"Z0"]
[2,[[0,0,"abc"],"E"],"0"]
[2,[[0,0,"abc"],""],"Z"]
[2,[[0,0,"\ud83d"],"E"],"Z"]
[2,[[0,0,"\ude00\ud83d"],"E"],"Z"]
cp|cp|[2,[[0,0,"abc"],"E"],"Z"]
 cp|[2,[[0,0,"abc"],"E"],"Z"]
CP|[2,[[0,0,"abc"],"E"],"Z"]
﻿[2,[[0,0,"abc"],"E"],"Z"]
[2,[[0,0,"abc"],"E"],"Z"],
[2,[[0,0,"abc"],"E"],"Z"
[2,[[0,0,"abc],"E"],"Z"]"#;

/// A content, from one in that writing.
fn content_from(alloc: Global, short: &str) -> Result<String, AllocError> {
    let mut content = String::new(alloc);
    for c in short.chars() {
        match c {
            'E' => content.push_str(EMPTY)?,
            'A' => content.push_str(ABC)?,
            'Z' => content.push_str(BASE)?,
            'N' => content.push_str(FIRST)?,
            _ => content.push(c)?,
        }
    }
    Ok(content)
}

/// So many copies of a text between two others in that writing.
fn copies(
    alloc: Global,
    front: &str,
    text: &str,
    count: usize,
    back: &str,
) -> Result<String, AllocError> {
    let mut all = content_from(alloc, front)?;
    for _ in 0..count {
        all.push_str(text)?;
    }
    all.push_str(content_from(alloc, back)?.as_str())?;
    Ok(all)
}

/// The message that a content spells.
fn message_of(alloc: Global, content: &str) -> Result<Option<Message>, AllocError>
    ensures few { IfOk result
        (λ found. IfSome found (λ message. length message.patch.ops ≤ most_operations)) }
    ensures interval { IfOk result (λ found. IfSome found (λ message. HasInterval message.kind)) }
{
    match Message::read(alloc, content) {
        Ok(message) => Ok(Some(message)),
        Err(ReadRefused::Unreadable) => Ok(None),
        Err(ReadRefused::NoMemory(refused)) => Err(refused),
    }
}

/// Whether a content spells a message with this name, or none where the name is empty.
fn has_name(alloc: Global, content: &str, name: &str) -> Result<bool, AllocError> {
    match message_of(alloc, content)? {
        Some(message) => Ok(message.name(alloc)?.hex(alloc)?.as_str() == name),
        None => Ok(name.is_empty()),
    }
}

#[test]
fn a_message_has_one_name_however_it_is_spelled(rt: HostRuntime) -> Result<(), Fail> {
    let alloc = rt.alloc();
    for line in SPELLINGS.lines() {
        let (name, short) = line.split_once(' ').expect(&rt, "a name and a content");
        let name = content_from(alloc, name)?;
        let content = content_from(alloc, short)?;
        assert!(rt;
            has_name(alloc, content.as_str(), name.as_str())?,
            "at {short}"
        );
    }
    Ok(())
}

#[test]
fn other_contents_spell_no_message(rt: HostRuntime) -> Result<(), Fail> {
    let alloc = rt.alloc();
    for line in OTHERS.lines() {
        let content = content_from(alloc, line)?;
        assert!(rt; has_name(alloc, content.as_str(), "")?, "at {line}");
    }
    Ok(())
}

#[test]
fn a_message_is_what_its_content_says(rt: HostRuntime) -> Result<(), Fail> {
    let alloc = rt.alloc();
    let spelled = "[4,[[1,2,\"\\u0000\\u001F\\/\"],[7,0,\"\\ud83d\\ude00\"],\"A\"],\"N\"]";
    let compact = "[4,[[1,2,\"\\u0000\\u001f/\"],[7,0,\"\u{1f600}\"],\"A\"],\"N\"]";
    let content = content_from(alloc, spelled)?;
    let message = message_of(alloc, content.as_str())?.expect(&rt, "a message");
    assert_eq!(rt; message.kind, Kind::Checkpoint(50));
    assert_eq!(rt; message.parent.hex(alloc)?.as_str(), FIRST);
    assert_eq!(rt; message.patch.before.hex(alloc)?.as_str(), ABC);
    let operations = message.patch.ops.as_slice();
    assert_eq!(rt; operations.len(), 2);
    for (operation, (offset, remove, insert)) in operations
        .iter()
        .zip([(1, 2, "\0\u{1f}/"), (7, 0, "\u{1f600}")])
    {
        assert_eq!(rt; (operation.offset, operation.remove), (offset, remove));
        assert_eq!(rt; operation.insert.to_string(alloc)?.as_str(), insert);
    }
    assert_eq!(rt;
        message.text(alloc)?.as_str(),
        content_from(alloc, compact)?.as_str()
    );
    Ok(())
}

#[test]
fn contents_are_read_up_to_their_limits(rt: HostRuntime) -> Result<(), Fail> {
    let alloc = rt.alloc();
    let operation = "[0,0,\"\"],";
    let many = "336772146f569f966a5b4542e2d455b681359e7980a41d51d7016989ae0e6b8f";
    let long = "dbb296a1ae1a006c6a75518778031ea1ee4c46c5b6a5899d5e33d9b68b16905e";
    let marked = "81d2a51aa9ee6826d3626d2f3b6800898ab786b4a0daa9cd3e87519f41d55e36";
    for (front, text, count, back, length, name) in [
        (
            "[2,[",
            operation,
            MOST_OPERATIONS,
            "\"E\"],\"Z\"]",
            37_003,
            many,
        ),
        (
            "[2,[",
            operation,
            MOST_OPERATIONS + 1,
            "\"E\"],\"Z\"]",
            37_012,
            "",
        ),
        (
            "[2,[[0,0,\"",
            "a",
            2_097_004,
            "\"],\"E\"],\"Z\"]",
            LONGEST_CONTENT,
            long,
        ),
        (
            "[2,[[0,0,\"",
            "a",
            2_097_005,
            "\"],\"E\"],\"Z\"]",
            LONGEST_CONTENT + 1,
            "",
        ),
        (
            "cp|[2,[[0,0,\"",
            "a",
            2_097_001,
            "\"],\"E\"],\"Z\"]",
            LONGEST_CONTENT,
            marked,
        ),
        (
            "cp|[2,[[0,0,\"",
            "a",
            2_097_002,
            "\"],\"E\"],\"Z\"]",
            LONGEST_CONTENT + 1,
            "",
        ),
        (
            "cp|",
            " ",
            2_096_998,
            "[2,[[0,0,\"abc\"],\"E\"],\"Z\"]",
            LONGEST_CONTENT,
            FIRST,
        ),
        (
            "cp|",
            " ",
            2_096_999,
            "[2,[[0,0,\"abc\"],\"E\"],\"Z\"]",
            LONGEST_CONTENT + 1,
            "",
        ),
    ] {
        let content = copies(alloc, front, text, count, back)?;
        assert_eq!(rt; content.len(), length);
        assert!(rt;
            has_name(alloc, content.as_str(), name)?,
            "at {front} and {count} times {text}"
        );
    }
    Ok(())
}

/// Messages that can become a base, and others, in the same writing.
const ADOPTED: &str = r#"yes [4,[[0,0,""],"E"],"Z"]
yes [4,[[0,3,"abc"],"A"],"N",10]
no [2,[[0,3,"abc"],"A"],"N"]
no [4,[[0,3,"abc"],"E"],"N"]
no [4,[[0,3,"abd"],"A"],"N"]
no [4,[[0,2,"abc"],"A"],"N"]
no [4,[[1,3,"abc"],"A"],"N"]
no [4,[[0,0,"abc"],"A"],"N"]
no [4,["E"],"Z"]
no [4,[[0,0,""],[0,0,""],"E"],"Z"]
no [4,[[0,2,"ab"],[2,1,"c"],"A"],"N"]"#;

#[test]
fn whole_checkpoints_become_bases(rt: HostRuntime) -> Result<(), Fail> {
    let alloc = rt.alloc();
    for line in ADOPTED.lines() {
        let (can, short) = line.split_once(' ').expect(&rt, "a word and a content");
        let content = content_from(alloc, short)?;
        let message = message_of(alloc, content.as_str())?.expect(&rt, "a message");
        assert_eq!(rt; message.can_adopt(alloc)?, can == "yes", "at {short}");
    }
    Ok(())
}

#[test]
fn bases_are_no_longer_than_texts(rt: HostRuntime) -> Result<(), Fail> {
    let alloc = rt.alloc();
    // the document hashes of so many letters `a`
    let longest = "dd3dde87623d9a6b354c68c943d189c89c63652d945e7bbdf0986cae91a49521";
    let longer = "c592f4a6b099700b5050ce8bc67367f0c8f44810203124e86405c3e7b6f1a2ba";
    for (length, hash, want) in [(262_144, longest, true), (262_145, longer, false)] {
        let front = format!(in alloc; "[4,[[0,{length},\"")?;
        let back = format!(in alloc; "\"],\"{hash}\"],\"Z\"]")?;
        let content = copies(alloc, front.as_str(), "a", length, back.as_str())?;
        let message = message_of(alloc, content.as_str())?.expect(&rt, "a message");
        assert_eq!(rt; message.can_adopt(alloc)?, want, "at {length}");
    }
    Ok(())
}

#[test]
fn kinds_tell_what_they_are(rt: HostRuntime) {
    assert!(rt; !Kind::Patch.is_checkpoint());
    assert!(rt; Kind::Checkpoint(50).is_checkpoint());
    for (messages, want) in [
        (0, false),
        (9, false),
        (10, true),
        (50, true),
        (1000, true),
        (1001, false),
        (65_535, false),
    ] {
        assert_eq!(rt; is_interval(messages), want, "at {messages}");
    }
}

#[test]
fn no_message_nests_deep(rt: HostRuntime) -> Result<(), Fail> {
    let alloc = rt.alloc();
    for depth in [1, 123, 124, 125, 127, 128, 100_000] {
        let mut content = copies(alloc, "[2,[[0,0,", "[", depth, "")?;
        content.push_str(copies(alloc, "", "]", depth, "],\"E\"],\"Z\"]")?.as_str())?;
        assert!(rt; has_name(alloc, content.as_str(), "")?, "at {depth}");
    }
    Ok(())
}

#[test]
fn laws_are_called() {
    compact_texts_read_back();
    marked_texts_read_back();
    contents_spell_one_message();
}
