//! Payloads, keys and starts of histories, by values from outside.
use super::{Index, build_payload, content_of, is_checkpoint, key_of, moment_of, sender_of};
use pad_text::{Name, is_lower_hex};
use std::test::Fail;

const SENDER: &str = "0000000000000001e56a5d4028bd8653";

#[test]
fn a_payload_is_a_moment_a_sender_and_a_content(rt: HostRuntime) -> Result<(), Fail> {
    let alloc = rt.alloc();
    assert!(rt; is_lower_hex(SENDER, 32));
    let payload = build_payload(alloc, 0x0102, SENDER.as_bytes(), "m")?;
    let bytes = payload.as_slice();
    assert_eq!(rt;
        bytes,
        b"\x00\x00\x00\x00\x00\x00\x01\x020000000000000001e56a5d4028bd8653m".as_slice()
    );
    assert_eq!(rt; content_of(bytes), Some("m"));
    assert!(rt; bytes.len() >= 40);
    assert_eq!(rt; moment_of(bytes), 258);
    assert_eq!(rt; sender_of(bytes), Some(SENDER));
    Ok(())
}

#[test]
fn other_bytes_hold_no_entry(rt: HostRuntime) -> Result<(), Fail> {
    for (payload, want) in [
        (b"".as_slice(), None),
        (b"\0\0\0\0\0\0\0\00000000000000001e56a5d4028bd865", None),
        (
            b"\0\0\0\0\0\0\0\00000000000000001e56a5d4028bd8653",
            Some(""),
        ),
        (b"\0\0\0\0\0\0\0\00000000000000001E56A5D4028BD8653m", None),
        (
            b"\0\0\0\0\0\0\0\00000000000000001e56a5d4028bd8653\xff",
            None,
        ),
        (
            b"\0\0\0\0\0\0\0\00000000000000001e56a5d4028bd8653\xc3\xa4",
            Some("\u{e4}"),
        ),
    ] {
        assert_eq!(rt; content_of(payload), want);
    }
    Ok(())
}

#[test]
fn a_key_leaves_out_one_mark(rt: HostRuntime) -> Result<(), Fail> {
    for (content, checkpoint, key) in [
        (
            "a",
            false,
            "ca978112ca1bbdcafac231b39a23dc4da786eff8147c4e72b9807785afee48bb",
        ),
        (
            "cp|a",
            true,
            "ca978112ca1bbdcafac231b39a23dc4da786eff8147c4e72b9807785afee48bb",
        ),
        (
            "cp|cp|a",
            true,
            "ea6d89587c00fbe5ed70cd0d540eec2f76e8ed420ff2bd4b9efe1b50c25ac67c",
        ),
        (
            "cp|",
            true,
            "e3b0c44298fc1c149afbf4c8996fb92427ae41e4649b934ca495991b7852b855",
        ),
    ] {
        assert_eq!(rt; is_checkpoint(content), checkpoint);
        assert_eq!(rt; Some(key_of(content)), Name::from_hex(key));
    }
    Ok(())
}

#[test]
fn a_default_history_starts_at_the_last_but_one_checkpoint(rt: HostRuntime) -> Result<(), Fail> {
    let alloc = rt.alloc();
    let mut index = Index::new(alloc);
    for (content, start) in [
        ("a", 0),
        ("cp|abc", 0),
        ("b", 0),
        ("cp|y", 1),
        ("a", 1),
        ("cp|a", 3),
    ] {
        assert!(rt; index.count() < 6 && index.bytes() < 1000);
        index.add(content)?;
        assert_eq!(rt; index.start(), start);
    }
    assert_eq!(rt; index.first(&key_of("a")), Some(0));
    assert_eq!(rt; index.first(&key_of("abc")), Some(1));
    assert_eq!(rt; index.first(&key_of("cp|abc")), Some(1));
    assert_eq!(rt; index.first(&key_of("z")), None);
    assert_eq!(rt; index.count(), 6);
    assert_eq!(rt; index.bytes(), 257);
    Ok(())
}
