//! Entries, spans and the table of channels, by values from outside.
use super::{Span, Table, entry_of, span_of, tail_of};
use keeper_entry::{Index, key_of};
use netflux_codec::{Channel, Since};
use std::test::Fail;

const PAYLOAD: &[u8] = b"\0\0\0\0\0\0\x01\x020000000000000001e56a5d4028bd8653cp|m";

#[test]
fn a_payload_gives_its_entry(rt: HostRuntime) -> Result<(), Fail> {
    let alloc = rt.alloc();
    match entry_of(alloc, 3, PAYLOAD)? {
        Some(entry) => {
            assert_eq!(rt; entry.index, 3);
            assert_eq!(rt; entry.moment, 258);
            assert_eq!(rt; entry.sender.as_str(), "0000000000000001e56a5d4028bd8653");
            assert_eq!(rt; entry.content.as_str(), "cp|m");
        }
        None => assert!(rt; false),
    }
    assert!(rt; entry_of(alloc, 3, b"")?.is_none());
    Ok(())
}

#[test]
fn spans_are_read_off_the_index(rt: HostRuntime) -> Result<(), Fail> {
    let alloc = rt.alloc();
    let mut index = Index::new(alloc);
    for content in ["a", "cp|b", "c", "cp|d", "a"] {
        assert!(rt; index.count() < 5 && index.bytes() < 1000);
        index.add(content)?;
    }
    for (from, want) in [
        (Since::Default, Span::Found(1, 5)),
        (Since::All, Span::Found(0, 5)),
        (Since::Known(key_of("a")), Span::Found(0, 5)),
        (Since::Known(key_of("d")), Span::Found(3, 5)),
        (Since::Known(key_of("z")), Span::Unknown),
    ] {
        assert_eq!(rt; span_of(&index, &from), want);
    }
    assert_eq!(rt; tail_of(&index, 2), Span::Found(2, 5));
    assert_eq!(rt; tail_of(&index, 9), Span::Found(5, 5));
    Ok(())
}

#[test]
fn a_channel_stays_in_the_table(rt: HostRuntime) -> Result<(), Fail> {
    let alloc = rt.alloc();
    let mut table: Table<u64> = Table::new(alloc);
    let (Some(one), Some(two)) = (
        Channel::from_hex("00112233445566778899aabbccddeeff"),
        Channel::from_hex("00112233445566778899aabbccddeef0"),
    ) else {
        return Ok(());
    };
    table.add(&one)?;
    assert_eq!(rt; table.get(&one), None);
    table.put(&one, Some(1));
    assert_eq!(rt; table.get(&one), Some(&1));
    table.add(&two)?;
    assert_eq!(rt; table.take(&one), Some(1));
    assert_eq!(rt; table.take(&one), None);
    assert_eq!(rt; table.len(), 2);
    assert!(rt; !table.is_full_for(&two));
    Ok(())
}
