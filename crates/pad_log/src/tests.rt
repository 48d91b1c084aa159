//! Lines of entries and logs of channels, by values from outside.
use super::{LogRefused, count_line, entry_line, write_channel};
use disk_volume::{MemVolume, Volume};
use gated_log::Log;
use keeper_table::forms_share_no_file;
use netflux_codec::Channel;
use pad_edge::MemSink;
use std::test::Fail;

const OLD_FILE: &str = "00112233445566778899aabbccddeeff.padlog";

const FILE: &str = "00112233445566778899aabbccddeeff.padlog2";

#[test]
fn an_entry_is_told_in_a_line(rt: HostRuntime) -> Result<(), Fail> {
    let alloc = rt.alloc();
    for (index, payload, want) in [
        (
            0,
            b"\0\0\0\0\0\0\0\00000000000000001e56a5d4028bd8653m".as_slice(),
            Some("0 0 0000000000000001e56a5d4028bd8653 \"m\"\n"),
        ),
        (
            1,
            b"\0\0\0\0\0\0\x01\x020000000000000001e56a5d4028bd8653a \"b\"\n",
            Some("1 258 0000000000000001e56a5d4028bd8653 \"a \\\"b\\\"\\n\"\n"),
        ),
        (
            2,
            b"\0\0\0\0\0\0\0\00000000000000001E56A5D4028BD8653m",
            None,
        ),
    ] {
        let line = entry_line(alloc, index, payload)?;
        assert_eq!(rt; line.as_deref(), want);
    }
    let last = count_line(alloc, 2)?;
    assert_eq!(rt; last.as_str(), "entries 2\n");
    Ok(())
}

#[test]
fn a_log_is_written_from_its_files(rt: HostRuntime) -> Result<(), Fail> {
    forms_share_no_file::<Log>();
    let alloc = rt.alloc();
    let Some(channel) = Channel::from_hex("00112233445566778899aabbccddeeff") else {
        return Ok(());
    };
    for (file, bytes, is_sound, want) in [
        (
            OLD_FILE,
            b"PADLOG1\n\x01\0\0\0\x2100112233445566778899aabbccddeeffa\0".as_slice(),
            true,
            b"0 0 00112233445566778899aabbccddeeff \"a\"\nentries 1\n".as_slice(),
        ),
        (
            FILE,
            b"PADLOG2\n\x01\0\0\0\0\x01\0\0\0\x29\0\0\0\0\0\0\0\x0700112233445566778899aabbccddeeffd\0".as_slice(),
            true,
            b"0 7 00112233445566778899aabbccddeeff \"d\"\nentries 1\n".as_slice(),
        ),
        (
            OLD_FILE,
            b"123456789".as_slice(),
            true,
            b"entries 0\n".as_slice(),
        ),
        (OLD_FILE, b"1234567890".as_slice(), false, b"".as_slice()),
    ] {
        let mut volume = MemVolume::new(alloc, Vec::new(alloc));
        volume.write_at(file, 0, bytes)?;
        let mut sink = MemSink::new(vec![in alloc; b' '; 256]?, 7, Vec::new(alloc));
        match write_channel::<Log, Log, MemVolume, MemSink>(
            alloc,
            &mut volume,
            &channel,
            &mut sink,
        ) {
            Ok(()) => assert!(rt; is_sound),
            Err(LogRefused::Damaged(_)) => assert!(rt; !is_sound),
            Err(_) => assert!(rt; false),
        }
        assert_eq!(rt; sink.as_slice(), want);
    }
    Ok(())
}
