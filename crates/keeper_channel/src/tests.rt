//! A channel that its first store moves to form Two: its bytes, and a stop at each call of that store.
ghost use Rattle.std.specs.Prelude.{◌≡◌, IfOk, length};
ghost use Rattle.keeper_channel.specs.Entries.{AreEntries};

use super::{KeeperRefused, load_slot, store_slot};
use disk_volume::{MemVolume, Pick, Volume};
use gated_log::{Damage, LoadRefused, Log};
use keeper_entry::content_of;
use log_format::{Payload, Payloads};
use std::alloc::{AllocError, Global};
use std::test::Fail;

const ONE: &str = "00112233445566778899aabbccddeeff.padlog";

const TWO: &str = "00112233445566778899aabbccddeeff.padlog2";

/// A log of form One with one entry: 32 digits of a sender, and `a`.
const OLD: &[u8] = b"PADLOG1\n\x01\0\0\0\x2100112233445566778899aabbccddeeffa\0";

/// It at the moment 0, the marker, and `ENTRY`, in form Two.
const MOVED: &[u8] =
    b"PADLOG2\n\x01\0\0\0\x29\0\0\0\0\0\0\0\000112233445566778899aabbccddeeffa\x01\0\0\0\0\x01\0\0\0\x29\0\0\0\0\0\0\0\x0700112233445566778899aabbccddeeffd\0";

/// A log of form One with one payload of 31 bytes, which is no entry.
const SHORT: &[u8] = b"PADLOG1\n\x01\0\0\0\x1f0112233445566778899aabbccddeeff\0";

/// The payload of an entry with the content `d` at the moment 7.
const ENTRY: &[u8] = b"\0\0\0\0\0\0\0\x0700112233445566778899aabbccddeeffd";

/// How many entries more than one group of a move has.
const MANY: u64 = 65;

/// The entry of `OLD` as it stands in a file, and as it does when it was moved.
const OLD_ENTRY: &[u8] = b"\x01\0\0\0\x2100112233445566778899aabbccddeeffa";

const MOVED_ENTRY: &[u8] = b"\x01\0\0\0\x29\0\0\0\0\0\0\0\000112233445566778899aabbccddeeffa";

/// The marker, and `ENTRY` behind it.
const MOVED_END: &[u8] =
    b"\x01\0\0\0\0\x01\0\0\0\x29\0\0\0\0\0\0\0\x0700112233445566778899aabbccddeeffd\0";

/// A group of that entry alone.
fn group(alloc: Global) -> Result<Payloads, AllocError>
    ensures one { IfOk result (λ group. length group ≡ 1) }
    ensures entries { IfOk result AreEntries }
{
    let mut bytes = Vec::new(alloc);
    bytes.extend_from_slice(ENTRY)?;
    let payload = Payload::new(bytes);
    if content_of(payload.as_slice()).is_none() {
        return Err(AllocError);
    }
    let mut payloads = Vec::new(alloc);
    payloads.push(payload)?;
    Ok(Payloads::new(payloads))
}

/// A volume on whose disk form One has these bytes.
fn volume_of(alloc: Global, bytes: &[u8]) -> Result<MemVolume, Fail> {
    let mut volume = MemVolume::new(alloc, Vec::new(alloc));
    volume.write_at(ONE, 0, bytes)?;
    volume.sync(ONE)?;
    Ok(volume)
}

/// The bytes of a file.
fn bytes_of(alloc: Global, volume: &mut MemVolume, file: &str) -> Result<Vec<u8>, Fail> {
    let size = volume.length(file)? as usize;
    let mut bytes = vec![in alloc; 0; size]?;
    let count = volume.read_at(file, 0, &mut bytes)?;
    bytes.truncate(count);
    Ok(bytes)
}

/// Loads the channel and stores the entry. It gives the calls that were made before the store.
fn store(alloc: Global, volume: &mut MemVolume) -> Result<(u64, Result<u64, KeeperRefused>), Fail> {
    let entries = group(alloc)?;
    let slot = load_slot::<Log, Log, MemVolume>(alloc, volume, ONE, TWO)?;
    let loaded = volume.calls();
    let stored = store_slot(alloc, volume, ONE, TWO, Some(slot), &entries);
    Ok((loaded, stored.answer))
}

#[test]
fn the_first_store_moves_a_channel(rt: HostRuntime) -> Result<(), Fail> {
    let alloc = rt.alloc();
    let mut volume = volume_of(alloc, OLD)?;
    assert_eq!(rt; store(alloc, &mut volume)?.1, Ok(1));
    assert_eq!(rt; bytes_of(alloc, &mut volume, ONE)?.as_slice(), OLD);
    assert_eq!(rt; bytes_of(alloc, &mut volume, TWO)?.as_slice(), MOVED);
    Ok(())
}

/// A file of this magic, this entry `MANY` times, and this end.
fn file_of(alloc: Global, magic: &[u8], entry: &[u8], end: &[u8]) -> Result<Vec<u8>, AllocError> {
    let mut bytes = Vec::new(alloc);
    bytes.extend_from_slice(magic)?;
    for _entry in 0..MANY {
        bytes.extend_from_slice(entry)?;
    }
    bytes.extend_from_slice(end)?;
    Ok(bytes)
}

#[test]
fn more_than_one_group_is_moved(rt: HostRuntime) -> Result<(), Fail> {
    let alloc = rt.alloc();
    let old = file_of(alloc, b"PADLOG1\n", OLD_ENTRY, b"\0")?;
    let moved = file_of(alloc, b"PADLOG2\n", MOVED_ENTRY, MOVED_END)?;
    let mut volume = volume_of(alloc, old.as_slice())?;
    assert_eq!(rt; store(alloc, &mut volume)?.1, Ok(MANY));
    assert_eq!(rt;
        bytes_of(alloc, &mut volume, TWO)?.as_slice(),
        moved.as_slice()
    );
    Ok(())
}

#[test]
fn a_short_payload_is_damage(rt: HostRuntime) -> Result<(), Fail> {
    let alloc = rt.alloc();
    let mut volume = volume_of(alloc, SHORT)?;
    let loaded = load_slot::<Log, Log, MemVolume>(alloc, &mut volume, ONE, TWO);
    assert_eq!(rt; loaded.err(), Some(LoadRefused::Damaged(Damage::Entry(0))));
    assert_eq!(rt; bytes_of(alloc, &mut volume, ONE)?.as_slice(), SHORT);
    assert_eq!(rt; bytes_of(alloc, &mut volume, TWO)?.len(), 0);
    Ok(())
}

/// The index of one more entry behind what a stop in this call of a first store left.
fn stopped(alloc: Global, call: u64, pick: Pick) -> Result<Result<u64, KeeperRefused>, Fail> {
    let mut volume = volume_of(alloc, OLD)?;
    volume.stop_at(call, pick);
    if store(alloc, &mut volume)?.1.is_ok() {
        return Ok(Err(KeeperRefused::Full));
    }
    let mut image = volume.image(alloc)?;
    Ok(store(alloc, &mut image)?.1)
}

/// The calls of a first store: those before it, and with it.
fn calls(alloc: Global) -> Result<(u64, u64), Fail> {
    let mut volume = volume_of(alloc, OLD)?;
    let loaded = store(alloc, &mut volume)?.0;
    Ok((loaded, volume.calls()))
}

#[test]
fn a_stop_in_a_migration_loses_nothing(rt: HostRuntime) -> Result<(), Fail> {
    let alloc = rt.alloc();
    let (loaded, all) = calls(alloc)?;
    for call in loaded..all {
        for (number, pick) in [Pick::Old, Pick::New, Pick::Torn(0x37), Pick::Torn(1)]
            .iter()
            .enumerate()
        {
            // The last two calls write and sync the gate of the entry.
            let is_there = call >= all.saturating_sub(2) && number % 2 == 1;
            let index = if is_there { 2 } else { 1 };
            assert_eq!(rt;
                stopped(alloc, call, *pick)?,
                Ok(index),
                "call {call}, {pick:?}"
            );
        }
    }
    Ok(())
}
