//! Files of any bytes, against an independent reading of them.
use super::{FILE, begun, load, loaded, read, volume_of};
use crate::{Form, Ledger, Payload};
use std::alloc::{AllocError, Global};
use std::test::Fail;

/// The next of some numbers that look like random ones.
fn next(number: u64) -> u64 {
    number
        .wrapping_mul(6_364_136_223_846_793_005)
        .wrapping_add(1_442_695_040_888_963_407)
}

/// A gate, mostly open.
fn gate_of(number: u64) -> u8 {
    match number >> 60 {
        0 => 0,
        1 => 0x37,
        _ => 1,
    }
}

/// A file of this form with what may be entries, and cut somewhere.
fn random_file(alloc: Global, form: Form, seed: u64) -> Result<Vec<u8>, AllocError> {
    let mut number = seed;
    let mut bytes = begun(alloc, form, b"")?;
    for _ in 0..6 {
        number = next(next(number));
        let size = ((number >> 33) % 5) as u8;
        bytes.extend_from_slice(&[gate_of(number), 0, 0, 0, size])?;
        for _ in 0..size {
            number = next(number);
            bytes.push(((number >> 33) % 4) as u8)?;
        }
    }
    bytes.truncate(8 + ((next(number) >> 40) % 50) as usize);
    Ok(bytes)
}

/// The payload of the entry in front of these bytes, and what stands behind it.
fn first_entry(bytes: &[u8]) -> Option<(&[u8], &[u8])> {
    let (head, behind) = bytes.split_at_checked(5)?;
    let size = u32::from_be_bytes([head[1], head[2], head[3], head[4]]) as usize;
    let (payload, next) = behind.split_at_checked(size)?;
    if head[0] != 1 || next.is_empty() {
        return None;
    }
    Some((payload, next))
}

/// The payloads of a file, read by the table of its bytes.
fn parsed(alloc: Global, bytes: &[u8]) -> Result<Vec<Vec<u8>>, AllocError> {
    let mut found = Vec::new(alloc);
    let mut rest: &[u8] = if bytes.len() > 9 { &bytes[8..] } else { b"" };
    for _ in 0..100 {
        match first_entry(rest) {
            Some((payload, next)) => {
                found.push(Vec::from_slice(alloc, payload)?)?;
                rest = next;
            }
            None => return Ok(found),
        }
    }
    Ok(found)
}

/// The payload of an index in a file of these bytes, where it has one.
fn payload_in(
    alloc: Global,
    bytes: &[u8],
    form: Form,
    index: u64,
) -> Result<Option<Payload>, Fail> {
    let mut volume = volume_of(alloc, bytes)?;
    let log = load(alloc, &mut volume, form)?;
    read(alloc, &log, &mut volume, index)
}

/// Whether a file of these bytes loads as these payloads.
fn loads_as(alloc: Global, bytes: &[u8], form: Form, payloads: &[Vec<u8>]) -> Result<bool, Fail> {
    if loaded(alloc, bytes, form)? != Ok(payloads.len() as u64) {
        return Ok(false);
    }
    for (index, payload) in payloads.iter().enumerate() {
        match payload_in(alloc, bytes, form, index as u64)? {
            Some(found) => {
                if found.as_slice() != payload.as_slice() {
                    return Ok(false);
                }
            }
            None => return Ok(false),
        }
    }
    Ok(true)
}

#[test]
fn loads_what_another_reading_finds(rt: HostRuntime) -> Result<(), Fail> {
    let alloc = rt.alloc();
    for seed in 0..60 {
        let form = if seed % 2 == 0 { Form::One } else { Form::Two };
        let bytes = random_file(alloc, form, seed)?;
        let same = loads_as(alloc, &bytes, form, &parsed(alloc, &bytes)?)?;
        assert!(rt; same, "{bytes:?}");
    }
    Ok(())
}
