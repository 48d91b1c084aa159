//! The bytes of a log file, its limits, and what a stop leaves, by values from outside.
//!
//! The check proves tests too, and what a function has in sight is what makes that long: so payloads, tables and logs each
//! stand in a small function that promises no more than its callers need.
ghost use Rattle.std.specs.Prelude.{◌≡◌, ◌≤◌, List, ℕ, length, IsTrue, IfOk};
ghost use Rattle.std.specs.Bool.{OnTrue};
ghost use Rattle.disk_volume.specs.Memory.{disk_of};
ghost use Rattle.gated_log.specs.Log.{Stands, is_primed};
ghost use Rattle.log_format.specs.declared.frame.TheConstants.{LONGEST_PAYLOAD};

use crate::{
    AppendRefused, Damage, Form, Frame, Frames, Ledger, LoadRefused, Log, Payload, Payloads,
};
use disk_volume::{MemVolume, Pick, Volume, settle};
use std::alloc::{AllocError, Global};
use std::test::Fail;

mod random;
mod untold;

const FILE: &str = "f";

/// The identity of a sender, and a content of one letter.
fn first() -> &'static [u8]
    ensures { length result.now ≤ LONGEST_PAYLOAD }
{
    b"0000000000000001e56a5d4028bd8653m"
}

/// The four bytes of its length.
fn first_size() -> &'static [u8] {
    b"\x00\x00\x00\x21"
}

/// These pieces, one after another.
fn joined(alloc: Global, pieces: &[&[u8]]) -> Result<Vec<u8>, AllocError> {
    let mut bytes = Vec::new(alloc);
    for piece in pieces {
        bytes.extend_from_slice(piece)?;
    }
    Ok(bytes)
}

/// A file that begins with the magic of this form, and goes on with these bytes.
fn begun(alloc: Global, form: Form, rest: &[u8]) -> Result<Vec<u8>, AllocError> {
    joined(alloc, &[form.magic().as_slice(), rest])
}

/// A volume without files.
fn empty_volume(alloc: Global) -> MemVolume {
    MemVolume::new(alloc, Vec::new(alloc))
}

/// A volume whose one file has these bytes, all of them on the disk.
fn volume_of(alloc: Global, bytes: &[u8]) -> Result<MemVolume, Fail> {
    let mut volume = empty_volume(alloc);
    volume.write_at(FILE, 0, bytes)?;
    volume.sync(FILE)?;
    Ok(volume)
}

/// The bytes of the file.
fn bytes_of(alloc: Global, volume: &mut MemVolume) -> Result<Vec<u8>, Fail> {
    let size = volume.length(FILE)? as usize;
    let mut bytes = vec![in alloc; 0; size]?;
    let count = volume.read_at(FILE, 0, &mut bytes)?;
    bytes.truncate(count);
    Ok(bytes)
}

/// The log of the file.
fn load(alloc: Global, volume: &mut MemVolume, form: Form) -> Result<Log, LoadRefused>
    ensures live { IfOk result (λ log. IsTrue log.live) }
    ensures holds { IfOk result (λ log. (payloads : List (List ℕ)) × Stands log payloads (disk_of volume.new)) }
{
    Log::load(alloc, volume, FILE, form)
}

/// How many payloads the log of the file has.
fn count_in(alloc: Global, volume: &mut MemVolume, form: Form) -> Result<u64, LoadRefused> {
    Ok(load(alloc, volume, form)?.count())
}

/// How a file of these bytes loads in this form: as so many payloads, or not.
fn loaded(alloc: Global, bytes: &[u8], form: Form) -> Result<Result<u64, LoadRefused>, Fail> {
    let mut volume = volume_of(alloc, bytes)?;
    Ok(count_in(alloc, &mut volume, form))
}

/// Primes a log, and says whether that answered `Ok`.
fn primed(log: &mut Log, volume: &mut MemVolume) -> bool
    requires live { IsTrue log.old.live }
    requires holds { (payloads : List (List ℕ)) × Stands log.old payloads (disk_of volume.old) }
    ensures live { OnTrue result (IsTrue log.new.live) }
    ensures primed { OnTrue result (IsTrue (is_primed log.new)) }
    ensures holds { OnTrue result ((payloads : List (List ℕ)) × Stands log.new payloads (disk_of volume.new)) }
{
    match log.prime(volume, 0) {
        Ok(()) => true,
        Err(_) => false,
    }
}

/// Appends a payload to a primed log, and says whether that answered `Ok`.
fn appended(
    alloc: Global,
    log: &mut Log,
    volume: &mut MemVolume,
    payload: &[u8],
) -> Result<bool, AllocError>
    requires small { length payload.now ≤ LONGEST_PAYLOAD }
    requires live { IsTrue log.old.live }
    requires primed { IsTrue (is_primed log.old) }
    requires holds { (payloads : List (List ℕ)) × Stands log.old payloads (disk_of volume.old) }
    ensures live { IfOk result (λ stored. OnTrue stored (IsTrue log.new.live)) }
    ensures holds { IfOk result (λ stored. OnTrue stored ((payloads : List (List ℕ)) × Stands log.new payloads (disk_of volume.new))) }
{
    let frame = Frame::build(alloc, payload)?;
    log.reserve_one(alloc)?;
    match log.append(volume, &frame) {
        Ok(_) => Ok(true),
        Err(_) => Ok(false),
    }
}

/// Primes a log and appends a payload to it, and says whether both answered `Ok`.
fn store(
    alloc: Global,
    log: &mut Log,
    volume: &mut MemVolume,
    payload: &[u8],
) -> Result<bool, AllocError>
    requires small { length payload.now ≤ LONGEST_PAYLOAD }
    requires live { IsTrue log.old.live }
    requires holds { (payloads : List (List ℕ)) × Stands log.old payloads (disk_of volume.old) }
    ensures live { IfOk result (λ stored. OnTrue stored (IsTrue log.new.live)) }
    ensures holds { IfOk result (λ stored. OnTrue stored ((payloads : List (List ℕ)) × Stands log.new payloads (disk_of volume.new))) }
{
    if !primed(log, volume) {
        return Ok(false);
    }
    appended(alloc, log, volume, payload)
}

/// Stores a payload by a log that is loaded anew, and answers how many payloads it has then.
fn store_one(alloc: Global, volume: &mut MemVolume, form: Form, payload: &[u8]) -> Result<u64, Fail>
    requires { length payload.now ≤ LONGEST_PAYLOAD }
{
    let mut log = load(alloc, volume, form)?;
    if !store(alloc, &mut log, volume, payload)? {
        return Err("the volume failed".into());
    }
    Ok(log.count())
}

/// A file of form One with the first payload, and with its record once more behind this gate.
fn second_behind(alloc: Global, gate: u8) -> Result<Vec<u8>, AllocError> {
    joined(
        alloc,
        &[
            b"PADLOG1\n\x01",
            first_size(),
            first(),
            &[gate],
            first_size(),
            first(),
            b"\x00",
        ],
    )
}

/// The bytes of a file once the first payload was stored so often, each time by a log that was loaded anew.
fn stored(alloc: Global, times: u64) -> Result<Vec<u8>, Fail> {
    let mut volume = empty_volume(alloc);
    for _ in 0..times {
        store_one(alloc, &mut volume, Form::One, first())?;
    }
    bytes_of(alloc, &mut volume)
}

#[test]
fn writes_the_file_of_its_payloads(rt: HostRuntime) -> Result<(), Fail> {
    let alloc = rt.alloc();
    let bytes = stored(alloc, 2)?;
    let wanted = second_behind(alloc, 1)?;
    assert_eq!(rt; bytes, wanted);
    Ok(())
}

/// Stores three payloads, until a call fails, and says whether none did.
fn three_stored(alloc: Global, log: &mut Log, volume: &mut MemVolume) -> Result<bool, AllocError>
    requires live { IsTrue log.old.live }
    requires holds { (payloads : List (List ℕ)) × Stands log.old payloads (disk_of volume.old) }
{
    if !store(alloc, log, volume, b"ab")? {
        return Ok(false);
    }
    if !store(alloc, log, volume, b"")? {
        return Ok(false);
    }
    store(alloc, log, volume, b"c")
}

/// Stores three payloads with a stop in this call of their twelve, and says whether one of them was refused.
fn stop_in(alloc: Global, volume: &mut MemVolume, stop: (u64, Pick)) -> Result<bool, Fail> {
    let mut log = load(alloc, volume, Form::One)?;
    if !primed(&mut log, volume) {
        return Ok(false);
    }
    volume.stop_at(volume.calls().saturating_add(stop.0), stop.1);
    Ok(!three_stored(alloc, &mut log, volume)?)
}

/// How many payloads what a stop left has, once it took one more.
fn goes_on(alloc: Global, volume: &MemVolume) -> Result<u64, Fail> {
    let mut image = volume.image(alloc)?;
    store_one(alloc, &mut image, Form::One, b"more")
}

/// The same, after a stop in this call of three appends, where one was refused.
fn stopped(alloc: Global, stop: (u64, Pick)) -> Result<Option<u64>, Fail> {
    let mut volume = empty_volume(alloc);
    if stop_in(alloc, &mut volume, stop)? {
        return Ok(Some(goes_on(alloc, &volume)?));
    }
    Ok(None)
}

/// What a stop leaves at the gate, if it comes once the gate was written: 00, 01, 37 or 01.
fn picks() -> [Pick; 4] {
    [Pick::Old, Pick::New, Pick::Torn(0x37), Pick::Torn(1)]
}

/// How many payloads a log has that had so many, after a stop in this call of an append of `added` under one gate. Its calls
/// are: the record behind the gate, a sync, the gate, a sync.
fn left_by_a_stop(held: u64, added: u64, call: u64, pick: usize) -> u64 {
    if call < 2 || pick % 2 == 0 {
        held
    } else {
        held.saturating_add(added)
    }
}

#[test]
fn a_stop_loses_nothing_acknowledged(rt: HostRuntime) -> Result<(), Fail> {
    let picks = picks();
    for call in 0..12 {
        for (number, pick) in picks.iter().enumerate() {
            let held = left_by_a_stop(call / 4, 1, call % 4, number);
            let count = stopped(rt.alloc(), (call, *pick))?;
            assert_eq!(rt;
                count,
                Some(held.saturating_add(1)),
                "call {call}, {pick:?}"
            );
        }
    }
    Ok(())
}

/// Primes the log of a file, and says whether that answered `Ok`.
fn close(alloc: Global, volume: &mut MemVolume) -> Result<bool, Fail> {
    let mut log = load(alloc, volume, Form::One)?;
    Ok(primed(&mut log, volume) && log.is_live())
}

/// The bytes of a file once its log was primed.
fn closed(alloc: Global, bytes: &[u8]) -> Result<Vec<u8>, Fail> {
    let mut volume = volume_of(alloc, bytes)?;
    if close(alloc, &mut volume)? {
        return bytes_of(alloc, &mut volume);
    }
    Err("the volume failed".into())
}

#[test]
fn a_torn_gate_is_closed_first(rt: HostRuntime) -> Result<(), Fail> {
    let alloc = rt.alloc();
    let torn = second_behind(alloc, 0x37)?;
    let bytes = closed(alloc, &torn)?;
    let wanted = second_behind(alloc, 0)?;
    assert_eq!(rt; bytes, wanted);
    Ok(())
}

/// What may stand behind a magic, and how many payloads that is.
fn behind_a_magic() -> [(&'static [u8], u64); 6] {
    [
        (b"\x01\x00", 0),
        (b"\x01\x00\x00\x00\x01a\x00", 1),
        (b"\x01\x00\x00\x00\x01a", 0),
        (b"\x01\x00\x00\x00\x01a\x00\x00\x00\x00\x01b\x00", 1),
        (b"\x01\xff\xff\xff\xffa\x00", 0),
        (b"\x01\xff\xff\xff\xff0123456789abcdefghij", 0),
    ]
}

/// Each form with the other, and the other's magic.
fn forms() -> [(Form, Form, [u8; 8]); 2] {
    [
        (Form::One, Form::Two, *b"PADLOG2\n"),
        (Form::Two, Form::One, *b"PADLOG1\n"),
    ]
}

/// How a file loads in this form that begins with the magic of that one.
fn loaded_behind(
    alloc: Global,
    form: Form,
    magic: Form,
    rest: &[u8],
) -> Result<Result<u64, LoadRefused>, Fail> {
    let bytes = begun(alloc, magic, rest)?;
    loaded(alloc, &bytes, form)
}

#[test]
fn loads_files_of_any_bytes(rt: HostRuntime) -> Result<(), Fail> {
    let alloc = rt.alloc();
    for (form, _, _) in forms() {
        assert_eq!(rt; loaded(alloc, b"", form)?, Ok(0));
        assert_eq!(rt; loaded(alloc, b"any bytes", form)?, Ok(0));
        for (rest, count) in behind_a_magic() {
            assert_eq!(rt;
                loaded_behind(alloc, form, form, rest)?,
                Ok(count),
                "{rest:?}"
            );
        }
    }
    Ok(())
}

/// A file of this many empty payloads.
fn empty_payloads(alloc: Global, form: Form, count: u64) -> Result<Vec<u8>, AllocError> {
    let mut bytes = begun(alloc, form, b"")?;
    for _ in 0..count {
        bytes.extend_from_slice(&[1, 0, 0, 0, 0])?;
    }
    bytes.push(0)?;
    Ok(bytes)
}

/// How a file of this many empty payloads loads.
fn loaded_with(alloc: Global, form: Form, count: u64) -> Result<Result<u64, LoadRefused>, Fail> {
    let bytes = empty_payloads(alloc, form, count)?;
    loaded(alloc, &bytes, form)
}

#[test]
fn refuses_damaged_files(rt: HostRuntime) -> Result<(), Fail> {
    let alloc = rt.alloc();
    for (form, foreign, magic) in forms() {
        let other = loaded_behind(alloc, form, foreign, b"\x01\x00")?;
        assert_eq!(rt; other, Err(LoadRefused::Damaged(Damage::Magic(magic))));
        let most = form.most_entries();
        assert_eq!(rt; loaded_with(alloc, form, most)?, Ok(most));
        let many = loaded_with(alloc, form, most.saturating_add(1))?;
        assert_eq!(rt; many, Err(LoadRefused::Damaged(Damage::Many)));
    }
    Ok(())
}

/// The payload of this index.
fn read(
    alloc: Global,
    log: &Log,
    volume: &mut MemVolume,
    index: u64,
) -> Result<Option<Payload>, Fail>
    requires live { IsTrue log.now.live }
    requires holds { (payloads : List (List ℕ)) × Stands log.now payloads (disk_of volume.old) }
    ensures { (payloads : List (List ℕ)) × Stands log.now payloads (disk_of volume.new) }
{
    if index >= log.count() {
        return Ok(None);
    }
    Ok(Some(log.read(alloc, volume, index)?))
}

/// How many calls of the volume a load has made, and then two reads in turn.
fn calls_of_reads(alloc: Global, volume: &mut MemVolume) -> Result<(u64, u64, u64), Fail> {
    let log = load(alloc, volume, Form::One)?;
    let loaded = volume.calls();
    read(alloc, &log, volume, 0)?;
    let first = volume.calls();
    read(alloc, &log, volume, 899_999)?;
    Ok((loaded, first, volume.calls()))
}

#[test]
fn reads_each_payload_in_one_call(rt: HostRuntime) -> Result<(), Fail> {
    // 4,500,009 bytes, which a write and a sync put there: a sync, the length, and 69 reads of at most 65,536.
    let mut volume = volume_with(rt.alloc(), Form::One, 900_000)?;
    let calls = calls_of_reads(rt.alloc(), &mut volume)?;
    assert_eq!(rt; calls, (73, 74, 75));
    Ok(())
}

/// A group of the first payload and two of at most one letter.
fn group_of_three(alloc: Global) -> Result<Frames, AllocError>
    ensures { IfOk result (λ group. length group ≡ 3) }
{
    let one = Payload::new(Vec::from_slice(alloc, first())?);
    let two = Payload::new(Vec::new(alloc));
    let three = Payload::new(Vec::from_slice(alloc, b"c")?);
    Frames::build(alloc, &Payloads::new(vec![in alloc; one, two, three]?))
}

/// A group of two payloads without bytes.
fn group_of_two(alloc: Global) -> Result<Frames, AllocError>
    ensures { IfOk result (λ group. length group ≡ 2) }
{
    let one = Payload::new(Vec::new(alloc));
    let two = Payload::new(Vec::new(alloc));
    Frames::build(alloc, &Payloads::new(vec![in alloc; one, two]?))
}

/// Appends a group to a primed log.
fn group_appended(
    alloc: Global,
    log: &mut Log,
    volume: &mut MemVolume,
    group: &Frames,
) -> Result<Result<u64, AppendRefused>, AllocError>
    requires few { length group.now ≤ 3 }
    requires live { IsTrue log.old.live }
    requires primed { IsTrue (is_primed log.old) }
    requires holds { (payloads : List (List ℕ)) × Stands log.old payloads (disk_of volume.old) }
{
    log.reserve(alloc, 3)?;
    Ok(log.append_group(volume, group))
}

/// Appends a group to the log of a file, with a stop in this call of it.
fn store_group(
    alloc: Global,
    volume: &mut MemVolume,
    form: Form,
    group: &Frames,
    stop: (u64, Pick),
) -> Result<Result<u64, AppendRefused>, Fail>
    requires { length group.now ≤ 3 }
{
    let mut log = load(alloc, volume, form)?;
    if !primed(&mut log, volume) {
        return Err("the volume failed".into());
    }
    let (call, pick) = stop;
    volume.stop_at(volume.calls().saturating_add(call), pick);
    Ok(group_appended(alloc, &mut log, volume, group)?)
}

/// No test makes so many calls, so no stop comes.
const NO_STOP: (u64, Pick) = (100, Pick::Old);

/// Appends a group of three, with a stop in this call of it.
fn store_three(
    alloc: Global,
    volume: &mut MemVolume,
    form: Form,
    stop: (u64, Pick),
) -> Result<Result<u64, AppendRefused>, Fail> {
    let group = group_of_three(alloc)?;
    store_group(alloc, volume, form, &group, stop)
}

/// How many payloads what a stop left has.
fn count_left(alloc: Global, volume: &MemVolume, form: Form) -> Result<u64, Fail> {
    let mut image = volume.image(alloc)?;
    Ok(count_in(alloc, &mut image, form)?)
}

/// The same, after a stop in this call of the append of a group of three, which was refused.
fn group_stopped(alloc: Global, form: Form, stop: (u64, Pick)) -> Result<Option<u64>, Fail> {
    let mut volume = empty_volume(alloc);
    if store_three(alloc, &mut volume, form, stop)? == Err(AppendRefused::Store) {
        return Ok(Some(count_left(alloc, &volume, form)?));
    }
    Ok(None)
}

#[test]
fn a_group_stands_under_one_gate(rt: HostRuntime) -> Result<(), Fail> {
    let picks = picks();
    for call in 0..8 {
        for (number, pick) in picks.iter().enumerate() {
            let form = if call < 4 { Form::One } else { Form::Two };
            let held = left_by_a_stop(0, 3, call % 4, number);
            let count = group_stopped(rt.alloc(), form, (call % 4, *pick))?;
            assert_eq!(rt; count, Some(held), "{form:?}, call {call}, {pick:?}");
        }
    }
    Ok(())
}

/// The bytes of a file of form Two where a group of three was appended.
fn bytes_of_three(alloc: Global) -> Result<Vec<u8>, Fail> {
    let mut volume = empty_volume(alloc);
    if store_three(alloc, &mut volume, Form::Two, NO_STOP)? == Ok(0) {
        return bytes_of(alloc, &mut volume);
    }
    Err("the group was refused".into())
}

#[test]
fn a_group_is_its_entries(rt: HostRuntime) -> Result<(), Fail> {
    let alloc = rt.alloc();
    let bytes = bytes_of_three(alloc)?;
    let behind: &[u8] = b"\x01\x00\x00\x00\x00\x01\x00\x00\x00\x01c\x00";
    let wanted = joined(alloc, &[b"PADLOG2\n\x01", first_size(), first(), behind])?;
    assert_eq!(rt; bytes, wanted);
    Ok(())
}

/// A volume with a file of so many empty payloads.
fn volume_with(alloc: Global, form: Form, count: u64) -> Result<MemVolume, Fail> {
    let bytes = empty_payloads(alloc, form, count)?;
    volume_of(alloc, &bytes)
}

/// Appends a group of two to the log of a file of form One.
fn store_two(alloc: Global, volume: &mut MemVolume) -> Result<Result<u64, AppendRefused>, Fail> {
    let group = group_of_two(alloc)?;
    store_group(alloc, volume, Form::One, &group, NO_STOP)
}

/// The same, where the log has this many empty payloads.
fn two_more(alloc: Global, count: u64) -> Result<Result<u64, AppendRefused>, Fail> {
    let mut volume = volume_with(alloc, Form::One, count)?;
    store_two(alloc, &mut volume)
}

#[test]
fn a_group_fits_whole_or_not_at_all(rt: HostRuntime) -> Result<(), Fail> {
    let full = two_more(rt.alloc(), 1_048_575)?;
    assert_eq!(rt; full, Err(AppendRefused::Full));
    let stored = two_more(rt.alloc(), 1_048_574)?;
    assert_eq!(rt; stored, Ok(1_048_574));
    Ok(())
}

/// Restarts the log of a file with a stop in this call, and says whether that answered `Ok`.
fn restart(alloc: Global, volume: &mut MemVolume, stop: (u64, Pick)) -> Result<bool, Fail> {
    settle(volume, FILE)?;
    volume.stop_at(volume.calls().saturating_add(stop.0), stop.1);
    Ok(Log::restart(alloc, volume, FILE).is_ok())
}

/// Whether a log of two payloads was restarted, with a stop in this call, and how many payloads are left.
fn restarted(alloc: Global, stop: (u64, Pick)) -> Result<(bool, u64), Fail> {
    let mut volume = volume_with(alloc, Form::Two, 2)?;
    let made = restart(alloc, &mut volume, stop)?;
    Ok((made, count_left(alloc, &volume, Form::Two)?))
}

#[test]
fn a_restart_leaves_a_front(rt: HostRuntime) -> Result<(), Fail> {
    // A cut, a sync, and then nothing more.
    for (call, pick, answer) in [
        (0, Pick::Old, (false, 2)),
        (0, Pick::New, (false, 0)),
        (1, Pick::Old, (false, 2)),
        (1, Pick::New, (false, 0)),
        (2, Pick::Old, (true, 0)),
    ] {
        let left = restarted(rt.alloc(), (call, pick))?;
        assert_eq!(rt; left, answer);
    }
    Ok(())
}
