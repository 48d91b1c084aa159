//! The limits in bytes, and files that give fewer bytes than they told, over a volume that tells nothing.
ghost use Rattle.std.specs.Prelude.{◌≤◌, [], IsTrue, IfOk, length};
ghost use Rattle.disk_volume.specs.Disk.{began};
ghost use Rattle.gated_log.specs.Log.{is_primed};
ghost use Rattle.log_format.specs.declared.frame.TheConstants.{LONGEST_PAYLOAD};

use super::FILE;
use crate::{AppendRefused, Damage, Form, Frame, Ledger, LoadRefused, Log};
use disk_volume::Volume;
use pad_edge::Failed;
use std::alloc::{AllocError, Global};
use std::test::Fail;

/// A volume that tells nothing. Its one file has so many bytes, these and then zeros, and a read gives none from a place
/// on.
#[derive(Debug, Drop)]
struct Untold {
    head: Vec<u8>,
    size: u64,
    given: u64,
    calls: u64,
}

impl Untold {
    fn new(alloc: Global, head: &[u8], size: u64, given: u64) -> Result<Untold, AllocError> {
        Ok(Untold {
            head: Vec::from_slice(alloc, head)?,
            size,
            given,
            calls: 0,
        })
    }
}

impl Volume for Untold {
    ghost tells = { ⊥ };

    ghost disk = { λ _. began (λ _. []) };

    ghost clock = { λ volume. volume.calls };

    ghost faults = { λ _. 0 };

    ghost follows = { λ _ _. Unit {0} };

    ghost follows_itself = { λ _. tt };

    ghost follows_on = { λ _ _ _ _ _. tt };

    ghost as_it_reads = { λ _ told. absurd told };

    fn root(&mut self, _folder: &str) -> Result<(), Failed> {
        self.calls = self.calls.saturating_add(1);
        Ok(())
    }

    fn length(&mut self, _file: &str) -> Result<u64, Failed> {
        self.calls = self.calls.saturating_add(1);
        Ok(self.size)
    }

    fn read_at(&mut self, _file: &str, at: u64, buf: &mut [u8]) -> Result<usize, Failed> {
        self.calls = self.calls.saturating_add(1);
        let left = self.size.min(self.given).saturating_sub(at);
        let count = left.min(buf.len() as u64) as usize;
        for (place, byte) in buf.iter_mut().enumerate() {
            let place = at.saturating_add(place as u64) as usize;
            *byte = self.head.get(place).copied().unwrap_or(0);
        }
        Ok(count)
    }

    fn write_at(&mut self, _file: &str, at: u64, piece: &[u8]) -> Result<(), Failed> {
        self.calls = self.calls.saturating_add(1);
        self.size = self.size.max(at.saturating_add(piece.len() as u64));
        Ok(())
    }

    fn cut(&mut self, _file: &str, to: u64) -> Result<(), Failed> {
        self.calls = self.calls.saturating_add(1);
        self.size = to;
        Ok(())
    }

    fn sync(&mut self, _file: &str) -> Result<(), Failed> {
        self.calls = self.calls.saturating_add(1);
        Ok(())
    }
}

/// The log of the file.
fn load_untold(alloc: Global, volume: &mut Untold, form: Form) -> Result<Log, LoadRefused>
    ensures { IfOk result (λ log. IsTrue log.live) }
{
    Log::load(alloc, volume, FILE, form)
}

/// How many payloads its log has, where the file has so many bytes, begins with these, and gives so many.
fn count_untold(alloc: Global, head: &[u8], size: u64, given: u64) -> Result<u64, Fail> {
    let mut volume = Untold::new(alloc, head, size, given)?;
    Ok(load_untold(alloc, &mut volume, Form::One)?.count())
}

/// Why a file of so many bytes is not loaded.
fn refused_at(alloc: Global, form: Form, size: u64) -> Result<Option<LoadRefused>, AllocError> {
    let mut volume = Untold::new(alloc, form.magic().as_slice(), size, u64::MAX)?;
    Ok(load_untold(alloc, &mut volume, form).err())
}

#[test]
fn holds_so_many_bytes(rt: HostRuntime) -> Result<(), Fail> {
    let alloc = rt.alloc();
    for (form, size) in [(Form::One, 1_073_741_825), (Form::Two, 1_090_519_041)] {
        let refused = refused_at(alloc, form, size)?;
        assert_eq!(rt; refused, Some(LoadRefused::Damaged(Damage::Long(size))));
        assert_eq!(rt; refused_at(alloc, form, size - 1)?, None);
    }
    Ok(())
}

/// Primes a log and appends a payload of so many zeros.
fn append_zeros(
    alloc: Global,
    volume: &mut Untold,
    log: &mut Log,
    count: usize,
) -> Result<Option<AppendRefused>, AllocError>
    requires small { count ≤ LONGEST_PAYLOAD }
    requires live { IsTrue log.old.live }
{
    let frame = Frame::build(alloc, &vec![in alloc; 0; count]?)?;
    log.reserve_one(alloc)?;
    match log.prime(volume, frame.size()) {
        Ok(()) => Ok(log.append(volume, &frame).err()),
        Err(refused) => Ok(Some(refused)),
    }
}

/// A volume with one payload of 2^30 - 29 bytes, and its last gate at 2^30 - 16.
fn nearly_full(alloc: Global) -> Result<Untold, AllocError> {
    let head = b"PADLOG1\n\x01\x3f\xff\xff\xe3";
    Untold::new(alloc, head, 1_073_741_809, u64::MAX)
}

/// Whether a payload of so many bytes fits there, and two that have as many with the second's gate and length.
fn room_for(alloc: Global, count: u64) -> Result<(bool, bool), Fail> {
    let mut volume = nearly_full(alloc)?;
    let log = load_untold(alloc, &mut volume, Form::One)?;
    Ok((log.room(1, count), log.room(2, count.saturating_sub(5))))
}

/// Why a payload of so many zeros is refused there.
fn refused_zeros(alloc: Global, count: usize) -> Result<Option<AppendRefused>, Fail>
    requires { count ≤ LONGEST_PAYLOAD }
{
    let mut volume = nearly_full(alloc)?;
    let mut log = load_untold(alloc, &mut volume, Form::One)?;
    Ok(append_zeros(alloc, &mut volume, &mut log, count)?)
}

#[test]
fn holds_what_fits(rt: HostRuntime) -> Result<(), Fail> {
    let alloc = rt.alloc();
    assert_eq!(rt; room_for(alloc, 10)?, (true, true));
    assert_eq!(rt; room_for(alloc, 11)?, (false, false));
    assert_eq!(rt; refused_zeros(alloc, 10)?, None);
    assert_eq!(rt; refused_zeros(alloc, 11)?, Some(AppendRefused::Full));
    Ok(())
}

#[test]
fn takes_the_bytes_that_come(rt: HostRuntime) -> Result<(), Fail> {
    let alloc = rt.alloc();
    // Two entries, with gates at 8, 16 and 26.
    let head = b"PADLOG1\n\x01\x00\x00\x00\x03abc\x01\x00\x00\x00\x05defgh\x00";
    for (given, count) in [(27, 2), (26, 1), (17, 1), (16, 0), (9, 0), (0, 0)] {
        assert_eq!(rt;
            count_untold(alloc, head, 27, given)?,
            count,
            "{given} given"
        );
    }

    // One entry of 70,000 bytes, whose last gate, at 70,013, comes or does not.
    let head = b"PADLOG1\n\x01\x00\x01\x11\x70";
    for (given, count) in [(70_014, 1), (70_013, 0)] {
        assert_eq!(rt;
            count_untold(alloc, head, 70_014, given)?,
            count,
            "{given} given"
        );
    }
    Ok(())
}
