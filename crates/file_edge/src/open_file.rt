ghost use Rattle.std.specs.Prelude.{◌≤◌, length, IfOk};

use crate::ahead::Ahead;
use crate::name::Name;
use std::alloc::Global;
use std::fs::{File, OpenOptions};
use std::io::{self, ErrorKind};
use std::os::fd::AsRawFd;
use std::os::unix::fs::FileExt;
use std::rt::Files;

/// How many bytes are read where fewer are asked for, so that entries that follow one another are read together.
const AHEAD_BYTES: usize = 16 << 10;

/// A file of the folder that is open.
#[derive(Drop)]
pub(crate) struct OpenFile {
    name: Name,
    file: File,
    is_pending: bool,
    used: u64,
    // What was read and not changed since.
    ahead: Ahead,
}

impl OpenFile {
    /// This file, under its name in the folder. Nothing is pending on it.
    pub(crate) fn new(alloc: Global, name: Name, file: File) -> OpenFile {
        OpenFile {
            name,
            file,
            is_pending: false,
            used: 0,
            ahead: Ahead::new(alloc),
        }
    }

    /// Whether it has this name.
    pub(crate) fn is_named(&self, name: &str) -> bool {
        self.name.is(name)
    }

    /// The name. It closes the file.
    pub(crate) fn into_name(self) -> Name {
        self.name
    }

    /// Whether it was written or cut since its last sync.
    pub(crate) fn is_pending(&self) -> bool {
        self.is_pending
    }

    /// Whether it is closed before the other one: if nothing is pending on it alone, and else if it was used longer ago.
    pub(crate) fn goes_before(&self, other: &OpenFile) -> bool {
        if self.is_pending == other.is_pending {
            self.used < other.used
        } else {
            other.is_pending
        }
    }

    /// Notes the turn in which it is used.
    pub(crate) fn use_at(&mut self, turn: u64) {
        self.used = turn;
    }

    /// Its length in bytes.
    pub(crate) fn length(&self) -> io::Result<u64> {
        Ok(self.file.metadata()?.len())
    }

    /// Reads from an offset on until the buffer is full or the file ends, and answers how many bytes came. What this run wrote is
    /// there; what others write to the file may be missed.
    pub(crate) fn read_at(&mut self, at: u64, buf: &mut [u8]) -> io::Result<usize>
        ensures { IfOk result (λ count. count ≤ length buf.new) }
    {
        if buf.len() >= AHEAD_BYTES {
            return read_from(&self.file, at, buf);
        }
        if self.ahead.bytes_from(at, buf.len()).len() < buf.len() && !self.read_ahead(at) {
            return read_from(&self.file, at, buf);
        }
        let known = self.ahead.bytes_from(at, buf.len());
        let count = known.len().min(buf.len());
        buf[..count].copy_from_slice(&known[..count]);
        Ok(count)
    }

    /// Reads ahead from an offset on. It answers whether that went well.
    fn read_ahead(&mut self, at: u64) -> bool {
        let Some(buffer) = self.ahead.buffer(at, AHEAD_BYTES) else {
            return false;
        };
        match read_from(&self.file, at, buffer) {
            Ok(count) => {
                self.ahead.came(count);
                true
            }
            Err(_) => {
                self.ahead.forget();
                false
            }
        }
    }

    /// Writes all of a piece at an offset.
    pub(crate) fn write_at(&mut self, at: u64, piece: &[u8]) -> io::Result<()> {
        self.is_pending = true;
        self.ahead.forget();
        self.file.write_all_at(piece, at)
    }

    /// Cuts it to a length, at most the one that it has.
    pub(crate) fn cut(&mut self, to: u64) -> io::Result<()> {
        if self.length()? < to {
            return Err(ErrorKind::InvalidInput.into());
        }
        self.is_pending = true;
        self.ahead.forget();
        self.file.set_len(to)
    }

    /// Puts its data on the disk.
    pub(crate) fn sync(&mut self) -> io::Result<()> {
        match self.file.sync_data() {
            Ok(()) => {
                self.is_pending = false;
                Ok(())
            }
            Err(error) => {
                // What the system keeps in memory may never have reached the disk: a later run is to read the disk.
                self.ahead.forget();
                let _ = libc::posix_fadvise(self.file.as_raw_fd(), 0, 0, libc::POSIX_FADV_DONTNEED);
                Err(error)
            }
        }
    }
}

/// Reads from an offset on until the buffer is full or the file ends, and answers how many bytes came.
fn read_from(file: &File, at: u64, buf: &mut [u8]) -> io::Result<usize>
    ensures { IfOk result (λ count. count ≤ length buf.new) }
{
    let mut count = 0;
    for _ in 0..u64::MAX {
        if count >= buf.len() {
            break;
        }
        let offset = at.saturating_add(count as u64);
        match file.read_at(&mut buf[count..], offset) {
            Ok(0) => break,
            Ok(more) => count += more,
            Err(error) if error.kind() == ErrorKind::Interrupted => {}
            Err(error) => return Err(error),
        }
    }
    Ok(count)
}

/// Opens a file that is there; for reading alone if it may not be written. What is no file of bytes is refused.
pub(crate) fn open_existing<R: Files<File = File>>(rt: &R, path: &str) -> io::Result<File> {
    let opened = match OpenOptions::new().read(true).write(true).open(rt, path) {
        Err(error) if is_read_only(error.kind()) => File::open(rt, path),
        opened => opened,
    };
    let file = above_standard(opened?)?;
    if file.metadata()?.is_file() {
        Ok(file)
    } else {
        Err(ErrorKind::Unsupported.into())
    }
}

/// Makes a file that is missing.
pub(crate) fn create<R: Files<File = File>>(rt: &R, path: &str) -> io::Result<File> {
    above_standard(
        OpenOptions::new()
            .read(true)
            .write(true)
            .create_new(true)
            .open(rt, path)?,
    )
}

/// The same file, under a number that no standard stream has: what is printed to a stream that was closed must not get
/// into a file.
fn above_standard(file: File) -> io::Result<File> {
    if file.as_raw_fd() <= 2 {
        file.try_clone()
    } else {
        Ok(file)
    }
}

/// Whether an error says that a file may be read and not written.
fn is_read_only(kind: ErrorKind) -> bool {
    matches!(
        kind,
        ErrorKind::PermissionDenied | ErrorKind::ReadOnlyFilesystem
    )
}
