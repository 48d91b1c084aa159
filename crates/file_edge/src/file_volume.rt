ghost use Rattle.std.specs.Prelude.{◌≡◌, ◌≤◌, ℕ, List, [], false, length, is_err, IsErr, IfOk, IsTrue};
ghost use Rattle.pad_edge.specs.Count.{HasCause};
ghost use Rattle.disk_volume.specs.Clock.{Ticked};
ghost use Rattle.disk_volume.specs.Disk.{began};
ghost use Rattle.file_edge.specs.FileVolume.{FolderCalls};
ghost use Rattle.file_edge.specs.Lost.{Losses, is_lost, StayLost};

use crate::folder::Folder;
use crate::lost::Lost;
use disk_volume::Volume;
use pad_edge::Failed;
use std::alloc::Global;
use std::fs::File;
use std::io;
use std::marker::Model;
use std::rt::Files;

/// The files of a folder of the system. Contracts know nothing of what they hold. It counts its calls and those that
/// failed, want of memory included. Once a sync of a file has failed, each later one fails too. At most 256 files are open
/// at once.
#[derive(Drop)]
pub struct FileVolume<R: Files<File = File> + Drop> {
    alloc: Global,
    folder: Folder<R>,
    lost: Lost,
    calls: u64,
    faults: u64,
}

impl<R: Files<File = File> + Drop> Model for FileVolume<R> {
    ghost use Rattle.file_edge.specs.FileVolume.{FolderCalls};

    ghost Value = { FolderCalls };

    ghost view = { λ volume. record { calls = volume.calls; faults = volume.faults; lost = volume.lost } };
}

impl<R: Files<File = File> + Drop> FileVolume<R> {
    /// A volume that has no folder yet. Until `root` was answered Ok, every other call fails.
    pub fn new(alloc: Global, rt: R) -> FileVolume<R>
        ensures { result ≡ record { calls = 0; faults = 0; lost = record { names = []; all = false } } }
    {
        FileVolume {
            alloc,
            folder: Folder::new(alloc, rt),
            lost: Lost::new(alloc),
            calls: 0,
            faults: 0,
        }
    }

    /// Counts a call with its answer.
    fn count<T>(&mut self, answer: io::Result<T>) -> Result<T, Failed>
        ensures ok { IfOk answer (λ value. IfOk result (λ given. given ≡ value)) }
        ensures as_answered { is_err result ≡ is_err answer }
        ensures clock { Ticked self.old.calls self.new.calls }
        ensures cause { HasCause self.old.faults self.new.faults result }
        ensures lost { self.new.lost ≡ self.old.lost }
    {
        self.calls = self.calls.saturating_add(1);
        match answer {
            Ok(value) => Ok(value),
            Err(_) => {
                self.faults = self.faults.saturating_add(1);
                Err(Failed)
            }
        }
    }
}

impl<R: Files<File = File> + Drop> Volume for FileVolume<R> {
    ghost tells = { ⊥ };

    ghost disk = { λ _. began (λ _. []) };

    ghost clock = { λ volume. volume.calls };

    ghost faults = { λ volume. volume.faults };

    // A file whose sync failed stays lost.
    ghost follows = { λ before now. StayLost before.lost now.lost };

    ghost follows_itself = { λ volume name lost. lost };

    ghost follows_on = { λ before mid now first second name lost. second name (first name lost) };

    ghost as_it_reads = { λ _ told. absurd told };

    /// A volume has one folder: a second call fails.
    fn root(&mut self, folder: &str) -> Result<(), Failed>
        ensures clock { Ticked self.old.calls self.new.calls }
        ensures cause { HasCause self.old.faults self.new.faults result }
        ensures kept { StayLost self.old.lost self.new.lost }
    {
        let answer = self.folder.choose(folder);
        self.count(answer)
    }

    fn length(&mut self, file: &str) -> Result<u64, Failed>
        ensures clock { Ticked self.old.calls self.new.calls }
        ensures cause { HasCause self.old.faults self.new.faults result }
        ensures kept { StayLost self.old.lost self.new.lost }
    {
        let answer = self.folder.length(&mut self.lost, file);
        self.count(answer)
    }

    fn read_at(&mut self, file: &str, at: u64, buf: &mut [u8]) -> Result<usize, Failed>
        ensures within { IfOk result (λ count. count ≤ length buf.new) }
        ensures clock { Ticked self.old.calls self.new.calls }
        ensures cause { HasCause self.old.faults self.new.faults result }
        ensures kept { StayLost self.old.lost self.new.lost }
    {
        let answer = self.folder.read_at(&mut self.lost, file, at, buf);
        self.count(answer)
    }

    fn write_at(&mut self, file: &str, at: u64, piece: &[u8]) -> Result<(), Failed>
        ensures clock { Ticked self.old.calls self.new.calls }
        ensures cause { HasCause self.old.faults self.new.faults result }
        ensures kept { StayLost self.old.lost self.new.lost }
    {
        let answer = self.folder.write_at(&mut self.lost, file, at, piece);
        self.count(answer)
    }

    /// To a length that the file does not have it fails.
    fn cut(&mut self, file: &str, to: u64) -> Result<(), Failed>
        ensures clock { Ticked self.old.calls self.new.calls }
        ensures cause { HasCause self.old.faults self.new.faults result }
        ensures kept { StayLost self.old.lost self.new.lost }
    {
        let answer = self.folder.cut(&mut self.lost, file, to);
        self.count(answer)
    }

    /// Puts a file on the disk, and the names in the folder if a file was made since they were. Once it has failed for a
    /// file, it fails for that file from then on.
    fn sync(&mut self, file: &str) -> Result<(), Failed>
        ensures clock { Ticked self.old.calls self.new.calls }
        ensures cause { HasCause self.old.faults self.new.faults result }
        ensures kept { StayLost self.old.lost self.new.lost }

        // A sync that fails is the last of its file that could answer Ok.
        ensures refused { IsTrue (is_lost self.old.lost file.now) → IsErr result }
        ensures lost { IsErr result → IsTrue (is_lost self.new.lost file.now) }
    {
        if self.lost.has(file) {
            return self.count(Err(io::ErrorKind::Other.into()));
        }
        let answer = self.folder.sync(&mut self.lost, file);
        if answer.is_err() {
            self.lost.add_named(self.alloc, file);
        }
        self.count(answer)
    }
}
