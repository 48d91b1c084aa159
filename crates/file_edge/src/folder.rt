//! The files of one folder of the system, some of them open. It makes the system's calls and counts none of them.
ghost use Rattle.std.specs.Prelude.{◌<◌, ◌≤◌, length, IfOk, OnOk};
ghost use Rattle.file_edge.specs.Lost.{StayLost};

use crate::lost::Lost;
use crate::name::Name;
use crate::open_file::{OpenFile, create, open_existing};
use std::alloc::Global;
use std::fs::{self, File};
use std::io::{self, ErrorKind};
use std::marker::Model;
use std::rt::Files;

/// How many files are open at once.
const MOST_OPEN: usize = 256;

/// A folder, chosen or not yet.
#[derive(Drop)]
pub(crate) struct Folder<R: Files<File = File> + Drop> {
    rt: R,
    alloc: Global,
    path: Option<String>,
    files: Vec<OpenFile>,
    turn: u64,
    has_new: bool,
}

impl<R: Files<File = File> + Drop> Model for Folder<R> {
    ghost use Rattle.std.specs.Prelude.{ℕ, ◌≤◌, vec_len};
    ghost use Rattle.file_edge.specs.declared.folder.TheConstants.{MOST_OPEN};

    // How many files are open.
    ghost Value = { ℕ };

    ghost view = { λ folder. vec_len folder.files };

    ghost invariant = { λ folder. vec_len folder.files ≤ MOST_OPEN };
}

impl<R: Files<File = File> + Drop> Folder<R> {
    /// No folder is chosen yet.
    pub(crate) fn new(alloc: Global, rt: R) -> Folder<R> {
        Folder {
            rt,
            alloc,
            path: None,
            files: Vec::new(alloc),
            turn: 0,
            has_new: false,
        }
    }

    /// Chooses the folder, and makes it if it is missing. It is chosen once.
    pub(crate) fn choose(&mut self, path: &str) -> io::Result<()> {
        if self.path.is_some() {
            return Err(ErrorKind::InvalidInput.into());
        }
        let chosen = String::from_str(self.alloc, path)?;
        let is_new = !fs::exists(&self.rt, path)?;
        fs::create_dir_all(&self.rt, path)?;
        // The names of files that an earlier run made and did not live to sync.
        sync_folder(&self.rt, path)?;
        if is_new {
            sync_ancestors(&self.rt, path)?;
        }
        self.path = Some(chosen);
        Ok(())
    }

    /// The length of a file, 0 if it is missing.
    pub(crate) fn length(&mut self, lost: &mut Lost, file: &str) -> io::Result<u64>
        ensures { StayLost lost.old lost.new }
    {
        match self.existing(lost, file)? {
            Some(open) => open.length(),
            None => Ok(0),
        }
    }

    /// Reads what a file has from an offset on.
    pub(crate) fn read_at(
        &mut self,
        lost: &mut Lost,
        file: &str,
        at: u64,
        buf: &mut [u8],
    ) -> io::Result<usize>
        ensures within { IfOk result (λ count. count ≤ length buf.new) }
        ensures kept { StayLost lost.old lost.new }
    {
        match self.existing(lost, file)? {
            Some(open) => open.read_at(at, buf),
            None => Ok(0),
        }
    }

    /// Writes to a file, which it makes if it is missing.
    pub(crate) fn write_at(
        &mut self,
        lost: &mut Lost,
        file: &str,
        at: u64,
        piece: &[u8],
    ) -> io::Result<()>
        ensures { StayLost lost.old lost.new }
    {
        if let Some(open) = self.existing(lost, file)? {
            return open.write_at(at, piece);
        }
        match self.made(lost, file)? {
            Some(open) => open.write_at(at, piece),
            None => Err(ErrorKind::NotFound.into()),
        }
    }

    /// Cuts a file to a length. To cut a missing one to 0 does nothing.
    pub(crate) fn cut(&mut self, lost: &mut Lost, file: &str, to: u64) -> io::Result<()>
        ensures { StayLost lost.old lost.new }
    {
        match self.existing(lost, file)? {
            Some(open) => open.cut(to),
            None if to == 0 => Ok(()),
            None => Err(ErrorKind::NotFound.into()),
        }
    }

    /// Puts a file on the disk, and its name if it is new. For a missing file it does nothing.
    pub(crate) fn sync(&mut self, lost: &mut Lost, file: &str) -> io::Result<()>
        ensures { StayLost lost.old lost.new }
    {
        self.settle_names(lost)?;
        match self.existing(lost, file)? {
            Some(open) => open.sync(),
            None => Ok(()),
        }
    }

    /// Syncs the folder if a file was made since its last sync. If that fails, every file is lost: the name of each new one
    /// may be missing from the disk.
    fn settle_names(&mut self, lost: &mut Lost) -> io::Result<()>
        ensures { StayLost lost.old lost.new }
    {
        if !self.has_new {
            return Ok(());
        }
        let synced = match &self.path {
            Some(path) => sync_folder(&self.rt, path.as_str()),
            None => Err(ErrorKind::NotFound.into()),
        };
        match synced {
            Ok(()) => {
                self.has_new = false;
                Ok(())
            }
            Err(error) => {
                lost.add_all();
                Err(error)
            }
        }
    }

    /// A file that is there, opened if it is not open, and none if it is missing.
    fn existing(&mut self, lost: &mut Lost, file: &str) -> io::Result<Option<&mut OpenFile>>
        ensures { StayLost lost.old lost.new }
    {
        if let Some(index) = self.index_of(file) {
            return Ok(self.used(index));
        }
        let path = self.path_of(file)?;
        let name = Name::of(self.alloc, file)?;
        self.make_room(lost)?;
        match open_existing(&self.rt, path.as_str()) {
            Ok(opened) => self.keep(name, opened),
            Err(error) if error.kind() == ErrorKind::NotFound => Ok(None),
            Err(error) => Err(error),
        }
    }

    /// A file that is missing, made and opened.
    fn made(&mut self, lost: &mut Lost, file: &str) -> io::Result<Option<&mut OpenFile>>
        ensures { StayLost lost.old lost.new }
    {
        let path = self.path_of(file)?;
        let name = Name::of(self.alloc, file)?;
        self.make_room(lost)?;
        self.has_new = true;
        let opened = create(&self.rt, path.as_str())?;
        self.keep(name, opened)
    }

    /// Keeps an open file, for which room was made.
    fn keep(&mut self, name: Name, opened: File) -> io::Result<Option<&mut OpenFile>>
        requires { self.old < MOST_OPEN }
    {
        let index = self.files.len();
        if self
            .files
            .push(OpenFile::new(self.alloc, name, opened))
            .is_err()
        {
            return Err(ErrorKind::OutOfMemory.into());
        }
        Ok(self.used(index))
    }

    /// The open file of an index, which is used now.
    fn used(&mut self, index: usize) -> Option<&mut OpenFile> {
        self.turn = self.turn.saturating_add(1);
        let turn = self.turn;
        let open = self.files.get_mut(index)?;
        open.use_at(turn);
        Some(open)
    }

    /// The index of a file among those that are open.
    fn index_of(&self, file: &str) -> Option<usize> {
        self.files.iter().position(|open| open.is_named(file))
    }

    /// Closes a file if as many are open as may be: of those on which nothing is pending the one that was used longest ago,
    /// and if there is none such, of all. What is pending on it is synced first.
    fn make_room(&mut self, lost: &mut Lost) -> io::Result<()>
        ensures room { OnOk result (self.new < MOST_OPEN) }
        ensures kept { StayLost lost.old lost.new }
    {
        self.files.reserve(1)?;
        if self.files.len() < MOST_OPEN {
            return Ok(());
        }
        let index = self.least_used();
        let mut closed = self.files.swap_remove(index);
        if closed.is_pending() && closed.sync().is_err() {
            lost.add(closed.into_name());
        }
        Ok(())
    }

    /// The index of the file that is closed first.
    fn least_used(&self) -> usize
        requires { 0 < self.now }
        ensures { result < self.now }
    {
        let mut least = 0;
        for index in 1..self.files.len() {
            if self.files[index].goes_before(&self.files[least]) {
                least = index;
            }
        }
        least
    }

    /// The path of a file in the folder.
    fn path_of(&self, file: &str) -> io::Result<String> {
        match &self.path {
            Some(folder) => Ok(format!(in self.alloc; "{}/{}", folder, file)?),
            None => Err(ErrorKind::NotFound.into()),
        }
    }
}

/// Puts the names in a folder on the disk.
fn sync_folder<R: Files<File = File>>(rt: &R, path: &str) -> io::Result<()> {
    File::open(rt, path)?.sync_all()
}

/// Puts the names of a folder and of those above it on the disk, as far as the path has them.
fn sync_ancestors<R: Files<File = File>>(rt: &R, path: &str) -> io::Result<()> {
    for end in 1..path.len() {
        if let Some((above, rest)) = path.split_at_checked(end) {
            if rest.starts_with('/') {
                sync_folder(rt, above)?;
            }
        }
    }
    sync_folder(rt, if path.starts_with('/') { "/" } else { "." })
}
