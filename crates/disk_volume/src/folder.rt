// Files by name in memory.
ghost use Rattle.std.specs.Prelude.{◌≡◌, ℕ, List, [], IfOk, OnOk, OnErr, None, position, bytes_eq, if◌then◌else◌};
ghost use Rattle.disk_volume.specs.Folder.{bytes_in};
ghost use Rattle.disk_volume.specs.Inside.Folder.{ChangesFile, SameFiles};
ghost use Rattle.disk_volume.specs.Step.{changed};
ghost use Rattle.disk_volume.specs.Inside.Step.{filled};

use crate::done::Done;
use std::alloc::{AllocError, Global};
use std::marker::Model;

/// A file of a name. Contracts see the name and the bytes.
#[derive(Clone, Debug, Drop)]
struct Held {
    name: String,
    bytes: Vec<u8>,
}

impl Model for Held {
    ghost use Rattle.std.specs.Prelude.{ℕ, List, string_bytes};

    ghost Value = { List ℕ × List ℕ };

    ghost view = { λ held. (string_bytes held.name, held.bytes.items) };
}

impl Held {
    /// Whether it has this name.
    fn is_named(&self, name: &str) -> bool
        ensures { result ≡ bytes_eq self.now.0 name.now }
    {
        self.name.as_str() == name
    }
}

/// Files by name, a missing one being empty. Contracts see the names and the bytes.
#[derive(Clone, Debug, Drop)]
pub struct Folder {
    files: Vec<Held>,
}

impl Model for Folder {
    ghost use Rattle.std.specs.Prelude.{ℕ, List};

    ghost Value = { List (List ℕ × List ℕ) };

    ghost view = { λ folder. folder.files.items };
}

impl Folder {
    /// A folder without files.
    pub fn new(alloc: Global) -> Folder
        ensures { result ≡ [] }
    {
        Folder {
            files: Vec::new(alloc),
        }
    }

    /// The same files once more.
    pub fn copy(&self) -> Result<Folder, AllocError>
        ensures { IfOk result (λ copy. copy ≡ self.now) }
    {
        self.clone()
    }

    /// The index of the first file of a name.
    fn position(&self, name: &str) -> Option<usize>
        ensures { result ≡ position (λ held. bytes_eq held.0 name.now) self.now }
    {
        self.files.iter().position(|held| held.is_named(name))
    }

    /// The bytes of a file.
    pub fn bytes(&self, name: &str) -> &[u8]
        ensures { result.now ≡ bytes_in self.now name.now }
    {
        match self.position(name) {
            Some(place) => {
                let held = &self.files[place];
                &held.bytes
            }
            None => &[],
        }
    }

    /// Does a call again to the file that it was on. The files stay as they are if memory runs out.
    pub fn apply(&mut self, alloc: Global, done: &Done) -> Result<(), AllocError>
        ensures ok { OnOk result (ChangesFile done.now.0 (changed done.now.1 (bytes_in self.old done.now.0)) self.old self.new) }
        ensures err { OnErr result (SameFiles self.old self.new) }
    {
        match self.position(done.file()) {
            Some(place) => {
                let held = &mut self.files[place];
                done.apply(&mut held.bytes)
            }
            None => self.add(alloc, done),
        }
    }

    /// Does a call to a missing file, which makes it if it wrote bytes.
    fn add(&mut self, alloc: Global, done: &Done) -> Result<(), AllocError>
        requires { position (λ held. bytes_eq held.0 done.now.0) self.old ≡ None }
        ensures ok { OnOk result (ChangesFile done.now.0 (changed done.now.1 []) self.old self.new) }
        ensures err { OnErr result (SameFiles self.old self.new) }
    {
        let mut bytes = Vec::new(alloc);
        done.apply(&mut bytes)?;
        if bytes.is_empty() {
            return Ok(());
        }
        let name = String::from_str(alloc, done.file())?;
        self.files.push(Held { name, bytes })?;
        Ok(())
    }

    /// Puts one byte all over the range that a call wrote to its file.
    pub fn tear(&mut self, byte: u8, done: &Done)
        ensures { ChangesFile done.now.0 (filled done.now.1 byte (bytes_in self.old done.now.0)) self.old self.new }
    {
        if let Some(place) = self.position(done.file()) {
            let held = &mut self.files[place];
            done.tear(byte, &mut held.bytes);
        }
    }
}
