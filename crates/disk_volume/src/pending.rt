// The disk model of one file, carried out.
ghost use Rattle.std.specs.Prelude.{◌≡◌, ◌↔◌, IfOk, IsTrue};
ghost use Rattle.disk_volume.specs.Disk.{at_rest, after, MayLeave};
ghost use Rattle.disk_volume.specs.Inside.Pending.{MayHold};
ghost use Rattle.disk_volume.specs.Pick.{is_within};
ghost use Rattle.disk_volume.specs.Step.{act_of};

use crate::bytes::overwrite;
use crate::done::{Change, Done};
use std::alloc::{AllocError, Global};
use std::marker::Model;

/// One file between two syncs. Contracts see the file of the disk model.
#[derive(Debug, Drop)]
pub struct Pending {
    /// Its bytes at its last sync, and as a read gives them.
    stood: Vec<u8>,
    now: Vec<u8>,
    /// The least length that it had since that sync, and the greatest.
    least: usize,
    most: u128,
    /// From this offset on it may hold any bytes.
    loose: usize,
    /// The ranges that were written since, from and to, the latest first.
    written: Vec<(u128, u128)>,
}

impl Model for Pending {
    ghost use Rattle.disk_volume.specs.Disk.{File};

    ghost Value = { File };

    ghost view = { λ file. record {
      stood = file.stood.items;
      now = file.now.items;
      least = file.least;
      most = file.most;
      loose = file.loose;
      written = file.written.items;
    } };
}

impl Pending {
    /// A file of these bytes with nothing pending.
    pub fn new(alloc: Global, bytes: &[u8]) -> Result<Pending, AllocError>
        ensures { IfOk result (λ file. file ≡ at_rest bytes.now) }
    {
        Ok(Pending {
            stood: Vec::from_slice(alloc, bytes)?,
            now: Vec::from_slice(alloc, bytes)?,
            least: bytes.len(),
            most: bytes.len() as u128,
            loose: bytes.len(),
            written: Vec::new(alloc),
        })
    }

    /// The file after this call on it.
    pub fn after(mut self, done: &Done) -> Result<Pending, AllocError>
        ensures { IfOk result (λ file. file ≡ after (act_of done.now.1 self.now) self) }
    {
        match done.change() {
            Change::Wrote { at, piece } => {
                let range = (*at as u128, *at as u128 + piece.len() as u128);
                overwrite(&mut self.now, *at, piece)?;
                self.most = self.most.max(range.1);
                self.loose = self.loose.min(self.least);
                self.written.insert(0, range)?;
            }
            Change::Cut { to } => {
                self.now.truncate(*to);
                self.least = self.least.min(*to);
            }
            Change::Synced => {
                self.stood.clear();
                self.stood.extend_from_slice(&self.now)?;
                self.least = self.now.len();
                self.most = self.now.len() as u128;
                self.loose = self.now.len();
                self.written.clear();
            }
        }
        Ok(self)
    }

    /// Whether the byte at this offset was written since the last sync.
    fn is_written(&self, place: usize) -> bool
        ensures { result ≡ is_within self.entry.now.written place }
    {
        self.written.iter().any(|range| range.0 <= place as u128 && (place as u128) < range.1)
    }

    /// Whether it may hold this byte at this offset.
    fn may_hold(&self, place: usize, byte: u8) -> bool
        ensures { IsTrue result ↔ MayHold self.entry.now place byte }
    {
        if self.loose <= place || self.is_written(place) {
            return true;
        }
        byte == self.stood.get(place).copied().unwrap_or(0)
    }

    /// Whether a crash may leave these bytes of it.
    pub fn may_leave(&self, bytes: &[u8]) -> bool
        ensures { IsTrue result ↔ MayLeave self.entry.now bytes.now }
    {
        if bytes.len() < self.least || self.most < bytes.len() as u128 {
            return false;
        }
        for (place, byte) in bytes.iter().enumerate() {
            if !self.may_hold(place, *byte) {
                return false;
            }
        }
        true
    }
}
