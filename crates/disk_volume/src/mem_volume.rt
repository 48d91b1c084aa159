ghost use Rattle.std.specs.Prelude.{◌≡◌, ◌+◌, ◌-◌, ◌^◌, ◌≤◌, min, List, ℕ, [], ◌∷◌, ◌++◌, length, take, drop, IfOk, OnOk, OnErr, IsErr, IsTrue, ◌↔◌, MatchResult, is_ok, if◌then◌else◌};
ghost use Rattle.std.specs.List.{list_any};
ghost use Rattle.pad_edge.specs.Count.{counted, Rose, HasCause};
ghost use Rattle.disk_volume.specs.Calls.{Writes, Cuts, Syncs};
ghost use Rattle.disk_volume.specs.Clock.{Ticked};
ghost use Rattle.disk_volume.specs.Disk.{file_at, at_rest, reads, MayLeave, IsImage};
ghost use Rattle.disk_volume.specs.Memory.{fresh, disk_of, FailsExactly, TakesNoMemory, GoesOn, Records, Follows};
ghost use Rattle.disk_volume.specs.Inside.Memory.{begun, turn_of};
ghost use Rattle.disk_volume.specs.Step.{writes, cuts, syncs};
ghost use Rattle.disk_volume.specs.Inside.Step.{is_sync_of};
ghost use Rattle.disk_volume.specs.Folder.{bytes_in};
ghost use Rattle.disk_volume.specs.Lemmas.Follows.{follows_itself as itself, follows_on as goes_on};
ghost use Rattle.disk_volume.specs.Lemmas.Sound.{reads_image, left_by_image};
ghost use Rattle.disk_volume.specs.Pick.{torn};
ghost use Rattle.disk_volume.specs.Stop.{has_stopped, stop_set, stop_after, left_by};
ghost use Rattle.disk_volume.specs.Inside.Change.{step_of};

use crate::bytes::copy_from;
use crate::done::{Change, Done};
use crate::folder::Folder;
use crate::pending::Pending;
use crate::pick::Pick;
use crate::stop::{Stop, Turn};
use crate::volume::Volume;
use pad_edge::Failed;
use std::alloc::{AllocError, Global};
use std::marker::Model;

/// A volume in memory. It keeps the record of the calls that changed its files, and contracts know all of it.
#[derive(Debug, Drop)]
pub struct MemVolume {
    alloc: Global,
    first: Folder,
    done: Vec<Done>,
    files: Folder,
    calls: u64,
    starved: u64,
    faults: u64,
    failing: Vec<u64>,
    stop: Stop,
}

impl Model for MemVolume {
    ghost use Rattle.std.specs.Prelude.{◌≡◌, ℕ, List};
    ghost use Rattle.disk_volume.specs.Disk.{began, reads};
    ghost use Rattle.disk_volume.specs.Folder.{bytes_in};
    ghost use Rattle.disk_volume.specs.Memory.{Memory};
    ghost use Rattle.disk_volume.specs.Step.{replay};

    ghost Value = { Memory };

    ghost view = { λ volume. record {
      first = volume.first;
      done = volume.done.items;
      calls = volume.calls;
      starved = volume.starved;
      faults = volume.faults;
      failing = volume.failing.items;
      stop = volume.stop;
    } };

    // Its files are what the record makes of those that it began with.
    ghost invariant = { λ volume. (name : List ℕ) →
        bytes_in volume.files name ≡ reads (replay (began (bytes_in volume.first)) volume.done.items) name };
}

impl MemVolume {
    /// A volume without files, whose calls of these numbers fail.
    pub fn new(alloc: Global, failing: Vec<u64>) -> MemVolume
        ensures { result ≡ fresh [] failing.items }
    {
        MemVolume {
            alloc,
            first: Folder::new(alloc),
            done: Vec::new(alloc),
            files: Folder::new(alloc),
            calls: 0,
            starved: 0,
            faults: 0,
            failing,
            stop: Stop::Unset,
        }
    }

    /// How many calls it had. It takes no memory.
    pub fn calls(&self) -> u64
        ensures { result ≡ self.now.calls }
    {
        self.calls
    }

    /// How many growths were refused to it. It takes no memory.
    pub fn starved(&self) -> u64
        ensures { result ≡ self.now.starved }
    {
        self.starved
    }

    /// Whether it has stopped. It takes no memory.
    pub fn has_stopped(&self) -> bool
        ensures { result ≡ has_stopped self.now.stop }
    {
        match self.stop {
            Stop::Past(_) => true,
            _ => false,
        }
    }

    /// Simulates a crash in the call of this number, counted from 0 over the volume's life: that call and all later ones
    /// fail, and `pick` says what the crash leaves. It takes the place of a stop that was set before and has not come. Once
    /// the volume has stopped it changes nothing. A stop that is set for a call that was made already, or for 2^64 - 1,
    /// never comes.
    pub fn stop_at(&mut self, call: u64, pick: Pick)
        ensures { self.new ≡ record self.old { stop = stop_set self.old.stop call pick } }
    {
        match self.stop {
            Stop::Past(_) => {}
            _ => self.stop = Stop::Set(call, pick),
        }
    }

    /// The volume that the stop left or, if no call has stopped, the volume as it reads: a new one with nothing pending, no
    /// stop set and no call that is to fail.
    pub fn image(&self, alloc: Global) -> Result<MemVolume, AllocError>
        ensures new { IfOk result (λ image. image ≡ fresh image.first []) }
        ensures files { IfOk result (λ image. (name : List ℕ) →
            file_at (disk_of image) name ≡ at_rest (left_by self.now.stop (file_at (disk_of self.now) name))) }
        ensures possible { IfOk result (λ image. IsImage (disk_of self.now) (reads (disk_of image))) }
    {
        MemVolume::of_files(alloc, self.left_files(alloc)?)
    }

    /// The files that the stop left or, if no call has stopped, the files as they read.
    fn left_files(&self, alloc: Global) -> Result<Folder, AllocError>
        ensures { IfOk result (λ files. (name : List ℕ) →
            bytes_in files name ≡ left_by self.now.stop (file_at (disk_of self.now) name)) }
    {
        match self.stop {
            Stop::Past(Pick::Old) => self.old_files(alloc),
            Stop::Past(Pick::Torn(byte)) => self.torn_files(byte),
            _ => self.files.copy(),
        }
    }

    /// Whether a crash now may leave these bytes of a file. It reads the disk model off the whole record, slowly.
    pub fn may_leave(&self, alloc: Global, file: &str, bytes: &[u8]) -> Result<bool, AllocError>
        ensures { IfOk result (λ answer. IsTrue answer ↔ MayLeave (file_at (disk_of self.now) file.now) bytes.now) }
    {
        let mut pending = Pending::new(alloc, self.first.bytes(file))?;
        for done in &self.done {
            if done.file() == file {
                pending = pending.after(done)?;
            }
        }
        Ok(pending.may_leave(bytes))
    }

    /// A volume that begins with these files.
    fn of_files(alloc: Global, files: Folder) -> Result<MemVolume, AllocError>
        ensures { IfOk result (λ volume. volume ≡ fresh files []) }
    {
        Ok(MemVolume {
            alloc,
            first: files.copy()?,
            done: Vec::new(alloc),
            files,
            calls: 0,
            starved: 0,
            faults: 0,
            failing: Vec::new(alloc),
            stop: Stop::Unset,
        })
    }

    /// The files as of the last sync of each that answered `Ok`.
    fn old_files(&self, alloc: Global) -> Result<Folder, AllocError>
        ensures { IfOk result (λ files. (name : List ℕ) → bytes_in files name ≡ (file_at (disk_of self.now) name).stood) }
    {
        let mut files = self.first.copy()?;
        for (place, done) in self.done.iter().enumerate() {
            if is_synced(&self.done[place..], done.file()) {
                files.apply(alloc, done)?;
            }
        }
        Ok(files)
    }

    /// The files as they read, with this byte all over the ranges that were written since the last sync.
    fn torn_files(&self, byte: u8) -> Result<Folder, AllocError>
        ensures { IfOk result (λ files. (name : List ℕ) → bytes_in files name
            ≡ torn (file_at (disk_of self.now) name).written byte (file_at (disk_of self.now) name).now) }
    {
        let mut files = self.files.copy()?;
        for (place, done) in self.done.iter().enumerate() {
            if !is_synced(&self.done[place..], done.file()) {
                files.tear(byte, done);
            }
        }
        Ok(files)
    }

    /// What becomes of the call that comes.
    fn turn(&self) -> Turn
        ensures { result ≡ turn_of self.now }
    {
        match self.stop {
            Stop::Past(_) => return Turn::Fails,
            Stop::Set(number, _) => {
                if number == self.calls && self.calls < u64::MAX {
                    return Turn::Stops;
                }
            }
            Stop::Unset => {}
        }
        if self.failing.contains(&self.calls) {
            Turn::Fails
        } else {
            Turn::Goes
        }
    }

    /// A call begins: it is counted, and the volume stops if that was set for it.
    fn begin(&mut self) -> Turn
        ensures turn { result ≡ turn_of self.old }
        ensures begun { self.new ≡ begun self.old }
        ensures later { self.old.calls ≤ self.new.calls }
    {
        let turn = self.turn();
        if let Stop::Set(number, pick) = self.stop {
            if number == self.calls && self.calls < u64::MAX {
                self.stop = Stop::Past(pick);
            }
        }
        self.calls = self.calls.saturating_add(1);
        turn
    }

    /// A call fails.
    fn fail(&mut self) -> Failed
        ensures failed { self.new ≡ record self.old { faults = counted self.old.faults } }
        ensures later { self.old.faults ≤ self.new.faults }
    {
        self.faults = self.faults.saturating_add(1);
        Failed
    }

    /// A call ends. It fails if a growth was refused in it.
    fn close<T>(&mut self, outcome: Result<T, AllocError>) -> Result<T, Failed>
        ensures ok { IfOk result (λ value. (outcome ≡ Ok value) × (self.new ≡ self.old)) }
        ensures refused { IsErr result → IsErr outcome }
        ensures err { OnErr result (self.new ≡ record self.old {
          starved = counted self.old.starved;
          faults = counted self.old.faults;
        }) }
        ensures later { (self.old.starved ≤ self.new.starved) × (self.old.faults ≤ self.new.faults) }
    {
        match outcome {
            Ok(value) => Ok(value),
            Err(_) => {
                self.starved = self.starved.saturating_add(1);
                Err(self.fail())
            }
        }
    }

    /// Changes a file, and puts that into the record. Nothing changes if memory runs out.
    fn carry_out(&mut self, file: &str, change: Change) -> Result<(), AllocError>
        ensures ok { OnOk result (self.new ≡ record self.old { done = self.old.done ++ (file.now, step_of change) ∷ [] }) }
        ensures err { OnErr result (self.new ≡ self.old) }
    {
        let done = Done::new(String::from_str(self.alloc, file)?, change);
        self.done.reserve(1)?;
        self.files.apply(self.alloc, &done)?;
        self.done.push(done).unwrap();
        Ok(())
    }

    /// Writes these bytes to a file, and puts that into the record. Nothing changes if memory runs out.
    fn write(&mut self, file: &str, at: usize, piece: &[u8]) -> Result<(), AllocError>
        ensures ok { OnOk result (self.new ≡ record self.old { done = self.old.done ++ (file.now, writes at piece.now) ∷ [] }) }
        ensures err { OnErr result (self.new ≡ self.old) }
    {
        let piece = Vec::from_slice(self.alloc, piece)?;
        self.carry_out(file, Change::Wrote { at, piece })
    }
}

/// Whether one of these calls is a sync of this file.
fn is_synced(calls: &[Done], file: &str) -> bool
    ensures { result ≡ list_any (is_sync_of file.now) calls.now }
{
    calls.iter().any(|done| done.is_sync_of(file))
}

impl Volume for MemVolume {
    ghost tells = { Unit {0} };

    ghost disk = { disk_of };

    ghost clock = { λ volume. volume.calls };

    ghost faults = { λ volume. volume.faults };

    ghost follows = { Follows };

    ghost follows_itself = { itself };

    ghost follows_on = { goes_on };

    ghost as_it_reads = { λ volume told. reads_image (bytes_in volume.first) volume.done };

    /// There is one folder in memory, and every name chooses it.
    fn root(&mut self, _folder: &str) -> Result<(), Failed>
        ensures done { self.new.done ≡ self.old.done }
        ensures disk { disk_of self.new ≡ disk_of self.old }
        ensures clock { Ticked self.old.calls self.new.calls }
        ensures cause { HasCause self.old.faults self.new.faults result }
        ensures exact { FailsExactly result self.old self.new }
        ensures no_memory { TakesNoMemory result self.old self.new }
        ensures goes_on { GoesOn result self.old self.new }
    {
        match self.begin() {
            Turn::Goes => Ok(()),
            _ => Err(self.fail()),
        }
    }

    fn length(&mut self, file: &str) -> Result<u64, Failed>
        ensures length { IfOk result (λ size. size ≡ length (reads (disk_of self.old) file.now)) }
        ensures done { self.new.done ≡ self.old.done }
        ensures disk { disk_of self.new ≡ disk_of self.old }
        ensures clock { Ticked self.old.calls self.new.calls }
        ensures cause { HasCause self.old.faults self.new.faults result }
        ensures exact { FailsExactly result self.old self.new }
        ensures no_memory { TakesNoMemory result self.old self.new }
        ensures goes_on { GoesOn result self.old self.new }
    {
        match self.begin() {
            Turn::Goes => Ok(self.files.bytes(file).len() as u64),
            _ => Err(self.fail()),
        }
    }

    fn read_at(&mut self, file: &str, at: u64, buf: &mut [u8]) -> Result<usize, Failed>
        ensures within { IfOk result (λ count. count ≤ length buf.new) }
        ensures bytes { IfOk result (λ count.
            take count buf.new ≡ take (length buf.old) (drop at (reads (disk_of self.old) file.now))) }
        ensures done { self.new.done ≡ self.old.done }
        ensures disk { disk_of self.new ≡ disk_of self.old }
        ensures clock { Ticked self.old.calls self.new.calls }
        ensures cause { HasCause self.old.faults self.new.faults result }
        ensures exact { FailsExactly result self.old self.new }
        ensures no_memory { TakesNoMemory result self.old self.new }
        ensures goes_on { GoesOn result self.old self.new }
    {
        match self.begin() {
            Turn::Goes => Ok(copy_from(self.files.bytes(file), at as usize, buf)),
            _ => Err(self.fail()),
        }
    }

    fn write_at(&mut self, file: &str, at: u64, piece: &[u8]) -> Result<(), Failed>
        requires { at ≤ length (reads (disk_of self.old) file.now) }
        ensures done { Records result (file.now, writes at piece.now) self.old self.new }
        ensures disk { Writes result file.now at piece.now (disk_of self.old) (disk_of self.new) }
        ensures clock { Ticked self.old.calls self.new.calls }
        ensures cause { HasCause self.old.faults self.new.faults result }
        ensures exact { FailsExactly result self.old self.new }
        ensures goes_on { GoesOn result self.old self.new }
    {
        let turn = self.begin();
        if turn == Turn::Fails {
            return Err(self.fail());
        }
        let outcome = self.write(file, at as usize, piece);
        self.close(outcome)?;
        if turn == Turn::Stops {
            return Err(self.fail());
        }
        Ok(())
    }

    fn cut(&mut self, file: &str, to: u64) -> Result<(), Failed>
        requires { to ≤ length (reads (disk_of self.old) file.now) }
        ensures done { Records result (file.now, cuts to) self.old self.new }
        ensures disk { Cuts result file.now to (disk_of self.old) (disk_of self.new) }
        ensures clock { Ticked self.old.calls self.new.calls }
        ensures cause { HasCause self.old.faults self.new.faults result }
        ensures exact { FailsExactly result self.old self.new }
        ensures goes_on { GoesOn result self.old self.new }
    {
        let turn = self.begin();
        if turn == Turn::Fails {
            return Err(self.fail());
        }
        let outcome = self.carry_out(file, Change::Cut { to: to as usize });
        self.close(outcome)?;
        if turn == Turn::Stops {
            return Err(self.fail());
        }
        Ok(())
    }

    fn sync(&mut self, file: &str) -> Result<(), Failed>
        ensures done { MatchResult result
            (λ _. self.new.done ≡ self.old.done ++ (file.now, syncs) ∷ [])
            (λ _. self.new.done ≡ self.old.done) }
        ensures disk { Syncs result file.now (disk_of self.old) (disk_of self.new) }
        ensures clock { Ticked self.old.calls self.new.calls }
        ensures cause { HasCause self.old.faults self.new.faults result }
        ensures exact { FailsExactly result self.old self.new }
        ensures goes_on { GoesOn result self.old self.new }
    {
        if self.begin() != Turn::Goes {
            return Err(self.fail());
        }
        let outcome = self.carry_out(file, Change::Synced);
        self.close(outcome)?;
        Ok(())
    }
}

#[cfg(test)]
mod tests;
