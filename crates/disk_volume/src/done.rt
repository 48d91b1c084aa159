// The calls that changed a file of a volume in memory.
ghost use Rattle.std.specs.Prelude.{◌≡◌, OnOk, OnErr};
ghost use Rattle.disk_volume.specs.Step.{changed};
ghost use Rattle.disk_volume.specs.Inside.Step.{filled, is_sync_of};

use crate::bytes::{fill_range, overwrite};
use std::alloc::AllocError;
use std::marker::Model;

/// What a call did to a file.
#[derive(Debug, Drop)]
pub enum Change {
    /// Wrote these bytes from the offset `at` on.
    Wrote { at: usize, piece: Vec<u8> },
    /// Cut it to this length.
    Cut { to: usize },
    /// Answered Ok to a sync.
    Synced,
}

/// A call that changed a file. Contracts see the name of the file and the step.
#[derive(Debug, Drop)]
pub struct Done {
    file: String,
    change: Change,
}

impl Model for Done {
    ghost use Rattle.std.specs.Prelude.{ℕ, List, string_bytes};
    ghost use Rattle.disk_volume.specs.Step.{Step};

    ghost Value = { List ℕ × Step };

    ghost use Rattle.disk_volume.specs.Inside.Change.{step_of};

    ghost view = { λ done. (string_bytes done.file, step_of done.change) };
}

impl Done {
    ghost use Rattle.std.specs.Prelude.{string_bytes};
    ghost use Rattle.disk_volume.specs.Inside.Change.{step_of};

    /// This change of the file of this name.
    pub fn new(file: String, change: Change) -> Done
        ensures { result ≡ (string_bytes file, step_of change) }
    {
        Done { file, change }
    }

    /// The name of the file.
    pub fn file(&self) -> &str
        ensures { result.now ≡ self.now.0 }
    {
        self.file.as_str()
    }

    /// What it did.
    pub fn change(&self) -> &Change
        ensures { step_of result.now ≡ self.now.1 }
    {
        &self.change
    }

    /// Does it again to these bytes. They stay as they are if memory runs out.
    pub fn apply(&self, bytes: &mut Vec<u8>) -> Result<(), AllocError>
        ensures ok { OnOk result (bytes.new.items ≡ changed self.now.1 bytes.old.items) }
        ensures err { OnErr result (bytes.new.items ≡ bytes.old.items) }
    {
        match &self.change {
            Change::Wrote { at, piece } => overwrite(bytes, *at, piece),
            Change::Cut { to } => {
                bytes.truncate(*to);
                Ok(())
            }
            Change::Synced => Ok(()),
        }
    }

    /// Puts one byte all over the range that it wrote, as far as the bytes go.
    pub fn tear(&self, byte: u8, bytes: &mut Vec<u8>)
        ensures { bytes.new.items ≡ filled self.now.1 byte bytes.old.items }
    {
        if let Change::Wrote { at, piece } = &self.change {
            fill_range(bytes, *at, piece.len(), byte);
        }
    }

    /// Whether it is a sync of this file.
    pub fn is_sync_of(&self, file: &str) -> bool
        ensures { result ≡ is_sync_of file.now self.now }
    {
        matches!(self.change, Change::Synced) && self.file.as_str() == file
    }
}
