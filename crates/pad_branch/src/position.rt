ghost use Rattle.std.specs.Prelude.{◌≡◌, ◌≤◌, length};
ghost use Rattle.pad_text.specs.Hash.{document_hash};
ghost use Rattle.pad_patch.specs.Misfit.{longest_text};
ghost use Rattle.pad_message.specs.Kind.{IsInterval};

use crate::tip::Tip;
use pad_patch::UnitStore;

/// The end of a path: its text and its tip.
#[derive(Drop)]
pub(crate) struct Position<S: UnitStore> {
    /// The text.
    pub(crate) text: S,
    /// What else the next message meets.
    pub(crate) tip: Tip,
    ghost hashed: { tip.hash ≡ document_hash (S.units text) },
    ghost short: { length (S.units text) ≤ longest_text },
    ghost timed: { IsInterval tip.interval },
}
