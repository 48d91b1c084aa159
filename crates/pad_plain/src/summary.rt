//! What a report has of the messages received.

ghost use Rattle.std.specs.Prelude.{IfOk};
ghost use Rattle.pad_model.specs.Path.{NamesDiffer};

use crate::choice::choice;
use crate::evaluate::text_at;
use crate::kept::count_kept;
use crate::links::linked_paths;
use crate::messages::Messages;
use crate::path::Tip;
use pad_model::Base;
use pad_text::Text;
use std::alloc::{AllocError, Global};

/// What is chosen of the messages received, and the counts.
#[derive(Debug, Drop)]
pub struct Summary {
    /// The end of the chosen path.
    pub best: Tip,
    /// The text after the chosen path.
    pub text: Text,
    /// The end of the path to the kept root.
    pub root: Tip,
    /// How many different names were received, the base's not counted.
    pub known: usize,
    /// How many different messages wait for a parent.
    pub waiting: usize,
    /// How many different messages are linked through the kept root, the root (or the base, if that is the root) included.
    pub kept: usize,
    /// How many messages overtook the path that was chosen as they came.
    pub overtaken: u64,
}

impl Summary {
    ghost use Rattle.pad_plain.specs.Summary.{IsSummary};

    /// The summary of the messages received.
    pub fn of(alloc: Global, base: &Base, messages: &Messages) -> Result<Summary, AllocError>
        ensures { IfOk result (λ summary. NamesDiffer messages.now → IsSummary base.now messages.now summary) }
    {
        let chosen = choice(alloc, base, messages)?;
        let count = messages.as_slice().len();
        let received = messages.first(count);
        let names = messages.names(count);
        let links = linked_paths(alloc, base, messages, count)?;
        let parents = links.parents.as_slice();
        let candidates = links.candidates.as_slice();
        let root = &chosen.root;
        let above = count_kept(alloc, base, received, names, parents, root, candidates)?;
        let text = text_at(alloc, base, received, chosen.path.places.as_slice())?;
        Ok(Summary {
            best: chosen.path.tip,
            text,
            root: chosen.root,
            known: messages.known(base),
            waiting: links.waiting,
            kept: above + 1,
            overtaken: chosen.overtaken,
        })
    }
}
