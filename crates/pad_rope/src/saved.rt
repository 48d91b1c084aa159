//! Hashers that are kept on the way through a text.
ghost use Rattle.std.specs.Prelude.{◌≡◌, ℕ, List, ◌+◌, ◌≤◌, length, take, IfOk};
ghost use Rattle.pad_text.specs.Text.{CutsPair};
ghost use Rattle.pad_text.specs.Hash.{document_hash};
ghost use Rattle.pad_rope.specs.Inside.Saved.{AreSaved, IsSaved, newest_place};

use crate::tree::Tree;
use pad_text::{Name, is_first_of_pair, is_second_of_pair};
use sha2::{Digest, Sha256};
use std::alloc::{AllocError, Global};
use std::rc::Rc;

/// The most units between one saved hasher and the next.
const STEP: usize = 1024;

/// Hashers of what stands before places of a text, the last place first. Texts that begin alike share them.
pub(crate) enum Saved {
    Start,
    After {
        place: usize,
        hasher: Sha256,
        earlier: Rc<Saved>,
    },
}

/// A loop, since there may be many.
impl Drop for Saved {
    fn drop(mut self) {
        loop {
            match self {
                Saved::Start => return,
                Saved::After {
                    place: _,
                    hasher: _,
                    earlier,
                } => match Rc::into_inner(earlier) {
                    Some(saved) => self = saved,
                    None => return,
                },
            }
        }
    }
}

impl Saved {
    /// The last place with a saved hasher, in units.
    fn place(&self) -> usize
        ensures { result ≡ newest_place self.now }
    {
        match self {
            Saved::Start => 0,
            Saved::After { place, .. } => *place,
        }
    }

    /// A hasher of what stands before that place.
    fn hasher(&self) -> Result<Sha256, AllocError>
        ensures { IfOk result (λ hasher. (units : List ℕ) → AreSaved units self.now → IsSaved units (newest_place self.now) hasher) }
    {
        match self {
            Saved::Start => Ok(Sha256::new()),
            Saved::After { hasher, .. } => {
                let copy = hasher.clone()?;
                Ok(copy)
            }
        }
    }
}

/// The hashers that were saved up to a place. They serve each text that begins alike up to there.
pub(crate) fn up_to(saved: &Rc<Saved>, place: usize) -> Result<Rc<Saved>, AllocError>
    ensures { IfOk result (λ kept. (before after : List ℕ) → AreSaved before saved.now.value
        → place ≤ length after → take place before ≡ take place after → AreSaved after kept.value) }
{
    let mut kept = saved;
    'back: loop {
        let here: &Saved = kept;
        match here {
            Saved::After {
                place: last,
                earlier,
                ..
            } if *last > place => kept = earlier,
            _ => return kept.clone(),
        }
    }
}

/// The saved hashers, and more of them up to the end of the text.
pub(crate) fn to_the_end(
    alloc: Global,
    tree: &Tree,
    saved: &Rc<Saved>,
) -> Result<Rc<Saved>, AllocError>
    requires { AreSaved tree.now.units saved.now.value }
    ensures { IfOk result (λ more. AreSaved tree.now.units more.value) }
{
    let mut kept = saved.clone()?;
    let steps = tree.length().saturating_sub(kept.place()) / STEP;
    'more: for _step in 0..steps {
        kept = one_more(alloc, tree, kept)?;
    }
    Ok(kept)
}

/// The saved hashers and the next one, if the text goes on that far.
fn one_more(alloc: Global, tree: &Tree, saved: Rc<Saved>) -> Result<Rc<Saved>, AllocError>
    requires { AreSaved tree.now.units saved.value }
    ensures { IfOk result (λ more. AreSaved tree.now.units more.value) }
{
    let place = saved.place();
    if tree.length().saturating_sub(place) < STEP {
        return Ok(saved);
    }
    let next = whole_before(tree, place + STEP);
    let mut hasher = saved.hasher()?;
    tree.feed(alloc, place, next, &mut hasher)?;
    let more = Rc::new(
        alloc,
        Saved::After {
            place: next,
            hasher,
            earlier: saved,
        },
    )?;
    Ok(more)
}

/// The place, or the one before it if it cuts a pair.
fn whole_before(tree: &Tree, place: usize) -> usize
    requires past { 2 ≤ place }
    requires inside { place ≤ length tree.now.units }
    ensures near { place ≤ result + 1 }
    ensures before { result ≤ place }
    ensures whole { ¬ (CutsPair tree.now.units result) }
{
    if place < tree.length()
        && is_first_of_pair(tree.unit(place - 1))
        && is_second_of_pair(tree.unit(place))
    {
        place - 1
    } else {
        place
    }
}

/// The document hash of a text, from the last saved hasher on.
pub(crate) fn hash(alloc: Global, tree: &Tree, saved: &Saved) -> Result<Name, AllocError>
    requires { AreSaved tree.now.units saved.now }
    ensures { IfOk result (λ name. name ≡ document_hash tree.now.units) }
{
    let mut hasher = saved.hasher()?;
    tree.feed(alloc, saved.place(), tree.length(), &mut hasher)?;
    Ok(Name(hasher.finalize()))
}
