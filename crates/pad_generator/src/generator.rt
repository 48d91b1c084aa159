ghost use Rattle.std.specs.Prelude.{◌≡◌, ◌≤◌, map, IfOk};
ghost use Rattle.pad_generator.specs.Contents.{content_of, contents, messages};

use crate::blocks::reverse_blocks;
use crate::drafting::{message_on, spelled};
use crate::recent::Recent;
use crate::words::Words;
use pad_edge::{Wire, Wires};
use std::alloc::{AllocError, Global};

/// The most messages that are generated at once.
pub const MOST_MESSAGES: u32 = 100_000;

/// The contents of so many generated messages of a number, in the order in which they are given out.
pub fn generate(alloc: Global, number: u64, count: u32) -> Result<Wires, AllocError>
    requires some { 1 ≤ count }
    requires few { count ≤ MOST_MESSAGES }
    ensures { IfOk result (λ wires. wires ≡ contents number count) }
{
    let mut contents = in_order(alloc, number, count)?;
    reverse_blocks(contents.as_mut_slice());
    Ok(Wires::new(contents))
}

/// The contents of the messages in the order in which they are made.
fn in_order(alloc: Global, number: u64, count: u32) -> Result<Vec<Wire>, AllocError>
    requires { count ≤ MOST_MESSAGES }
    ensures { IfOk result (λ made. made.items ≡ map content_of (messages number count)) }
{
    let mut contents = Vec::with_capacity(alloc, count as usize)?;
    let mut words = Words::new(number);
    let mut recent = Recent::base(alloc)?;
    'items: for _ in 0..count {
        let parent = recent.parent(words.next());
        let message = message_on(alloc, &mut words, parent)?;
        let (content, name) = spelled(alloc, &message)?;
        let item = parent.after(alloc, &message, name)?;
        recent = recent.with(item);
        contents.push(content)?;
    }
    Ok(contents)
}
