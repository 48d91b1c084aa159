ghost use Rattle.std.specs.Prelude.{◌≡◌, ◌<◌, ◌≤◌, ◌↔◌, ◌⊎◌, ◌++◌, length, false, ℕ, List, Bool, Err, IfErr, IfOk, IfSome, IfNone, IsTrue};
ghost use Rattle.pad_text.specs.Plain.{plain};
ghost use Rattle.pad_message.specs.Content.{longest_content, mark, most_operations, without_mark};

use crate::content::{LONGEST_CONTENT, without_mark};
use crate::kind::Kind;
use crate::read_refused::ReadRefused;
use crate::reading::message_from;
use crate::writing::message_value;
use pad_edge::Wire;
use pad_json::read_plain;
use pad_patch::{LONGEST_TEXT, Patch};
use pad_text::{Name, Text};
use std::alloc::{AllocError, Global};

/// One link of a chain.
#[derive(Debug, Drop)]
pub struct Message {
    /// Whether it is an edit or a checkpoint.
    pub kind: Kind,
    /// What it does to the text of its parent.
    pub patch: Patch,
    /// The name of the message before it, or the base's.
    pub parent: Name,
}

impl Message {
    ghost use Rattle.pad_message.specs.declared.message.Message.{Message};
    ghost use Rattle.pad_message.specs.Content.{Reads};
    ghost use Rattle.pad_message.specs.Message.{compact, name_of};
    ghost use Rattle.pad_message.specs.Kind.{HasInterval};
    ghost use Rattle.pad_message.specs.Adopt.{CanAdopt, IsWhole};

    /// The message that a content spells. A content that is too long or not plain is unreadable, which takes no memory.
    pub fn read(alloc: Global, content: &str) -> Result<Message, ReadRefused>
        ensures ok { IfOk result (Reads content.now) }
        ensures few { IfOk result (λ message. length message.patch.ops ≤ most_operations) }
        ensures interval { IfOk result (λ message. HasInterval message.kind) }
        ensures unreadable { IfErr result (λ refused. refused ≡ ReadRefused.Unreadable
            → (message : Message) → ¬ (Reads content.now message)) }
        ensures no_memory { (longest_content < length content.now) ⊎ (plain (without_mark content.now) ≡ false)
            → result ≡ Err ReadRefused.Unreadable }
    {
        if content.len() > LONGEST_CONTENT {
            return Err(ReadRefused::Unreadable);
        }
        let Some(value) = read_plain(alloc, without_mark(content))? else {
            return Err(ReadRefused::Unreadable);
        };
        message_from(alloc, &value)
    }

    /// The compact text: without whitespace, and with the shortest spelling of each string. It names the interval of a
    /// checkpoint where that is not the usual one.
    #[tactic(auto, using(crate::proofs::Values::floats, crate::proofs::RoundTrip::round_trips), unfolding(crate::specs::Message::compact))]
    pub fn text(&self, alloc: Global) -> Result<Wire, AllocError>
        requires few { length self.now.patch.ops ≤ most_operations }
        requires interval { HasInterval self.now.kind }
        ensures compact { IfOk result (λ wire. wire ≡ compact self.now) }
        ensures reads { IfOk result (λ wire. length wire ≤ longest_content → Reads wire self.now) }
        ensures marked { IfOk result (λ wire. length (mark ++ wire) ≤ longest_content
            → Reads (mark ++ wire) self.now) }
    {
        let value = message_value(alloc, self)?;
        Ok(Wire::new(value.to_string(alloc)?))
    }

    /// The name: the SHA-256 of the compact text.
    #[tactic(auto, unfolding(crate::specs::Message::name_of))]
    pub fn name(&self, alloc: Global) -> Result<Name, AllocError>
        requires few { length self.now.patch.ops ≤ most_operations }
        requires interval { HasInterval self.now.kind }
        ensures { IfOk result (λ name. name ≡ name_of self.now) }
    {
        let text = self.text(alloc)?;
        Ok(Name::of_bytes(text.as_str().as_bytes()))
    }

    /// Whether the message can become the base of a chain: it is a checkpoint that spells a text whole, that is not too
    /// long, and was made for that text.
    #[tactic(auto, using(crate::proofs::Adopting::adopt_test))]
    pub fn can_adopt(&self, alloc: Global) -> Result<bool, AllocError>
        ensures { IfOk result (λ can. IsTrue can ↔ CanAdopt self.now) }
    {
        if !self.kind.is_checkpoint() {
            return Ok(false);
        }
        let Some(text) = self.whole_text() else {
            return Ok(false);
        };
        if text.len() > LONGEST_TEXT {
            return Ok(false);
        }
        Ok(text.hash(alloc)? == self.patch.before)
    }

    /// The text that the patch puts in its own place, where it does no more.
    fn whole_text(&self) -> Option<&Text>
        ensures some { IfSome result (λ text. IsWhole self.now text.now) }
        ensures none { IfNone result ((text : List ℕ) → ¬ (IsWhole self.now text)) }
    {
        let ops = self.patch.ops.as_slice();
        if ops.len() != 1 {
            return None;
        }
        let whole = &ops[0];
        if whole.offset != 0 || whole.remove as usize != whole.insert.len() {
            return None;
        }
        Some(&whole.insert)
    }
}
