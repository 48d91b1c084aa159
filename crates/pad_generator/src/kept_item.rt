ghost use Rattle.std.specs.Prelude.{◌≡◌, ◌+◌, ◌<◌, ◌^◌, IfOk};
ghost use Rattle.pad_message.specs.Message.{name_of};
ghost use Rattle.pad_patch.specs.Misfit.{CanApply};
ghost use Rattle.pad_generator.specs.Item.{base_item, item_after};

use pad_message::Message;
use pad_model::Base;
use pad_patch::UnitStore;
use pad_rope::Rope;
use pad_text::Name;
use std::alloc::{AllocError, Global};

/// An item, with its text in a rope, which shares what it has in common with the texts of other items.
#[derive(Drop)]
pub(crate) struct KeptItem {
    /// The name of its message, or the base's.
    pub(crate) name: Name,
    /// The text after it.
    pub(crate) text: Rope,
    /// Its height.
    pub(crate) height: u32,
}

impl KeptItem {
    ghost use Rattle.pad_generator.specs.Inside.KeptItem.{item_of};

    /// The base.
    pub(crate) fn base(alloc: Global) -> Result<KeptItem, AllocError>
        ensures { IfOk result (λ item. item_of item ≡ base_item) }
    {
        let base = Base::first(alloc);
        Ok(KeptItem {
            name: base.name,
            text: Rope::from_text(alloc, &base.text)?,
            height: 0,
        })
    }

    /// The same item once more.
    pub(crate) fn copy(&self, alloc: Global) -> Result<KeptItem, AllocError>
        ensures { IfOk result (λ copy. item_of copy ≡ item_of self.now) }
    {
        Ok(KeptItem {
            name: self.name,
            text: self.text.copy(alloc)?,
            height: self.height,
        })
    }

    /// The item of a message on this one. It keeps what helps to hash the text.
    pub(crate) fn after(
        &self,
        alloc: Global,
        message: &Message,
        name: Name,
    ) -> Result<KeptItem, AllocError>
        requires applies { CanApply message.now.patch (item_of self.now).text }
        requires name { name ≡ name_of message.now }
        requires height { self.now.height + 1 < 2 ^ 32 }
        ensures { IfOk result (λ item. item_of item ≡ item_after (item_of self.now) message.now) }
    {
        let mut text = message.patch.apply(alloc, &self.text)?;
        text.remember(alloc)?;
        Ok(KeptItem {
            name,
            text,
            height: self.height + 1,
        })
    }
}
