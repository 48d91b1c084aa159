ghost use Rattle.std.specs.Prelude.{◌≡◌, List, [], ◌∷◌, IfOk};
ghost use Rattle.pad_generator.specs.Item.{Item, back_of, base_item, item_before};
ghost use Rattle.pad_generator.specs.Inside.KeptItem.{item_of};

use crate::kept_item::KeptItem;
use std::alloc::{AllocError, Global};

/// The last three items: a message stands on none that is older. Where there are fewer, the base takes their place.
#[derive(Drop)]
pub(crate) struct Recent {
    newest: KeptItem,
    second: KeptItem,
    third: KeptItem,
}

impl Recent {
    ghost use Rattle.pad_generator.specs.Inside.Recent.{AreRecent};

    /// The base alone.
    pub(crate) fn base(alloc: Global) -> Result<Recent, AllocError>
        ensures { IfOk result (λ recent. AreRecent recent (base_item ∷ [])) }
    {
        Ok(Recent {
            newest: KeptItem::base(alloc)?,
            second: KeptItem::base(alloc)?,
            third: KeptItem::base(alloc)?,
        })
    }

    /// The parent of the next item, by a word.
    pub(crate) fn parent(&self, choice: u32) -> &KeptItem
        ensures { (items : List Item) → AreRecent self.now items → item_of result.now ≡ item_before (back_of choice) items }
    {
        if choice % 8 == 0 {
            &self.third
        } else {
            &self.newest
        }
    }

    /// The last three with one more.
    pub(crate) fn with(self, item: KeptItem) -> Recent
        ensures { (items : List Item) → AreRecent self items → AreRecent result (item_of item ∷ items) }
    {
        Recent {
            newest: item,
            second: self.newest,
            third: self.second,
        }
    }
}
