//! Laws over the definitions alone. The functions do nothing: a contract is the law.
ghost use Rattle.pad_generator.specs.Laws.{AsManyAsAsked, EachIsRead, EachIsSound, OnlyTheOrderChanges};

use pad_message::{compact_texts_read_back, marked_texts_read_back};

/// A path of the messages leads to each item, and so each message is sound where it stands, if none has the base's name.
pub fn each_is_sound()
    ensures { EachIsSound }
{}

/// There are as many contents as were asked for.
pub fn as_many_as_asked()
    ensures { AsManyAsAsked }
{}

/// Blocks change the order of the contents alone.
pub fn only_the_order_changes()
    ensures { OnlyTheOrderChanges }
{}

/// Each content is read as the message that it is of.
pub fn each_is_read()
    ensures { EachIsRead }
{
    // By these laws a text that is not too long is read.
    compact_texts_read_back();
    marked_texts_read_back();
}
