ghost use Rattle.std.specs.Prelude.{◌≡◌, List};
ghost use Rattle.pad_checkpoint.specs.declared.path_mark.PathMark.{PathMark};

use crate::path_mark::PathMark;
use std::marker::Model;

/// The marks of the messages of a path, the lowest first. Contracts see the list.
#[derive(Debug, Drop)]
pub struct Marks {
    items: Vec<PathMark>,
}

impl Model for Marks {
    ghost Value = { List PathMark };

    ghost view = { λ marks. marks.items.items };
}

impl Marks {
    /// The marks of this vector, in its order. It only moves the vector.
    pub fn new(items: Vec<PathMark>) -> Marks
        ensures { result ≡ items.items }
    {
        Marks { items }
    }

    /// Lends the marks.
    pub fn as_slice(&self) -> &[PathMark]
        ensures { result.now ≡ self.now }
    {
        self.items.as_slice()
    }
}
