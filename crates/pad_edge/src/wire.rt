ghost use Rattle.std.specs.Prelude.{◌≡◌, List, ℕ, string_bytes, IfOk};

use std::alloc::AllocError;
use std::marker::Model;
use std::rc::RcStr;

/// A text of its own, or one that copies share.
#[derive(Debug, Drop)]
enum Held {
    Own(String),
    Shared(RcStr),
}

/// One text that goes over a connection. Contracts see its bytes, which are UTF-8.
#[derive(Debug, Drop)]
pub struct Wire {
    held: Held,
}

impl Model for Wire {
    ghost use Rattle.std.specs.Prelude.{ℕ, List};
    ghost use Rattle.pad_edge.specs.Wire.{bytes_of};

    ghost Value = { List ℕ };

    ghost view = { λ wire. bytes_of wire.held };
}

impl Wire {
    /// The wire text that this string is. It only moves the string.
    pub fn new(text: String) -> Wire
        ensures { result ≡ string_bytes text }
    {
        Wire {
            held: Held::Own(text),
        }
    }

    /// The wire text that this string is, such that its copies share it: a copy of it takes no memory for the text.
    pub fn shared(text: String) -> Result<Wire, AllocError>
        ensures { IfOk result (λ wire. wire ≡ string_bytes text) }
    {
        Ok(Wire {
            held: Held::Shared(RcStr::from_string(text)?),
        })
    }

    /// The same text once more.
    pub fn copy(&self) -> Result<Wire, AllocError>
        ensures { IfOk result (λ wire. wire ≡ self.now) }
    {
        match &self.held {
            Held::Own(text) => Ok(Wire {
                held: Held::Own(text.clone()?),
            }),
            Held::Shared(text) => Ok(Wire {
                held: Held::Shared(text.clone()?),
            }),
        }
    }

    /// Lends the text.
    pub fn as_str(&self) -> &str
        ensures { result.now ≡ self.now }
    {
        match &self.held {
            Held::Own(text) => text.as_str(),
            Held::Shared(text) => text.as_str(),
        }
    }
}
