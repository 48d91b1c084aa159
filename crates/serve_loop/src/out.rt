ghost use Rattle.std.specs.Prelude.{◌≡◌};

use pad_edge::Wire;
use std::marker::Model;

/// What a machine wants done at its port.
#[derive(Debug, Drop)]
pub enum Out {
    /// This text is to be sent over this connection.
    Send(u64, Wire),
    /// This connection is to be hung up.
    HangUp(u64),
}

/// Outputs in order. Contracts see the list of them.
#[derive(Debug, Drop)]
pub struct Outs {
    outs: Vec<Out>,
}

impl Model for Outs {
    ghost use Rattle.std.specs.Prelude.{List};
    ghost use Rattle.serve_loop.specs.declared.out.Out.{Out};

    ghost Value = { List Out };

    ghost view = { λ outs. outs.outs.items };
}

impl Outs {
    /// The outputs of this vector, in its order. It only moves the vector.
    pub fn new(outs: Vec<Out>) -> Outs
        ensures { result ≡ outs.items }
    {
        Outs { outs }
    }

    /// Lends the outputs.
    pub fn as_slice(&self) -> &[Out]
        ensures { result.now ≡ self.now }
    {
        self.outs.as_slice()
    }
}
