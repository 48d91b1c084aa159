ghost use Rattle.std.specs.Prelude.{◌≡◌};
ghost use Rattle.pad_top.specs.Inside.Ending.{fixed_line};
ghost use Rattle.pad_top.specs.Status.{status_number};

/// How a run ended.
#[derive(Clone, Copy, Debug, PartialEq, Eq)]
pub enum Status {
    /// The command was done to its end.
    Ok,
    /// The words are no command.
    Usage,
    /// A read of the input failed.
    ReadFault,
    /// A write of the output failed.
    WriteFault,
    /// A call of the volume failed: of a log any call, of serving the choice of the folder.
    StoreFault,
    /// The port could not listen, or failed; or the link did.
    LinkFault,
    /// The input has more bytes, or more different names of messages, than a run takes.
    Limit,
    /// The line of this number, from 1, is the first of the script that is outside the grammar.
    BadScript(u64),
    /// There was not enough memory.
    NoMemory,
    /// The files of the channel are damaged.
    Damaged,
    /// The link ended while a line of the script still had to hear a text.
    EndedEarly,
}

impl Status {
    /// The number that a program ends with.
    pub fn number(self) -> u8
        ensures { result ≡ status_number self }
    {
        match self {
            Status::Ok => 0,
            Status::Usage => 2,
            Status::ReadFault => 3,
            Status::WriteFault => 4,
            Status::StoreFault => 5,
            Status::LinkFault => 6,
            Status::Limit => 7,
            Status::BadScript(_) => 8,
            Status::NoMemory => 9,
            Status::Damaged => 10,
            Status::EndedEarly => 11,
        }
    }

    /// The line that tells why a run ended early, which is written last. It is empty where nothing is told, and of a bad script, whose
    /// line has a number in it.
    pub(crate) fn line(self) -> &'static [u8]
        ensures { result.now ≡ fixed_line self }
    {
        match self {
            Status::Ok | Status::WriteFault | Status::NoMemory | Status::BadScript(_) => b"",
            Status::Usage => b"usage\n",
            Status::ReadFault => b"read fault\n",
            Status::StoreFault => b"store fault\n",
            Status::LinkFault => b"link fault\n",
            Status::Limit => b"limit\n",
            Status::Damaged => b"damaged\n",
            Status::EndedEarly => b"ended early\n",
        }
    }
}
