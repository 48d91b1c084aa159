ghost use Rattle.std.specs.Prelude.{◌≡◌};

use std::marker::Model;

/// A command, and the line of the script that it stands in.
#[derive(Debug, Drop)]
pub struct Command<A> {
    /// The number of the line, from 1.
    pub line: u64,
    /// What is commanded.
    pub act: A,
}

/// The commands of a script, in their order. Contracts see the list.
#[derive(Debug, Drop)]
pub struct Commands<A> {
    items: Vec<Command<A>>,
}

impl<A> Model for Commands<A> {
    ghost use Rattle.std.specs.Prelude.{List};
    ghost use Rattle.pad_script.specs.declared.command.Command.{Command};

    ghost Value = { List (Command A) };

    ghost view = { λ commands. commands.items.items };
}

impl<A> Commands<A> {
    /// The commands of this vector, in its order. It only moves the vector.
    pub fn new(items: Vec<Command<A>>) -> Commands<A>
        ensures { result ≡ items.items }
    {
        Commands { items }
    }

    /// Lends the commands.
    pub fn as_slice(&self) -> &[Command<A>]
        ensures { result.now ≡ self.now }
    {
        self.items.as_slice()
    }
}
