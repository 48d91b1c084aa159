//! A client with its connection.

ghost use Rattle.std.specs.Prelude.{◌≡◌, ◌∷◌, [], ℕ, List, true, IfOk, OnOk, OnErr};
ghost use Rattle.pad_client.specs.Report.{IsClientReport};
ghost use Rattle.pad_seat.specs.State.{SeatState, StandsAs, new_seat, without_seat};
ghost use Rattle.pad_seat.specs.Texts.{first_of, without_first, repeated, is_none, hears_later};

mod calls;
mod hear;

use crate::queue::Queue;
use pad_client::Client;
use pad_edge::Wire;
use pad_patch::UnitStore;
use std::alloc::{AllocError, Global};
use std::marker::Model;

/// A client, whether it has a connection, and the texts on their way to the hub and to the client.
#[derive(Drop)]
pub struct Seat<S: UnitStore> {
    client: Client<S>,
    connected: bool,
    up: Queue,
    down: Queue,
}

impl<S: UnitStore> Model for Seat<S> {
    ghost use Rattle.pad_seat.specs.State.{View};

    ghost Value = { View };

    ghost view = { λ seat. record { client = seat.client; connected = seat.connected; up = seat.up; down = seat.down } };
}

impl<S: UnitStore> Seat<S> {
    /// A new client without a connection.
    pub fn new(alloc: Global) -> Result<Seat<S>, AllocError>
        ensures { IfOk result (λ seat. StandsAs seat new_seat) }
    {
        let client = Client::new(alloc)?;
        Ok(Seat {
            client,
            connected: false,
            up: Queue::new(alloc),
            down: Queue::new(alloc),
        })
    }

    /// The number given out last to a request; 0 before the first.
    pub fn requests(&self) -> u32
        ensures { result ≡ self.now.client.requests.last }
    {
        self.client.requests()
    }

    /// The number given out last to an edit; 0 before the first.
    pub fn strokes(&self) -> u64
        ensures { result ≡ self.now.client.copy.strokes }
    {
        self.client.strokes()
    }

    /// Whether it has a connection.
    pub fn is_connected(&self) -> bool
        ensures { result ≡ self.now.connected }
    {
        self.connected
    }

    /// Whether no text is on its way to the hub.
    pub fn is_up_empty(&self) -> bool
        ensures { result ≡ is_none self.now.up }
    {
        self.up.is_empty()
    }

    /// Whether no text is on its way to the client.
    pub fn is_down_empty(&self) -> bool
        ensures { result ≡ is_none self.now.down }
    {
        self.down.is_empty()
    }

    /// It has a connection now.
    pub fn connect(&mut self)
        ensures { self.new ≡ record self.old { connected = true } }
    {
        self.connected = true;
    }

    /// It has lost its connection, if it had one. It takes no memory.
    pub fn lose(&mut self, alloc: Global)
        ensures { self.new ≡ without_seat self.old }
    {
        if self.connected {
            self.client.lost();
            self.connected = false;
            self.up = Queue::new(alloc);
            self.down = Queue::new(alloc);
        }
    }

    /// Takes the first text on its way to the hub.
    pub fn take_up(&mut self) -> Option<Wire>
        ensures first { result ≡ first_of self.old.up }
        ensures rest { self.new ≡ record self.old { up = without_first self.old.up } }
    {
        self.up.take()
    }

    /// Takes the first text on its way to the client, which does not hear it.
    pub fn take_down(&mut self) -> Option<Wire>
        ensures first { result ≡ first_of self.old.down }
        ensures rest { self.new ≡ record self.old { down = without_first self.old.down } }
    {
        self.down.take()
    }

    /// Puts a text last on its way to the client. Without a connection it is dropped. After want of memory nothing is changed.
    pub fn put_down(&mut self, text: Wire) -> Result<(), AllocError>
        ensures put { OnOk result (self.new ≡ hears_later text self.old) }
        ensures unchanged { OnErr result (self.new ≡ self.old) }
    {
        if self.connected {
            return self.down.put(text);
        }
        Ok(())
    }

    /// Puts a copy of the first text on its way to the hub last.
    pub fn repeat_up(&mut self) -> Result<(), AllocError>
        ensures { OnOk result (self.new ≡ record self.old { up = repeated self.old.up }) }
    {
        self.up.repeat()
    }

    /// Puts a copy of the first text on its way to the client last.
    pub fn repeat_down(&mut self) -> Result<(), AllocError>
        ensures { OnOk result (self.new ≡ record self.old { down = repeated self.old.down }) }
    {
        self.down.repeat()
    }

    /// The report of the client.
    pub fn show(&self, alloc: Global) -> Result<Wire, AllocError>
        ensures { IfOk result (λ report. (seat : SeatState) → StandsAs self.now seat → IsClientReport seat.client report) }
    {
        self.client.show(alloc)
    }
}
