//! The client: one channel, a working copy, and what was requested.

ghost use Rattle.std.specs.Prelude.{◌≡◌, IfOk};
ghost use Rattle.pad_checkpoint.specs.Place.{place_of};
ghost use Rattle.client_copy.specs.Pad.{committed};
ghost use Rattle.client_outbox.specs.Outbox.{some_awaits};
ghost use Rattle.client_requests.specs.State.{awaits};
ghost use Rattle.pad_client.specs.State.{ClientState, new_client};
ghost use Rattle.pad_client.specs.View.{StandsAs};

mod calls;
mod content;
mod hear;
mod make;
mod repairing;
mod show;
mod sync;

use crate::repair::Repair;
use client_copy::WorkingCopy;
use client_requests::Requests;
use pad_chain::Moves;
use pad_checkpoint::Place;
use pad_patch::UnitStore;
use pad_stroke::Work;
use pad_text::Name;
use std::alloc::{AllocError, Global};
use std::marker::Model;

/// A client of one channel. It takes the texts that it hears and gives the texts that it sends; who owns it moves them.
#[derive(Drop)]
pub struct Client<S: UnitStore> {
    copy: WorkingCopy<S>,
    unreadable: u64,
    wanted: Option<u16>,
    requests: Requests,
    repair: Option<Repair<S>>,
    synced: Moves,
}

impl<S: UnitStore> Model for Client<S> {
    ghost use Rattle.std.specs.Prelude.{IfSome};
    ghost use Rattle.pad_message.specs.Kind.{IsInterval};
    ghost use Rattle.pad_client.specs.View.{View};

    ghost Value = { View };

    ghost view = { λ client. record { copy = client.copy; unreadable = client.unreadable; wanted = client.wanted; requests = client.requests; repair = client.repair; synced = client.synced } };

    ghost invariant = { λ client. IfSome client.wanted IsInterval };
}

impl<S: UnitStore> Client<S> {
    /// A client that has joined no channel, with the first base and no work.
    pub fn new(alloc: Global) -> Result<Client<S>, AllocError>
        ensures { IfOk result (λ client. StandsAs client new_client) }
    {
        let copy = WorkingCopy::new(alloc)?;
        let requests = Requests::new(alloc);
        Ok(Client {
            copy,
            unreadable: 0,
            wanted: None,
            requests,
            repair: None,
            synced: Moves::new(Vec::new(alloc)),
        })
    }

    /// Whether a join, a leave, a history or a message of the outbox still awaits its answer.
    pub fn awaits(&self) -> bool
        ensures { result ≡ awaits self.now.requests }
    {
        self.requests.awaits()
    }

    /// Whether a message of the outbox still awaits its answer.
    pub fn outbox_awaits(&self) -> bool
        ensures { result ≡ some_awaits self.now.requests.outbox }
    {
        self.requests.outbox().awaits()
    }

    /// The number given out last to a request; 0 before the first.
    pub fn requests(&self) -> u32
        ensures { result ≡ self.now.requests.last }
    {
        self.requests.last()
    }

    /// The number given out last to an edit; 0 before the first.
    pub fn strokes(&self) -> u64
        ensures { result ≡ self.now.copy.strokes }
    {
        self.copy.strokes()
    }

    /// Lends the work that was not sent.
    pub fn work(&self) -> &Work
        ensures { result.now ≡ self.now.copy.work }
    {
        self.copy.work()
    }

    /// Lends the committed text.
    pub fn text(&self) -> &S
        ensures is { S.units result.now ≡ self.now.copy.pad.chain.branch.branch.units }
        ensures stands { (client : ClientState) → StandsAs self.now client → S.units result.now ≡ committed client.copy.pad }
    {
        self.copy.text()
    }

    /// Where the best chain ends.
    pub fn best(&self) -> Place
        ensures { (client : ClientState) → StandsAs self.now client → result ≡ place_of client.copy.pad.base client.copy.pad.choice.chosen }
    {
        self.copy.chain().best()
    }

    /// The name of the base.
    pub fn base(&self) -> Name
        ensures { (client : ClientState) → StandsAs self.now client → result ≡ client.copy.pad.base.name }
    {
        self.copy.base()
    }
    /// Lends the messages that the last `sync` that was not refused brought onto the best chain, the oldest first, each with its
    /// patch. There are none before the first.
    pub fn synced(&self) -> &Moves
        ensures { result.now ≡ self.now.synced }
    {
        &self.synced
    }
}
