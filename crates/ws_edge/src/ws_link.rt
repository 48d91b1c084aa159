ghost use Rattle.std.specs.Prelude.{◌≡◌, ℕ, ◌+◌, ◌-◌, ◌^◌, ◌≤◌, List, [], length, IsErrOf, true};
ghost use Rattle.pad_edge.specs.Count.{CountsIf};
ghost use Rattle.pad_edge.specs.Link.{is_failed, is_link_end, texts_in};
ghost use Rattle.pad_edge.specs.declared.link_refused.LinkRefused.TheVariants as refused;
ghost use Rattle.ws_edge.specs.Address.{IsNoAddress};
ghost use Rattle.ws_edge.specs.WsLink.{LinkCounts};

use crate::client::Client;
use crate::failing::has_failed;
use pad_edge::{Arrival, Link, LinkRefused};
use std::alloc::Global;
use std::marker::Model;
use std::net::{Net, SocketAddr};
use std::random::RandomSource;

/// A link over TCP, to a server that speaks WebSocket. It counts the calls that failed, the ends, and the texts that it gave. A
/// server that sends a binary message, or that does what is not allowed, is hung up: that is an end and no failure.
#[derive(Drop)]
pub struct WsLink<R: Net + RandomSource + Clone> {
    client: Client<R>,
    faults: u64,
    ends: u64,
    given: u64,
}

impl<R: Net + RandomSource + Clone> Model for WsLink<R> {
    ghost use Rattle.ws_edge.specs.WsLink.{LinkCounts};

    ghost Value = { LinkCounts };

    ghost view = { λ link. record { faults = link.faults; ends = link.ends; given = link.given } };
}

impl<R: Net + RandomSource + Clone> WsLink<R> {
    /// A link that is not connected. Until `dial` was answered Ok, the other calls fail.
    pub fn new(alloc: Global, rt: R) -> WsLink<R>
        ensures { result ≡ record { faults = 0; ends = 0; given = 0 } }
    {
        WsLink {
            client: Client::new(alloc, rt),
            faults: 0,
            ends: 0,
            given: 0,
        }
    }

    /// Connects to a server, if the text spells an address.
    fn reach(&mut self, address: &str) -> Result<(), LinkRefused>
        ensures no_address { IsNoAddress address.now → IsErrOf result refused.Failed }
        ensures same { self.new ≡ self.old }
    {
        match address.parse::<SocketAddr>() {
            Ok(address) => self.client.dial(address),
            Err(_) => Err(LinkRefused::Failed),
        }
    }

    /// Counts a call that failed.
    fn fail(&mut self)
        ensures cause { CountsIf true self.old.faults self.new.faults }
        ensures rest { self.new ≡ record self.old { faults = self.new.faults } }
    {
        self.faults = self.faults.saturating_add(1);
    }
}

impl<R: Net + RandomSource + Clone> Link for WsLink<R> {
    ghost tells = { ⊥ };

    ghost faults = { λ link. link.faults };

    ghost ends = { λ link. link.ends };

    ghost given = { λ link. link.given };

    ghost heard = { λ _. [] };

    ghost sent = { λ _. [] };

    /// The address is `IP:port`. The server has 10 seconds to accept the connection, and for each piece of its handshake.
    fn dial(&mut self, address: &str) -> Result<(), LinkRefused>
        ensures cause { CountsIf (is_failed result) self.old.faults self.new.faults }
        ensures no_address { IsNoAddress address.now → IsErrOf result refused.Failed }
        ensures rest { self.new ≡ record self.old { faults = self.new.faults } }
    {
        let answer = self.reach(address);
        if has_failed(&answer) {
            self.fail();
        }
        answer
    }

    fn recv(&mut self) -> Result<Arrival, LinkRefused>
        ensures cause { CountsIf (is_failed result) self.old.faults self.new.faults }
        ensures ends { CountsIf (is_link_end result) self.old.ends self.new.ends }
        ensures given { self.new.given ≡ self.old.given + length (texts_in result) }
        ensures full { 2 ^ 64 - 1 ≤ self.old.given → IsErrOf result refused.Failed }
    {
        let Some(given) = self.given.checked_add(1) else {
            self.fail();
            return Err(LinkRefused::Failed);
        };
        match self.client.recv() {
            Ok(Some(text)) => {
                self.given = given;
                Ok(Arrival::Text(text))
            }
            Ok(None) => {
                self.ends = self.ends.saturating_add(1);
                Ok(Arrival::Ended)
            }
            Err(LinkRefused::Failed) => {
                self.fail();
                Err(LinkRefused::Failed)
            }
            Err(LinkRefused::NoMemory) => Err(LinkRefused::NoMemory),
        }
    }

    fn send(&mut self, text: &str) -> Result<(), LinkRefused>
        ensures cause { CountsIf (is_failed result) self.old.faults self.new.faults }
        ensures rest { self.new ≡ record self.old { faults = self.new.faults } }
    {
        let answer = self.client.send(text);
        if has_failed(&answer) {
            self.fail();
        }
        answer
    }
}
