ghost use Rattle.std.specs.Prelude.{◌≡◌, ℕ, ◌+◌, ◌≤◌, List, [], true, false, IfOk, IsTrue, IsErr, IsErrOf, OnOk};
ghost use Rattle.pad_edge.specs.Count.{CountsIf};
ghost use Rattle.pad_edge.specs.Link.{is_failed};
ghost use Rattle.pad_edge.specs.Port.{is_port_end};
ghost use Rattle.pad_edge.specs.declared.link_refused.LinkRefused.TheVariants as refused;
ghost use Rattle.ws_edge.specs.Address.{IsNoAddress};
ghost use Rattle.ws_edge.specs.WsPort.{PortCounts, OpensFresh};

use crate::failing::has_failed;
use crate::server::Server;
use pad_edge::{LinkRefused, Port, PortEvent};
use std::alloc::Global;
use std::marker::Model;
use std::net::{Net, SocketAddr};
use ws_connection::refusal;

/// A port over TCP, whose clients speak WebSocket. It counts the calls of `listen` and `next` that failed, and the sends; it never
/// ends. A connection whose handshake fails, or that does what is not allowed, is closed and counts as no failure.
#[derive(Drop)]
pub struct WsPort<R: Net + Drop> {
    alloc: Global,
    net: R,
    server: Option<Server>,
    faults: u64,
    drops: u64,
}

impl<R: Net + Drop> Model for WsPort<R> {
    ghost use Rattle.std.specs.Prelude.{is_some};
    ghost use Rattle.ws_edge.specs.WsPort.{PortCounts, number_of};

    ghost Value = { PortCounts };

    ghost view = { λ port. record {
      faults = port.faults;
      drops = port.drops;
      listens = is_some port.server;
      next_number = number_of port.server;
    } };
}

impl<R: Net + Drop> WsPort<R> {
    /// A port that does not listen yet. Until `listen` was answered Ok, every call of `next` and every send fails.
    pub fn new(alloc: Global, net: R) -> WsPort<R>
        ensures { result ≡ record { faults = 0; drops = 0; listens = false; next_number = 0 } }
    {
        WsPort {
            alloc,
            net,
            server: None,
            faults: 0,
            drops: 0,
        }
    }

    /// Begins to listen, which it does at one address in its life.
    fn begin(&mut self, address: &str) -> Result<(), LinkRefused>
        ensures no_address { IsNoAddress address.now → IsErrOf result refused.Failed }
        ensures again { IsTrue self.old.listens → IsErrOf result refused.Failed }
        ensures ok { OnOk result (IsTrue self.new.listens) }
        ensures refused { IsErr result → self.new.listens ≡ self.old.listens }
        ensures same { self.new ≡ record self.old { listens = self.new.listens } }
    {
        if self.server.is_some() {
            return Err(LinkRefused::Failed);
        }
        let Ok(address) = address.parse::<SocketAddr>() else {
            return Err(LinkRefused::Failed);
        };
        match Server::listen(self.alloc, &self.net, address) {
            Ok(server) => {
                self.server = Some(server);
                Ok(())
            }
            Err(error) => Err(refusal(error)),
        }
    }

    /// The next event of the server.
    #[tactic(auto, using(crate::proofs::Numbers::never_ends))]
    fn take_event(&mut self) -> Result<PortEvent, LinkRefused>
        ensures ends { is_port_end result ≡ false }
        ensures deaf { self.old.listens ≡ false → IsErrOf result refused.Failed }
        ensures fresh { IfOk result (λ event. OpensFresh event self.old.next_number self.new.next_number) }
        ensures later { self.old.next_number ≤ self.new.next_number }
        ensures same { self.new ≡ record self.old { next_number = self.new.next_number } }
    {
        match &mut self.server {
            Some(server) => match server.next() {
                Ok(event) => Ok(event),
                Err(error) => Err(refusal(error)),
            },
            None => Err(LinkRefused::Failed),
        }
    }

    /// Hands a text to the server.
    fn pass_on(&mut self, connection: u64, text: &str) -> Result<(), LinkRefused>
        ensures deaf { self.old.listens ≡ false → IsErrOf result refused.Failed }
        ensures same { self.new ≡ self.old }
    {
        match &mut self.server {
            Some(server) => server.send(connection, text),
            None => Err(LinkRefused::Failed),
        }
    }

    /// Counts a failure of `listen` or `next`.
    fn count(&mut self, failed: bool)
        ensures cause { CountsIf failed self.old.faults self.new.faults }
        ensures rest { self.new ≡ record self.old { faults = self.new.faults } }
    {
        if failed {
            self.faults = self.faults.saturating_add(1);
        }
    }
}

impl<R: Net + Drop> Port for WsPort<R> {
    ghost tells = { ⊥ };

    ghost faults = { λ port. port.faults };

    ghost drops = { λ port. port.drops };

    ghost ends = { λ _. 0 };

    ghost events = { λ _. [] };

    ghost sent = { λ _. [] };

    ghost failed = { λ _. [] };

    // A hang-up takes no room.
    ghost spare = { λ _. 1 };

    /// The address is `IP:port`. A port listens once: a second call fails.
    fn listen(&mut self, address: &str) -> Result<(), LinkRefused>
        ensures cause { CountsIf (is_failed result) self.old.faults self.new.faults }
        ensures no_address { IsNoAddress address.now → IsErrOf result refused.Failed }
        ensures again { IsTrue self.old.listens → IsErrOf result refused.Failed }
        ensures counts { (self.new.drops ≡ self.old.drops) × (self.new.next_number ≡ self.old.next_number) }
        ensures ok { OnOk result (IsTrue self.new.listens) }
        ensures refused { IsErr result → self.new.listens ≡ self.old.listens }
    {
        let answer = self.begin(address);
        self.count(has_failed(&answer));
        answer
    }

    /// `Idle` comes after 200 ms in which nothing came.
    fn next(&mut self) -> Result<PortEvent, LinkRefused>
        ensures cause { CountsIf (is_failed result) self.old.faults self.new.faults }
        ensures ends { is_port_end result ≡ false }
        ensures deaf { self.old.listens ≡ false → IsErrOf result refused.Failed }
        ensures fresh { IfOk result (λ event. OpensFresh event self.old.next_number self.new.next_number) }
        ensures later { self.old.next_number ≤ self.new.next_number }
        ensures same { (self.new.drops ≡ self.old.drops) × (self.new.listens ≡ self.old.listens) }
    {
        let answer = self.take_event();
        self.count(has_failed(&answer));
        answer
    }

    fn send(&mut self, connection: u64, text: &str) -> Result<(), LinkRefused>
        ensures cause { CountsIf (is_failed result) self.old.drops self.new.drops }
        ensures deaf { self.old.listens ≡ false → IsErrOf result refused.Failed }
        ensures same { self.new ≡ record self.old { drops = self.new.drops } }
    {
        let answer = self.pass_on(connection, text);
        if has_failed(&answer) {
            self.drops = self.drops.saturating_add(1);
        }
        answer
    }

    /// Nothing more comes over this connection.
    fn hang_up(&mut self, connection: u64)
        ensures { self.new ≡ self.old }
    {
        if let Some(server) = &mut self.server {
            server.hang_up(connection);
        }
    }
}
