//! A server that listens on an address.

ghost use Rattle.std.specs.Prelude.{◌≡◌, None, MatchResult};
ghost use Rattle.names.specs.declared.format.Rules.{Rules};
ghost use Rattle.decoded.specs.Standing.{History, View};
ghost use Rattle.histories.specs.View.{view};
ghost use Rattle.durable.specs.Settled.{IsSettledAt};
ghost use Rattle.api.specs.Answers.{ShowsAt};
ghost use Rattle.clients.specs.Serving.{HasServedSome, StopsClients};

use crate::event_loop::{EventLoop, Limits};
use crate::fault::{BindFault, ClientsFault};
use crate::socket::Socket;
use crate::sockets::Sockets;
use device::Device;
use durable::Store;
use httpmsg::Output;
use std::alloc::Global;
use std::net::{Net, SocketAddr};
use std::time::Clock;

/// A listening socket and the clients that came by it.
#[derive(Drop)]
pub struct Server {
    sockets: Sockets,
    event_loop: EventLoop<Socket>,
}

impl Server {
    /// Listens on an address, for this many clients at once. All memory that does not depend on what clients send is taken here.
    ///
    /// # Errors
    ///
    /// `System` where the system refuses the address, or to tell what is ready; out of memory.
    pub fn bind<N: Net>(
        net: &N,
        alloc: Global,
        address: SocketAddr,
        limits: Limits,
    ) -> Result<Server, BindFault> {
        Ok(Server {
            sockets: Sockets::bind(net, alloc, address)?,
            event_loop: EventLoop::new(alloc, limits)?,
        })
    }

    /// The address that is listened on: with the port that the system gave, where port 0 was asked for. `None` where the system does not tell it.
    pub fn address(&self) -> Option<SocketAddr> {
        self.sockets.address()
    }

    /// Serves clients until as many connections as may be accepted have ended. Without such a number it ends only by a fault.
    ///
    /// # Errors
    ///
    /// `Store` where the store failed, and `Compaction` where it failed while it was compacted: those whose messages are not answered are told so, for a
    /// second at most. `Network` where the system no longer tells what is ready, or what time it is.
    ///
    /// Where the limits say so, a line is written to `log` for each message that is answered, after its reply was put to what is sent. It begins with the time
    /// at which the turn began that answered the message. Where the limits say so, the store is compacted between two turns, and a line is written of each
    /// compaction. All clients wait meanwhile. A log that cannot be written loses lines, and stops nothing.
    pub fn run<C: Clock, D: Device, L: Output>(
        &mut self,
        clock: &C,
        alloc: Global,
        store: &mut Store<D>,
        log: &mut L,
    ) -> Result<(), ClientsFault>
        // Without a compaction this holds of every view that the store shows, whatever its device keeps.
        ensures served { self.old.event_loop.limits.compact_at ≡ None → (rules : Rules) (v : View) → ShowsAt rules store.old v → MatchResult result
            (λ _. HasServedSome rules store.old store.new v)
            (StopsClients rules store.old store.new v) }
        ensures settled { (rules : Rules) (h : History) → IsSettledAt rules store.old h → MatchResult result
            (λ _. HasServedSome rules store.old store.new (view rules h))
            (StopsClients rules store.old store.new (view rules h)) }
    {
        self.event_loop
            .run(clock, alloc, &mut self.sockets, store, log)
    }
}
