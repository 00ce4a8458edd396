//! A listening socket, and what the system tells of the sockets that came by it.

ghost use Rattle.std.specs.Prelude.{◌≡◌};
ghost use Rattle.clients.specs.Places.{AreMarked};

use crate::fault::BindFault;
use crate::network::{Accepted, Network};
use crate::places::Places;
use crate::socket::Socket;
use mio::net::{TcpListener, TcpStream};
use mio::{Events, Interest, Poll, Token};
use std::alloc::Global;
use std::io;
use std::io::ErrorKind;
use std::net::{Net, SocketAddr};
use std::time::Duration;

// The listening socket's token. A client's is its place.
const LISTENER: Token = Token(usize::MAX);

// How many events one call takes.
const EVENTS: usize = 1024;

/// A listening socket, and what the system told last.
#[derive(Drop)]
pub(crate) struct Sockets {
    listener: TcpListener,
    poll: Poll,
    events: Events,
}

impl Sockets {
    /// Listens on an address.
    pub(crate) fn bind<N: Net>(
        net: &N,
        alloc: Global,
        address: SocketAddr,
    ) -> Result<Sockets, BindFault> {
        let mut listener = TcpListener::bind(net, address)?;
        let poll = Poll::new(net)?;
        poll.registry()
            .register(&mut listener, LISTENER, Interest::READABLE)?;
        Ok(Sockets {
            listener,
            poll,
            events: Events::with_capacity(alloc, EVENTS)?,
        })
    }

    /// The address that is listened on. `None` where the system does not tell it.
    pub(crate) fn address(&self) -> Option<SocketAddr> {
        self.listener.local_addr().ok()
    }

    // Marks the places of the clients that are ready. It says whether somebody may wait to be accepted.
    fn mark(&self, places: &mut Places<Socket>) -> bool
        ensures { AreMarked places.old places.new }
    {
        let mut is_asked = false;
        for event in &self.events {
            if event.token() == LISTENER {
                is_asked = true;
            } else {
                let is_readable = event.is_readable() || event.is_read_closed() || event.is_error();
                let is_writable = event.is_writable()
                    || event.is_write_closed()
                    || event.is_error();
                places.mark(event.token().0, is_readable, is_writable);
            }
        }
        is_asked
    }

    // Has the system watch a client that came.
    fn watch(&self, stream: TcpStream, address: SocketAddr, place: usize) -> Accepted<Socket> {
        let mut stream = stream;
        // A socket that refuses this is served all the same.
        let _ = stream.set_nodelay(true);
        let both = Interest::READABLE | Interest::WRITABLE;
        match self
            .poll
            .registry()
            .register(&mut stream, Token(place), both)
        {
            Ok(()) => Accepted::Client(Socket::new(stream), address),
            Err(_) => Accepted::Unwatched,
        }
    }
}

impl Network<Socket> for Sockets {
    ghost use Rattle.std.specs.Prelude.{⊤};

    ghost came = { λ old new clients. ⊤ };

    ghost came_none = { λ network. tt };

    ghost came_then = { λ old mid new first more before after. tt };

    fn wait(&mut self, milliseconds: u64, places: &mut Places<Socket>) -> io::Result<bool> {
        self.poll.poll(&mut self.events, Some(Duration::from_millis(milliseconds)))?;
        Ok(self.mark(places))
    }

    fn accept(&mut self, place: usize) -> Accepted<Socket> {
        match self.listener.accept() {
            Ok((stream, address)) => self.watch(stream, address, place),
            Err(error) => match error.kind() {
                ErrorKind::WouldBlock => Accepted::Nobody,
                ErrorKind::ConnectionAborted | ErrorKind::Interrupted => Accepted::Again,
                _ => Accepted::Later,
            },
        }
    }
}
