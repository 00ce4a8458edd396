//! Where clients come from, and what tells which of them is ready.

ghost use Rattle.std.specs.Prelude.{◌≡◌, ℕ, ◌++◌, ◌∷◌, List, []};
ghost use Rattle.clients.specs.Network.{CameBy};
ghost use Rattle.clients.specs.Places.{AreMarked};

use crate::places::Places;
use std::io;
use std::net::SocketAddr;

/// What came of one try to accept a client.
#[derive(Drop)]
pub(crate) enum Accepted<S> {
    /// A client came, from this address.
    Client(S, SocketAddr),
    /// A client came, but the system does not tell what it is ready for: it is let go.
    Unwatched,
    /// A signal came first, or a client that is gone already: it may be tried again.
    Again,
    /// Nobody waits.
    Nobody,
    /// One too many for the system: it may be tried again later.
    Later,
}

/// A network of which no call but `wait` waits.
pub(crate) trait Network<S> {
    /// Between these two states these clients came, in this order.
    ghost came: { Self → Self → List S → Type 0 };

    /// Waits until something is ready, for this number of milliseconds at most, and marks the places of the clients that are. It says whether somebody may wait to be accepted.
    fn wait(&mut self, milliseconds: u64, places: &mut Places<S>) -> io::Result<bool>
        ensures came { came self.old self.new [] }
        ensures marked { AreMarked places.old places.new };

    /// Accepts a client, if one waits, who is told of as the one at this place.
    fn accept(&mut self, place: usize) -> Accepted<S>
        ensures { CameBy (came self.old self.new) result };

    ghost came_none: { (network : Self) → came network network [] };

    ghost came_then: { (old mid new : Self) (first more : List S) → came old mid first → came mid new more → came old new (first ++ more) };
}
