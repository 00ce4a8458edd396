//! The loop that serves clients.

ghost use Rattle.std.specs.Prelude.{◌≡◌, ◌↔◌, ◌-◌, [], false, Option, None, Some, IfOk, IsTrue, List, MatchResult, if◌then◌else◌, option_map};
ghost use Rattle.std.specs.declared.time.Duration.{Duration as DurationData};
ghost use Rattle.names.specs.declared.format.Rules.{Rules};
ghost use Rattle.decoded.specs.Standing.{History, View};
ghost use Rattle.histories.specs.View.{view};
ghost use Rattle.durable.specs.Settled.{IsSettledAt};
ghost use Rattle.api.specs.Answers.{ShowsAt};
ghost use Rattle.sessions.specs.Restating.{no_queue};
ghost use Rattle.clients.specs.Places.{count};
ghost use Rattle.clients.specs.Clients.{ServesOn, EndsOn, ServesTurn, StopsTurn, HasNobody, HasServedClients, StopsRun};

use crate::compacting::{Compacting, tell_compacted};
use crate::desk::Desk;
use crate::fault::ClientsFault;
use crate::network::{Accepted, Network};
use crate::places::Places;
use crate::stream::Stream;
use api::ServeFault;
use device::Device;
use durable::Store;
use httpmsg::Output;
use names::Format;
use sessions::Later;
use std::alloc::{AllocError, Global};
use std::io;
use std::net::SocketAddr;
use std::time::{Clock, Duration, Instant, SystemTime, UNIX_EPOCH};

// How many connections one turn accepts.
const ACCEPTS: u32 = 64;

// How long the network is asked to wait where nothing is ready, and where only the last replies are sent.
const WAIT_MILLISECONDS: u64 = 500;

const LAST_WAIT_MILLISECONDS: u64 = 20;

// For how long the last replies are sent once the store has failed.
const LAST_SECONDS: u64 = 1;

/// How clients are served.
#[derive(Clone, Copy)]
pub struct Limits {
    /// How many at once.
    pub at_once: u16,
    /// How many in all; any number where it is `None`.
    pub connections: Option<u16>,
    /// After which time a client that does not go on is let go; never where it is `None`.
    pub idle: Option<Duration>,
    /// Whether a line is told of each message that is answered.
    pub is_logged: bool,
    /// The store is compacted between two turns where its log is this many times as long as its pages, and at least 8 MiB; never where it is `None`.
    pub compact_at: Option<u16>,
    /// The clients are Kubernetes': each message is restated as one that is served before it is answered, and those that ask which resources there are get
    /// constants.
    pub is_kubernetes: bool,
}

impl Limits {
    // The format that messages are restated for, where they are, in a store of a format.
    fn dialect_in(self, format: Format) -> Option<Format>
        ensures { result ≡ (if self.is_kubernetes then Some format else None) }
    {
        if self.is_kubernetes {
            Some(format)
        } else {
            None
        }
    }
}

// What stands before the session of a client that comes now: no messages, where they are restated.
fn later_in(alloc: Global, dialect: Option<Format>) -> Option<Later>
    ensures { result ≡ option_map no_queue dialect }
{
    match dialect {
        Some(format) => Some(Later::new(alloc, format)),
        None => None,
    }
}

// How long the network is asked to wait, in milliseconds: not at all where more can be done at once.
fn wait_for(is_busy: bool) -> u64 {
    if is_busy { 0 } else { WAIT_MILLISECONDS }
}

// The time, in seconds after 1970-01-01T00:00:00Z; none where the system does not tell it.
fn seconds_of<C: Clock>(clock: &C) -> Option<u64> {
    let now = SystemTime::now(clock).ok()?;
    let passed = now.duration_since(UNIX_EPOCH).ok()?;
    Some(passed.as_secs())
}

/// The clients that are there, and what they are served with.
#[derive(Drop)]
pub(crate) struct EventLoop<S> {
    places: Places<S>,
    desk: Desk,
    limits: Limits,
    // Somebody may wait to be accepted.
    is_asked: bool,
}

impl<S: Stream + Drop> EventLoop<S> {
    /// Nobody is there. All memory that does not depend on what clients send is taken here.
    pub(crate) fn new(alloc: Global, limits: Limits) -> Result<EventLoop<S>, AllocError>
        ensures nobody { IfOk result (λ made. HasNobody made.places) }
        ensures many { IfOk result (λ made. count made.places ≡ limits.at_once) }
        ensures limits { IfOk result (λ made. made.limits ≡ limits) }
    {
        Ok(EventLoop {
            places: Places::new(alloc, limits.at_once)?,
            desk: Desk::new(alloc, limits.is_logged)?,
            limits,
            is_asked: true,
        })
    }

    // Takes note of whether somebody may wait to be accepted.
    fn note_asked(&mut self, is_asked: bool)
        ensures places { self.new.places ≡ self.old.places }
        ensures limits { self.new.limits ≡ self.old.limits }
    {
        if is_asked {
            self.is_asked = true;
        }
    }

    // Waits until the network tells that something is ready, and takes note of it. It gives the time.
    fn look<C: Clock, N: Network<S>>(
        &mut self,
        clock: &C,
        network: &mut N,
        wait: u64,
    ) -> io::Result<Instant>
        ensures came { N.came network.old network.new [] }
        ensures serves { (idle : Option DurationData) → ServesOn S.moved S.has_ended S.failures idle self.old.places self.new.places [] }
        ensures ends { (idle : Option DurationData) → EndsOn S.moved S.has_ended S.failures idle self.old.places self.new.places }
        ensures limits { self.new.limits ≡ self.old.limits }
    {
        let is_asked = network.wait(wait, &mut self.places)?;
        self.note_asked(is_asked);
        Instant::now(clock)
    }

    // The lines of the log that this turn tells have the time that it is now.
    fn note_time<C: Clock>(&mut self, clock: &C)
        ensures places { self.new.places ≡ self.old.places }
        ensures limits { self.new.limits ≡ self.old.limits }
    {
        if self.desk.journal.is_kept() {
            self.desk.journal.set_time(seconds_of(clock));
        }
    }

    // Whether one more connection may be accepted.
    fn has_left(&self) -> bool
        ensures { IsTrue result ↔ (self.now.limits.connections ≡ Some 0 → ⊥) }
    {
        match self.limits.connections {
            Some(left) => left > 0,
            None => true,
        }
    }

    // The text of a client's address, where there is a log to tell it in.
    fn peer_text(&self, alloc: Global, address: SocketAddr) -> Option<String> {
        if self.desk.journal.is_kept() {
            format!(in alloc; "{address}").ok()
        } else {
            None
        }
    }

    // One connection fewer may be accepted.
    fn count_one(&mut self)
        ensures places { self.new.places ≡ self.old.places }
        ensures limits { (self.new.limits.idle ≡ self.old.limits.idle) × (self.new.limits.compact_at ≡ self.old.limits.compact_at) }
        ensures fewer { self.new.limits.connections ≡ option_map (λ left. left - 1) self.old.limits.connections }
    {
        if let Some(left) = self.limits.connections {
            self.limits.connections = Some(left.saturating_sub(1));
        }
    }

    // Accepts one client, if one waits and there is a place for it. It tells whether another may wait.
    fn accept_one<N: Network<S>>(
        &mut self,
        alloc: Global,
        network: &mut N,
        now: Instant,
        dialect: Option<Format>,
    ) -> bool
        ensures serves { (streams : List S) × N.came network.old network.new streams
            × (dialect ≡ None → (idle : Option DurationData) → ServesOn S.moved S.has_ended S.failures idle self.old.places self.new.places streams) }
        ensures limits { (self.new.limits.idle ≡ self.old.limits.idle) × (self.new.limits.compact_at ≡ self.old.limits.compact_at) }
    {
        if !self.is_asked || !self.has_left() {
            return false;
        }
        let Some(place) = self.places.free() else {
            return false;
        };
        match network.accept(place) {
            Accepted::Client(stream, address) => {
                self.count_one();
                let peer = self.peer_text(alloc, address);
                let later = later_in(alloc, dialect);
                self.places.take(place, stream, peer, later, now);
                true
            }
            Accepted::Unwatched => {
                self.count_one();
                true
            }
            Accepted::Again => true,
            Accepted::Nobody => {
                self.is_asked = false;
                false
            }
            Accepted::Later => false,
        }
    }

    // Accepts clients that wait. It tells whether more may.
    fn accept<N: Network<S>>(
        &mut self,
        alloc: Global,
        network: &mut N,
        now: Instant,
        dialect: Option<Format>,
    ) -> bool
        ensures serves { (streams : List S) × N.came network.old network.new streams
            × (dialect ≡ None → (idle : Option DurationData) → ServesOn S.moved S.has_ended S.failures idle self.old.places self.new.places streams) }
        ensures limits { (self.new.limits.idle ≡ self.old.limits.idle) × (self.new.limits.compact_at ≡ self.old.limits.compact_at) }
    {
        for _ in 0..ACCEPTS {
            if !self.accept_one(alloc, network, now, dialect) {
                return false;
            }
        }
        true
    }

    // Tells in the log of the messages that were answered last, and forgets them.
    fn tell<C: Clock>(&mut self, clock: &C, alloc: Global)
        ensures places { self.new.places ≡ self.old.places }
        ensures limits { self.new.limits ≡ self.old.limits }
    {
        if self.desk.journal.is_kept() {
            if let Ok(now) = Instant::now(clock) {
                self.places.tell_answered(alloc, &mut self.desk, now);
            }
        }
        self.desk.forget();
    }

    // One turn: of each client, of the store, and of each client that it answered. It tells whether more can be done at once.
    fn turn<C: Clock, D: Device>(
        &mut self,
        clock: &C,
        alloc: Global,
        now: Instant,
        store: &mut Store<D>,
    ) -> Result<bool, ServeFault>
        ensures serves { (rules : Rules) (v : View) → ShowsAt rules store.old v → MatchResult result
            (λ _. ServesTurn S.moved S.has_ended S.failures self.old.limits.idle rules store.old store.new v self.old.places self.new.places)
            (StopsTurn S.moved S.has_ended S.failures self.old.limits.idle rules store.old store.new v self.old.places self.new.places) }
        ensures limits { self.new.limits ≡ self.old.limits }
    {
        let idle = self.limits.idle;
        let is_busy = self.places.turn_all(alloc, &mut self.desk, now, idle);
        let answered = self.desk.answer(alloc, &mut self.places.sessions, store);
        self.tell(clock, alloc);
        match answered {
            Ok(()) => {
                self.places.turn_answered(alloc, &mut self.desk, now, idle);
                Ok(is_busy | self.desk.has_answered())
            }
            Err(fault) => Err(fault),
        }
    }

    // Sends what waits to be sent once the store has failed, for a second at most.
    fn send_last<C: Clock, N: Network<S>>(&mut self, clock: &C, alloc: Global, network: &mut N)
        ensures came { N.came network.old network.new [] }
        ensures ends { (idle : Option DurationData) → EndsOn S.moved S.has_ended S.failures idle self.old.places self.new.places }
    {
        let Ok(start) = Instant::now(clock) else {
            return;
        };
        for _ in 0..u32::MAX {
            if self.places.is_empty() {
                return;
            }
            let Ok(now) = self.look(clock, network, LAST_WAIT_MILLISECONDS) else {
                return;
            };
            if now.saturating_duration_since(start) >= Duration::from_secs(LAST_SECONDS) {
                return;
            }
            self.places.last_turn_all(alloc, &mut self.desk, now);
        }
    }

    /// Serves clients until as many connections as may be accepted have ended. Without such a number it ends only by a fault.
    ///
    /// # Errors
    ///
    /// `Store` where the store failed, and `Compaction` where it failed while it was compacted: those whose messages are not answered are told so, for a
    /// second at most. `Network` where the system no longer tells what is ready, or what time it is.
    ///
    /// Where the limits say so, a line is written to `log` for each message that is answered, after its reply was put to what is sent. It begins with the time
    /// at which the turn began that answered the message. Where the limits say so, the store is compacted between two turns, and a line is written of each
    /// compaction. All clients wait meanwhile. A log that cannot be written loses lines, and stops nothing.
    ///
    /// Where the limits say that the clients are Kubernetes', the messages that are answered are those that theirs are restated as.
    pub(crate) fn run<C: Clock, N: Network<S>, D: Device, L: Output>(
        &mut self,
        clock: &C,
        alloc: Global,
        network: &mut N,
        store: &mut Store<D>,
        log: &mut L,
    ) -> Result<(), ClientsFault>
        // Without a compaction this holds of every view that the store shows, whatever its device keeps.
        ensures served { self.old.limits.compact_at ≡ None → (rules : Rules) (v : View) → ShowsAt rules store.old v → MatchResult result
            (λ _. HasServedClients S.moved S.has_ended S.failures self.old.limits.idle (N.came network.old network.new) (self.old.limits.is_kubernetes ≡ false) rules store.old store.new v self.old.places self.new.places)
            (StopsRun S.moved S.has_ended S.failures self.old.limits.idle (N.came network.old network.new) (self.old.limits.is_kubernetes ≡ false) rules store.old store.new v self.old.places self.new.places) }
        ensures settled { (rules : Rules) (h : History) → IsSettledAt rules store.old h → MatchResult result
            (λ _. HasServedClients S.moved S.has_ended S.failures self.old.limits.idle (N.came network.old network.new) (self.old.limits.is_kubernetes ≡ false) rules store.old store.new (view rules h) self.old.places self.new.places)
            (StopsRun S.moved S.has_ended S.failures self.old.limits.idle (N.came network.old network.new) (self.old.limits.is_kubernetes ≡ false) rules store.old store.new (view rules h) self.old.places self.new.places) }
    {
        let dialect = self.limits.dialect_in(store.format());
        let mut compacting = Compacting::new(self.limits.compact_at);
        let mut wait = 0;
        for _ in 0..u64::MAX {
            if !self.has_left() && self.places.is_empty() {
                return Ok(());
            }
            let Ok(now) = self.look(clock, network, wait) else {
                return Err(ClientsFault::Network);
            };
            self.note_time(clock);
            let is_asked = self.accept(alloc, network, now, dialect);
            let turned = self.turn(clock, alloc, now, store);
            self.desk.journal.write_to(alloc, log);
            let is_busy = match turned {
                Ok(is_busy) => is_busy,
                Err(fault) => {
                    self.send_last(clock, alloc, network);
                    return Err(ClientsFault::Store(fault));
                }
            };
            let compacted = compacting.compact(alloc, store);
            match compacted {
                Ok(generation) => tell_compacted(alloc, generation, log),
                Err(fault) => {
                    // The store has stopped: this turn tells each client with a message so.
                    let _ = self.turn(clock, alloc, now, store);
                    self.desk.journal.write_to(alloc, log);
                    self.send_last(clock, alloc, network);
                    return Err(ClientsFault::Compaction(fault));
                }
            }
            wait = wait_for(is_asked | is_busy);
        }
        Ok(())
    }
}
