//! The socket of one client.

ghost use Rattle.std.specs.Prelude.{◌≡◌, ◌↔◌, ◌≤◌, ◌<◌, ◌-◌, ◌⊎◌, ℕ, List, [], true, false, length, Option, Some, Err, IfErr, OnOk, IsTrue, MatchOption, MatchResult};
ghost use Rattle.std.specs.Duration.{as_nanos};
ghost use Rattle.std.specs.Time.{instant_nanos};
ghost use Rattle.objects.specs.Failing.{HasGrown};
ghost use Rattle.sessions.specs.State.{is_open, is_lost};
ghost use Rattle.httpmsg.specs.Stream.{Message as MessageData, IsCut};
ghost use Rattle.names.specs.declared.format.Format.{Format as FormatData};
ghost use Rattle.sessions.specs.State.{State};
ghost use Rattle.sessions.specs.Restating.{Gives};
ghost use Rattle.clients.specs.Plain.{dialect_of, later_of, IsPlain, HandsOver, ReadsRestated};
ghost use Rattle.clients.specs.Story.{GoesOn, SendsOn};
ghost use Rattle.clients.specs.Waiting.{IsWaitedFor, IsLate, IsEnd, HasDrained, EndsAtRest, EndsFor};

use crate::desk::Desk;
use crate::journal::{Journal, status_in};
use crate::moving::{Moved, forget_once, read_once, send_once};
use crate::stream::Stream;
use httpmsg::Message;
use sessions::{Later, Note, Session};
use std::alloc::Global;
use std::time::{Duration, Instant};

// How often one turn writes to one client.
const SENDS: u32 = 64;

// The status code of a constant.
const CONSTANT_STATUS: u16 = 200;

// How long what a client sends is read and forgotten, once it was sent all.
const DRAIN_SECONDS: u64 = 1;

/// Why a connection is let go.
#[derive(Clone, Copy)]
pub(crate) enum Gone {
    /// Memory was refused to what is to be sent to the client.
    Lost,
    /// The stream failed, or takes no byte.
    Failed,
    /// All was sent to the client, and nothing more is taken of it.
    Done,
    /// The client did not do in time what it is waited for.
    Late,
}

// Whether nothing waits in a session, neither to be answered nor to be sent.
fn is_quiet(session: &Session) -> bool
    ensures { IsTrue result ↔ ((session.now.waiting ≡ []) × (session.now.unsent ≡ [])) }
{
    session.is_idle() && session.rest().is_empty()
}

// Whether a client is waited for: none of its messages waits to be answered, or bytes wait for it to take them.
fn is_waited_for(session: &Session) -> bool
    ensures { IsTrue result ↔ IsWaitedFor session.now }
{
    session.is_idle() || !session.rest().is_empty()
}

// Whether a time has passed since a moment.
fn has_passed(since: Instant, now: Instant, time: Duration) -> bool
    ensures { IsTrue result ↔ (as_nanos time ≤ instant_nanos now - instant_nanos since) }
{
    time.as_nanos() <= now.saturating_duration_since(since).as_nanos()
}

// Tells in the log of the reply that closed a session, where it got one. Nothing waited to be sent before.
fn tell_closing(alloc: Global, journal: &mut Journal, peer: &str, session: &Session) {
    if session.is_open() {
        return;
    }
    if let Some(status) = status_in(session.rest()) {
        let note = Note {
            status,
            bytes: session.rest().len(),
        };
        journal.tell_refused(alloc, peer, note);
    }
}

/// A client's connection, what it is ready for, and how far its client is.
#[derive(Drop)]
pub(crate) struct Line<S> {
    stream: S,
    // The client's address, where it is told in a log.
    peer: Option<String>,
    // A read, or a write, did not yet have to wait since the system told of it.
    is_readable: bool,
    is_writable: bool,
    // When the client last did what it is waited for: it sent the first byte of a message, or the last, or it took bytes.
    since: Instant,
    // When the messages that wait to be answered were read.
    read_at: Instant,
    // A message has begun that is not whole.
    has_begun: bool,
    // The session was given messages, and nobody has looked at what stands behind them.
    looks_on: bool,
    // The client sends no more.
    has_ended: bool,
    // Since when what it sends is forgotten.
    drained_since: Option<Instant>,
    // Its messages that stand before the session, where they are restated.
    later: Option<Later>,
}

impl<S> Line<S> {
    /// Of a connection that was accepted now. Its messages are restated where `later` is given.
    pub(crate) fn new(
        stream: S,
        peer: Option<String>,
        later: Option<Later>,
        now: Instant,
    ) -> Line<S>
        ensures stream { result.stream ≡ stream }
        ensures later { result.later ≡ later }
    {
        Line {
            stream,
            peer,
            is_readable: true,
            is_writable: true,
            since: now,
            read_at: now,
            has_begun: false,
            looks_on: false,
            has_ended: false,
            drained_since: None,
            later,
        }
    }

    /// The system tells what the connection is ready for.
    pub(crate) fn mark(&mut self, is_readable: bool, is_writable: bool)
        ensures stream { self.new.stream ≡ self.old.stream }
        ensures later { self.new.later ≡ self.old.later }
    {
        self.is_readable = self.is_readable || is_readable;
        self.is_writable = self.is_writable || is_writable;
    }

    /// The client's address, or `-` where it is not known.
    pub(crate) fn peer(&self) -> &str {
        match &self.peer {
            Some(peer) => peer.as_str(),
            None => "-",
        }
    }

    /// How many microseconds there are since the messages that wait to be answered were read.
    pub(crate) fn waited(&self, now: Instant) -> u64 {
        let waited = now.saturating_duration_since(self.read_at);
        u64::try_from(waited.as_micros()).unwrap_or(u64::MAX)
    }

    // Takes note of what came of one call that sends. A connection whose stream would have waited goes on.
    fn note_sent(&mut self, moved: Moved, now: Instant) -> Result<(), Gone>
        ensures ends { MatchResult result (λ _. moved ≡ Moved.Failed → ⊥) (λ gone. (gone ≡ Gone.Failed) × (moved ≡ Moved.Failed)) }
        ensures since { moved ≡ Moved.Some → self.new.since ≡ now }
        ensures stream { self.new.stream ≡ self.old.stream }
        ensures later { self.new.later ≡ self.old.later }
    {
        match moved {
            Moved::Some => self.since = now,
            Moved::Again | Moved::Ended => {}
            Moved::Waits => self.is_writable = false,
            Moved::Failed => return Err(Gone::Failed),
        }
        Ok(())
    }
}

impl<S: Stream> Line<S> {
    // Sends what waits, as far as the stream takes it now.
    #[tactic(auto, using(crate::proofs::Sending::sends_none))]
    fn send(&mut self, alloc: Global, session: &mut Session, now: Instant) -> Result<(), Gone>
        ensures sent { SendsOn S.moved self.old.stream self.new.stream session.old session.new }
        ensures later { S.failures self.old.stream ≤ S.failures self.new.stream }
        ensures behind { self.new.later ≡ self.old.later }
        ensures failed { IfErr result (λ gone. (gone ≡ Gone.Failed) × HasGrown (S.failures self.old.stream) (S.failures self.new.stream)) }
    {
        for _ in 0..SENDS {
            if session.rest().is_empty() || !self.is_writable {
                return Ok(());
            }
            let moved = send_once(alloc, &mut self.stream, session);
            self.note_sent(moved, now)?;
        }
        Ok(())
    }

    // Takes note of a piece that the session took.
    fn note_piece(&mut self, session: &Session, now: Instant)
        ensures stream { self.new.stream ≡ self.old.stream }
        ensures later { self.new.later ≡ self.old.later }
    {
        let begins = session.has_begun() && !self.has_begun;
        if begins || !session.is_idle() {
            self.since = now;
            self.read_at = now;
        }
        self.has_begun = session.has_begun();
        self.looks_on = !session.is_idle();
    }

    // Takes note of what came of one call that reads.
    fn note_read(&mut self, moved: Moved, session: &Session, now: Instant) -> Result<(), Gone>
        ensures ends { MatchResult result (λ _. moved ≡ Moved.Failed → ⊥) (λ gone. (gone ≡ Gone.Failed) × (moved ≡ Moved.Failed)) }
        ensures stream { self.new.stream ≡ self.old.stream }
        ensures later { self.new.later ≡ self.old.later }
    {
        match moved {
            Moved::Some => self.note_piece(session, now),
            Moved::Again => {}
            Moved::Waits => self.is_readable = false,
            Moved::Ended => self.has_ended = true,
            Moved::Failed => return Err(Gone::Failed),
        }
        Ok(())
    }

    // Reads a piece of what the client sends.
    fn read(
        &mut self,
        alloc: Global,
        desk: &mut Desk,
        session: &mut Session,
        now: Instant,
    ) -> Result<(), Gone>
        requires opened { is_open session.old.phase ≡ true }
        requires idle { session.old.waiting ≡ [] }
        requires sent { session.old.unsent ≡ [] }
        requires none { later_of self.old ≡ [] }
        ensures restated { OnOk result ((f : FormatData) → dialect_of self.old ≡ Some f → (read : List ℕ) (ms : List MessageData) → IsCut read ms session.old.progress
            → ReadsRestated S.moved S.has_ended f read ms session.old session.new self.old self.new) }
        ensures goes_on { IsPlain self.old → GoesOn S.moved S.has_ended self.old.stream self.new.stream session.old session.new }
        ensures dialect { dialect_of self.new ≡ dialect_of self.old }
        ensures later { S.failures self.old.stream ≤ S.failures self.new.stream }
        ensures failed { IfErr result (λ gone. (gone ≡ Gone.Failed) × HasGrown (S.failures self.old.stream) (S.failures self.new.stream)) }
    {
        let stream = &mut self.stream;
        let moved = read_once(alloc, &mut desk.tools, &mut desk.buffer, stream, session);
        self.note_read(moved, session, now)?;
        tell_closing(alloc, &mut desk.journal, self.peer(), session);
        self.hand_over(alloc, desk, session, now);
        Ok(())
    }

    // Whether no message stands before the session.
    fn has_none_later(&self) -> bool
        ensures { IsTrue result ↔ (later_of self.now ≡ []) }
    {
        match &self.later {
            Some(later) => later.is_empty(),
            None => true,
        }
    }

    // Whether messages stand before a session that is open.
    fn has_later(&self, session: &Session) -> bool
        ensures { IsTrue result ↔ ((is_open session.now.phase ≡ true) × (later_of self.now ≡ [] → ⊥)) }
    {
        session.is_open() && !self.has_none_later()
    }

    // Tells in the log of a message that a constant answered, whose reply is what was put behind so many bytes that waited to be sent.
    fn tell_constant(
        &self,
        alloc: Global,
        journal: &mut Journal,
        message: &Message,
        session: &Session,
        before: usize,
        now: Instant,
    ) {
        let note = Note {
            status: CONSTANT_STATUS,
            bytes: session.rest().len().saturating_sub(before),
        };
        journal.tell_answered(alloc, self.peer(), message, note, self.waited(now));
    }

    // Tells in the log of what came of a step that gave a session messages: the message that a constant answered, or the reply that closed the session.
    fn tell_given(
        &self,
        alloc: Global,
        journal: &mut Journal,
        answered: Option<Message>,
        session: &Session,
        before: usize,
        now: Instant,
    ) {
        match &answered {
            Some(message) => self.tell_constant(alloc, journal, message, session, before, now),
            None => tell_closing(alloc, journal, self.peer(), session),
        }
    }

    // Gives a session, of which no message waits, the next of the messages that stand before it.
    #[tactic(auto, using(crate::proofs::Leaving::not_dialect))]
    fn give(&mut self, alloc: Global, desk: &mut Desk, session: &mut Session, now: Instant)
        requires idle { session.old.waiting ≡ [] }
        ensures stream { self.new.stream ≡ self.old.stream }
        ensures dialect { dialect_of self.new ≡ dialect_of self.old }
        ensures plain { IsPlain self.old → session.new ≡ session.old }
        ensures gives { (f : FormatData) → dialect_of self.old ≡ Some f
            → (answered : Option MessageData) × Gives f (later_of self.old) (later_of self.new) session.old session.new answered }
    {
        let before = session.rest().len();
        let Some(later) = &mut self.later else {
            return;
        };
        let answered = later.give(alloc, &mut desk.tools, session);
        self.tell_given(alloc, &mut desk.journal, answered, session, before, now);
    }

    // Where messages are restated, takes those that wait in a session, where none stands before it, and gives it the next of them.
    #[tactic(auto, using(crate::proofs::Leaving::not_dialect, crate::proofs::Leaving::empty_of))]
    fn hand_over(&mut self, alloc: Global, desk: &mut Desk, session: &mut Session, now: Instant)
        ensures stream { self.new.stream ≡ self.old.stream }
        ensures dialect { dialect_of self.new ≡ dialect_of self.old }
        ensures plain { IsPlain self.old → session.new ≡ session.old }
        ensures hands { (f : FormatData) → dialect_of self.old ≡ Some f → HandsOver f session.old session.new (later_of self.old) (later_of self.new) }
    {
        if session.is_idle() {
            return;
        }
        if !self.has_none_later() {
            return;
        }
        let Some(later) = &mut self.later else {
            return;
        };
        later.take_from(session);
        self.give(alloc, desk, session, now);
    }

    // Where nothing waits, gives the session the next of the messages that stand before it, and sends what then waits.
    fn give_next(
        &mut self,
        alloc: Global,
        desk: &mut Desk,
        session: &mut Session,
        now: Instant,
    ) -> Result<(), Gone>
        ensures goes_on { IsPlain self.old → GoesOn S.moved S.has_ended self.old.stream self.new.stream session.old session.new }
        ensures dialect { dialect_of self.new ≡ dialect_of self.old }
        ensures later { S.failures self.old.stream ≤ S.failures self.new.stream }
        ensures failed { IfErr result (λ gone. (gone ≡ Gone.Failed) × HasGrown (S.failures self.old.stream) (S.failures self.new.stream)) }

        // A message gets a constant only where no reply waits and none of the client's messages, so the replies are in order.
        ensures gives { (f : FormatData) → dialect_of self.old ≡ Some f → is_open session.old.phase ≡ true → (later_of self.old ≡ [] → ⊥)
            → session.old.waiting ≡ [] → session.old.unsent ≡ []
            → (given : State) × (answered : Option MessageData) × Gives f (later_of self.old) (later_of self.new) session.old given answered
            × SendsOn S.moved self.old.stream self.new.stream given session.new }
    {
        if !is_quiet(session) {
            return Ok(());
        }
        if !self.has_later(session) {
            return Ok(());
        }
        self.give(alloc, desk, session, now);
        self.send(alloc, session, now)
    }

    // Since when what the client sends is forgotten: from now on, where it was not yet. Then the client is told that nothing more is sent.
    fn drain_since(&mut self, now: Instant) -> Instant
        ensures none { S.moved self.old.stream self.new.stream [] [] }
        ensures well { S.failures self.new.stream ≡ S.failures self.old.stream }
        ensures behind { self.new.later ≡ self.old.later }
        ensures since { MatchOption self.old.drained_since (result ≡ now) (λ since. result ≡ since) }
    {
        match self.drained_since {
            Some(since) => since,
            None => {
                self.stream.end();
                self.drained_since = Some(now);
                now
            }
        }
    }

    // Reads on and forgets: a socket that is closed with bytes that nobody read resets the connection, and the client may then lose the last
    // reply. So a refused upload is taken to its end, within bounds.
    fn drain(&mut self, buffer: &mut [u8], now: Instant) -> Result<(), Gone>
        requires room { 0 < length buffer.old }
        ensures forgets { (read : List ℕ) × S.moved self.old.stream self.new.stream read [] }
        ensures later { S.failures self.old.stream ≤ S.failures self.new.stream }
        ensures behind { self.new.later ≡ self.old.later }
        ensures ends { IfErr result (IsEnd (HasGrown (S.failures self.old.stream) (S.failures self.new.stream))) }

        // A client that sends on is let go only once what it sends was forgotten for a second.
        ensures done { result ≡ Err Gone.Done → (self.old.has_ended ≡ true) ⊎ S.has_ended self.new.stream ⊎ HasDrained self.old.drained_since now }
    {
        if self.has_ended {
            return Err(Gone::Done);
        }
        let since = self.drain_since(now);
        if has_passed(since, now, Duration::from_secs(DRAIN_SECONDS)) {
            return Err(Gone::Done);
        }
        self.forget(buffer)
    }

    // One read of what is forgotten.
    fn forget(&mut self, buffer: &mut [u8]) -> Result<(), Gone>
        requires room { 0 < length buffer.old }
        ensures forgets { (read : List ℕ) × S.moved self.old.stream self.new.stream read [] }
        ensures later { S.failures self.old.stream ≤ S.failures self.new.stream }
        ensures behind { self.new.later ≡ self.old.later }
        ensures ends { IfErr result (IsEnd (HasGrown (S.failures self.old.stream) (S.failures self.new.stream))) }
        ensures done { result ≡ Err Gone.Done → S.has_ended self.new.stream }
    {
        if !self.is_readable {
            return Ok(());
        }
        match forget_once(buffer, &mut self.stream) {
            Moved::Some | Moved::Again => Ok(()),
            Moved::Waits => {
                self.is_readable = false;
                Ok(())
            }
            Moved::Ended => Err(Gone::Done),
            Moved::Failed => Err(Gone::Failed),
        }
    }

    // Where nothing waits, tells what stands behind the messages that were answered.
    fn look_on(
        &mut self,
        alloc: Global,
        desk: &mut Desk,
        session: &mut Session,
        now: Instant,
    ) -> Result<(), Gone>
        ensures goes_on { IsPlain self.old → GoesOn S.moved S.has_ended self.old.stream self.new.stream session.old session.new }
        ensures dialect { dialect_of self.new ≡ dialect_of self.old }
        ensures later { S.failures self.old.stream ≤ S.failures self.new.stream }
        ensures failed { IfErr result (λ gone. (gone ≡ Gone.Failed) × HasGrown (S.failures self.old.stream) (S.failures self.new.stream)) }
    {
        if !self.looks_on || !is_quiet(session) || self.has_later(session) {
            return Ok(());
        }
        session.take_piece(alloc, &mut desk.tools, &[]);
        tell_closing(alloc, &mut desk.journal, self.peer(), session);
        self.looks_on = !session.is_idle();
        self.hand_over(alloc, desk, session, now);
        self.send(alloc, session, now)
    }

    // Where nothing waits: reads on, or ends the connection once the session is over.
    fn attend(
        &mut self,
        alloc: Global,
        desk: &mut Desk,
        session: &mut Session,
        now: Instant,
    ) -> Result<(), Gone>
        ensures goes_on { IsPlain self.old → GoesOn S.moved S.has_ended self.old.stream self.new.stream session.old session.new }
        ensures dialect { dialect_of self.new ≡ dialect_of self.old }
        ensures later { S.failures self.old.stream ≤ S.failures self.new.stream }
        ensures ends { IfErr result (λ gone. EndsAtRest (HasGrown (S.failures self.old.stream) (S.failures self.new.stream)) gone session.new) }
        ensures done { result ≡ Err Gone.Done → (self.old.has_ended ≡ true) ⊎ S.has_ended self.new.stream ⊎ HasDrained self.old.drained_since now }
    {
        if !is_quiet(session) || self.has_later(session) {
            return Ok(());
        }
        if !session.is_open() {
            return self.drain(&mut desk.buffer, now);
        }
        if self.is_readable {
            return self.read(alloc, desk, session, now);
        }
        Ok(())
    }

    // Whether the client has not done for too long what it is waited for: the whole of a message that it began, the first byte of the next
    // one, or to take a byte. A client whose messages wait to be answered is not waited for.
    fn is_late(&self, session: &Session, now: Instant, idle: Option<Duration>) -> bool
        ensures { IsTrue result ↔ IsLate session.now self.now.since now idle }
    {
        match idle {
            Some(idle) => { is_waited_for(session) && has_passed(self.since, now, idle) }
            None => false,
        }
    }

    // Whether more can be done before the system tells that the socket is ready.
    fn is_busy(&self, session: &Session) -> bool {
        if !session.rest().is_empty() {
            return self.is_writable || session.is_lost();
        }
        session.is_idle() && (self.is_readable || self.looks_on || session.is_lost())
    }

    /// One turn of the connection: sends what waits, and reads one piece where nothing waits. It tells whether more can be done at once.
    #[tactic(auto, using(crate::proofs::Leaving::at_rest, crate::proofs::Leaving::has_failed))]
    pub(crate) fn turn(
        &mut self,
        alloc: Global,
        desk: &mut Desk,
        session: &mut Session,
        now: Instant,
        idle: Option<Duration>,
    ) -> Result<bool, Gone>
        ensures ends { MatchResult result
            (λ _. (is_lost session.old.phase ≡ false) × (IsLate session.new self.new.since now idle → ⊥))
            (λ gone. EndsFor gone session.old session.new (HasGrown (S.failures self.old.stream) (S.failures self.new.stream)) (IsLate session.new self.new.since now idle)) }
        ensures goes_on { IsPlain self.old → GoesOn S.moved S.has_ended self.old.stream self.new.stream session.old session.new }
        ensures dialect { dialect_of self.new ≡ dialect_of self.old }
        ensures later { S.failures self.old.stream ≤ S.failures self.new.stream }
    {
        if session.is_lost() {
            return Err(Gone::Lost);
        }
        self.send(alloc, session, now)?;
        self.give_next(alloc, desk, session, now)?;
        self.look_on(alloc, desk, session, now)?;
        self.attend(alloc, desk, session, now)?;
        if self.is_late(session, now, idle) {
            return Err(Gone::Late);
        }
        Ok(self.is_busy(session))
    }

    /// A turn once nothing more is answered: sends what waits, and then ends the connection.
    pub(crate) fn last_turn(
        &mut self,
        alloc: Global,
        desk: &mut Desk,
        session: &mut Session,
        now: Instant,
    ) -> Result<(), Gone>
        ensures sent { SendsOn S.moved self.old.stream self.new.stream session.old session.new }
        ensures later { S.failures self.old.stream ≤ S.failures self.new.stream }
        ensures behind { self.new.later ≡ self.old.later }
        ensures ends { IfErr result (λ gone. (gone ≡ Gone.Done) → session.new.unsent ≡ []) }
    {
        if session.is_lost() {
            return Err(Gone::Lost);
        }
        self.send(alloc, session, now)?;
        if session.rest().is_empty() {
            if session.is_open() {
                return Err(Gone::Done);
            }
            return self.drain(&mut desk.buffer, now);
        }
        Ok(())
    }
}
