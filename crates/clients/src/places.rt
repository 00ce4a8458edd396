//! The clients, each at its place.

ghost use Rattle.std.specs.Prelude.{◌≡◌, ◌↔◌, ◌<◌, ℕ, Some, length, IfNone, IfOk, IfSome, IsTrue};
ghost use Rattle.clients.specs.declared.line.Line.{Line as LineData};
ghost use Rattle.clients.specs.Places.{fresh, count, line_at, session_at, IsFree, IsFreshWhereFree, StaysBeside, TakesTurn, TakeTurns, TakesLastTurn, TakeLastTurns};

use crate::desk::Desk;
use crate::line::Line;
use crate::stream::Stream;
use sessions::{Later, Session};
use std::alloc::{AllocError, Global};
use std::time::{Duration, Instant};

/// As many places as there may be clients at once. Each has a session, and a connection where somebody is there.
#[derive(Drop)]
pub(crate) struct Places<S> {
    lines: Vec<Option<Line<S>>>,
    pub(crate) sessions: Vec<Session>,
}

impl<S: Drop> Places<S> {
    /// This many places, at which nobody is.
    #[tactic(auto, using(crate::proofs::Beginning::one_more))]
    pub(crate) fn new(alloc: Global, places: u16) -> Result<Places<S>, AllocError>
        ensures many { IfOk result (λ p. (count p ≡ places) × (length p.sessions.items ≡ places)) }
        ensures free { IfOk result (λ p. (i : ℕ) → i < places → IsFree p i) }
        ensures fresh { IfOk result IsFreshWhereFree }
    {
        let mut lines = Vec::with_capacity(alloc, usize::from(places))?;
        let mut sessions = Vec::with_capacity(alloc, usize::from(places))?;
        for _ in 0..places {
            lines.push(None)?;
            sessions.push(Session::new(alloc))?;
        }
        Ok(Places { lines, sessions })
    }

    /// A place at which nobody is.
    pub(crate) fn free(&self) -> Option<usize>
        ensures free { IfSome result (λ place. IsFree self.now place) }
        ensures none { IfNone result ((i : ℕ) → IsFree self.now i → ⊥) }
    {
        for (place, line) in self.lines.iter().enumerate() {
            if line.is_none() {
                return Some(place);
            }
        }
        None
    }

    /// Whether nobody is there at all.
    pub(crate) fn is_empty(&self) -> bool
        ensures { IsTrue result ↔ ((i : ℕ) → i < count self.now → IsFree self.now i) }
    {
        for line in &self.lines {
            if line.is_some() {
                return false;
            }
        }
        true
    }

    /// A client comes to a place. Its messages are restated where `later` is given.
    pub(crate) fn take(
        &mut self,
        place: usize,
        stream: S,
        peer: Option<String>,
        later: Option<Later>,
        now: Instant,
    )
        ensures beside { StaysBeside place self.old self.new }
        ensures session { session_at self.new place ≡ session_at self.old place }
        ensures there { place < count self.old
            → (line : LineData S) × (line_at self.new place ≡ Some line) × (line.stream ≡ stream) × (line.later ≡ later) }
    {
        if place < self.lines.len() {
            self.lines[place] = Some(Line::new(stream, peer, later, now));
        }
    }

    /// The system tells what the connection of the client at a place is ready for.
    pub(crate) fn mark(&mut self, place: usize, is_readable: bool, is_writable: bool)
        ensures beside { StaysBeside place self.old self.new }
        ensures session { session_at self.new place ≡ session_at self.old place }
        ensures free { IsFree self.new place ↔ IsFree self.old place }
        ensures stream { (line : LineData S) → line_at self.old place ≡ Some line
            → (marked : LineData S) × (line_at self.new place ≡ Some marked) × (marked.stream ≡ line.stream) × (marked.later ≡ line.later) }
    {
        if place >= self.lines.len() {
            return;
        }
        if let Some(line) = &mut self.lines[place] {
            line.mark(is_readable, is_writable);
        }
    }

    // Lets the client at a place go, with all that waits of it.
    fn let_go(&mut self, alloc: Global, place: usize)
        ensures beside { StaysBeside place self.old self.new }
        ensures free { place < count self.old → IsFree self.new place }
        ensures fresh { session_at self.new place ≡ fresh }
    {
        if place < self.lines.len() {
            self.lines[place] = None;
        }
        if place < self.sessions.len() {
            self.sessions[place] = Session::new(alloc);
        }
    }
}

impl<S: Stream + Drop> Places<S> {
    // One turn of the client at a place. It tells whether more can be done at once.
    fn turn(
        &mut self,
        alloc: Global,
        desk: &mut Desk,
        place: usize,
        now: Instant,
        idle: Option<Duration>,
    ) -> bool
        ensures { TakesTurn S.moved S.has_ended S.failures idle self.old self.new place }
    {
        if place >= self.lines.len() || place >= self.sessions.len() {
            return false;
        }
        let Some(line) = &mut self.lines[place] else {
            return false;
        };
        match line.turn(alloc, desk, &mut self.sessions[place], now, idle) {
            Ok(is_busy) => is_busy,
            Err(_) => {
                self.let_go(alloc, place);
                false
            }
        }
    }

    /// One turn of each client. It tells whether more can be done at once.
    pub(crate) fn turn_all(
        &mut self,
        alloc: Global,
        desk: &mut Desk,
        now: Instant,
        idle: Option<Duration>,
    ) -> bool
        ensures { TakeTurns S.moved S.has_ended S.failures idle self.old self.new }
    {
        let mut is_busy = false;
        for place in 0..self.lines.len() {
            if self.turn(alloc, desk, place, now, idle) {
                is_busy = true;
            }
        }
        is_busy
    }

    /// Tells in the log of the messages that were answered last, whose replies stand in what their sessions send now.
    pub(crate) fn tell_answered(&self, alloc: Global, desk: &mut Desk, now: Instant) {
        for index in 0..desk.answered_count() {
            let Some(place) = desk.answered_at(index) else {
                return;
            };
            if let Some(Some(line)) = self.lines.get(place) {
                desk.tell(alloc, index, line.peer(), line.waited(now));
            }
        }
    }

    /// One turn more of each client whose messages were answered, so that the replies leave at once.
    pub(crate) fn turn_answered(
        &mut self,
        alloc: Global,
        desk: &mut Desk,
        now: Instant,
        idle: Option<Duration>,
    )
        ensures { TakeTurns S.moved S.has_ended S.failures idle self.old self.new }
    {
        for index in 0..self.lines.len() {
            let Some(place) = desk.answered_at(index) else {
                return;
            };
            self.turn(alloc, desk, place, now, idle);
        }
    }

    // The last turn of the client at a place.
    fn last_turn(&mut self, alloc: Global, desk: &mut Desk, place: usize, now: Instant)
        ensures { TakesLastTurn S.moved self.old self.new place }
    {
        if place >= self.lines.len() || place >= self.sessions.len() {
            return;
        }
        let Some(line) = &mut self.lines[place] else {
            return;
        };
        let turned = line.last_turn(alloc, desk, &mut self.sessions[place], now);
        if turned.is_err() {
            self.let_go(alloc, place);
        }
    }

    /// A turn of each client once nothing more is answered.
    pub(crate) fn last_turn_all(&mut self, alloc: Global, desk: &mut Desk, now: Instant)
        ensures { TakeLastTurns S.moved self.old self.new }
    {
        for place in 0..self.lines.len() {
            self.last_turn(alloc, desk, place, now);
        }
    }
}
