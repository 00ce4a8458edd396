//! Bytes moved between a session and the stream of its client.

ghost use Rattle.std.specs.Prelude.{◌≡◌, ◌<◌, ℕ, List, [], true, length};
ghost use Rattle.httpmsg.specs.Stream.{Message as MessageData, IsCut};
ghost use Rattle.sessions.specs.State.{is_open};
ghost use Rattle.clients.specs.Moving.{Sends, Reads, CountsMoved, IsStopped};

use crate::stream::{Stop, Stream};
use sessions::{Session, Tools};
use std::alloc::Global;

/// What came of one call of a stream.
#[derive(Clone, Copy)]
pub(crate) enum Moved {
    /// Bytes were moved, and more may be.
    Some,
    /// A signal came first: the call may be tried again.
    Again,
    /// The stream would have waited.
    Waits,
    /// The client sends no more.
    Ended,
    /// The stream failed, or takes no byte.
    Failed,
}

/// What came of a call that moved nothing.
pub(crate) fn stopped(stop: Stop) -> Moved
    ensures { IsStopped stop result }
{
    match stop {
        Stop::Again => Moved::Again,
        Stop::Waits => Moved::Waits,
        Stop::Failed => Moved::Failed,
    }
}

/// Sends the first of the bytes that wait, of which there are some, as many as the stream takes in one call.
pub(crate) fn send_once<S: Stream>(alloc: Global, stream: &mut S, session: &mut Session) -> Moved
    requires { 0 < length session.old.unsent }
    ensures sends { Sends S.moved stream.old stream.new session.old session.new }
    ensures counts { CountsMoved (S.failures stream.old) (S.failures stream.new) result }
{
    match stream.write(session.rest()) {
        Ok(count) => {
            session.sent(alloc, count);
            Moved::Some
        }
        Err(stop) => stopped(stop),
    }
}

/// Reads one piece of what a client sends, of which nothing waits, neither to be answered nor to be sent.
pub(crate) fn read_once<S: Stream>(
    alloc: Global,
    tools: &mut Tools,
    buffer: &mut [u8],
    stream: &mut S,
    session: &mut Session,
) -> Moved
    requires room { 0 < length buffer.old }
    requires opened { is_open session.old.phase ≡ true }
    requires idle { session.old.waiting ≡ [] }
    requires sent { session.old.unsent ≡ [] }
    ensures reads { (read : List ℕ) (ms : List MessageData) → IsCut read ms session.old.progress
        → Reads S.moved stream.old stream.new S.has_ended read ms session.old session.new result }
    ensures counts { CountsMoved (S.failures stream.old) (S.failures stream.new) result }
{
    match stream.read(buffer) {
        Ok(0) => {
            session.end_input(tools);
            Moved::Ended
        }
        Ok(count) => {
            session.take_piece(alloc, tools, &buffer[..count]);
            Moved::Some
        }
        Err(stop) => stopped(stop),
    }
}

/// Reads once of what a client sends after its session is over, and forgets it.
pub(crate) fn forget_once<S: Stream>(buffer: &mut [u8], stream: &mut S) -> Moved
    requires room { 0 < length buffer.old }
    ensures forgets { (read : List ℕ) × S.moved stream.old stream.new read [] }
    ensures ended { result ≡ Moved.Ended → S.has_ended stream.new }
    ensures counts { CountsMoved (S.failures stream.old) (S.failures stream.new) result }
{
    match stream.read(buffer) {
        Ok(0) => Moved::Ended,
        Ok(_) => Moved::Some,
        Err(stop) => stopped(stop),
    }
}
