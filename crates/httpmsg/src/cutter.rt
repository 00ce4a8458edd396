//! Messages cut from the bytes of a connection as they come.

ghost use Rattle.std.specs.Prelude.{◌≡◌, ◌≢◌, ◌+◌, ◌<◌, ◌≤◌, ◌⊎◌, ℕ, List, [], ◌++◌, length, vec_len, drop, IfOk, OnOk, IfSome, MatchResult, IsTrue, ◌↔◌, Some, None};
ghost use Rattle.httpmsg.specs.Stream.{Message as MessageData, IsStream, IsCut, Waits};
ghost use Rattle.httpmsg.specs.declared.head.BrokenMessage.{BrokenMessage};
ghost use Rattle.httpmsg.specs.Cut.{Awaits, end_of};
ghost use Rattle.httpmsg.specs.Awaited.{IsAwaited};

use crate::cut::cut_all;
use crate::front::FIELD_ROOM;
use crate::head::{BrokenMessage, End, HEAD_LIMIT, MessageFault};
use crate::message::Message;
use crate::place::HeadPlace;
use httparse::spans::{EMPTY_HEADER_SPAN, HeaderSpan};
use std::alloc::{AllocError, Global};
use std::marker::Model;

// How much room is kept where no byte is left.
const KEPT_BYTES: usize = 8192;

// Moves what follows this many bytes to the front. Where nothing follows, large room is given back.
fn remove_front(alloc: Global, bytes: &mut Vec<u8>, count: usize)
    requires { count ≤ vec_len bytes.old }
    ensures { bytes.new.items ≡ drop count bytes.old.items }
{
    if count == 0 {
        return;
    }
    let len = bytes.len();
    if count == len && bytes.capacity() > KEPT_BYTES {
        *bytes = Vec::new(alloc);
        return;
    }
    bytes.copy_within(count..len, 0);
    bytes.truncate(len - count);
}

/// What must come before more can be told of the bytes that are pending.
#[derive(Clone, Copy)]
pub(crate) enum Awaited {
    /// This many bytes in all.
    Bytes(usize),
    /// The next byte of the head that they begin, which is read up to here.
    Head(HeadPlace),
}

impl Awaited {
    // What is awaited after these bytes, of which this many must be there.
    fn next(bytes: &[u8], need: usize) -> Awaited
        ensures { Awaits bytes.now need → IsAwaited bytes.now result }
    {
        if bytes.is_empty() || bytes.len() >= HEAD_LIMIT || bytes.len() + 1 < need {
            return Awaited::Bytes(need);
        }
        match HeadPlace::BeforeRequest.after(bytes) {
            Some(place) => Awaited::Head(place),
            None => Awaited::Bytes(need),
        }
    }

    // What is awaited once these bytes have come, this many with those before them, where they tell nothing.
    fn after(self, bytes: &[u8], len: usize) -> Option<Awaited>
        ensures { IfSome result (λ awaited. (pending : List ℕ) → length (pending ++ bytes.now) ≡ len → IsAwaited pending self
            → IsAwaited (pending ++ bytes.now) awaited) }
    {
        match self {
            Awaited::Bytes(need) if len < need => Some(self),
            Awaited::Head(place) if len < HEAD_LIMIT => place.after(bytes).map(Awaited::Head),
            _ => None,
        }
    }
}

/// Why the bytes fed give no messages.
#[derive(Clone, Copy)]
pub enum CutFault {
    /// The stream ends at a message with this fault; every later call answers so too.
    Broken(BrokenMessage),
    /// Memory was refused; nothing changed.
    Memory,
}

impl From<AllocError> for CutFault {
    ghost use Rattle.httpmsg.specs.declared.cutter.CutFault.TheVariants.{Memory};

    ghost from_gives = { λ _ fault. fault ≡ Memory };

    fn from(_: AllocError) -> CutFault {
        CutFault::Memory
    }
}

// The messages, or the fault where there are none before it.
fn told(messages: Vec<Message>, end: Option<End>) -> Result<Vec<Message>, CutFault>
    ensures ok { IfOk result (λ more. more.items ≡ messages.items) }
    ensures once { IfOk result (λ more. more.items ≡ [] → (b : BrokenMessage) → end ≡ Some (End.Broken b) → ⊥) }
    ensures broken { (b : BrokenMessage) → result ≡ Err (CutFault.Broken b) → (messages.items ≡ []) × (end ≡ Some (End.Broken b)) }
    ensures memory { result ≢ Err CutFault.Memory }
{
    match end {
        Some(End::Broken(broken)) if messages.is_empty() => Err(CutFault::Broken(broken)),
        _ => Ok(messages),
    }
}

// What is cut from bytes after the end: nothing, or the fault again.
fn after_end(alloc: Global, end: End) -> Result<Vec<Message>, CutFault>
    ensures ok { IfOk result (λ more. (more.items ≡ []) × ((b : BrokenMessage) → end ≢ End.Broken b)) }
    ensures broken { (b : BrokenMessage) → result ≡ Err (CutFault.Broken b) → end ≡ End.Broken b }
    ensures memory { result ≢ Err CutFault.Memory }
{
    match end {
        End::Broken(broken) => Err(CutFault::Broken(broken)),
        End::Closed | End::Clean => Ok(Vec::new(alloc)),
    }
}

/// Room for the fields of one head, some 87 KB. A head needs it only while it is read, so cutters that are fed by turns share one.
#[derive(Drop)]
pub struct HeadRoom {
    spans: Vec<HeaderSpan>,
    ghost whole: { length spans.items ≡ 2731 },
}

impl HeadRoom {
    /// The room. All its memory is taken here.
    pub fn new(alloc: Global) -> Result<HeadRoom, AllocError> {
        Ok(HeadRoom {
            spans: vec![in alloc; EMPTY_HEADER_SPAN; FIELD_ROOM]?,
        })
    }
}

/// Cuts the bytes of a connection into messages, in pieces of any size. Of memory it holds the bytes that wait for their message's end.
#[derive(Drop)]
pub struct Cutter {
    pending: Vec<u8>,
    awaited: Awaited,
    end: Option<End>,
}

impl Model for Cutter {
    ghost use Rattle.httpmsg.specs.Stream.{Progress};

    ghost Value = { Progress };

    ghost use Rattle.std.specs.Prelude.{◌≡◌, None};

    ghost view = { λ c. record { pending = c.pending.items; end = c.end } };

    ghost use Rattle.httpmsg.specs.Awaited.{IsAwaited};

    ghost invariant = { λ c. c.end ≡ None → IsAwaited c.pending.items c.awaited };
}

impl Cutter {
    /// A cutter that was fed nothing. It takes no memory.
    pub fn new(alloc: Global) -> Cutter
        ensures { result ≡ record { pending = []; end = None } }
    {
        Cutter {
            pending: Vec::new(alloc),
            awaited: Awaited::Bytes(1),
            end: None,
        }
    }

    /// The whole messages that these further bytes give, oldest first.
    ///
    /// A fault of the stream is answered by the call after the messages before it, which may be fed nothing, and by
    /// every later one. After a message that closes nothing more is cut.
    pub fn feed(
        &mut self,
        alloc: Global,
        room: &mut HeadRoom,
        bytes: &[u8],
    ) -> Result<Vec<Message>, CutFault>
        ensures ok { (all : List ℕ) (ms : List MessageData) → IsCut all ms self.old
            → IfOk result (λ more. IsCut (all ++ bytes.now) (ms ++ more.items) self.new) }
        ensures broken { (all : List ℕ) (ms : List MessageData) → IsCut all ms self.old
            → (b : BrokenMessage) → result ≡ Err (CutFault.Broken b)
            → IsCut (all ++ bytes.now) ms self.new × (self.new.end ≡ Some (End.Broken b)) }
        ensures told { IfOk result (λ more. more.items ≡ [] → (b : BrokenMessage) → self.new.end ≡ Some (End.Broken b) → ⊥) }
        ensures bounded { self.new.end ≡ None → length self.new.pending < 73728 }

        // A fault is told as soon as the parse fails, or as many bytes as a head may have hold none: else more bytes may help.
        ensures waits { OnOk result (self.new.end ≡ None → Waits self.new.pending) }
        ensures memory { result ≡ Err CutFault.Memory → self.new ≡ self.old }
    {
        if let Some(end) = self.end {
            return after_end(alloc, end);
        }
        let before = self.pending.len();
        self.pending.extend_from_slice(bytes)?;
        if let Some(awaited) = self.awaited.after(bytes, self.pending.len()) {
            self.awaited = awaited;
            return Ok(Vec::new(alloc));
        }
        match cut_all(alloc, &self.pending, &mut room.spans) {
            Ok(run) => {
                remove_front(alloc, &mut self.pending, run.at);
                self.awaited = Awaited::next(&self.pending, run.awaited);
                self.end = run.end;
                told(run.messages, run.end)
            }
            Err(AllocError) => {
                self.pending.truncate(before);
                Err(CutFault::Memory)
            }
        }
    }

    /// Whether a message said that the connection ends after its reply.
    pub fn has_closed(&self) -> bool
        ensures { IsTrue result ↔ (self.now.end ≡ Some End.Closed) }
    {
        matches!(self.end, Some(End::Closed))
    }

    /// The end of the stream, if no more bytes come: an error where it is a fault.
    pub fn ending(&self) -> Result<(), BrokenMessage>
        ensures stream { (all : List ℕ) (ms : List MessageData) → IsCut all ms self.now → IsStream all ms (end_of self.now) }
        ensures end { MatchResult result (λ _. (end_of self.now ≡ End.Clean) ⊎ (end_of self.now ≡ End.Closed)) (λ b. end_of self.now ≡ End.Broken b) }
    {
        match self.end {
            Some(End::Broken(broken)) => Err(broken),
            Some(End::Closed) | Some(End::Clean) => Ok(()),
            None => {
                if self.pending.as_slice().is_empty() {
                    Ok(())
                } else {
                    Err(BrokenMessage {
                        fault: MessageFault::Malformed,
                        is_head: false,
                    })
                }
            }
        }
    }
}
