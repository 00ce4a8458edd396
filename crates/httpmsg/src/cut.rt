//! The messages of bytes, cut one after another.

ghost use Rattle.std.specs.Prelude.{◌≡◌, ◌≤◌, length, drop, IfOk, None};
ghost use Rattle.httpmsg.specs.Stream.{StreamIsUnique, IsCut};
ghost use Rattle.httpmsg.specs.Front.{IsFront};
ghost use Rattle.httpmsg.specs.Cut.{IsNext, Awaits};

use crate::front::{FIELD_ROOM, Front, read_front};
use crate::head::{BrokenMessage, End, HeadView, MessageFault, Method};
use crate::message::Message;
use httparse::spans::HeaderSpan;
use std::alloc::{AllocError, Global};

/// The first message of some bytes.
#[derive(Drop)]
pub(crate) enum NextMessage {
    /// A message, and how many bytes it has.
    Whole(Message, usize),
    /// None yet, and how many bytes must be there before more can be told.
    Unfinished(usize),
    Fails(BrokenMessage),
}

fn next_message(
    alloc: Global,
    bytes: &[u8],
    room: &mut [HeaderSpan],
) -> Result<NextMessage, AllocError>
    requires { length room.old ≡ FIELD_ROOM }
    ensures { IfOk result (IsNext bytes.now) }
{
    if bytes.is_empty() {
        return Ok(NextMessage::Unfinished(1));
    }
    match read_front(bytes, room) {
        Front::Unfinished => Ok(NextMessage::Unfinished(bytes.len() + 1)),
        Front::Never => Ok(NextMessage::Fails(BrokenMessage {
            fault: MessageFault::Malformed,
            is_head: false,
        })),
        Front::Whole(head, len) => first_message(alloc, bytes, &head, len),
    }
}

// The message that a head of this many bytes begins.
fn first_message(
    alloc: Global,
    bytes: &[u8],
    head: &HeadView,
    len: usize,
) -> Result<NextMessage, AllocError>
    requires { IsFront bytes.now (Front.Whole head.now len) }
    ensures { IfOk result (IsNext bytes.now) }
{
    let method = Method::named(head.method);
    if let Some(fault) = head.fault() {
        let is_head = method.is_head();
        return Ok(NextMessage::Fails(BrokenMessage { fault, is_head }));
    }
    let end = len + head.body_length() as usize;
    if bytes.len() < end {
        return Ok(NextMessage::Unfinished(end));
    }
    let body = &bytes[len..end];
    let message = Message::new(alloc, method, head.target, head.says_close(), body)?;
    Ok(NextMessage::Whole(message, end))
}

/// The whole messages of some bytes, and what follows them.
#[derive(Drop)]
pub(crate) struct Run {
    pub messages: Vec<Message>,
    /// Where what follows them begins.
    pub at: usize,
    /// How many bytes of what follows must be there before more can be told, where the end is not known.
    pub awaited: usize,
    /// The end, where it is known.
    pub end: Option<End>,
}

/// Cuts the whole messages from the bytes, with room for the fields of a head.
pub(crate) fn cut_all(
    alloc: Global,
    bytes: &[u8],
    room: &mut [HeaderSpan],
) -> Result<Run, AllocError>
    requires { length room.old ≡ FIELD_ROOM }
    ensures cut { IfOk result (λ run. (run.at ≤ length bytes.now)
        × IsCut bytes.now run.messages.items (record { pending = drop run.at bytes.now; end = run.end })) }
    ensures awaits { IfOk result (λ run. run.end ≡ None → Awaits (drop run.at bytes.now) run.awaited) }
{
    let mut messages = Vec::new(alloc);
    let mut at = 0;
    'messages: loop {
        match next_message(alloc, &bytes[at..], room)? {
            NextMessage::Unfinished(awaited) => return Ok(Run {
                messages,
                at,
                awaited,
                end: None,
            }),
            NextMessage::Fails(broken) => return Ok(Run {
                messages,
                at,
                awaited: 0,
                end: Some(End::Broken(broken)),
            }),
            NextMessage::Whole(message, len) => {
                let closes = message.closes();
                messages.push(message)?;
                at += len;
                if closes {
                    return Ok(Run {
                        messages,
                        at,
                        awaited: 0,
                        end: Some(End::Closed),
                    });
                }
            }
        }
    }
}

/// States that a stream of bytes has one list of messages and one end.
pub fn one_stream()
    ensures { StreamIsUnique }
{}
