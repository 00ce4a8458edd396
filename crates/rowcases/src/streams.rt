//! The messages of a stream, what they ask for, and the words of their faults.

use cases::Wrong;
use httpmsg::{Cutter, HeadRoom, Message, MessageFault};
use names::Format;
use routes::{Routed, Routes, route};
use std::alloc::Global;

// The messages of a stream that ends between two of them.
fn messages_of(alloc: Global, sent: &str) -> Result<Vec<Message>, Wrong> {
    let mut room = HeadRoom::new(alloc)?;
    let mut cutter = Cutter::new(alloc);
    let fed = cutter.feed(alloc, &mut room, sent.as_bytes());
    match (fed, cutter.ending()) {
        (Ok(messages), Ok(())) => Ok(messages),
        _ => Err(Wrong::Told("the stream has a fault")),
    }
}

/// The word of a message's fault.
pub fn fault_word(fault: MessageFault) -> &'static str {
    match fault {
        MessageFault::Malformed => "malformed",
        MessageFault::Version => "version",
        MessageFault::TooManyFields => "fields",
        MessageFault::TransferCoding => "coding",
        MessageFault::Host => "host",
        MessageFault::ContentLength => "length",
        MessageFault::BodyTooLarge => "body",
        MessageFault::Expectation => "expectation",
        MessageFault::Target => "target",
    }
}

/// What the first message of a stream asks of a store of this format.
pub fn routed_first(
    alloc: Global,
    routes: &Routes,
    format: Format,
    sent: &str,
) -> Result<Routed, Wrong> {
    let messages = messages_of(alloc, sent)?;
    let routed = match messages.first() {
        Some(message) => match route(alloc, routes, format, message) {
            Ok(routed) => Ok(routed),
            Err(_) => Err(Wrong::Memory),
        },
        None => Err(Wrong::Told("there is no message")),
    };
    drop(messages);
    routed
}
