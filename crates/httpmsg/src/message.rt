//! A message: what a request asks.

ghost use Rattle.std.specs.Prelude.{◌≡◌, IfOk};

use crate::head::Method;
use std::alloc::{AllocError, Global};
use std::marker::Model;

/// A request's message (RFC 9112 section 2.1), as far as it is looked at.
#[derive(Drop)]
pub struct Message {
    method: Method,
    target: String,
    closes: bool,
    body: Vec<u8>,
}

impl Model for Message {
    ghost use Rattle.httpmsg.specs.Stream.{Message as MessageData};

    ghost Value = { MessageData };

    ghost use Rattle.std.specs.Prelude.{string_bytes};

    ghost view = { λ m. record { method = m.method; target = string_bytes m.target; closes = m.closes; body = m.body.items } };
}

impl Message {
    /// A message of these parts, which are copied.
    pub fn new(
        alloc: Global,
        method: Method,
        target: &str,
        closes: bool,
        body: &[u8],
    ) -> Result<Message, AllocError>
        ensures { IfOk result (λ m. m ≡ record { method = method; target = target.now; closes = closes; body = body.now }) }
    {
        let target = String::from_str(alloc, target)?;
        let body = Vec::from_slice(alloc, body)?;
        Ok(Message {
            method,
            target,
            closes,
            body,
        })
    }

    /// The method.
    pub fn method(&self) -> Method
        ensures { result ≡ self.now.method }
    {
        self.method
    }

    /// The target (RFC 9112 section 3.2): a path, and a query after a question mark.
    pub fn target(&self) -> &str
        ensures { result.now ≡ self.now.target }
    {
        &self.target
    }

    /// Whether the connection ends after the reply (RFC 9112 section 9.6).
    pub fn closes(&self) -> bool
        ensures { result ≡ self.now.closes }
    {
        self.closes
    }

    /// The body, which is empty where there is none.
    pub fn body(&self) -> &[u8]
        ensures { result.now ≡ self.now.body }
    {
        &self.body
    }
}
