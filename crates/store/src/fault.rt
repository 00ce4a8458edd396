//! Why requests were not answered to their end.

use api::ServeFault;
use durable::Fault;
use std::fmt;
use std::fmt::{Display, Formatter};

/// Why requests were not answered to their end.
#[derive(Clone, Copy)]
pub enum AnswerFault {
    /// No store was opened.
    Opening(Fault),
    /// Serving ended before the stream did.
    Serving(ServeFault),
}

impl Display for AnswerFault {
    fn fmt<W: fmt::Write>(&self, f: &mut Formatter<W>) -> fmt::Result {
        match self {
            AnswerFault::Opening(fault) => fault.fmt(f),
            AnswerFault::Serving(fault) => fault.fmt(f),
        }
    }
}
