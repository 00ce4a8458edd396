//! The requests of the first messages of a group.

ghost use Rattle.std.specs.Prelude.{◌≡◌, ◌<◌, ◌≤◌, ◌++◌, [], ◌∷◌, length, map, take, option_map, IfOk};
ghost use Rattle.std.specs.Vec.{vec_len, vec_capacity};
ghost use Rattle.requests.specs.RequestOf.{request_of};
ghost use Rattle.routes.specs.Asked.{asked};
ghost use Rattle.routes.specs.Allow.{allow_of};

use crate::routes::{Routed, route};
use crate::table::Routes;
use httpmsg::Message;
use names::Format;
use requests::Request;
use std::alloc::{AllocError, Global};

/// Messages that are routed.
#[derive(Drop)]
pub struct RoutedMessages {
    /// What they ask.
    pub requests: Vec<Request>,
    /// The methods that the path of each allows, if the request's method is not among them.
    pub allows: Vec<Option<&'static str>>,
}

impl RoutedMessages {
    // No message. It takes no memory.
    fn new(alloc: Global) -> RoutedMessages
        ensures requests { result.requests.items ≡ [] }
        ensures allows { result.allows.items ≡ [] }
    {
        RoutedMessages {
            requests: Vec::new(alloc),
            allows: Vec::new(alloc),
        }
    }

    // No message, with room for this many.
    fn with_capacity(alloc: Global, count: usize) -> Result<RoutedMessages, AllocError>
        ensures requests { IfOk result (λ front. front.requests.items ≡ []) }
        ensures allows { IfOk result (λ front. front.allows.items ≡ []) }
        ensures room { IfOk result (λ front. (count ≤ vec_capacity front.requests) × (count ≤ vec_capacity front.allows)) }
    {
        Ok(RoutedMessages {
            requests: Vec::with_capacity(alloc, count)?,
            allows: Vec::with_capacity(alloc, count)?,
        })
    }

    // One message more.
    fn push(&mut self, routed: Routed)
        requires requests_room { vec_len self.old.requests < vec_capacity self.old.requests }
        requires allows_room { vec_len self.old.allows < vec_capacity self.old.allows }
        ensures requests { self.new.requests.items ≡ self.old.requests.items ++ routed.request ∷ [] }
        ensures allows { self.new.allows.items ≡ self.old.allows.items ++ routed.allow ∷ [] }
        ensures requests_capacity { vec_capacity self.new.requests ≡ vec_capacity self.old.requests }
        ensures allows_capacity { vec_capacity self.new.allows ≡ vec_capacity self.old.allows }
    {
        let Routed { request, allow } = routed;
        self.requests.push_reserved(request);
        self.allows.push_reserved(allow);
    }
}

/// Routes messages to a store of a format from the first on, up to the first to which memory is refused.
pub fn route_front(
    alloc: Global,
    routes: &Routes,
    format: Format,
    messages: &[Message],
) -> RoutedMessages
    ensures few { length result.requests.items ≤ length messages.now }
    ensures requests { map request_of result.requests.items ≡ map (asked format) (take (length result.requests.items) messages.now) }
    ensures allows { map (option_map (λ methods. methods.now)) result.allows.items ≡ map (allow_of format) (take (length result.requests.items) messages.now) }
{
    let mut front = match RoutedMessages::with_capacity(alloc, messages.len()) {
        Ok(front) => front,
        Err(AllocError) => return RoutedMessages::new(alloc),
    };
    for message in messages {
        match route(alloc, routes, format, message) {
            Ok(routed) => front.push(routed),
            Err(AllocError) => return front,
        }
    }
    front
}
