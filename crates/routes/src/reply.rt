//! The bytes of replies.

ghost use Rattle.std.specs.Prelude.{◌≡◌, ◌==◌, false, if◌then◌else◌, None, IfSome, option_map, unwrap_or, slice_index_or};
ghost use Rattle.names.specs.declared.format.Format.{Format};
ghost use Rattle.requests.specs.declared.refusal.Refusal.TheVariants as refusal;
ghost use Rattle.requests.specs.Reply.{status};
ghost use Rattle.httpmsg.specs.Flow.{HasCause, Writes};
ghost use Rattle.httpmsg.specs.declared.head.End.TheVariants.{Broken};
ghost use Rattle.httpmsg.specs.Response.{response_bytes};
ghost use Rattle.httpmsg.specs.Sheet.{gathered};
ghost use Rattle.httpmsg.specs.Stream.{is_head};
ghost use Rattle.routes.specs.ReplyBytes.{refusal_of, response_of, allow_in, reply_bytes, closing_bytes, end_bytes};
ghost use Rattle.routes.specs.AnswerBytes.{answer_bytes, answers_bytes, CanAnswer, CanAnswerAll, PutsAfter};

use crate::bodies::fault_body;
use httpmsg::{
    BrokenMessage, Message, MessageFault, Output, Response, Sheet, Status, StreamFault, write_all,
};
use requests::{Refusal, Reply};

// The refusal of a message that has a fault.
fn refusal_of(fault: MessageFault) -> Refusal
    ensures { result ≡ refusal_of fault }
{
    match fault {
        MessageFault::Malformed => Refusal::MalformedRequest,
        MessageFault::Version => Refusal::UnservedVersion,
        MessageFault::TooManyFields => Refusal::TooManyFields,
        MessageFault::TransferCoding => Refusal::UnservedTransferCoding,
        MessageFault::Host => Refusal::BadHost,
        MessageFault::ContentLength => Refusal::BadContentLength,
        MessageFault::BodyTooLarge => Refusal::BodyTooLarge,
        MessageFault::Expectation => Refusal::UnservedExpectation,
        MessageFault::Target => Refusal::BadTarget,
    }
}

// Those of the path, at the code that says so (RFC 9110 section 15.5.6).
fn allow_at(code: u16, allow: Option<&'static str>) -> Option<&'static str>
    ensures { option_map (λ methods. methods.now) result ≡ if code == 405 then option_map (λ methods. methods.now) allow.entry else None }
{
    if code == 405 { allow } else { None }
}

// A response, with the methods that it lists.
fn listing<'r>(response: Response<'r>, allow: Option<&'r str>) -> Response<'r>
    requires { response.allow ≡ None }
    ensures { result ≡ record response.entry { allow = option_map (λ methods. methods.now) allow.entry } }
{
    match allow {
        Some(methods) => response.allowing(methods),
        None => response,
    }
}

// The response of a reply to a message. `allow` has the methods of its path, if the request's method is not among them.
fn response_to<'r>(message: &Message, reply: &'r Reply, allow: Option<&'static str>) -> Response<'r>
    ensures { (format : Format) → CanAnswer format message.now reply.now allow.entry
        → result ≡ response_of (allow_in format message.now reply.now) (is_head message.now.method) message.now.closes reply.now }
{
    let response = Response::new(Status::of(reply.code()), reply.body().as_bytes())
        .warning(reply.warnings())
        .closing(message.closes())
        .leaving_body_out(message.method().is_head());
    listing(response, allow_at(reply.code(), allow))
}

// The response of a refusal whose body is at hand.
fn refusing(refusal: Refusal, body: &str, without_body: bool, closes: bool) -> Response<'_>
    requires { body.now ≡ (status refusal).body }
    ensures { result ≡ response_of None without_body closes (status refusal) }
{
    Response::new(Status::of(refusal.code()), body.as_bytes())
        .closing(closes)
        .leaving_body_out(without_body)
}

// The response to a message to which memory was refused.
fn out_of_memory(message: &Message) -> Response<'static>
    ensures { result ≡ response_of None (is_head message.now.method) message.now.closes (status refusal.OutOfMemory) }
{
    let without_body = message.method().is_head();
    let body = Reply::out_of_memory_body();
    refusing(Refusal::OutOfMemory, body, without_body, message.closes())
}

// Puts a response after what the sheet holds. Where the sheet has no room for it, what it holds is written, and then the response.
fn put_after<O: Output>(
    output: &mut O,
    sheet: &mut Sheet,
    response: &Response,
) -> Result<(), StreamFault>
    ensures puts { PutsAfter O.took output.old output.new (gathered sheet.old) (gathered sheet.new) (response_bytes response.now) result }
    ensures cause { HasCause (O.failures output.old) (O.failures output.new) result }
{
    let held = sheet.bytes().len();
    match response.write(sheet) {
        Ok(()) => Ok(()),
        Err(_) => match write_all(output, &sheet.bytes()[..held]) {
            Ok(()) => {
                let written = response.write_at_once(output, sheet);
                sheet.clear();
                written
            }
            Err(fault) => Err(fault),
        },
    }
}

// Puts the answer to a message after what the sheet holds: its reply, or where there is none that memory was refused.
fn put_answer<O: Output>(
    output: &mut O,
    sheet: &mut Sheet,
    message: &Message,
    reply: Option<&Reply>,
    allow: Option<&'static str>,
) -> Result<(), StreamFault>
    ensures puts { (format : Format) → IfSome reply.entry (λ r. CanAnswer format message.now r.now allow.entry)
        → PutsAfter O.took output.old output.new (gathered sheet.old) (gathered sheet.new)
        (reply_bytes format message.now (unwrap_or (option_map (λ r. r.now) reply.entry) (status refusal.OutOfMemory))) result }
    ensures cause { HasCause (O.failures output.old) (O.failures output.new) result }
{
    match reply {
        Some(reply) => put_after(output, sheet, &response_to(message, reply, allow)),
        None => put_after(output, sheet, &out_of_memory(message)),
    }
}

/// Those of the methods that stand at an index, where some do.
pub fn methods_at(allows: &[Option<&'static str>], index: usize) -> Option<&'static str>
    ensures { result ≡ slice_index_or allows.now index None }
{
    allows.get(index).copied().flatten()
}

/// Writes the answers to messages: these replies, in order, and after them that memory was refused. They are written in one piece where
/// the sheet has room for them. It takes no memory.
pub fn write_answers<O: Output>(
    output: &mut O,
    sheet: &mut Sheet,
    messages: &[Message],
    replies: &[Reply],
    allows: &[Option<&'static str>],
) -> Result<(), StreamFault>
    ensures writes { (format : Format) → CanAnswerAll format messages.now replies.now allows.now
        → Writes O.took output.old output.new (answers_bytes format messages.now replies.now) result }
    ensures cause { HasCause (O.failures output.old) (O.failures output.new) result }
{
    sheet.clear();
    for (index, message) in messages.iter().enumerate() {
        let allow = methods_at(allows, index);
        match put_answer(output, sheet, message, replies.get(index), allow) {
            Ok(()) => {}
            Err(fault) => return Err(fault),
        }
    }
    write_all(output, sheet.bytes())
}

/// Writes the answer to one message, whose path allows these methods: its reply, or where there is none that memory was refused. It takes
/// no memory.
pub fn write_answer<O: Output>(
    output: &mut O,
    message: &Message,
    reply: Option<&Reply>,
    allow: Option<&'static str>,
) -> Result<(), StreamFault>
    ensures writes { (format : Format) → IfSome reply.entry (λ r. CanAnswer format message.now r.now allow.entry)
        → Writes O.took output.old output.new (answer_bytes format message.now (option_map (λ r. r.now) reply.entry)) result }
    ensures cause { HasCause (O.failures output.old) (O.failures output.new) result }
{
    match reply {
        Some(reply) => response_to(message, reply, allow).write(output),
        None => out_of_memory(message).write(output),
    }
}

/// Writes that memory was refused to further bytes, after which the connection ends.
pub fn write_no_more<O: Output>(output: &mut O, sheet: &mut Sheet) -> Result<(), StreamFault>
    ensures writes { Writes O.took output.old output.new (closing_bytes false refusal.OutOfMemory) result }
    ensures cause { HasCause (O.failures output.old) (O.failures output.new) result }
{
    let body = Reply::out_of_memory_body();
    refusing(Refusal::OutOfMemory, body, false, true).write_at_once(output, sheet)
}

/// Writes that the storage failed, after which the connection ends.
pub fn write_storage_failed<O: Output>(output: &mut O, sheet: &mut Sheet) -> Result<(), StreamFault>
    ensures writes { Writes O.took output.old output.new (closing_bytes false refusal.StorageFailed) result }
    ensures cause { HasCause (O.failures output.old) (O.failures output.new) result }
{
    let body = Reply::storage_failed_body();
    refusing(Refusal::StorageFailed, body, false, true).write_at_once(output, sheet)
}

/// Writes the reply to a message with a fault, after which the connection ends.
pub fn write_fault<O: Output>(
    output: &mut O,
    sheet: &mut Sheet,
    broken: BrokenMessage,
) -> Result<(), StreamFault>
    ensures writes { Writes O.took output.old output.new (end_bytes (Broken broken)) result }
    ensures cause { HasCause (O.failures output.old) (O.failures output.new) result }
{
    let refusal = refusal_of(broken.fault);
    let body = fault_body(broken.fault);
    refusing(refusal, body, broken.is_head, true).write_at_once(output, sheet)
}
