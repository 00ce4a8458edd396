//! The reply that a constant is.

ghost use Rattle.std.specs.Prelude.{◌≡◌, [], None};
ghost use Rattle.httpmsg.specs.Flow.{HasCause, Writes};
ghost use Rattle.httpmsg.specs.Stream.{is_head};
ghost use Rattle.routes.specs.ReplyBytes.{response_of};
ghost use Rattle.dialect.specs.ConstantBytes.{constant_bytes};

use httpmsg::{Message, Output, Response, Status, StreamFault};

// The response that a constant text is to a message.
fn response_to<'r>(message: &Message, text: &'r str) -> Response<'r>
    ensures { result ≡ response_of None (is_head message.now.method) message.now.closes (record { code = 200; warnings = []; body = text.now }) }
{
    Response::new(Status::of(200), text.as_bytes())
        .closing(message.closes())
        .leaving_body_out(message.method().is_head())
}

/// Writes a constant text as the reply to a message. It takes no memory.
pub fn write_constant<O: Output>(
    output: &mut O,
    message: &Message,
    text: &str,
) -> Result<(), StreamFault>
    ensures writes { Writes O.took output.old output.new (constant_bytes message.now text.now) result }
    ensures cause { HasCause (O.failures output.old) (O.failures output.new) result }
{
    response_to(message, text).write(output)
}
