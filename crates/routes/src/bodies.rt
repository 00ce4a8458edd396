//! The bodies of the replies to messages with a fault, which take no memory.

ghost use Rattle.std.specs.Prelude.{◌≡◌};
ghost use Rattle.requests.specs.declared.refusal.Refusal.TheVariants as refusal;
ghost use Rattle.requests.specs.Reply.{status};
ghost use Rattle.routes.specs.ReplyBytes.{refusal_of};

use httpmsg::MessageFault;

fn malformed_body() -> &'static str
    ensures { result.now ≡ (status refusal.MalformedRequest).body }
{
    "{\"apiVersion\":\"v1\",\"code\":400,\"kind\":\"Status\",\"message\":\"malformed or unfinished request\",\"reason\":\"BadRequest\",\"status\":\"Failure\"}"
}

fn version_body() -> &'static str
    ensures { result.now ≡ (status refusal.UnservedVersion).body }
{
    "{\"apiVersion\":\"v1\",\"code\":505,\"kind\":\"Status\",\"message\":\"only HTTP/1.1 is served\",\"reason\":\"VersionNotSupported\",\"status\":\"Failure\"}"
}

fn fields_body() -> &'static str
    ensures { result.now ≡ (status refusal.TooManyFields).body }
{
    "{\"apiVersion\":\"v1\",\"code\":431,\"kind\":\"Status\",\"message\":\"more than 32 header fields\",\"reason\":\"RequestHeaderFieldsTooLarge\",\"status\":\"Failure\"}"
}

fn coding_body() -> &'static str
    ensures { result.now ≡ (status refusal.UnservedTransferCoding).body }
{
    "{\"apiVersion\":\"v1\",\"code\":501,\"kind\":\"Status\",\"message\":\"no transfer coding is served\",\"reason\":\"NotImplemented\",\"status\":\"Failure\"}"
}

fn host_body() -> &'static str
    ensures { result.now ≡ (status refusal.BadHost).body }
{
    "{\"apiVersion\":\"v1\",\"code\":400,\"kind\":\"Status\",\"message\":\"exactly one Host is needed\",\"reason\":\"BadRequest\",\"status\":\"Failure\"}"
}

fn length_body() -> &'static str
    ensures { result.now ≡ (status refusal.BadContentLength).body }
{
    "{\"apiVersion\":\"v1\",\"code\":400,\"kind\":\"Status\",\"message\":\"bad Content-Length\",\"reason\":\"BadRequest\",\"status\":\"Failure\"}"
}

fn large_body() -> &'static str
    ensures { result.now ≡ (status refusal.BodyTooLarge).body }
{
    "{\"apiVersion\":\"v1\",\"code\":413,\"kind\":\"Status\",\"message\":\"body too large\",\"reason\":\"RequestEntityTooLarge\",\"status\":\"Failure\"}"
}

fn expectation_body() -> &'static str
    ensures { result.now ≡ (status refusal.UnservedExpectation).body }
{
    "{\"apiVersion\":\"v1\",\"code\":417,\"kind\":\"Status\",\"message\":\"no expectation is served\",\"reason\":\"ExpectationFailed\",\"status\":\"Failure\"}"
}

fn target_body() -> &'static str
    ensures { result.now ≡ (status refusal.BadTarget).body }
{
    "{\"apiVersion\":\"v1\",\"code\":400,\"kind\":\"Status\",\"message\":\"target must be a path\",\"reason\":\"BadRequest\",\"status\":\"Failure\"}"
}

/// The body of the reply to a message that has a fault. Takes no memory.
pub fn fault_body(fault: MessageFault) -> &'static str
    ensures { result.now ≡ (status (refusal_of fault)).body }
{
    match fault {
        MessageFault::Malformed => malformed_body(),
        MessageFault::Version => version_body(),
        MessageFault::TooManyFields => fields_body(),
        MessageFault::TransferCoding => coding_body(),
        MessageFault::Host => host_body(),
        MessageFault::ContentLength => length_body(),
        MessageFault::BodyTooLarge => large_body(),
        MessageFault::Expectation => expectation_body(),
        MessageFault::Target => target_body(),
    }
}
