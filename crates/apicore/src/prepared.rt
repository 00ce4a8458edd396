ghost use Rattle.std.specs.Prelude.{◌≡◌, None};

use decoded::Decoded;
use holdings::PreparedWrite;
use requests::Reply;

/// A step that has all its memory: the reply, and the write that it makes if it makes one.
#[derive(Drop)]
pub struct Prepared {
    pub reply: Reply,
    pub write: Option<PreparedWrite<Decoded>>,
}

impl Prepared {
    /// The step that replies and writes nothing.
    pub(crate) fn replying(reply: Reply) -> Prepared
        ensures { result ≡ record { reply = reply; write = None } }
    {
        Prepared { reply, write: None }
    }
}
