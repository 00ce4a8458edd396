//! The head that begins the bytes of a connection.

ghost use Rattle.std.specs.Prelude.{◌≡◌, ◌≤◌, length, take, IsUtf8};
ghost use Rattle.httpmsg.specs.Front.{IsFront};

use crate::head::{HEAD_LIMIT, HeadView};
use httparse::Status;
use httparse::spans::{HeaderSpan, parse_request};
use std::str;

/// Room for the fields of any head: a field takes three bytes or more, and a head at most [`HEAD_LIMIT`].
pub(crate) const FIELD_ROOM: usize = 2731;

/// What begins the bytes of a connection.
#[derive(Drop)]
pub(crate) enum Front<'b> {
    /// A head, and how many bytes it has.
    Whole(HeadView<'b>, usize),
    /// No head yet.
    Unfinished,
    /// No head, whatever follows.
    Never,
}

fn text(bytes: &[u8]) -> &str
    requires { IsUtf8 bytes.now }
    ensures { result.now ≡ bytes.now }
{
    match str::from_utf8(bytes) {
        Ok(text) => text,
        Err(_) => unreachable!(),
    }
}

// The bytes that a head may have.
fn first_bytes(bytes: &[u8]) -> &[u8]
    ensures { result.now ≡ take HEAD_LIMIT bytes.now }
{
    &bytes[..bytes.len().min(HEAD_LIMIT)]
}

/// The head that begins the bytes, over room for its fields.
pub(crate) fn read_front<'b>(bytes: &'b [u8], room: &'b mut [HeaderSpan]) -> Front<'b>
    requires { length room.old ≡ FIELD_ROOM }
    ensures { IsFront bytes.now result }
{
    let first = first_bytes(bytes);
    match parse_request(first, room) {
        Ok(Status::Complete(head)) => {
            let view = HeadView {
                method: head.method.of(first),
                target: text(head.path.of(first)),
                minor: head.version,
                bytes: first,
                fields: &room[..head.headers],
            };
            Front::Whole(view, head.len)
        }
        Ok(Status::Partial) => {
            if bytes.len() < HEAD_LIMIT {
                Front::Unfinished
            } else {
                Front::Never
            }
        }
        Err(_) => Front::Never,
    }
}
