//! Where in a head its bytes end, told from where they ended before and the bytes that came since.

ghost use Rattle.std.specs.Prelude.{ℕ, List, ◌++◌, IfSome};
ghost use Rattle.httpmsg.specs.Place.{Follows, Steps};

use httparse::{is_header_name_token, is_header_value_token, is_method_token, is_uri_token};

/// Where in a head its bytes end.
#[derive(Clone, Copy)]
pub(crate) enum HeadPlace {
    /// Before the request line, and after the empty lines before it.
    BeforeRequest,
    /// After the CR of an empty line before it.
    InEmptyLine,
    InMethod,
    BeforeTarget,
    InTarget,
    /// After this many bytes of [`VERSION`].
    InVersion(usize),
    AfterVersion,
    /// After the CR of a line.
    AfterReturn,
    /// Before a field, or the empty line that ends the head.
    BeforeLine,
    /// After the CR of the empty line.
    InLastLine,
    InName,
    InValue,
}

/// A version without its last digit.
const VERSION: &[u8] = b"HTTP/1.";

fn before_request(byte: u8) -> Option<HeadPlace>
    ensures { IfSome result (Steps HeadPlace.BeforeRequest byte) }
{
    match byte {
        b'\r' => Some(HeadPlace::InEmptyLine),
        b'\n' => Some(HeadPlace::BeforeRequest),
        _ if is_method_token(byte) => Some(HeadPlace::InMethod),
        _ => None,
    }
}

fn in_method(byte: u8) -> Option<HeadPlace>
    ensures { IfSome result (Steps HeadPlace.InMethod byte) }
{
    if byte == b' ' {
        Some(HeadPlace::BeforeTarget)
    } else if is_method_token(byte) {
        Some(HeadPlace::InMethod)
    } else {
        None
    }
}

// A target that is not in ASCII may be no text, which its parse tells.
fn before_target(byte: u8) -> Option<HeadPlace>
    ensures { IfSome result (Steps HeadPlace.BeforeTarget byte) }
{
    if is_uri_token(byte) && byte < 128 {
        Some(HeadPlace::InTarget)
    } else {
        None
    }
}

fn in_target(byte: u8) -> Option<HeadPlace>
    ensures { IfSome result (Steps HeadPlace.InTarget byte) }
{
    if byte == b' ' {
        Some(HeadPlace::InVersion(0))
    } else if is_uri_token(byte) && byte < 128 {
        Some(HeadPlace::InTarget)
    } else {
        None
    }
}

fn in_version(count: usize, byte: u8) -> Option<HeadPlace>
    ensures { IfSome result (Steps (HeadPlace.InVersion count) byte) }
{
    if count < VERSION.len() {
        if byte == VERSION[count] {
            Some(HeadPlace::InVersion(count + 1))
        } else {
            None
        }
    } else if byte == b'0' || byte == b'1' {
        Some(HeadPlace::AfterVersion)
    } else {
        None
    }
}

fn after_version(byte: u8) -> Option<HeadPlace>
    ensures { IfSome result (Steps HeadPlace.AfterVersion byte) }
{
    match byte {
        b'\r' => Some(HeadPlace::AfterReturn),
        b'\n' => Some(HeadPlace::BeforeLine),
        _ => None,
    }
}

fn before_line(byte: u8) -> Option<HeadPlace>
    ensures { IfSome result (Steps HeadPlace.BeforeLine byte) }
{
    if byte == b'\r' {
        Some(HeadPlace::InLastLine)
    } else if is_header_name_token(byte) {
        Some(HeadPlace::InName)
    } else {
        None
    }
}

fn in_name(byte: u8) -> Option<HeadPlace>
    ensures { IfSome result (Steps HeadPlace.InName byte) }
{
    if byte == b':' {
        Some(HeadPlace::InValue)
    } else if is_header_name_token(byte) {
        Some(HeadPlace::InName)
    } else {
        None
    }
}

fn in_value(byte: u8) -> Option<HeadPlace>
    ensures { IfSome result (Steps HeadPlace.InValue byte) }
{
    match byte {
        b'\r' => Some(HeadPlace::AfterReturn),
        b'\n' => Some(HeadPlace::BeforeLine),
        _ if is_header_value_token(byte) => Some(HeadPlace::InValue),
        _ => None,
    }
}

impl HeadPlace {
    // The place after one more byte, where that neither ends the head nor may break it.
    fn after_byte(self, byte: u8) -> Option<HeadPlace>
        ensures { IfSome result (Steps self byte) }
    {
        match self {
            HeadPlace::BeforeRequest => before_request(byte),
            HeadPlace::InEmptyLine => (byte == b'\n').then_some(HeadPlace::BeforeRequest),
            HeadPlace::InMethod => in_method(byte),
            HeadPlace::BeforeTarget => before_target(byte),
            HeadPlace::InTarget => in_target(byte),
            HeadPlace::InVersion(count) => in_version(count, byte),
            HeadPlace::AfterVersion => after_version(byte),
            HeadPlace::AfterReturn => (byte == b'\n').then_some(HeadPlace::BeforeLine),
            HeadPlace::BeforeLine => before_line(byte),
            HeadPlace::InLastLine => None,
            HeadPlace::InName => in_name(byte),
            HeadPlace::InValue => in_value(byte),
        }
    }

    /// The place after these further bytes, where they neither end the head nor may break it.
    pub fn after(self, bytes: &[u8]) -> Option<HeadPlace>
        ensures { IfSome result (λ place. (text : List ℕ) → Follows place text → Follows self (bytes.now ++ text)) }
    {
        let mut place = self;
        for byte in bytes {
            match place.after_byte(*byte) {
                Some(next) => place = next,
                None => return None,
            }
        }
        Some(place)
    }
}
