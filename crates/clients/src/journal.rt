//! What is told of messages and their replies, a line each.

ghost use Rattle.std.specs.Prelude.{◌≡◌, ◌⊎◌, ◌<◌, ◌++◌, ◌-◌, ◌^◌, ◌*ℤ◌, pos, ℕ, List, [], true, false, None, Some, codes, IfOk, IfSome, OnOk};
ghost use Rattle.http.specs.StatusCode.{IsStatusCode, code_digits};
ghost use Rattle.clients.specs.Journal.{is_plain, hex_digit, shown_byte, shown, method_text, last_second, HasTime, IsLine, answered_line, refused_line};

use httpmsg::{Message, Method, Output, write_all};
use jiff_core::Timestamp;
use jiff_fmt::temporal::DateTimePrinter;
use sessions::Note;
use std::alloc::{AllocError, Global};

// How much room is kept where nothing waits to be written.
const KEPT_BYTES: usize = 65536;

// Whether a byte stands in a line as it is: printable ASCII, and no space.
fn is_plain(byte: u8) -> bool
    ensures { result ≡ is_plain byte }
{
    32 < byte && byte < 127
}

// The hexadecimal digit of a number below 16.
fn hex_digit(number: u8) -> u8
    requires { number < 16 }
    ensures { result ≡ hex_digit number }
{
    if number < 10 {
        b'0' + number
    } else {
        b'A' - 10 + number
    }
}

// Puts a byte of a text to a line.
fn put_byte(line: &mut Vec<u8>, byte: u8) -> Result<(), AllocError>
    ensures { OnOk result (line.new.items ≡ line.old.items ++ shown_byte byte) }
{
    if is_plain(byte) {
        line.extend_from_slice(&[byte])
    } else {
        line.extend_from_slice(&[b'%', hex_digit(byte / 16), hex_digit(byte % 16)])
    }
}

// Puts a text to a line. Nothing of it can end the line, or begin another word of it.
fn put_shown(line: &mut Vec<u8>, text: &[u8]) -> Result<(), AllocError>
    ensures { OnOk result (line.new.items ≡ line.old.items ++ shown text.now) }
{
    for byte in text {
        put_byte(line, *byte)?;
    }
    Ok(())
}

// The word of a method; `-` for one that the server does not know.
fn method_text(method: Method) -> &'static str
    ensures { result.now ≡ method_text method }
{
    match method {
        Method::Get => "GET",
        Method::Head => "HEAD",
        Method::Post => "POST",
        Method::Put => "PUT",
        Method::Delete => "DELETE",
        Method::Other => "-",
    }
}

// The instant this number of seconds after 1970-01-01T00:00:00Z; none behind the calendar's end.
fn instant_at(seconds: u64) -> Option<Timestamp>
    ensures value { IfSome result (λ t. t.nanosecond ≡ pos seconds *ℤ pos 1_000_000_000) }
    ensures end { result ≡ None → last_second < seconds }
{
    Timestamp::from_nanosecond(i128::from(seconds) * 1_000_000_000).ok()
}

// Puts the text of a time to a line, this number of seconds after 1970-01-01T00:00:00Z.
fn put_time(line: &mut Vec<u8>, seconds: Option<u64>) -> Result<(), AllocError>
    ensures { OnOk result ((time : List ℕ) × HasTime seconds time × (line.new.items ≡ line.old.items ++ time)) }
{
    match seconds {
        Some(seconds) => match instant_at(seconds) {
            Some(instant) => {
                let text = DateTimePrinter::new().timestamp_text(instant);
                line.extend_from_slice(text.as_str().as_bytes())
            }
            None => line.extend_from_slice(b"-"),
        },
        None => line.extend_from_slice(b"-"),
    }
}

// The line of a message that was answered.
fn answered_line(
    alloc: Global,
    seconds: Option<u64>,
    peer: &str,
    message: &Message,
    note: Note,
    microseconds: u64,
) -> Result<Vec<u8>, AllocError>
    ensures { IfOk result (λ line. IsLine seconds (answered_line peer.now message.now note microseconds) line.items) }
{
    let method = method_text(message.method());
    let Note { status, bytes } = note;
    let end = format!(in alloc; " {status} {bytes} {microseconds}\n")?;
    let mut line = Vec::new(alloc);
    put_time(&mut line, seconds)?;
    line.extend_from_slice(b" ")?;
    put_shown(&mut line, peer.as_bytes())?;
    line.extend_from_slice(b" ")?;
    line.extend_from_slice(method.as_bytes())?;
    line.extend_from_slice(b" ")?;
    put_shown(&mut line, message.target().as_bytes())?;
    line.extend_from_slice(end.as_bytes())?;
    Ok(line)
}

// The line of a refusal of what is no message.
fn refused_line(
    alloc: Global,
    seconds: Option<u64>,
    peer: &str,
    note: Note,
) -> Result<Vec<u8>, AllocError>
    ensures { IfOk result (λ line. IsLine seconds (refused_line peer.now note) line.items) }
{
    let Note { status, bytes } = note;
    let end = format!(in alloc; " - - {status} {bytes} -\n")?;
    let mut line = Vec::new(alloc);
    put_time(&mut line, seconds)?;
    line.extend_from_slice(b" ")?;
    put_shown(&mut line, peer.as_bytes())?;
    line.extend_from_slice(end.as_bytes())?;
    Ok(line)
}

// A decimal digit's number, of a byte that is one.
fn digit(byte: u8) -> u16
    ensures { result ≡ byte - 48 }
{
    u16::from(byte.saturating_sub(b'0'))
}

/// The status code of a response, which stands in its first line.
pub(crate) fn status_in(response: &[u8]) -> Option<u16>
    ensures { (code : ℕ) (more : List ℕ) → IsStatusCode code → response.now ≡ codes "HTTP/1.1 " ++ (code_digits code ++ more) → result ≡ Some code }
{
    let hundreds = digit(*response.get(9)?);
    let tens = digit(*response.get(10)?);
    let ones = digit(*response.get(11)?);
    Some(100 * hundreds + 10 * tens + ones)
}

/// Lines that wait to be written, where a log is kept.
#[derive(Drop)]
pub(crate) struct Journal {
    is_kept: bool,
    // The time that the next lines have, in seconds after 1970-01-01T00:00:00Z; none where it is not known.
    seconds: Option<u64>,
    text: Vec<u8>,
}

impl Journal {
    /// Without a line.
    pub(crate) fn new(alloc: Global, is_kept: bool) -> Journal {
        Journal {
            is_kept,
            seconds: None,
            text: Vec::new(alloc),
        }
    }

    /// Whether a log is kept.
    pub(crate) fn is_kept(&self) -> bool
        ensures { result ≡ self.now.is_kept }
    {
        self.is_kept
    }

    /// Takes the time that the next lines have, in seconds after 1970-01-01T00:00:00Z; none where it is not known.
    pub(crate) fn set_time(&mut self, seconds: Option<u64>)
        ensures { self.new ≡ record self.old { seconds = seconds } }
    {
        self.seconds = seconds;
    }

    /// Tells of a message that was answered. The line is left out where memory is refused to it.
    pub(crate) fn tell_answered(
        &mut self,
        alloc: Global,
        peer: &str,
        message: &Message,
        note: Note,
        microseconds: u64,
    )
        ensures kept { (self.new.is_kept ≡ self.old.is_kept) × (self.new.seconds ≡ self.old.seconds) }
        ensures told { ((line : List ℕ) × IsLine self.old.seconds (answered_line peer.now message.now note microseconds) line
            × (self.new.text.items ≡ self.old.text.items ++ line)) ⊎ (self.new.text.items ≡ self.old.text.items) }
        ensures none { self.old.is_kept ≡ false → self.new.text.items ≡ self.old.text.items }
    {
        if !self.is_kept {
            return;
        }
        if let Ok(line) = answered_line(alloc, self.seconds, peer, message, note, microseconds) {
            let _ = self.text.extend_from_slice(&line);
        }
    }

    /// Tells of a refusal of what is no message. The line is left out where memory is refused to it.
    pub(crate) fn tell_refused(&mut self, alloc: Global, peer: &str, note: Note)
        ensures kept { (self.new.is_kept ≡ self.old.is_kept) × (self.new.seconds ≡ self.old.seconds) }
        ensures told { ((line : List ℕ) × IsLine self.old.seconds (refused_line peer.now note) line
            × (self.new.text.items ≡ self.old.text.items ++ line)) ⊎ (self.new.text.items ≡ self.old.text.items) }
        ensures none { self.old.is_kept ≡ false → self.new.text.items ≡ self.old.text.items }
    {
        if !self.is_kept {
            return;
        }
        if let Ok(line) = refused_line(alloc, self.seconds, peer, note) {
            let _ = self.text.extend_from_slice(&line);
        }
    }

    /// Writes the lines, and forgets them, also where they cannot be written: a log that fails does not stop the server.
    pub(crate) fn write_to<O: Output>(&mut self, alloc: Global, log: &mut O)
        ensures forgotten { self.new.text.items ≡ [] }
        ensures none { self.old.text.items ≡ [] → log.new ≡ log.old }
        ensures told { (self.old.text.items ≡ []) ⊎ O.took log.old log.new self.old.text.items
            ⊎ (O.failures log.old < O.failures log.new) ⊎ (O.failures log.new ≡ 2 ^ 64 - 1) }
    {
        if self.text.is_empty() {
            return;
        }
        let _ = write_all(log, &self.text);
        if self.text.capacity() > KEPT_BYTES {
            self.text = Vec::new(alloc);
        } else {
            self.text.clear();
        }
    }
}
