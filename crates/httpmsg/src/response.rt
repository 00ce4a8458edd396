//! A response and its bytes.

ghost use Rattle.std.specs.Prelude.{◌≡◌, ℕ, List, [], ◌∷◌, ◌++◌, length, map, codes, decimal, unwrap_or, if◌then◌else◌, Option, Some, None, false, option_map, string_bytes};
ghost use Rattle.std.specs.List.{flat_map};
ghost use Rattle.http.specs.StatusCode.{code_digits, reason_phrase};
ghost use Rattle.httpmsg.specs.Flow.{HasCause, Writes};
ghost use Rattle.httpmsg.specs.Response.{crlf, front_lines, allow_line, warning_line, close_line, content, response_bytes};

use crate::sheet::Sheet;
use crate::status::Status;
use crate::streams::{Output, StreamFault, write_all};
use std::marker::Model;

/// A response with a JSON body (RFC 9112 section 4).
#[derive(Drop)]
pub struct Response<'r> {
    status: Status,
    allow: Option<&'r str>,
    warnings: &'r [String],
    closes: bool,
    without_body: bool,
    body: &'r [u8],
}

impl<'r> Model for Response<'r> {
    ghost use Rattle.httpmsg.specs.Response.{Response as ResponseData};

    ghost Value = { ResponseData };

    ghost use Rattle.std.specs.Prelude.{option_map, map, string_bytes};

    ghost view = { λ r. record {
      status = r.status;
      allow = option_map (λ s. s.now) r.allow;
      warnings = map string_bytes r.warnings.now;
      closes = r.closes;
      without_body = r.without_body;
      body = r.body.now;
    } };
}

// Writes the pieces, one after the other.
fn write_pieces<O: Output>(output: &mut O, pieces: &[&[u8]]) -> Result<(), StreamFault>
    ensures writes { Writes O.took output.old output.new (flat_map (λ p. p.now) pieces.now) result }
    ensures cause { HasCause (O.failures output.old) (O.failures output.new) result }
{
    for piece in pieces {
        match write_all(output, piece) {
            Ok(()) => {}
            Err(fault) => return Err(fault),
        }
    }
    Ok(())
}

// The status line, and the fields that each response has.
fn write_front<O: Output>(output: &mut O, status: &Status, length: usize) -> Result<(), StreamFault>
    ensures writes { Writes O.took output.old output.new (front_lines status.now length) result }
    ensures cause { HasCause (O.failures output.old) (O.failures output.new) result }
{
    let mut digits = itoa::Buffer::new();
    let known = status.known();
    let phrase = known.canonical_reason().unwrap_or("");
    let pieces = [
        b"HTTP/1.1 ".as_slice(),
        known.as_str().as_bytes(),
        b" ".as_slice(),
        phrase.as_bytes(),
        b"\r\nContent-Type: application/json\r\nContent-Length: ".as_slice(),
        digits.format(length).as_bytes(),
        b"\r\n".as_slice(),
    ];
    write_pieces(output, &pieces)
}

fn write_allow<O: Output>(output: &mut O, allow: Option<&str>) -> Result<(), StreamFault>
    ensures writes { Writes O.took output.old output.new (allow_line (option_map (λ s. s.now) allow.entry)) result }
    ensures cause { HasCause (O.failures output.old) (O.failures output.new) result }
{
    match allow {
        None => Ok(()),
        Some(methods) => write_pieces(
            output,
            &[
                b"Allow: ".as_slice(),
                methods.as_bytes(),
                b"\r\n".as_slice(),
            ],
        ),
    }
}

fn write_warning<O: Output>(output: &mut O, text: &str) -> Result<(), StreamFault>
    ensures writes { Writes O.took output.old output.new (warning_line text.now) result }
    ensures cause { HasCause (O.failures output.old) (O.failures output.new) result }
{
    write_pieces(
        output,
        &[
            b"Warning: 299 - \"".as_slice(),
            text.as_bytes(),
            b"\"\r\n".as_slice(),
        ],
    )
}

fn write_warnings<O: Output>(output: &mut O, warnings: &[String]) -> Result<(), StreamFault>
    ensures writes { Writes O.took output.old output.new (flat_map (λ w. warning_line (string_bytes w)) warnings.now) result }
    ensures cause { HasCause (O.failures output.old) (O.failures output.new) result }
{
    for warning in warnings {
        match write_warning(output, warning) {
            Ok(()) => {}
            Err(fault) => return Err(fault),
        }
    }
    Ok(())
}

// The last field, the empty line and the body.
fn write_back<O: Output>(output: &mut O, closes: bool, content: &[u8]) -> Result<(), StreamFault>
    ensures writes { Writes O.took output.old output.new (close_line closes ++ crlf ++ content.now) result }
    ensures cause { HasCause (O.failures output.old) (O.failures output.new) result }
{
    if closes {
        write_pieces(output, &[b"Connection: close\r\n\r\n".as_slice(), content])
    } else {
        write_pieces(output, &[b"\r\n".as_slice(), content])
    }
}

impl<'r> Response<'r> {
    /// A response with this status and body.
    pub fn new(status: Status, body: &'r [u8]) -> Response<'r>
        ensures { result ≡ record { status = status; allow = None; warnings = []; closes = false; without_body = false; body = body.now } }
    {
        Response {
            status,
            allow: None,
            warnings: &[],
            closes: false,
            without_body: false,
            body,
        }
    }

    /// With the methods that its path allows (RFC 9110 section 10.2.1).
    pub fn allowing(self, methods: &'r str) -> Response<'r>
        ensures { result ≡ record self.entry { allow = Some methods.now } }
    {
        Response {
            allow: Some(methods),
            ..self
        }
    }

    /// With warnings, whose texts have no quotation mark that is not escaped.
    pub fn warning(self, texts: &'r [String]) -> Response<'r>
        ensures { result ≡ record self.entry { warnings = map string_bytes texts.now } }
    {
        Response {
            warnings: texts,
            ..self
        }
    }

    /// After which the connection ends, or not.
    pub fn closing(self, closes: bool) -> Response<'r>
        ensures { result ≡ record self.entry { closes = closes } }
    {
        Response { closes, ..self }
    }

    /// Omits the body, as for HEAD, or keeps it.
    pub fn leaving_body_out(self, without_body: bool) -> Response<'r>
        ensures { result ≡ record self.entry { without_body = without_body } }
    {
        Response {
            without_body,
            ..self
        }
    }

    fn content(&self) -> &[u8]
        ensures { result.now ≡ content self.now }
    {
        if self.without_body {
            b"".as_slice()
        } else {
            self.body
        }
    }

    /// Writes the bytes of the response; after an error a beginning of them is written. It takes no memory.
    pub fn write<O: Output>(&self, output: &mut O) -> Result<(), StreamFault>
        ensures writes { Writes O.took output.old output.new (response_bytes self.now) result }
        ensures cause { HasCause (O.failures output.old) (O.failures output.new) result }
    {
        match write_front(output, &self.status, self.body.len()) {
            Ok(()) => {}
            Err(fault) => return Err(fault),
        }
        match write_allow(output, self.allow) {
            Ok(()) => {}
            Err(fault) => return Err(fault),
        }
        match write_warnings(output, self.warnings) {
            Ok(()) => {}
            Err(fault) => return Err(fault),
        }
        write_back(output, self.closes, self.content())
    }

    /// Writes the bytes of the response in one piece, where the sheet has room for them. It takes no memory.
    pub fn write_at_once<O: Output>(
        &self,
        output: &mut O,
        sheet: &mut Sheet,
    ) -> Result<(), StreamFault>
        ensures writes { Writes O.took output.old output.new (response_bytes self.now) result }
        ensures cause { HasCause (O.failures output.old) (O.failures output.new) result }
    {
        sheet.clear();
        match self.write(sheet) {
            Ok(()) => write_all(output, sheet.bytes()),
            Err(_) => self.write(output),
        }
    }
}
