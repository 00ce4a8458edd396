//! The head of a request, read where it lies.

ghost use Rattle.std.specs.Prelude.{◌≡◌, ℕ, ◌+◌, ◌<◌, ◌≤◌, ◌↔◌, List, length, map, reverse, All, IsTrue, codes, Option, IfSome, is_some, find, count_by, None, not, nat_lt, ◌&&◌, min, ◌^◌, option_map, position, ◌==◌, ◌++◌, ◌∷◌, [], take, drop, slice_index};
ghost use Rattle.std.specs.List.{list_any, starts_with};
ghost use Rattle.std.specs.Str.{str_eq_ignore_ascii_case};
ghost use Rattle.std.specs.Str.Parse.{digits_value};
ghost use Rattle.httparse.specs.Grammar.{skip_ows, trim_ows};
ghost use Rattle.httparse.specs.Spans.{IsHeaderWithin, header_bytes, span_bytes};
ghost use Rattle.httpmsg.specs.Stream.{is_head};
ghost use Rattle.httpmsg.specs.Head.{method_of, values, first_of, is_close, lists_close, is_number, is_length, says_close, content_length, has_field, fault_of};

use httparse::is_space_or_tab;
use httparse::spans::HeaderSpan;
use std::marker::Model;

/// The most bytes that a head may have.
pub const HEAD_LIMIT: usize = 8192;

/// The most bytes that a body may have.
pub const BODY_LIMIT: u64 = 65536;

/// The most fields that a head may have.
pub const FIELD_LIMIT: usize = 32;

/// The method of a request (RFC 9110 section 9.3).
#[derive(Clone, Copy)]
pub enum Method {
    Get,
    Head,
    Post,
    Put,
    Delete,
    /// Any other token.
    Other,
}

/// What is wrong with a message, in the order in which it counts.
#[derive(Clone, Copy)]
pub enum MessageFault {
    /// No head of a request begins the bytes, or they end inside a message.
    Malformed,
    /// HTTP/1.0.
    Version,
    /// More than [`FIELD_LIMIT`] fields.
    TooManyFields,
    /// A `Transfer-Encoding`, whatever it says.
    TransferCoding,
    /// Not exactly one `Host`.
    Host,
    /// A `Content-Length` that is no number, or a second one.
    ContentLength,
    /// A `Content-Length` above [`BODY_LIMIT`].
    BodyTooLarge,
    /// An `Expect`, whatever it says.
    Expectation,
    /// A target that does not begin with a slash.
    Target,
}

/// A message that ends its stream: what is wrong with it, and whether its method is HEAD, whose replies have no body.
#[derive(Clone, Copy)]
pub struct BrokenMessage {
    pub fault: MessageFault,
    pub is_head: bool,
}

/// How a stream of messages ends.
#[derive(Clone, Copy)]
pub enum End {
    /// Between two messages.
    Clean,
    /// After a message that said `close`.
    Closed,
    /// At a message that is none, or has a fault.
    Broken(BrokenMessage),
}

impl Method {
    /// The method of this name; the case counts.
    pub(crate) fn named(name: &[u8]) -> Method
        ensures { result ≡ method_of name.now }
    {
        if name == b"GET".as_slice() {
            Method::Get
        } else if name == b"HEAD".as_slice() {
            Method::Head
        } else if name == b"POST".as_slice() {
            Method::Post
        } else if name == b"PUT".as_slice() {
            Method::Put
        } else if name == b"DELETE".as_slice() {
            Method::Delete
        } else {
            Method::Other
        }
    }

    /// Whether it is HEAD, whose replies have no body (RFC 9110 section 9.3.2).
    pub fn is_head(self) -> bool
        ensures { result ≡ is_head self }
    {
        match self {
            Method::Head => true,
            Method::Get | Method::Post | Method::Put | Method::Delete | Method::Other => false,
        }
    }
}

// The bytes from the first that is no blank.
fn trim_start(mut bytes: &[u8]) -> &[u8]
    ensures { result.now ≡ skip_ows bytes.now }
{
    while let [first, rest @ ..] = bytes
        && is_space_or_tab(*first)
    {
        bytes = rest;
    }
    bytes
}

// The bytes to the last that is no blank.
fn trim_end(mut bytes: &[u8]) -> &[u8]
    ensures { result.now ≡ reverse (skip_ows (reverse bytes.now)) }
{
    while let [rest @ .., last] = bytes
        && is_space_or_tab(*last)
    {
        bytes = rest;
    }
    bytes
}

fn trim(bytes: &[u8]) -> &[u8]
    ensures { result.now ≡ trim_ows bytes.now }
{
    trim_end(trim_start(bytes))
}

fn first_comma(bytes: &[u8]) -> Option<usize>
    ensures at { result ≡ position (λ b. b == 44) bytes.now }
    ensures fits { IfSome result (λ at. at + 1 < 2 ^ 64) }
{
    bytes.iter().position(|b| *b == b',')
}

fn is_close(option: &[u8]) -> bool
    ensures { result ≡ is_close option.now }
{
    trim(option).eq_ignore_ascii_case(b"close")
}

// Whether the value of a `Connection` field has the option `close`.
fn lists_close(value: &[u8]) -> bool
    ensures { result ≡ lists_close value.now }
{
    let mut rest = value;
    while let Some(comma) = first_comma(rest) {
        if is_close(&rest[..comma]) {
            return true;
        }
        rest = &rest[comma + 1..];
    }
    is_close(rest)
}

// Whether the field has this name.
fn is_named(bytes: &[u8], field: &HeaderSpan, name: &[u8]) -> bool
    requires { IsHeaderWithin (length bytes.now) field.now }
    ensures { result ≡ str_eq_ignore_ascii_case (header_bytes bytes.now field.now).0 name.now }
{
    field.name.of(bytes).eq_ignore_ascii_case(name)
}

// How many fields have this name.
fn count_named(bytes: &[u8], fields: &[HeaderSpan], name: &[u8]) -> usize
    requires { All (IsHeaderWithin (length bytes.now)) fields.now }
    ensures { result ≡ count_by (λ f. str_eq_ignore_ascii_case (header_bytes bytes.now f).0 name.now) fields.now }
{
    fields
        .iter()
        .filter(|field| is_named(bytes, field, name))
        .count()
}

// The value of the first field of this name.
fn value_named<'b>(bytes: &'b [u8], fields: &[HeaderSpan], name: &[u8]) -> Option<&'b [u8]>
    requires { All (IsHeaderWithin (length bytes.now)) fields.now }
    ensures { option_map (λ v. v.now) result
        ≡ option_map (λ f. (header_bytes bytes.now f).1) (find (λ f. str_eq_ignore_ascii_case (header_bytes bytes.now f).0 name.now) fields.now) }
{
    fields
        .iter()
        .find(|field| is_named(bytes, field, name))
        .map(|field| field.value.of(bytes))
}

fn field_says_close(bytes: &[u8], field: &HeaderSpan) -> bool
    requires { IsHeaderWithin (length bytes.now) field.now }
    ensures { result ≡ (str_eq_ignore_ascii_case (header_bytes bytes.now field.now).0 (codes "connection") && lists_close (header_bytes bytes.now field.now).1) }
{
    is_named(bytes, field, b"connection") && lists_close(field.value.of(bytes))
}

// Whether a `Connection` field has the option `close`.
fn any_says_close(bytes: &[u8], fields: &[HeaderSpan]) -> bool
    requires { All (IsHeaderWithin (length bytes.now)) fields.now }
    ensures { result ≡ list_any (λ f. str_eq_ignore_ascii_case (header_bytes bytes.now f).0 (codes "connection") && lists_close (header_bytes bytes.now f).1) fields.now }
{
    fields.iter().any(|field| field_says_close(bytes, field))
}

// The number that decimal digits write, or one more than the most bytes that a body may have where it is above that.
fn number(value: &[u8]) -> Option<u64>
    ensures number { is_some result ≡ is_number value.now }
    ensures value { IfSome result (λ n. n ≡ min (digits_value 10 value.now) (BODY_LIMIT + 1)) }
{
    if value.is_empty() {
        return None;
    }
    let mut number = 0;
    for digit in value {
        if !digit.is_ascii_digit() {
            return None;
        }
        number = (number * 10 + u64::from(*digit - b'0')).min(BODY_LIMIT + 1);
    }
    Some(number)
}

/// A request's head where it lies in a buffer.
#[derive(Drop)]
pub(crate) struct HeadView<'b> {
    pub(crate) method: &'b [u8],
    pub(crate) target: &'b str,
    pub(crate) minor: u8,
    pub(crate) bytes: &'b [u8],
    pub(crate) fields: &'b [HeaderSpan],
}

impl<'b> Model for HeadView<'b> {
    ghost use Rattle.httpmsg.specs.Stream.{is_head};
    ghost use Rattle.httpmsg.specs.Head.{Head};

    ghost Value = { Head };

    ghost use Rattle.std.specs.Prelude.{map, All, length};
    ghost use Rattle.httparse.specs.Spans.{IsHeaderWithin, header_bytes};

    ghost view = { λ h. record {
      method = h.method.now;
      target = h.target.now;
      minor = h.minor;
      fields = map (header_bytes h.bytes.now) h.fields.now;
    } };

    ghost invariant = { λ h. All (IsHeaderWithin (length h.bytes.now)) h.fields.now };
}

impl<'b> HeadView<'b> {
    /// How many bytes the body has, or one more than it may have where it says more; `None` where that is no number.
    pub fn content_length(&self) -> Option<u64>
        ensures valid { is_some result ≡ is_length (values (codes "content-length") self.now.fields) }
        ensures length { IfSome result (λ n. n ≡ min (content_length self.now) (BODY_LIMIT + 1)) }
    {
        match self.count(b"content-length") {
            0 => Some(0),
            1 => number(self.value(b"content-length")?),
            _ => None,
        }
    }

    fn count(&self, name: &[u8]) -> usize
        ensures { result ≡ length (values name.now self.now.fields) }
    {
        count_named(self.bytes, self.fields, name)
    }

    fn value(&self, name: &[u8]) -> Option<&'b [u8]>
        ensures { option_map (λ v. v.now) result ≡ first_of (values name.now self.now.fields) }
    {
        value_named(self.bytes, self.fields, name)
    }

    /// Whether the connection ends after the reply.
    pub fn says_close(&self) -> bool
        ensures { result ≡ says_close self.now }
    {
        any_says_close(self.bytes, self.fields)
    }

    /// How many bytes the body of a head without a fault has.
    pub fn body_length(&self) -> u64
        requires { fault_of self.now ≡ None }
        ensures length { result ≡ content_length self.now }
        ensures limit { result ≤ BODY_LIMIT }
    {
        self.content_length().unwrap_or(0)
    }

    fn has(&self, name: &[u8]) -> bool
        ensures { result ≡ has_field name.now self.now }
    {
        self.count(name) > 0
    }

    fn has_other_than_one(&self, name: &[u8]) -> bool
        ensures { result ≡ not (length (values name.now self.now.fields) == 1) }
    {
        self.count(name) != 1
    }

    fn has_no_slash(&self) -> bool
        ensures { result ≡ not (starts_with (λ a b. a == b) self.now.target (codes "/")) }
    {
        !self.target.as_bytes().starts_with(b"/")
    }

    fn has_too_many_fields(&self) -> bool
        ensures { result ≡ nat_lt FIELD_LIMIT (length self.now.fields) }
    {
        self.fields.len() > FIELD_LIMIT
    }

    fn is_old(&self) -> bool
        ensures { result ≡ (self.now.minor == 0) }
    {
        self.minor == 0
    }

    /// The first fault that the head has.
    pub fn fault(&self) -> Option<MessageFault>
        ensures { result ≡ fault_of self.now }
    {
        if self.is_old() {
            return Some(MessageFault::Version);
        }
        if self.has_too_many_fields() {
            return Some(MessageFault::TooManyFields);
        }
        if self.has(b"transfer-encoding") {
            return Some(MessageFault::TransferCoding);
        }
        if self.has_other_than_one(b"host") {
            return Some(MessageFault::Host);
        }
        match self.content_length() {
            None => return Some(MessageFault::ContentLength),
            Some(length) if length > BODY_LIMIT => return Some(MessageFault::BodyTooLarge),
            Some(_) => {}
        }
        if self.has(b"expect") {
            return Some(MessageFault::Expectation);
        }
        if self.has_no_slash() {
            return Some(MessageFault::Target);
        }
        None
    }
}
