ghost use Rattle.std.specs.Prelude.{◌≡◌};
ghost use Rattle.requests.specs.Refusal.{answer};

/// Why a request is refused, in the order in which refusals are looked for.
#[derive(Clone, Copy, Debug)]
pub enum Refusal {
    /// The input ends inside a message, or what it begins with is no head (RFC 9112 section 2.1).
    MalformedRequest,
    /// The version is HTTP/1.0.
    UnservedVersion,
    /// There are more than 32 header fields.
    TooManyFields,
    /// There is a `Transfer-Encoding` (RFC 9112 section 6.1).
    UnservedTransferCoding,
    /// There is no `Host`, or more than one (RFC 9112 section 3.2).
    BadHost,
    /// There is more than one `Content-Length`, or one that is no decimal number (RFC 9110 section 8.6).
    BadContentLength,
    /// The `Content-Length` is above the limit.
    BodyTooLarge,
    /// There is an `Expect` (RFC 9110 section 10.1.1).
    UnservedExpectation,
    /// The target does not begin with a slash (RFC 9112 section 3.2.1).
    BadTarget,
    /// The path names nothing that is served.
    NoSuchPath,
    /// The path is served, but not for this method.
    MethodNotAllowed,
    /// The query has a pair that is not served at the path, or one twice.
    BadQuery,
    /// A namespace or a name in the path is not well-formed.
    BadNameInPath,
    /// A GET has a body.
    UnexpectedBody,
    /// The revision that a watch begins after is not there, is no number in its one form, or is above the current one.
    BadVersion,
    /// Events above the revision that a watch begins after may have left the window, or it is below the floor, up to which none is kept.
    Expired,
    /// The body is no JSON value (RFC 8259), or one that is nested too deep.
    BodyIsNotJson,
    /// A number has a fraction or an exponent, or does not fit 64 signed bits.
    NumberOutsideRange,
    /// The body's `apiVersion` or `kind` is not that of the path's resource.
    WrongKind,
    /// The body has no metadata, or none that is well-formed, or it has no name.
    BadMetadata,
    /// The body's name or namespace is not that of the path.
    WrongName,
    /// A POST asks for a revision.
    VersionOnCreate,
    /// The body of a DELETE is no `DeleteOptions`, or one with a member that is not served.
    BadDeleteOptions,
    /// A POST or a PUT is sent to a namespace that is not there.
    NamespaceNotFound,
    /// A POST names an object that is there.
    AlreadyExists,
    /// There is no such object.
    NotFound,
    /// A PUT or a DELETE asks for a revision that is not the object's.
    VersionNotCurrent,
    /// A DELETE is of a namespace that holds objects.
    NamespaceNotEmpty,
    /// A policy or a binding has not the form of one.
    BadSpec,
    /// The stored text is above the limit.
    ObjectTooLarge,
    /// The store holds as many objects as it may.
    TooManyObjects,
    /// The store has reached the greatest revision.
    RevisionExhausted,
    /// Out of memory while answering.
    OutOfMemory,
    /// The storage failed.
    StorageFailed,
}

impl Refusal {
    /// The status code of the reply (RFC 9110 section 15).
    pub fn code(self) -> u16
        ensures { result ≡ (answer self).code }
    {
        match self {
            Refusal::MalformedRequest
            | Refusal::BadHost
            | Refusal::BadContentLength
            | Refusal::BadTarget
            | Refusal::BadQuery
            | Refusal::BadNameInPath
            | Refusal::UnexpectedBody
            | Refusal::BadVersion
            | Refusal::BodyIsNotJson
            | Refusal::NumberOutsideRange
            | Refusal::WrongKind
            | Refusal::WrongName
            | Refusal::VersionOnCreate
            | Refusal::BadDeleteOptions => 400,
            Refusal::UnservedVersion => 505,
            Refusal::TooManyFields => 431,
            Refusal::UnservedTransferCoding => 501,
            Refusal::BodyTooLarge | Refusal::ObjectTooLarge => 413,
            Refusal::UnservedExpectation => 417,
            Refusal::NoSuchPath | Refusal::NamespaceNotFound | Refusal::NotFound => 404,
            Refusal::MethodNotAllowed => 405,
            Refusal::Expired => 410,
            Refusal::BadMetadata | Refusal::BadSpec => 422,
            Refusal::AlreadyExists | Refusal::VersionNotCurrent | Refusal::NamespaceNotEmpty => 409,
            Refusal::TooManyObjects | Refusal::RevisionExhausted => 507,
            Refusal::OutOfMemory => 503,
            Refusal::StorageFailed => 500,
        }
    }

    /// The reason, a word for programs.
    pub fn reason(self) -> &'static str
        ensures { result.now ≡ (answer self).reason }
    {
        match self {
            Refusal::MalformedRequest
            | Refusal::BadHost
            | Refusal::BadContentLength
            | Refusal::BadTarget
            | Refusal::BadQuery
            | Refusal::BadNameInPath
            | Refusal::UnexpectedBody
            | Refusal::BadVersion
            | Refusal::BodyIsNotJson
            | Refusal::NumberOutsideRange
            | Refusal::WrongKind
            | Refusal::WrongName
            | Refusal::VersionOnCreate
            | Refusal::BadDeleteOptions => "BadRequest",
            Refusal::UnservedVersion => "VersionNotSupported",
            Refusal::TooManyFields => "RequestHeaderFieldsTooLarge",
            Refusal::UnservedTransferCoding => "NotImplemented",
            Refusal::BodyTooLarge | Refusal::ObjectTooLarge => "RequestEntityTooLarge",
            Refusal::UnservedExpectation => "ExpectationFailed",
            Refusal::NoSuchPath | Refusal::NamespaceNotFound | Refusal::NotFound => "NotFound",
            Refusal::MethodNotAllowed => "MethodNotAllowed",
            Refusal::Expired => "Expired",
            Refusal::BadMetadata | Refusal::BadSpec => "Invalid",
            Refusal::AlreadyExists => "AlreadyExists",
            Refusal::VersionNotCurrent | Refusal::NamespaceNotEmpty => "Conflict",
            Refusal::TooManyObjects | Refusal::RevisionExhausted => "InsufficientStorage",
            Refusal::OutOfMemory => "ServiceUnavailable",
            Refusal::StorageFailed => "InternalError",
        }
    }

    /// The message, for people.
    pub fn message(self) -> &'static str
        ensures { result.now ≡ (answer self).message }
    {
        match self {
            Refusal::MalformedRequest => "malformed or unfinished request",
            Refusal::UnservedVersion => "only HTTP/1.1 is served",
            Refusal::TooManyFields => "more than 32 header fields",
            Refusal::UnservedTransferCoding => "no transfer coding is served",
            Refusal::BadHost => "exactly one Host is needed",
            Refusal::BadContentLength => "bad Content-Length",
            Refusal::BodyTooLarge => "body too large",
            Refusal::UnservedExpectation => "no expectation is served",
            Refusal::BadTarget => "target must be a path",
            Refusal::NoSuchPath => "no such path",
            Refusal::MethodNotAllowed => "method not allowed",
            Refusal::BadQuery => "bad query",
            Refusal::BadNameInPath => "bad name in path",
            Refusal::UnexpectedBody => "unexpected body",
            Refusal::BadVersion => "bad resourceVersion",
            Refusal::Expired => "resourceVersion too old",
            Refusal::BodyIsNotJson => "body is not JSON",
            Refusal::NumberOutsideRange => "number outside 64 bits",
            Refusal::WrongKind => "apiVersion or kind does not fit the path",
            Refusal::BadMetadata => "bad metadata",
            Refusal::WrongName => "name or namespace does not fit the path",
            Refusal::VersionOnCreate => "resourceVersion must be empty on create",
            Refusal::BadDeleteOptions => "bad delete options",
            Refusal::NamespaceNotFound => "namespace not found",
            Refusal::AlreadyExists => "already exists",
            Refusal::NotFound => "not found",
            Refusal::VersionNotCurrent => "resourceVersion is not current",
            Refusal::NamespaceNotEmpty => "namespace is not empty",
            Refusal::BadSpec => "bad spec",
            Refusal::ObjectTooLarge => "object too large",
            Refusal::TooManyObjects => "too many objects",
            Refusal::RevisionExhausted => "revision exhausted",
            Refusal::OutOfMemory => "out of memory",
            Refusal::StorageFailed => "storage failed",
        }
    }
}
