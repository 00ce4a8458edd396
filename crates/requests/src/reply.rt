ghost use Rattle.std.specs.Prelude.{◌≡◌, [], map, string_bytes, IfOk, OnOk};
ghost use Rattle.serde_json.specs.Data.{object, no_members, string};
ghost use Rattle.jsondoc.specs.Json.{with_member};
ghost use Rattle.requests.specs.Listing.{served};
ghost use Rattle.requests.specs.Reply.{saying, status, showing, status_document};

use crate::refusal::Refusal;
use documents::{Document, shown_text};
use jsondoc::Doc;
use std::alloc::{AllocError, Global};
use std::marker::Model;

/// A reply to a request: a status code, warnings and a body.
#[derive(Drop)]
pub struct Reply {
    code: u16,
    warnings: Vec<String>,
    body: String,
}

impl Model for Reply {
    ghost use Rattle.requests.specs.Reply.{Reply as ReplyData};

    ghost Value = { ReplyData };

    ghost use Rattle.std.specs.Prelude.{map, string_bytes};

    ghost view = { λ r. record { code = r.code; warnings = map string_bytes r.warnings.items; body = string_bytes r.body } };
}

impl Reply {
    /// The reply that refuses a request: a `Status`.
    pub fn status(alloc: Global, refusal: Refusal) -> Result<Reply, AllocError>
        ensures { IfOk result (λ r. r ≡ status refusal) }
    {
        Reply::saying(alloc, refusal.code(), refusal.reason(), refusal.message())
    }

    /// The reply of a `Status` with a code, a reason and a message.
    pub fn saying(
        alloc: Global,
        code: u16,
        reason: &str,
        message: &str,
    ) -> Result<Reply, AllocError>
        ensures { IfOk result (λ r. r ≡ saying (record { code = code; reason = reason.now; message = message.now })) }
    {
        let document = status_document(alloc, code, reason, message)?;
        Ok(Reply {
            code,
            warnings: Vec::new(alloc),
            body: document.text(alloc)?,
        })
    }

    /// The body of the reply when out of memory. Takes no memory.
    pub fn out_of_memory_body() -> &'static str
        ensures { result.now ≡ (status Refusal.OutOfMemory).body }
    {
        "{\"apiVersion\":\"v1\",\"code\":503,\"kind\":\"Status\",\"message\":\"out of memory\",\"reason\":\"ServiceUnavailable\",\"status\":\"Failure\"}"
    }

    /// The body of the reply where the storage failed. Takes no memory.
    pub fn storage_failed_body() -> &'static str
        ensures { result.now ≡ (status Refusal.StorageFailed).body }
    {
        "{\"apiVersion\":\"v1\",\"code\":500,\"kind\":\"Status\",\"message\":\"storage failed\",\"reason\":\"InternalError\",\"status\":\"Failure\"}"
    }

    /// The reply that shows an object with the revision of its last write, and these warnings.
    pub fn showing(
        alloc: Global,
        code: u16,
        warnings: Vec<String>,
        document: &Document,
        revision: u64,
    ) -> Result<Reply, AllocError>
        ensures { IfOk result (λ r. r ≡ showing code (map string_bytes warnings.items) document.now revision) }
    {
        Ok(Reply {
            code,
            warnings,
            body: shown_text(alloc, document, revision)?,
        })
    }

    /// The reply that shows an object that was found, with the revision of its last write.
    pub fn showing_found(
        alloc: Global,
        document: Document,
        revision: u64,
    ) -> Result<Reply, AllocError>
        ensures { IfOk result (λ r. r ≡ showing 200 [] document revision) }
    {
        let body = shown_text(alloc, &document, revision)?;
        Ok(Reply::served(alloc, body))
    }

    /// The reply with this body to a request that is served.
    pub fn served(alloc: Global, body: String) -> Reply
        ensures { result ≡ served (string_bytes body) }
    {
        Reply {
            code: 200,
            warnings: Vec::new(alloc),
            body,
        }
    }

    /// The status code (RFC 9110 section 15).
    pub fn code(&self) -> u16
        ensures { result ≡ self.now.code }
    {
        self.code
    }

    /// The texts of the warnings.
    pub fn warnings(&self) -> &[String]
        ensures { map string_bytes result.now ≡ self.now.warnings }
    {
        &self.warnings
    }

    /// The body.
    pub fn body(&self) -> &str
        ensures { result.now ≡ self.now.body }
    {
        &self.body
    }
}

/// Puts a text as a member.
pub(crate) fn put_text(
    document: &mut Doc,
    alloc: Global,
    name: &str,
    text: &str,
) -> Result<(), AllocError>
    ensures { OnOk result (document.new ≡ with_member name.now (string text.now) document.old) }
{
    let text = String::from_str(alloc, text)?;
    document.put(alloc, name, Doc::from(text))
}

// Adds the members of the `Status` of a refusal. Separate from `status_document`, so that no destructor is live at `?` (cheaper proof).
fn put_status(
    document: &mut Doc,
    alloc: Global,
    code: u16,
    reason: &str,
    message: &str,
) -> Result<(), AllocError>
    requires empty { document.old ≡ object no_members }
    ensures { OnOk result (document.new ≡ status_document (record { code = code; reason = reason.now; message = message.now })) }
{
    put_text(document, alloc, "status", "Failure")?;
    put_text(document, alloc, "reason", reason)?;
    put_text(document, alloc, "message", message)?;
    put_text(document, alloc, "kind", "Status")?;
    document.put(alloc, "code", Doc::from(code as i64))?;
    put_text(document, alloc, "apiVersion", "v1")
}

// The `Status` of a refusal.
fn status_document(alloc: Global, code: u16, reason: &str, message: &str) -> Result<Doc, AllocError>
    ensures { IfOk result (λ d. d ≡ status_document (record { code = code; reason = reason.now; message = message.now })) }
{
    let mut document = Doc::empty_object(alloc);
    put_status(&mut document, alloc, code, reason, message)?;
    Ok(document)
}
