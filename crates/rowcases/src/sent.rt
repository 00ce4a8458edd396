//! Messages and replies, as lines have them.

use crate::texts::parted;
use cases::{TextBuilder, Wrong, compared, first_word, shown, text};
use std::alloc::Global;

/// The bytes of `METHOD TARGET [BODY]`, with one `Host`, and with the length of the body where there is one.
pub fn message(alloc: Global, text: &str) -> Result<String, Wrong> {
    let (method, rest) = first_word(text);
    let (target, body) = first_word(rest);
    let mut line = TextBuilder::new(alloc);
    line.push(method);
    line.word(target);
    line.push(" HTTP/1.1\r\nHost: x\r\n");
    if !body.is_empty() {
        line.push("Content-Length: ");
        line.show(&body.len());
        line.push("\r\n");
    }
    line.push("\r\n");
    line.push(body);
    line.end()
}

/// One reply, whose head tells the length of its body, as `CODE BODY`, with its end after it where that is not `clean`. Anything
/// else as it is.
pub fn short(alloc: Global, answer: &str) -> Result<String, Wrong> {
    let (written, end) = match answer.rsplit_once("ends ") {
        Some(parts) => parts,
        None => (answer, ""),
    };
    let Some((head, body)) = written.split_once("\r\n\r\n") else {
        return text(alloc, answer);
    };
    let (_, after) = parted(head, "\r\nContent-Length: ");
    let length = shown(alloc, &body.len())?;
    let is_told = parted(after, "\r\n").0 == length.as_str();
    drop(length);
    let (version, status) = first_word(head);
    if version != "HTTP/1.1" || !is_told {
        return text(alloc, answer);
    }
    let mut line = TextBuilder::new(alloc);
    line.push(first_word(status).0);
    line.word(body);
    if end != "clean" {
        line.word("ends");
        line.word(end);
    }
    line.end()
}

/// One comparison, where what is found is what a line wants: `refused CODE REASON MESSAGE` stands for the reply whose body is the
/// `Status` of these.
pub(crate) fn compare_reply(alloc: Global, found: String, wanted: &str) -> Result<u64, Wrong> {
    let Some(refusal) = wanted.strip_prefix("refused ") else {
        return compared(found, wanted);
    };
    let (code, rest) = first_word(refusal);
    let (reason, message) = first_word(rest);
    match format!(in alloc;
        "{code} {{\"apiVersion\":\"v1\",\"code\":{code},\"kind\":\"Status\",\"message\":\"{message}\",\"reason\":\"{reason}\",\"status\":\"Failure\"}}"
    ) {
        Ok(reply) => compared(found, reply.as_str()),
        Err(_) => Err(Wrong::Memory),
    }
}
