ghost use Rattle.jsondoc.specs.Escapes.{EscapesAreStated};

/// States how a document's text writes the bytes of a string: `"` and `\` after a backslash, what is below 0x20 as `\b`,
/// `\t`, `\n`, `\f`, `\r` or else `\u00` and two small hexadecimal digits, and each other byte as it is (RFC 8259 section 7).
pub fn text_escapes()
    ensures { EscapesAreStated }
{}
