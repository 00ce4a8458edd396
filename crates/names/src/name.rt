ghost use Rattle.std.specs.Prelude.{◌≡◌, ◌↔◌, ◌==◌, ◌≤◌, false, length, IsTrue};
ghost use Rattle.std.specs.List.{list_all, slice_split};
ghost use Rattle.std.specs.Option.{option_map_or};
ghost use Rattle.names.specs.Key.{is_name_of};
ghost use Rattle.names.specs.Name.{is_letter_or_digit, is_label_byte, is_label, is_namespace, is_name, dot, IsLabel, IsSubdomain};

use crate::resource::Resource;

/// The longest name, in characters.
pub const NAME_LIMIT: usize = 253;

/// The longest namespace, in characters.
pub const NAMESPACE_LIMIT: usize = 63;

fn check_letter_or_digit(byte: u8) -> bool
    ensures { result ≡ is_letter_or_digit byte }
{
    byte.is_ascii_lowercase() || byte.is_ascii_digit()
}

fn check_edge(edge: Option<u8>) -> bool
    ensures { result ≡ option_map_or is_letter_or_digit edge false }
{
    edge.is_some_and(check_letter_or_digit)
}

fn check_label_bytes(label: &[u8]) -> bool
    ensures { result ≡ list_all is_label_byte label.now }
{
    label
        .iter()
        .all(|byte| check_letter_or_digit(*byte) || *byte == b'-')
}

fn check_label(label: &[u8]) -> bool
    ensures { result ≡ is_label label.now }
{
    check_edge(label.first().copied())
        && check_edge(label.last().copied())
        && check_label_bytes(label)
}

fn check_labels(text: &[u8]) -> bool
    ensures { result ≡ list_all is_label (slice_split (λ byte. byte == dot) text.now) }
{
    text.split(|byte| *byte == b'.').all(check_label)
}

/// Whether the text is a namespace: one DNS label of at most 63 characters (RFC 1123 section 2.1),
/// in small letters.
pub fn check_namespace(text: &str) -> bool
    ensures value { result ≡ is_namespace text.now }
    ensures grammar { IsTrue result ↔ (IsLabel text.now × (length text.now ≤ 63)) }
{
    text.len() <= NAMESPACE_LIMIT && check_label(text.as_bytes())
}

/// Whether the text is a name: a DNS subdomain of at most 253 characters (RFC 1123 section 2.1),
/// in small letters. A label in it may be longer than 63 characters.
pub fn check_name(text: &str) -> bool
    ensures value { result ≡ is_name text.now }
    ensures grammar { IsTrue result ↔ IsSubdomain text.now }
{
    text.len() <= NAME_LIMIT && check_labels(text.as_bytes())
}

/// Whether the text may name an object of the resource. The name of a Namespace is a namespace.
pub fn check_name_of(resource: Resource, text: &str) -> bool
    ensures { result ≡ is_name_of resource text.now }
{
    match resource {
        Resource::Namespace => check_namespace(text),
        _ => check_name(text),
    }
}
