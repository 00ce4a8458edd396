//! A requirement of a label selector.

/// What one part of a selector asks of the labels of an object. The first text is the key of a label.
#[derive(Drop)]
pub enum Requirement {
    /// The label is there, and has one of the values.
    IsOneOf(String, Vec<String>),
    /// The label is not there, or has none of the values.
    IsNoneOf(String, Vec<String>),
    /// The label is there.
    IsThere(String),
    /// The label is not there.
    IsAbsent(String),
}
