//! The answers of match conditions.

/// What the match conditions of a policy say together.
#[derive(Clone, Copy)]
pub enum Conditions<'p> {
    /// Each is true.
    Met,
    /// One is false.
    Unmet,
    /// None is false, and this is the name of the first that is not true.
    Neither(&'p str),
}
