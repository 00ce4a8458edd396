use names::Key;
use std::marker::Model;

/// An entry, lent from where it lies.
#[derive(Drop)]
pub struct Lent<'a, T> {
    /// The key.
    pub key: &'a Key,
    /// What stands under it.
    pub value: &'a T,
}

impl<'a, T> Model for Lent<'a, T> {
    ghost use Rattle.names.specs.Key.{Key as KeyData};

    ghost Value = { KeyData × T };

    ghost view = { λ entry. (entry.key.now, entry.value.now) };
}
