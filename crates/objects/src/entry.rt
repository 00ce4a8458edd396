ghost use Rattle.std.specs.Prelude.{◌≡◌, IfOk, IfErr};

use names::Key;
use std::alloc::{AllocFailed, Global};
use std::marker::Model;

/// A key and what is stored under it, in a block of their own: what moves is one handle.
#[derive(Drop)]
pub struct KeyValue<T> {
    pair: Box<(Key, T)>,
}

impl<T> Model for KeyValue<T> {
    ghost use Rattle.names.specs.Key.{Key as KeyData};

    ghost Value = { KeyData × T };

    ghost view = { λ e. e.pair.value };
}

impl<T> KeyValue<T> {
    /// Takes the memory of the block. Where there is none, the key and the value come back.
    pub fn new(alloc: Global, key: Key, value: T) -> Result<KeyValue<T>, AllocFailed<(Key, T)>>
        ensures ok { IfOk result (λ entry. entry ≡ (key, value)) }
        ensures err { IfErr result (λ failed. failed.value ≡ (key, value)) }
    {
        let pair = Box::new(alloc, (key, value))?;
        Ok(KeyValue { pair })
    }

    /// The key.
    pub fn key(&self) -> &Key
        ensures { result.now ≡ self.now.0 }
    {
        &self.pair.0
    }

    /// What is stored under the key.
    pub fn value(&self) -> &T
        ensures { result.now ≡ self.now.1 }
    {
        &self.pair.1
    }

    /// The value, without its key. Takes no memory.
    pub(crate) fn into_value(self) -> T
        ensures { result ≡ self.1 }
    {
        let (_key, value) = Box::into_inner(self.pair);
        value
    }
}
