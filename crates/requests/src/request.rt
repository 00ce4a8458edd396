use crate::collection::Collection;
use crate::manifest::Manifest;
use crate::refusal::Refusal;
use crate::selector::Selector;
use names::Key;

/// What a message asks for.
#[derive(Drop)]
pub enum Request {
    /// To show an object.
    Get(Key),
    /// To list the objects of a collection that the selector selects.
    List(Collection, Selector),
    /// To tell the events of a collection above this revision.
    Watch(Collection, u64),
    /// To store a new object.
    Create(Manifest),
    /// To store an object in place of the one with its key: of the revision that the manifest asks for, if it asks for one.
    Replace(Manifest),
    /// To delete an object: of the revision with this text, if there is one.
    Delete(Key, Option<String>),
    /// Nothing: the message alone is refused.
    Refused(Refusal),
}
