use names::Key;

/// How a write changed what is stored under its key.
#[derive(Clone, Copy, Debug)]
pub enum Change {
    /// The key had no object before.
    Added,
    /// The key had an object, and has another.
    Modified,
    /// The key has no object any more.
    Deleted,
}

/// One write, as a watch tells it.
#[derive(Drop)]
pub struct Event<D> {
    /// The revision that the write made.
    pub revision: u64,
    pub change: Change,
    pub key: Key,
    /// What was stored, or what a deletion removed.
    pub document: D,
}
