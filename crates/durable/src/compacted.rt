//! What is told of a store as a whole.

use names::Format;

/// The generation that a compaction wrote.
#[derive(Clone, Copy, Debug)]
pub struct Compacted {
    pub generation: u64,
    /// How many pages it has, of 64 sectors each.
    pub pages: u32,
    /// Its first sector.
    pub first_sector: u64,
}

/// What was found of a store that is whole.
#[derive(Clone, Copy, Debug)]
pub struct Checked {
    /// That of the last write, 1 where there was none.
    pub revision: u64,
    /// How many objects are stored.
    pub objects: usize,
    pub generation: u64,
    /// The format of the store's file.
    pub format: Format,
}
