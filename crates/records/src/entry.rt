use std::marker::Model;

/// A key with what stands under it, as a page's cell holds them.
#[derive(Drop)]
pub struct Entry {
    pub(crate) key: Vec<u8>,
    pub(crate) cell: Vec<u8>,
}

impl Model for Entry {
    ghost use Rattle.pages.specs.Page as page;

    ghost Value = { page.Entry };

    ghost view = { λ entry. (entry.key.items, entry.cell.items) };
}

impl Entry {
    ghost use Rattle.std.specs.Prelude.{◌≡◌};

    /// A key with what stands under it.
    pub fn new(key: Vec<u8>, cell: Vec<u8>) -> Entry
        ensures { result ≡ (key.items, cell.items) }
    {
        Entry { key, cell }
    }

    /// The key.
    pub fn key(&self) -> &[u8]
        ensures { result.now ≡ self.now.0 }
    {
        &self.key
    }

    /// What stands under it.
    pub fn cell(&self) -> &[u8]
        ensures { result.now ≡ self.now.1 }
    {
        &self.cell
    }

    /// The key, and what stands under it.
    pub fn into_parts(self) -> (Vec<u8>, Vec<u8>)
        ensures { (result.0.items, result.1.items) ≡ self }
    {
        (self.key, self.cell)
    }
}
