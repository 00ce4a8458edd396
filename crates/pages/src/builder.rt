//! A page as it is built.

ghost use Rattle.std.specs.Prelude.{◌≡◌, ◌≢◌, ◌<◌, ◌≤◌, ◌+◌, ◌++◌, ◌∷◌, ◌↔◌, [], length, IsTrue, IfOk, OnOk, OnErr};
ghost use Rattle.std.specs.FinMap.{is_sorted};
ghost use Rattle.pages.specs.Page.{Entry, bytes_cmp, entries_in, room_of, SoundPage};
ghost use Rattle.pages.specs.Building.{IsBuilt};

use crate::cells::{HEAD_BYTES, PAGE_BYTES, SLOT_BYTES, read_count, read_last};
use crate::writing::{add_cell, clear_page};
use std::alloc::{AllocError, Global};
use std::fmt;
use std::fmt::{Display, Formatter};
use std::marker::Model;

/// The page has no room for the cell.
#[derive(Clone, Copy)]
pub struct Full;

impl Display for Full {
    ghost use Rattle.std.specs.Prelude.{Some, codes};

    ghost output = { λ _. Some (codes "page full") };

    fn fmt<W: fmt::Write>(&self, f: &mut Formatter<W>) -> fmt::Result {
        f.write_str("page full")
    }
}

// Whether this many free bytes have room for a slot and a cell.
fn is_enough(free: usize, key: &[u8], cell: &[u8]) -> bool
    ensures { IsTrue result ↔ (6 + length key.now + length cell.now ≤ free) }
{
    free >= 6 && key.len() <= free - 6 && cell.len() <= free - 6 - key.len()
}

// Whether the page has room for one more cell.
fn has_room(bytes: &[u8], key: &[u8], cell: &[u8]) -> bool
    requires { IsBuilt bytes.now }
    ensures { IsTrue result ↔ (room_of (entries_in bytes.now ++ (key.now, cell.now) ∷ []) ≤ 32768) }
{
    let slots_end = HEAD_BYTES + SLOT_BYTES * read_count(bytes);
    is_enough(read_last(bytes) - slots_end, key, cell)
}

// The bytes of one page.
fn page_bytes(alloc: Global) -> Result<Vec<u8>, AllocError>
    ensures { IfOk result (λ bytes. length bytes.items ≡ 32768) }
{
    vec![in alloc; 0; PAGE_BYTES]
}

/// The bytes of a page, to which cells are added in the order of their keys.
#[derive(Drop)]
pub struct PageBuilder {
    bytes: Vec<u8>,
}

impl Model for PageBuilder {
    ghost use Rattle.std.specs.Prelude.{List};
    ghost use Rattle.pages.specs.Page.{Entry, entries_in};
    ghost use Rattle.pages.specs.Building.{IsBuilt};

    ghost Value = { List Entry };

    ghost view = { λ builder. entries_in builder.bytes.items };

    ghost invariant = { λ builder. IsBuilt builder.bytes.items };
}

impl PageBuilder {
    /// No cells. Takes the memory of one page.
    pub fn new(alloc: Global) -> Result<PageBuilder, AllocError>
        ensures { IfOk result (λ builder. builder ≡ []) }
    {
        let mut bytes = page_bytes(alloc)?;
        clear_page(&mut bytes);
        Ok(PageBuilder { bytes })
    }

    /// Lets all cells go, and keeps the memory.
    pub fn clear(&mut self)
        ensures { self.new ≡ [] }
    {
        clear_page(&mut self.bytes);
    }

    /// Adds a cell behind the others. Takes no memory.
    ///
    /// # Errors
    ///
    /// `Full` where the page has no room for it: 8 bytes, 4 for each cell, and the cells would be more than 32768. The cell is lent, so
    /// the caller still has it; the cells before it stay.
    pub fn push(&mut self, key: &[u8], cell: &[u8]) -> Result<(), Full>
        ensures pushed { OnOk result (self.new ≡ self.old ++ (key.now, cell.now) ∷ []) }
        ensures fits { OnOk result (room_of (self.old ++ (key.now, cell.now) ∷ []) ≤ 32768) }
        ensures full { OnErr result (32768 < room_of (self.old ++ (key.now, cell.now) ∷ [])) }
        ensures same { OnErr result (self.new ≡ self.old) }
    {
        if !has_room(&self.bytes, key, cell) {
            return Err(Full);
        }
        add_cell(&mut self.bytes, key, cell);
        Ok(())
    }

    /// The 32768 bytes. They are a page, which stands for the cells, exactly where there is a cell and the keys ascend.
    pub fn bytes(&self) -> &[u8]
        ensures size { length result.now ≡ 32768 }
        ensures entries { entries_in result.now ≡ self.now }
        ensures page { SoundPage result.now self.now ↔ ((self.now ≢ []) × IsTrue (is_sorted bytes_cmp self.now)) }
    {
        &self.bytes
    }
}
