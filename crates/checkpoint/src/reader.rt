//! The trait that takes the entries of pages.

ghost use Rattle.std.specs.Prelude.{◌≡◌, Bool, true, false, List, [], ◌∷◌, ◌++◌, OnOk, IfOk, IsErrOf};
ghost use Rattle.pages.specs.Page.{Entry};
ghost use Rattle.checkpoint.specs.Reader.{IsRefused, Heard};

use pages::Page;
use std::alloc::{AllocError, AllocFailed, Global};

/// Why a reader does not take an entry.
#[derive(Clone, Copy)]
pub enum ReaderFault {
    /// The reader refuses the entry.
    Entry,
    /// Out of memory.
    Memory,
}

impl From<AllocError> for ReaderFault {
    ghost use Rattle.checkpoint.specs.declared.reader.ReaderFault.TheVariants.{Memory};
    ghost use Rattle.std.specs.Prelude.{◌≡◌};

    ghost from_gives = { λ _ fault. fault ≡ Memory };

    fn from(_: AllocError) -> ReaderFault {
        ReaderFault::Memory
    }
}

impl<T: Drop> From<AllocFailed<T>> for ReaderFault {
    ghost use Rattle.checkpoint.specs.declared.reader.ReaderFault.TheVariants.{Memory};
    ghost use Rattle.std.specs.Prelude.{◌≡◌};

    ghost from_gives = { λ _ fault. fault ≡ Memory };

    fn from(_: AllocFailed<T>) -> ReaderFault {
        ReaderFault::Memory
    }
}

/// Is told entries, keys with what stands under each, in ascending order.
///
/// `told` says what a reader was told between two of its states, so a reader need not keep what it was told.
pub trait Reader {
    /// Between these two states it was told these entries.
    ghost told: { Self → Self → List Entry → Type 0 };

    /// In this state it refuses this entry.
    ghost refuses: { Self → Entry → Type 0 };

    /// Tells it the next entry.
    ///
    /// # Errors
    ///
    /// `Entry` where the reader refuses the entry. `Memory` where there was none. It is told nothing more then.
    fn entry(&mut self, alloc: Global, key: &[u8], cell: &[u8]) -> Result<(), ReaderFault>
        ensures told { OnOk result (told self.old self.new ((key.now, cell.now) ∷ [])) }
        ensures refused { IsErrOf result ReaderFault.Entry → refuses self.old (key.now, cell.now) };

    /// Between a state and itself it was told nothing.
    ghost told_none: { (reader : Self) → told reader reader [] };

    /// What it was told first comes before what it was told next.
    ghost told_then: { (old mid new : Self) (front back : List Entry) → told old mid front → told mid new back → told old new (front ++ back) };
}

// Tells the entries of a page.
fn tell_page<R: Reader>(alloc: Global, page: &Page<'_>, reader: &mut R) -> Result<(), ReaderFault>
    ensures told { OnOk result (R.told reader.old reader.new page.now) }
    ensures refused { IsErrOf result ReaderFault.Entry → IsRefused R.told R.refuses reader.old page.now }
{
    for i in 0..page.len() {
        reader.entry(alloc, page.key(i), page.cell(i))?;
    }
    Ok(())
}

/// Tells the entries of a page to a reader that has refused none before, and whether it has refused one now.
pub(crate) fn tell_unrefused<R: Reader>(
    alloc: Global,
    page: &Page<'_>,
    reader: &mut R,
    refused: bool,
) -> Result<bool, AllocError>
    ensures heard { refused ≡ false → IfOk result (Heard R.told R.refuses reader.old reader.new page.now) }
    ensures refused { refused ≡ true → IfOk result (λ still. still ≡ true) }
{
    if refused {
        return Ok(true);
    }
    match tell_page(alloc, page, reader) {
        Ok(()) => Ok(false),
        Err(ReaderFault::Entry) => Ok(true),
        Err(ReaderFault::Memory) => Err(AllocError),
    }
}
