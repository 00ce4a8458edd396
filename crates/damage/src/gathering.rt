//! Readers of entries.

use checkpoint::{Reader, ReaderFault};
use records::Entry;
use std::alloc::Global;

/// A reader that takes each entry and keeps none.
#[derive(Drop)]
pub(crate) struct Idle;

impl Reader for Idle {
    ghost use Rattle.std.specs.Prelude.{◌≡◌};
    ghost use Rattle.damage.specs.Gathering.{Idles, idle_none, idle_then};

    ghost told = { Idles };

    ghost refuses = { λ idle entry. ⊥ };

    ghost told_none = { idle_none };

    ghost told_then = { idle_then };

    fn entry(&mut self, _alloc: Global, _key: &[u8], _cell: &[u8]) -> Result<(), ReaderFault> {
        Ok(())
    }
}

/// A reader that keeps each entry.
#[derive(Drop)]
pub(crate) struct Gathering {
    pub(crate) entries: Vec<Entry>,
}

impl Reader for Gathering {
    ghost use Rattle.std.specs.Prelude.{◌≡◌};
    ghost use Rattle.damage.specs.Gathering.{Gathers, gathers_none, gathers_then};

    ghost told = { Gathers };

    ghost refuses = { λ gathering entry. ⊥ };

    ghost told_none = { gathers_none };

    ghost told_then = { gathers_then };

    fn entry(&mut self, alloc: Global, key: &[u8], cell: &[u8]) -> Result<(), ReaderFault> {
        let entry = Entry::new(key.to_vec(alloc)?, cell.to_vec(alloc)?);
        self.entries.push(entry)?;
        Ok(())
    }
}
