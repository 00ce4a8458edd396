//! Entries joined again.

ghost use Rattle.std.specs.Prelude.{◌≡◌, ◌≢◌, ◌*◌, ◌<◌, true, false, List, ℕ, [], ◌∷◌, ◌++◌, Option, None, Some, option_map, length, IfSome, IsOk, OnOk, IfOk, IsErrOf};
ghost use Rattle.byteorder.specs.Endian.{big_bytes};
ghost use Rattle.pages.specs.Page.{Entry};
ghost use Rattle.checkpoint.specs.declared.reader.ReaderFault.TheVariants as ReaderFault;
ghost use Rattle.checkpoint.specs.Reader.{IsRefused};
ghost use Rattle.names.specs.Format.{has_chunks};
ghost use Rattle.chunks.specs.Chunks.{stem_of};
ghost use Rattle.chunks.specs.Whole.{part_key};
ghost use Rattle.chunks.specs.Joining.{waiting, IsJoined, RefusesChunk};

use crate::cutting::{CHUNK_BYTES, EVENT_MARK, is_cut};
use byteorder::{BigEndian, ByteOrder};
use checkpoint::{Reader, ReaderFault};
use names::Format;
use records::OBJECT_MARK;
use std::alloc::Global;

/// An entry that may have more chunks.
#[derive(Drop)]
pub(crate) struct Waiting {
    pub(crate) key: Vec<u8>,
    pub(crate) value: Vec<u8>,
}

// The number at the end of a key, and what stands in front of it.
fn split_number(key: &[u8]) -> Option<(&[u8], u16)>
    ensures parts { IfSome result (λ x. key.now ≡ x.0.now ++ big_bytes 2 x.1) }
    ensures fits { IfSome result (λ x. x.1 < 65536) }
    ensures none { result ≡ None → (stem : List ℕ) (n : ℕ) → key.now ≢ stem ++ big_bytes 2 n }
{
    if key.len() < 2 {
        return None;
    }
    let (stem, number) = key.split_at(key.len() - 2);
    Some((stem, BigEndian::read_u16(number)))
}

// The key in front of whose chunks' numbers this stands.
fn whole_of(stem: &[u8]) -> Option<&[u8]>
    ensures some { IfSome result (λ whole. stem_of whole.now ≡ Some stem.now) }
    ensures none { result ≡ None → (whole : List ℕ) → stem_of whole ≢ Some stem.now }
{
    if stem.is_empty() {
        return None;
    }
    if stem[0] == EVENT_MARK {
        return Some(stem);
    }
    let end = stem.len() - 1;
    if end == 0 || stem[0] != OBJECT_MARK || stem[end] != 0 {
        return None;
    }
    Some(&stem[..end])
}

/// The key of the entry that stands under this key, or has a chunk there, as a format has it. None where no entry does.
pub fn whole_key(format: Format, key: &[u8]) -> Option<&[u8]>
    ensures of { (whole : List ℕ) (chunk : ℕ) → key.now ≡ part_key (has_chunks format) whole chunk → option_map (λ k. k.now) result ≡ Some whole }
    ensures some { IfSome result (λ whole. (chunk : ℕ) × (key.now ≡ part_key (has_chunks format) whole.now chunk)) }
{
    if !format.has_chunks() || !is_cut(key) {
        return Some(key);
    }
    match split_number(key) {
        Some((stem, _number)) => whole_of(stem),
        None => None,
    }
}

impl Waiting {
    // Whether the next chunk of this entry has this number, where this stands in front of it.
    fn goes_on(&self, stem: &[u8], number: u16) -> bool
        ensures yes { result ≡ true → (stem_of self.now.key.items ≡ Some stem.now) × (length self.now.value.items ≡ 8000 * number) }
        ensures no { result ≡ false → stem_of self.now.key.items ≡ Some stem.now → length self.now.value.items ≡ 8000 * number → ⊥ }
    {
        match whole_of(stem) {
            None => false,
            Some(whole) => whole == self.key.as_slice()
                && self.value.len() == CHUNK_BYTES * usize::from(number),
        }
    }
}

/// Is told entries as the pages of a format have them, and tells them on to a reader as they were before they were cut.
#[derive(Drop)]
pub(crate) struct Joining<R> {
    // whether entries are told in chunks
    pub(crate) cutting: bool,
    pub(crate) waiting: Option<Waiting>,
    pub(crate) reader: R,
}

impl<R: Reader + Drop> Joining<R> {
    /// Nothing was told yet.
    pub(crate) fn new(cutting: bool, reader: R) -> Joining<R>
        ensures reader { result.reader ≡ reader }
        ensures cutting { result.cutting ≡ cutting }
        ensures none { waiting result ≡ [] }
    {
        Joining {
            cutting,
            waiting: None,
            reader,
        }
    }

    // Tells the entry that waits on; the next one waits.
    fn begin(&mut self, alloc: Global, key: &[u8], value: &[u8]) -> Result<(), ReaderFault>
        ensures cutting { self.new.cutting ≡ self.old.cutting }
        ensures told { OnOk result (R.told self.old.reader self.new.reader (waiting self.old)) }
        ensures waits { OnOk result (waiting self.new ≡ (key.now, value.now) ∷ []) }
        ensures refused { IsErrOf result ReaderFault.Entry → (w : Entry) × (waiting self.old ≡ w ∷ []) × R.refuses self.old.reader w }
    {
        let next = Waiting {
            key: key.to_vec(alloc)?,
            value: value.to_vec(alloc)?,
        };
        if let Some(w) = &self.waiting {
            self.reader.entry(alloc, &w.key, &w.value)?;
        }
        self.waiting = Some(next);
        Ok(())
    }

    // Adds a chunk after the first to the value that waits.
    fn go_on(&mut self, stem: &[u8], number: u16, cell: &[u8]) -> Result<(), ReaderFault>
        ensures cutting { self.new.cutting ≡ self.old.cutting }
        ensures reader { self.new.reader ≡ self.old.reader }
        ensures added { OnOk result ((w : Entry) × (waiting self.old ≡ w ∷ []) × (stem_of w.0 ≡ Some stem.now) × (length w.1 ≡ 8000 * number)
            × (waiting self.new ≡ (w.0, w.1 ++ cell.now) ∷ [])) }
        ensures refused { IsErrOf result ReaderFault.Entry → (w : Entry) → waiting self.old ≡ w ∷ [] → stem_of w.0 ≡ Some stem.now → length w.1 ≡ 8000 * number → ⊥ }
    {
        let Some(mut w) = self.waiting.take() else {
            return Err(ReaderFault::Entry);
        };
        if !w.goes_on(stem, number) {
            return Err(ReaderFault::Entry);
        }
        w.value.extend_from_slice(cell)?;
        self.waiting = Some(w);
        Ok(())
    }

    // Is told the next chunk.
    fn chunk(&mut self, alloc: Global, key: &[u8], cell: &[u8]) -> Result<(), ReaderFault>
        requires cutting { self.old.cutting ≡ true }
        ensures told { OnOk result (IsJoined R.told self.old self.new ((key.now, cell.now) ∷ [])) }
        ensures refused { IsErrOf result ReaderFault.Entry → RefusesChunk R.refuses self.old (key.now, cell.now) }
    {
        if !is_cut(key) {
            return self.begin(alloc, key, cell);
        }
        if cell.is_empty() || cell.len() > CHUNK_BYTES {
            return Err(ReaderFault::Entry);
        }
        let Some((stem, number)) = split_number(key) else {
            return Err(ReaderFault::Entry);
        };
        let Some(whole) = whole_of(stem) else {
            return Err(ReaderFault::Entry);
        };
        if number == 0 {
            return self.begin(alloc, whole, cell);
        }
        self.go_on(stem, number, cell)
    }

    /// The reader, when the entry that waits was told on.
    ///
    /// # Errors
    ///
    /// `Entry` where the reader refuses it. `Memory` where there was none.
    pub(crate) fn finish(self, alloc: Global) -> Result<R, ReaderFault>
        ensures told { IfOk result (λ reader. R.told self.reader reader (waiting self)) }
        ensures refused { IsErrOf result ReaderFault.Entry → IsRefused R.told R.refuses self.reader (waiting self) }
        ensures idle { waiting self ≡ [] → IfOk result (λ reader. reader ≡ self.reader) }
        ensures works { waiting self ≡ [] → IsOk result }
    {
        let Joining {
            waiting,
            mut reader,
            ..
        } = self;
        if let Some(w) = waiting {
            reader.entry(alloc, &w.key, &w.value)?;
        }
        Ok(reader)
    }
}

impl<R: Reader + Drop> Reader for Joining<R> {
    ghost use Rattle.chunks.specs.Joining.{Told, Refuses, joined_none, joined_then};

    ghost told = { Told R.told };

    ghost refuses = { Refuses R.refuses };

    ghost told_none = { joined_none R.told R.told_none };

    ghost told_then = { joined_then R.told R.told_then };

    fn entry(&mut self, alloc: Global, key: &[u8], cell: &[u8]) -> Result<(), ReaderFault> {
        if self.cutting {
            self.chunk(alloc, key, cell)
        } else {
            self.reader.entry(alloc, key, cell)
        }
    }
}
