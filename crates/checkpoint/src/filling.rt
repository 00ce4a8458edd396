//! Entries that are cut into pages.

ghost use Rattle.std.specs.Prelude.{◌≡◌, ◌<◌, ◌≤◌, ◌+◌, ◌++◌, ◌⊎◌, ℕ, List, [], ◌∷◌, map, length, slice_index, IsTrue, IfOk, OnOk, OnErr, IfSome, IfNone, IsErrOf};
ghost use Rattle.device.specs.Disk.{HasFailed};
ghost use Rattle.device.specs.Step.{Same};
ghost use Rattle.device.specs.Run.{Ran};
ghost use Rattle.pages.specs.Page.{Entry, room_of};
ghost use Rattle.checkpoint.specs.Pages.{first_key};
ghost use Rattle.checkpoint.specs.Filling.{AllFit, pages_of, keys_from};
ghost use Rattle.checkpoint.specs.Index.{keys_of};

use device::Device;
use pages::PAGE_BYTES;
use std::alloc::{AllocError, AllocFailed, Global};

// Bytes before the first slot of a page, and those of a cell beside its key and what stands under that: its slot, and the length of its key.
const HEAD_BYTES: usize = 8;

const CELL_OVERHEAD_BYTES: usize = 6;

/// Why entries cannot be walked, or be laid on pages.
#[derive(Clone, Copy)]
pub enum EntriesFault {
    /// The device failed in this call.
    Device,
    /// What lies on the device are not the entries.
    Damaged,
    /// An entry fits no page.
    TooLong,
    /// Out of memory.
    Memory,
}

impl From<AllocError> for EntriesFault {
    ghost use Rattle.checkpoint.specs.declared.filling.EntriesFault.TheVariants.{Memory};
    ghost use Rattle.std.specs.Prelude.{◌≡◌};

    ghost from_gives = { λ _ fault. fault ≡ Memory };

    fn from(_: AllocError) -> EntriesFault {
        EntriesFault::Memory
    }
}

impl<T: Drop> From<AllocFailed<T>> for EntriesFault {
    ghost use Rattle.checkpoint.specs.declared.filling.EntriesFault.TheVariants.{Memory};
    ghost use Rattle.std.specs.Prelude.{◌≡◌};

    ghost from_gives = { λ _ fault. fault ≡ Memory };

    fn from(_: AllocFailed<T>) -> EntriesFault {
        EntriesFault::Memory
    }
}

/// Entries in ascending order, walked from the first to the last as often as is asked. They may lie on a device, so which they are is a
/// matter of its content: of those bytes of it that a walk looks at, and of no others.
///
/// A walk takes no memory. Whoever makes the entries takes what their walks want.
pub trait Entries {
    /// Over this content a walk gives these entries.
    ghost gives: { Self → List ℕ → List Entry → Type 0 };

    /// Over this content the walk has these entries before it.
    ghost ahead: { Self → List ℕ → List Entry → Type 0 };

    /// The walk stands at an entry.
    ghost stands: { Self → Type 0 };

    /// The entry that it stands at.
    ghost here: { Self → Entry };

    /// The walk has at most this many entries before it, whatever the device holds.
    ghost most: { Self → ℕ };

    /// A walk looks at the byte of the device's content that stands at this offset.
    ghost reads: { Self → ℕ → Type 0 };

    /// Goes back, before the first entry.
    fn rewind(&mut self)
        ensures ahead { (content : List ℕ) (entries : List Entry) → gives self.old content entries → ahead self.new content entries }
        ensures gives { (content : List ℕ) (entries : List Entry) → gives self.old content entries → gives self.new content entries }
        ensures reads { (k : ℕ) → reads self.new k → reads self.old k };

    /// Goes to the next entry, and whether there is one. Nothing is written, and no memory is taken.
    ///
    /// # Errors
    ///
    /// `Device` where the device failed. `Damaged` where its content holds no such entries.
    fn advance<D: Device>(&mut self, device: &mut D) -> Result<bool, EntriesFault>
        ensures some { D.disk.keeps device.old → (entry : Entry) (entries : List Entry)
            → ahead self.old (D.disk.content device.old) (entry ∷ entries)
            → IfOk result (λ more. IsTrue more × (here self.new ≡ entry) × ahead self.new (D.disk.content device.old) entries) }
        ensures none { D.disk.keeps device.old → ahead self.old (D.disk.content device.old) [] → IfOk result (λ more. IsTrue more → ⊥) }
        ensures stands { IfOk result (λ more. IsTrue more → stands self.new) }
        ensures most { IfOk result (λ more. IsTrue more → most self.new < most self.old) }
        ensures gives { (content : List ℕ) (entries : List Entry) → gives self.old content entries → gives self.new content entries }
        ensures reads { (k : ℕ) → reads self.new k → reads self.old k }
        ensures ran { Ran D.disk device.old device.new Same }
        ensures damaged { D.disk.keeps device.old → IsErrOf result EntriesFault.Damaged
            → (entries : List Entry) → ahead self.old (D.disk.content device.old) entries → ⊥ }
        ensures refusal { OnErr result (IsErrOf result EntriesFault.Device ⊎ IsErrOf result EntriesFault.Damaged) }
        ensures steady { OnOk result (D.disk.failures device.new ≡ D.disk.failures device.old) }
        ensures cause { IsErrOf result EntriesFault.Device → HasFailed D.disk device.old device.new };

    /// The key of the entry that it stands at.
    fn key(&self) -> &[u8]
        requires { stands self.now }
        ensures { result.now ≡ (here self.now).0 };

    /// What stands under it.
    fn cell(&self) -> &[u8]
        requires { stands self.now }
        ensures { result.now ≡ (here self.now).1 };

    /// A content that has the bytes which a walk looks at, and is no shorter, gives the same entries.
    ghost gives_same: { (source : Self) (old new : List ℕ) (entries : List Entry) → length old ≤ length new
        → ((k : ℕ) → reads source k → slice_index new k ≡ slice_index old k) → gives source old entries → gives source new entries };

    /// And the walk goes on with the same entries.
    ghost ahead_same: { (source : Self) (old new : List ℕ) (entries : List Entry) → length old ≤ length new
        → ((k : ℕ) → reads source k → slice_index new k ≡ slice_index old k) → ahead source old entries → ahead source new entries };
}

// What of this many free bytes a cell and its slot leave, if they fit.
fn room_left(free: usize, key: &[u8], cell: &[u8]) -> Option<usize>
    ensures some { IfSome result (λ left. left + (6 + length key.now + length cell.now) ≡ free) }
    ensures none { IfNone result (free < 6 + length key.now + length cell.now) }
{
    free.checked_sub(CELL_OVERHEAD_BYTES)?
        .checked_sub(key.len())?
        .checked_sub(cell.len())
}

/// Pages that entries are cut into: the first key of each, and the free bytes of the last.
#[derive(Drop)]
pub(crate) struct Filling {
    pub(crate) first_keys: Vec<Vec<u8>>,
    pub(crate) free: usize,
    ghost small: { free ≤ 32760 },
}

impl Filling {
    // No pages.
    fn new(alloc: Global) -> Filling
        ensures keys { keys_of result.first_keys.items ≡ [] }
        ensures free { result.free ≡ 0 }
    {
        Filling {
            first_keys: Vec::new(alloc),
            free: 0,
        }
    }

    // Begins a page with an entry, of which so much room is left.
    fn begin(&mut self, alloc: Global, key: &[u8], left: usize) -> Result<(), AllocError>
        requires { left ≤ 32760 }
        ensures keys { OnOk result (keys_of self.new.first_keys.items ≡ keys_of self.old.first_keys.items ++ key.now ∷ []) }
        ensures free { OnOk result (self.new.free ≡ left) }
    {
        self.first_keys.push(key.to_vec(alloc)?)?;
        self.free = left;
        Ok(())
    }

    // The first keys.
    fn into_first_keys(self) -> Vec<Vec<u8>>
        ensures { result ≡ self.first_keys }
    {
        let Filling {
            first_keys,
            free: _,
        } = self;
        first_keys
    }

    // Adds an entry behind the others.
    fn add(&mut self, alloc: Global, key: &[u8], cell: &[u8]) -> Result<(), EntriesFault>
        ensures keys { (entries : List Entry) → OnOk result (keys_of self.new.first_keys.items ++ keys_from self.new.free entries
            ≡ keys_of self.old.first_keys.items ++ keys_from self.old.free ((key.now, cell.now) ∷ entries)) }
        ensures fits { OnOk result (room_of ((key.now, cell.now) ∷ []) ≤ 32768) }
        ensures too_long { IsErrOf result EntriesFault.TooLong → 32768 < room_of ((key.now, cell.now) ∷ []) }
        ensures refusal { OnErr result (IsErrOf result EntriesFault.TooLong ⊎ IsErrOf result EntriesFault.Memory) }
    {
        if let Some(left) = room_left(self.free, key, cell) {
            self.free = left;
            return Ok(());
        }
        match room_left(PAGE_BYTES - HEAD_BYTES, key, cell) {
            Some(left) => Ok(self.begin(alloc, key, left)?),
            None => Err(EntriesFault::TooLong),
        }
    }
}

/// The first key of each page that the entries are cut into, a page being filled while the next cell fits. Nothing is written.
///
/// # Errors
///
/// `TooLong` where an entry fits no page. `Device` where the device failed, `Damaged` where its content holds no such entries, and
/// `Memory` where there was none.
pub fn first_keys<D: Device, E: Entries>(
    alloc: Global,
    device: &mut D,
    entries: &mut E,
) -> Result<Vec<Vec<u8>>, EntriesFault>
    ensures keys { D.disk.keeps device.old → (all : List Entry) → E.gives entries.old (D.disk.content device.old) all
        → IfOk result (λ keys. keys_of keys.items ≡ map first_key (pages_of all)) }
    ensures fit { D.disk.keeps device.old → (all : List Entry) → E.gives entries.old (D.disk.content device.old) all
        → OnOk result (AllFit all) }
    ensures too_long { D.disk.keeps device.old → (all : List Entry) → E.gives entries.old (D.disk.content device.old) all
        → IsErrOf result EntriesFault.TooLong → AllFit all → ⊥ }
    ensures damaged { D.disk.keeps device.old → IsErrOf result EntriesFault.Damaged
        → (all : List Entry) → E.gives entries.old (D.disk.content device.old) all → ⊥ }
    ensures gives { (content : List ℕ) (all : List Entry) → E.gives entries.old content all → E.gives entries.new content all }
    ensures reads { (k : ℕ) → E.reads entries.new k → E.reads entries.old k }
    ensures ran { Ran D.disk device.old device.new Same }
    ensures cause { IsErrOf result EntriesFault.Device → HasFailed D.disk device.old device.new }
    ensures steady { OnOk result (D.disk.failures device.new ≡ D.disk.failures device.old) }
    ensures unfailed { IsErrOf result EntriesFault.Memory → D.disk.failures device.new ≡ D.disk.failures device.old }
{
    let mut filling = Filling::new(alloc);
    entries.rewind();
    'walk: loop {
        if !entries.advance(device)? {
            return Ok(filling.into_first_keys());
        }
        filling.add(alloc, entries.key(), entries.cell())?;
    }
}
