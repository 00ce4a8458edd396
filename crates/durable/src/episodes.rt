ghost use Rattle.std.specs.Prelude.{◌≡◌, ◌≤◌, ◌++◌, ◌⊎◌, ◌↔◌, ℕ, List, true, false, IsTrue, IfOk, IfErr, OnErr, Err, Some};
ghost use Rattle.device.specs.Disk.{HasFailed};
ghost use Rattle.device.specs.Memory.{memory_content, memory_left, memory_disk};
ghost use Rattle.names.specs.declared.format.Rules.{Rules};
ghost use Rattle.decoded.specs.Standing.{Write, History};
ghost use Rattle.durable.specs.declared.fault.Fault.TheVariants as Fault;
ghost use Rattle.durable.specs.Lives.{EpisodeLeaves, LivesFrom};
ghost use Rattle.durable.specs.Ready.{HoldsHistory};
ghost use Rattle.durable.specs.Settled.{device_of, serves, IsSettledAt};
ghost use Rattle.durable.specs.Stands.{StandsFor};

use crate::fault::Fault;
use crate::store::Store;
use device::{MemDevice, Pick};
use requests::{Reply, Request};
use std::alloc::Global;

/// An episode of a store's life: it is opened, answers requests, is compacted or not, and its device stops. What the crash leaves is picked.
#[derive(Drop)]
pub struct Episode {
    pub requests: Vec<Request>,
    /// Whether the store is compacted after the requests.
    pub compacts: bool,
    /// The device call after the opening from which on all fail, the first being 1; with 0, or a number past the last, none does.
    pub stop_on: u64,
    /// What becomes of the sectors that may change.
    pub picks: Vec<Pick>,
    /// The length that the crash is to leave; it leaves the nearest that it may.
    pub length_sectors: u64,
}

/// What an episode shows: the revision at its opening, and the replies that were given in it.
#[derive(Drop)]
pub struct Found {
    pub revision: u64,
    pub replies: Vec<Reply>,
}

// Whether memory was refused.
fn is_memory(fault: Option<Fault>) -> bool
    ensures { IsTrue result ↔ (fault ≡ Some Fault.Memory) }
{
    matches!(fault, Some(Fault::Memory))
}

// Compacts a store where that is asked. However the compaction ends, the history stays.
fn compact_where(alloc: Global, store: &mut Store<MemDevice>, is_asked: bool) -> Result<(), Fault>
    ensures held { (rules : Rules) (h : History) → IsSettledAt rules store.old h → HoldsHistory rules memory_disk (device_of store.new) h }
    ensures stopped { serves store.old ≡ false → store.new ≡ store.old }
    ensures refusal { OnErr result (result ≡ Err Fault.Memory) }
    ensures count { memory_disk.failures (device_of store.old) ≤ memory_disk.failures (device_of store.new) }
{
    if is_asked && is_memory(store.compact(alloc).err()) {
        return Err(Fault::Memory);
    }
    Ok(())
}

// What an opened store shows in an episode, up to the crash.
fn answered(alloc: Global, store: &mut Store<MemDevice>, episode: &Episode) -> Result<Found, Fault>
    ensures lived { (rules : Rules) (h : History) → IsSettledAt rules store.old h
        → IfOk result (λ found. (c : List ℕ) → memory_left (device_of store.new) c → EpisodeLeaves rules h episode.now found c) }
    ensures memory { (rules : Rules) (h : History) → IsSettledAt rules store.old h
        → OnErr result ((lasting : List Write) × StandsFor rules (memory_content (device_of store.new)) (h ++ lasting)) }
    ensures refusal { OnErr result (result ≡ Err Fault.Memory) }
    ensures count { memory_disk.failures (device_of store.old) ≤ memory_disk.failures (device_of store.new) }
{
    store.stop_on(episode.stop_on);
    let revision = store.revision();
    let (replies, fault) = store.run(alloc, &episode.requests);
    if is_memory(fault) {
        return Err(Fault::Memory);
    }
    compact_where(alloc, store, episode.compacts)?;
    Ok(Found { revision, replies })
}

// Lives one episode: what it shows, and the device that its crash leaves.
fn live(
    alloc: Global,
    device: MemDevice,
    episode: &Episode,
) -> Result<(Found, MemDevice), (Fault, MemDevice)>
    ensures lived { (rules : Rules) (h : History) → StandsFor rules (memory_content device) h
        → IfOk result (λ end. EpisodeLeaves rules h episode.now end.0 (memory_content end.1)) }
    ensures refusal { (rules : Rules) (h : History) → StandsFor rules (memory_content device) h
        → IfErr result (λ e. (e.0 ≡ Fault.Device) ⊎ (e.0 ≡ Fault.Memory)) }
    ensures left_err { (rules : Rules) (h : History) → StandsFor rules (memory_content device) h
        → IfErr result (λ e. (lasting : List Write) × StandsFor rules (memory_content e.1) (h ++ lasting)) }
    ensures cause { IfErr result (λ e. e.0 ≡ Fault.Device → HasFailed memory_disk device e.1) }
    ensures count { IfOk result (λ end. memory_disk.failures device ≤ memory_disk.failures end.1) }
{
    let mut store = match Store::open(alloc, device) {
        Ok(store) => store,
        Err((fault, device)) => return Err((fault, device)),
    };
    match answered(alloc, &mut store, episode) {
        Ok(found) => {
            let device = store.into_device();
            Ok((found, device.crash(&episode.picks, episode.length_sectors)))
        }
        Err(fault) => Err((fault, store.into_device())),
    }
}

/// Lives through episodes, one after the other, from the history that the device stands for. Each shows that history's revision at its opening, and
/// the model's replies to its requests, as far as its device goes along; the next begins with that history and the first of the episode's accepted
/// writes, each of those whose reply was given among them.
///
/// # Errors
///
/// `Device` only where the device failed in this call, which ends it in an opening alone; `Memory`. What was shown before is given up. The device
/// stands for the history that was reached.
pub fn drive(
    alloc: Global,
    device: MemDevice,
    episodes: &[Episode],
) -> Result<Vec<Found>, (Fault, MemDevice)>
    ensures lived { (rules : Rules) (h : History) → StandsFor rules (memory_content device) h
        → IfOk result (λ found. LivesFrom rules h episodes.now found.items) }
    ensures refusal { (rules : Rules) (h : History) → StandsFor rules (memory_content device) h
        → IfErr result (λ e. (e.0 ≡ Fault.Device) ⊎ (e.0 ≡ Fault.Memory)) }
    ensures left_err { (rules : Rules) (h : History) → StandsFor rules (memory_content device) h
        → IfErr result (λ e. (lasting : List Write) × StandsFor rules (memory_content e.1) (h ++ lasting)) }
    ensures cause { IfErr result (λ e. e.0 ≡ Fault.Device → HasFailed memory_disk device e.1) }
{
    let mut device = device;
    let mut found = match Vec::with_capacity(alloc, episodes.len()) {
        Ok(found) => found,
        Err(_) => return Err((Fault::Memory, device)),
    };
    for episode in episodes {
        match live(alloc, device, episode) {
            Ok((one, left)) => {
                found.push_reserved(one);
                device = left;
            }
            Err(failed) => return Err(failed),
        }
    }
    Ok(found)
}
