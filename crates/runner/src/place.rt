//! What a case stands on: a store on a device in memory, or its device alone. Its steps stand here; what one tells is kept up to the next.
//!
//! A place notes the first thing that is wrong, so that trials read as lists of steps: whether something was is asked once, at their end.

use crate::endings::with_end;
use crate::streams::{Parted, Taker};
use api::serve;
use cases::{TextBuilder, Wrong, shown, text, yes_or_no};
use device::{MemDevice, Pick};
use durable::{Checked, Compacted, Episode, Fault, Found, Store, Upgraded, create, drive};
use httpmsg::Std;
use names::Format;
use requests::{Reply, Request};
use std::alloc::Global;
use std::mem::replace;

// Asks for the lists of what cases write, and for the events of configmaps, policies and namespaces. A store of format 1 has no path of namespaces, and says so.
const LOOK: &str =
    "GET /api/v1/configmaps HTTP/1.1\r\nHost: x\r\n\r\nGET /apis/apps/v1/deployments HTTP/1.1\r\nHost: x\r\n\r\nGET /apis/admissionregistration.k8s.io/v1/validatingadmissionpolicies HTTP/1.1\r\nHost: x\r\n\r\nGET /apis/admissionregistration.k8s.io/v1/validatingadmissionpolicybindings HTTP/1.1\r\nHost: x\r\n\r\nGET /api/v1/configmaps?watch=1&resourceVersion=1 HTTP/1.1\r\nHost: x\r\n\r\nGET /apis/admissionregistration.k8s.io/v1/validatingadmissionpolicies?watch=1&resourceVersion=1 HTTP/1.1\r\nHost: x\r\n\r\nGET /api/v1/namespaces HTTP/1.1\r\nHost: x\r\n\r\nGET /api/v1/namespaces?watch=1&resourceVersion=1 HTTP/1.1\r\nHost: x\r\n\r\n";

const NOT_OPEN: &str = "the store is not open";

// A store that is open, or the device of one that is not, or neither.
#[derive(Drop)]
enum Ground {
    Open(Store<MemDevice>),
    Shut(MemDevice),
    Nothing,
}

/// What a case stands on.
pub struct StorePlace {
    alloc: Global,
    ground: Ground,
    // what the last step told
    told: String,
    // what was wrong first: empty where nothing was
    wrong: &'static str,
}

// Written out, so that each function that lets a place go calls it: what is derived stands in each of them.
impl Drop for StorePlace {
    fn drop(self) {
        let StorePlace {
            alloc: _,
            ground: _,
            told: _,
            wrong: _,
        } = self;
    }
}

// `generation G, P pages at sector S`
fn compacted_text(alloc: Global, told: Compacted) -> Result<String, Wrong> {
    let mut line = TextBuilder::new(alloc);
    line.push("generation ");
    line.show(&told.generation);
    line.push(", ");
    line.show(&told.pages);
    line.push(" pages at sector ");
    line.show(&told.first_sector);
    line.end()
}

// `format F, generation G, revision R, N namespaces`
fn upgraded_text(alloc: Global, told: Upgraded) -> Result<String, Wrong> {
    let mut line = TextBuilder::new(alloc);
    line.push("format ");
    line.show(&told.format.number());
    line.push(", generation ");
    line.show(&told.generation);
    line.push(", revision ");
    line.show(&told.revision);
    line.push(", ");
    line.show(&told.namespaces);
    line.push(" namespaces");
    line.end()
}

// `revision R, objects K, generation G`
fn checked_text(alloc: Global, told: Checked) -> Result<String, Wrong> {
    let mut line = TextBuilder::new(alloc);
    line.push("revision ");
    line.show(&told.revision);
    line.push(", objects ");
    line.show(&told.objects);
    line.push(", generation ");
    line.show(&told.generation);
    line.end()
}

// `CODE BODY`, with a blank for each line feed between lines of the body.
fn reply_text(alloc: Global, reply: &Reply) -> Result<String, Wrong> {
    let mut line = TextBuilder::new(alloc);
    line.show(&reply.code());
    for piece in reply.body().lines() {
        line.word(piece);
    }
    line.end()
}

/// What the new stores of a case are like: their format, and for how many sectors the case asked, of its device.
#[derive(Clone, Copy)]
pub struct NewStores {
    pub format: Format,
    pub room_sectors: u64,
}

impl NewStores {
    /// A new store on a device with the case's room, but for at least this many sectors; it is shut.
    pub fn place(self, alloc: Global, least_sectors: u64) -> StorePlace {
        StorePlace::new(alloc, self.format, self.room_sectors.max(least_sectors))
    }
}

// A device with a new store.
fn created(alloc: Global, format: Format, room_sectors: u64) -> Result<MemDevice, &'static str> {
    let Ok(mut device) = MemDevice::new(alloc, room_sectors) else {
        return Err("out of memory");
    };
    match create(&mut device, format) {
        Ok(()) => Ok(device),
        Err(_) => Err("no store can be made"),
    }
}

impl StorePlace {
    /// A new store of a format on a device with room for this many sectors; it is shut.
    pub fn new(alloc: Global, format: Format, room_sectors: u64) -> StorePlace {
        let mut place = StorePlace {
            alloc,
            ground: Ground::Nothing,
            told: String::new(alloc),
            wrong: "",
        };
        match created(alloc, format, room_sectors) {
            Ok(device) => place.shut(device),
            Err(why) => place.note(false, why),
        }
        place
    }

    /// Notes what is wrong where something does not hold, unless something was wrong before.
    pub fn note(&mut self, holds: bool, otherwise: &'static str) {
        if !holds && self.wrong.is_empty() {
            self.wrong = otherwise;
        }
    }

    /// Asks that the last step told this.
    pub fn tells(&mut self, wanted: &str, otherwise: &'static str) {
        let holds = self.told.as_str() == wanted;
        self.note(holds, otherwise);
    }

    /// What the last step told.
    pub fn told(&self) -> &str {
        self.told.as_str()
    }

    /// What the last step told, which is taken away.
    pub fn take_told(&mut self) -> String {
        replace(&mut self.told, String::new(self.alloc))
    }

    /// What was counted, where nothing was wrong. The place is let go here, and so in no function that has one.
    pub fn end(self, count: u64) -> Result<u64, Wrong> {
        let wrong = self.wrong;
        drop(self);
        if wrong.is_empty() {
            Ok(count)
        } else {
            Err(Wrong::Told(wrong))
        }
    }

    /// What the last step told, where nothing was wrong.
    pub fn answer(&mut self) -> Result<String, Wrong> {
        if self.wrong.is_empty() {
            Ok(self.take_told())
        } else {
            Err(Wrong::Told(replace(&mut self.wrong, "")))
        }
    }

    // Keeps what a step tells.
    fn tell(&mut self, told: Result<String, Wrong>) {
        match told {
            Ok(told) => self.told = told,
            Err(_) => self.note(false, "out of memory"),
        }
    }

    /// Whether the store is open.
    pub fn is_open(&self) -> bool {
        matches!(&self.ground, Ground::Open(_))
    }

    // The store that is open.
    fn store(&mut self) -> Option<&mut Store<MemDevice>> {
        match &mut self.ground {
            Ground::Open(store) => Some(store),
            _ => None,
        }
    }

    // The device, which is taken away.
    fn taken(&mut self) -> Option<MemDevice> {
        match replace(&mut self.ground, Ground::Nothing) {
            Ground::Open(store) => Some(store.into_device()),
            Ground::Shut(device) => Some(device),
            Ground::Nothing => None,
        }
    }

    fn shut(&mut self, device: MemDevice) {
        drop(replace(&mut self.ground, Ground::Shut(device)));
    }

    /// The device, with the store shut.
    pub fn device(&mut self) -> Option<&mut MemDevice> {
        if let Some(device) = self.taken() {
            self.shut(device);
        }
        match &mut self.ground {
            Ground::Shut(device) => Some(device),
            _ => {
                if self.wrong.is_empty() {
                    self.wrong = "there is no device";
                }
                None
            }
        }
    }

    /// The n-th call of the device from now fails.
    pub fn fail_on(&mut self, call: u64) {
        if let Some(device) = self.device() {
            device.fail_on(call);
        }
    }

    /// The n-th call of the device from now fails, and all after it.
    pub fn stop_on(&mut self, call: u64) {
        if let Some(device) = self.device() {
            device.stop_on(call);
        }
    }

    /// The machine stops: the device that is left by these picks, with this length.
    pub fn crash(&mut self, picks: &[Pick], length: u64) {
        if let Some(device) = self.taken() {
            self.shut(device.crash(picks, length));
        }
    }

    /// `create`: makes a store of a format on the device.
    pub fn create(&mut self, format: Format) {
        let alloc = self.alloc;
        let told = match self.device() {
            Some(device) => match create(device, format) {
                Ok(()) => text(alloc, "ok"),
                Err(fault) => shown(alloc, &fault),
            },
            None => return,
        };
        self.tell(told);
    }

    /// `open`: opens the store of the device.
    pub fn open(&mut self) {
        let Some(device) = self.taken() else {
            return self.note(false, "there is no device");
        };
        let told = match Store::open(self.alloc, device) {
            Ok(store) => {
                drop(replace(&mut self.ground, Ground::Open(store)));
                text(self.alloc, "ok")
            }
            Err((fault, device)) => {
                self.shut(device);
                shown(self.alloc, &fault)
            }
        };
        self.tell(told);
    }

    /// `compact`: writes the next generation of the open store, and tells of it.
    pub fn compact(&mut self) {
        let alloc = self.alloc;
        let Some(store) = self.store() else {
            return self.note(false, NOT_OPEN);
        };
        let told = match store.compact(alloc) {
            Ok(told) => compacted_text(alloc, told),
            Err(fault) => shown(alloc, &fault),
        };
        self.tell(told);
    }

    /// `upgrade`: brings the open store to the newest format, and tells of it.
    pub fn upgrade(&mut self) {
        let alloc = self.alloc;
        let Some(store) = self.store() else {
            return self.note(false, NOT_OPEN);
        };
        let told = match store.upgrade(alloc) {
            Ok(told) => upgraded_text(alloc, told),
            Err(fault) => shown(alloc, &fault),
        };
        self.tell(told);
    }

    /// `again`: compacts the open store, and opens it again on its device.
    pub fn again(&mut self) {
        self.compact();
        if self.told().starts_with("generation ") {
            self.open();
        }
    }

    /// `check`: tells of the open store as a whole.
    pub fn check(&mut self) {
        let alloc = self.alloc;
        let Some(store) = self.store() else {
            return self.note(false, NOT_OPEN);
        };
        let told = match store.check(alloc) {
            Ok(told) => checked_text(alloc, told),
            Err(fault) => shown(alloc, &fault),
        };
        self.tell(told);
    }

    /// `settled`: whether the open store serves on, and all that it acknowledged stands on the device.
    pub fn settled(&mut self) {
        let alloc = self.alloc;
        let Some(store) = self.store() else {
            return self.note(false, NOT_OPEN);
        };
        let told = yes_or_no(alloc, store.settled());
        self.tell(told);
    }

    /// Answers a request by a call of the open store.
    pub fn apply(&mut self, request: &Request) {
        let alloc = self.alloc;
        let Some(store) = self.store() else {
            return self.note(false, NOT_OPEN);
        };
        let told = match store.apply(alloc, request) {
            Ok(reply) => reply_text(alloc, &reply),
            Err(fault) => shown(alloc, &fault),
        };
        self.tell(told);
    }

    /// Serves a connection, and tells what was written, with its end after it.
    pub fn serve(&mut self, reader: Parted<'_>, writer: Taker) {
        let alloc = self.alloc;
        let Some(store) = self.store() else {
            return self.note(false, NOT_OPEN);
        };
        let mut output = Std::new(writer);
        let end = serve(alloc, &mut Std::new(reader), &mut output, store);
        let told = with_end(alloc, &output.into_inner().taken, end);
        self.tell(told);
    }

    /// The same of a connection on which this was sent, and that does not fail.
    pub fn send(&mut self, sent: &str) {
        let reader = Parted::new(sent, usize::MAX, usize::MAX, 0);
        self.serve(reader, Taker::new(self.alloc, usize::MAX, 0));
    }

    /// Tells the lists of configmaps, deployments, policies, bindings and namespaces, and the events of configmaps, policies and namespaces, as they are shown.
    pub fn look(&mut self) {
        self.send(LOOK);
        let is_shown = self.told.starts_with("HTTP/1.1 200 ");
        self.note(is_shown, "nothing is shown");
    }

    /// Runs requests, of which each that is answered must be taken: how many are. Where no store is open, none is.
    pub fn run(&mut self, requests: &[Request]) -> usize {
        let alloc = self.alloc;
        let (replies, _) = match self.store() {
            Some(store) => store.run(alloc, requests),
            None => return 0,
        };
        for reply in &replies {
            self.note(reply.code() < 202, "a write is refused");
        }
        replies.len()
    }

    /// The revision of the open store.
    pub fn revision(&mut self) -> u64 {
        match self.store() {
            Some(store) => store.revision(),
            None => 0,
        }
    }

    /// Lives these episodes on the device, which is taken away.
    pub fn live(&mut self, episodes: &[Episode]) -> Result<Vec<Found>, Fault> {
        let Some(device) = self.taken() else {
            return Err(Fault::Device);
        };
        match drive(self.alloc, device, episodes) {
            Ok(found) => Ok(found),
            Err((fault, _)) => Err(fault),
        }
    }
}
