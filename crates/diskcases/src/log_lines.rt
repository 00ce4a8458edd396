//! Lines on a log.

ghost use Rattle.std.specs.Prelude.{◌≤◌, ◌+◌, length};

use crate::line::Line;
use cases::Wrong;
use device::{Device, MemDevice};
use gatelog::{Body, Log, LogFault};
use std::alloc::Global;

/// The log that a case opened.
#[derive(Drop)]
pub struct LogLines {
    pub log: Option<Log>,
}

impl LogLines {
    /// The empty log, if the place is at most the length.
    pub fn start(&mut self, device: &mut MemDevice, at: u64) -> Result<(), LogFault> {
        self.log = None;
        if at <= device.len()? {
            self.log = Some(Log::start(device, at)?);
        }
        Ok(())
    }

    /// The log that begins at a gate.
    pub fn open(&mut self, device: &mut MemDevice, at: u64) -> Result<(), LogFault> {
        self.log = None;
        self.log = Some(Log::open(device, at)?);
        Ok(())
    }

    // Appends a body. The device is asked for its length first.
    fn add(&mut self, device: &mut MemDevice, body: Body) -> Result<(), LogFault> {
        let Some(log) = &mut self.log else {
            return Err(LogFault::Damaged);
        };
        if log.last_gate_sector() >= device.len()? {
            return Err(LogFault::Damaged);
        }
        log.append(device, body)
    }

    // Appends a payload, in place of whose bytes from a place on others stand.
    fn append(
        &mut self,
        alloc: Global,
        device: &mut MemDevice,
        payload: &[u8],
        at: usize,
        with: &[u8],
    ) -> Result<(), LogFault>
        requires { at + length with.now ≤ length payload.now }
    {
        let mut body = Body::new(alloc)?;
        body.extend(payload)?;
        body.set(at, with);
        self.add(device, body)
    }

    /// `append PAYLOAD`.
    pub fn append_payload(&mut self, alloc: Global, device: &mut MemDevice, line: &mut Line<'_>) {
        let payload = line.payload(alloc, line.rest);
        line.ended(self.append(alloc, device, &payload, 0, &[]));
    }

    /// `append-set AT TEXT PAYLOAD`: the text stands in place of the payload's bytes from there on.
    pub fn append_set(&mut self, alloc: Global, device: &mut MemDevice, line: &mut Line<'_>) {
        let (at, with) = (line.number() as usize, line.word());
        let payload = line.payload(alloc, line.rest);
        if at > payload.len() || with.len() > payload.len() - at {
            return line.refuse("there is no such place inside");
        }
        line.ended(self.append(alloc, device, &payload, at, with.as_bytes()));
    }

    /// `records PAYLOAD ; ..`: whether the log has these payloads.
    pub fn records(&mut self, alloc: Global, device: &mut MemDevice, line: &mut Line<'_>) {
        let Some(log) = &mut self.log else {
            return line.refuse("there is no log");
        };
        let wanted = line.payloads(alloc);
        match log.records(alloc, device) {
            Ok(found) if found == wanted => line.answer.word("ok"),
            Ok(found) => {
                line.answer.word("other payloads,");
                line.show(&found.len());
            }
            Err(fault) => line.show(&fault),
        }
    }

    /// `gate`: the log's last gate.
    pub fn gate(&self, line: &mut Line<'_>) {
        match &self.log {
            Some(log) => line.show(&log.last_gate_sector()),
            None => line.refuse("there is no log"),
        }
    }
}

const PART: usize = 1 << 20;

/// `filled PARTS BYTES`: a payload of this many parts of a mebibyte, to which this many bytes are added.
pub fn filled(alloc: Global, line: &mut Line<'_>) {
    let (parts, rest) = (line.number(), line.number());
    let (Ok(part), Ok(mut body)) = (vec![in alloc; 7u8; PART], Body::new(alloc)) else {
        return line.fail(Wrong::Memory);
    };
    for _ in 0..parts {
        if body.extend(part.as_slice()).is_err() {
            line.refuse("the parts do not fit");
        }
    }
    let more = part.get(..rest as usize).unwrap_or(&[]);
    line.ended(body.extend(more));
}
