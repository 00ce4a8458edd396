//! Words for how a connection ended.

use api::ServeFault;
use cases::{TextBuilder, Wrong};
use httpmsg::End;
use rowcases::fault_word;
use std::alloc::Global;

/// What was written, with its end after it: `ends WORD`.
pub fn with_end(
    alloc: Global,
    written: &[u8],
    end: Result<End, ServeFault>,
) -> Result<String, Wrong> {
    let mut line = TextBuilder::new(alloc);
    line.push(str::from_utf8(written).unwrap_or("no text"));
    line.push("ends ");
    match end {
        Ok(End::Clean) => line.push("clean"),
        Ok(End::Closed) => line.push("closed"),
        Ok(End::Broken(broken)) => {
            line.push("broken ");
            line.push(fault_word(broken.fault));
            line.push(if broken.is_head { " head" } else { "" });
        }
        Err(ServeFault::Read) => line.push("read"),
        Err(ServeFault::Write) => line.push("write"),
        Err(ServeFault::Device) => line.push("device"),
        Err(ServeFault::Memory) => line.push("memory"),
        Err(ServeFault::Damaged(_)) => line.push("damaged"),
        Err(ServeFault::Failed) => line.push("failed"),
    }
    line.end()
}
