//! What the lines of a case work on, and the lines by their words.

use crate::chunk_lines::{cut, whole, whole_list, whole_under};
use crate::device_lines::{call, counts, crash, firsts, length, sector, tries};
use crate::generation_lines::{install_next, next, place_of};
use crate::line::Line;
use crate::log_lines::{LogLines, filled};
use crate::other_devices::{file_after_crash, remembered};
use crate::page_lines::{page, page_find, page_room, page_with};
use crate::root_lines::{log_sector, new_store, root, write_sector};
use crate::scan_lines::{lay, scan_pages};
use crate::shelf_lines::shelf;
use crate::store_device::on_store_device;
use crate::writing_lines::write_entries;
use cases::{Bench, Told, Wrong, run_text};
use device::MemDevice;
use pages::PageBuilder;
use std::alloc::Global;

const ROOM_SECTORS: u64 = 32;

// A device in memory, the log that a case opened on it, and the page that its lines make.
#[derive(Drop)]
struct Disk {
    device: MemDevice,
    log: LogLines,
    page: PageBuilder,
}

/// What the cases of a file of what lies on a disk come to.
pub fn run_disk(alloc: Global, file: &str, text: &str) -> Told {
    run_text::<Disk>(alloc, file, text)
}

impl Bench for Disk {
    fn new(alloc: Global, _file: &str) -> Result<Disk, Wrong> {
        Ok(Disk {
            page: PageBuilder::new(alloc)?,
            device: MemDevice::new(alloc, ROOM_SECTORS)?,
            log: LogLines { log: None },
        })
    }

    // `LINE => ANSWER`; a line with no answer wants `ok`.
    fn line(&mut self, alloc: Global, line: &str) -> Result<u64, Wrong> {
        let (asked, wanted) = match line.split_once(" => ") {
            Some(both) => both,
            None => (line, "ok"),
        };
        let mut line = Line::new(alloc, asked);
        self.answer(alloc, &mut line);
        line.compare(wanted)
    }
}

// Each of these answers the lines of its kind, and hands on the others.
impl Disk {
    fn answer(&mut self, alloc: Global, line: &mut Line<'_>) {
        match line.word() {
            "call" => {
                let done = call(&mut self.device, line);
                line.ended(done);
            }
            "calls" => tries(alloc, &mut self.device, line),
            "len" => length(&mut self.device, line),
            "firsts" => firsts(&mut self.device, line),
            "counts" => counts(&self.device, line),
            "crash" => crash(alloc, &mut self.device, line),
            word => self.of_sectors(alloc, word, line),
        }
    }

    fn of_sectors(&mut self, alloc: Global, word: &str, line: &mut Line<'_>) {
        match word {
            "sector" => sector(&mut self.device, line),
            "begins" => write_sector(alloc, &mut self.device, line),
            "new-store" => new_store(&mut self.device, line),
            "root" => root(&mut self.device, line),
            "next" => next(&mut self.device, line),
            "install" => install_next(&mut self.device, line),
            "write" => write_entries(alloc, &mut self.device, line),
            "scan" => scan_pages(alloc, &mut self.device, line),
            "shelf" => shelf(alloc, &mut self.device, line),
            _ => self.of_chunks(alloc, word, line),
        }
    }

    fn of_chunks(&mut self, alloc: Global, word: &str, line: &mut Line<'_>) {
        match word {
            "cut" => cut(alloc, line, 1),
            "cut-from" => {
                let first = line.number();
                cut(alloc, line, first)
            }
            "whole" => whole(alloc, &mut self.device, line),
            "whole-list" => whole_list(alloc, &mut self.device, line),
            "whole-under" => whole_under(alloc, &mut self.device, line),
            _ => self.of_the_log(alloc, word, line),
        }
    }

    fn of_the_log(&mut self, alloc: Global, word: &str, line: &mut Line<'_>) {
        match word {
            "start" => {
                let done = self.log.start(&mut self.device, line.number());
                line.ended(done);
            }
            "open" => {
                let done = self.log.open(&mut self.device, line.number());
                line.ended(done);
            }
            "append" => self.log.append_payload(alloc, &mut self.device, line),
            "append-set" => self.log.append_set(alloc, &mut self.device, line),
            "records" => self.log.records(alloc, &mut self.device, line),
            "gate" => self.log.gate(line),
            _ => self.of_pages(alloc, word, line),
        }
    }

    fn of_pages(&mut self, alloc: Global, word: &str, line: &mut Line<'_>) {
        match word {
            "page" => page(alloc, &mut self.page, line),
            "page-with" => page_with(alloc, &mut self.page, line),
            "page-room" => page_room(alloc, &mut self.page, line),
            "page-find" => page_find(alloc, &mut self.page, line),
            "lay" => lay(alloc, &mut self.device, &mut self.page, line),
            "place" => place_of(line),
            "filled" => filled(alloc, line),
            "log-start" => log_sector(line),
            "file-after-crash" => file_after_crash(alloc, line),
            "remembered" => remembered(alloc, line),
            _ => on_store_device(alloc, &mut self.device, word, line),
        }
    }
}
