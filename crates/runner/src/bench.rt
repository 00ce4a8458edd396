//! What a case stands on, what was sent to it, and the questions by their words.

use crate::compactions::compaction_damage;
use crate::place::{NewStores, StorePlace};
use crate::refusals::{at_hand, fault};
use crate::scripts::{applied, driven};
use crate::streams::{cuts, readers, writers};
use crate::trials::trials;
use cases::{WordReader, Wrong, shown, text};
use diskcases::{Line, crash_words, on_store_device};
use names::Format;
use rowcases::{Service, message};
use std::alloc::Global;

const ROOM_SECTORS: u64 = 64;

/// What a case stands on, and what was sent to it.
#[derive(Drop)]
pub struct Stand {
    place: StorePlace,
    // what the stores are like that its questions make
    stores: NewStores,
    // what was sent since the case began, and of that the connections that ask for a write
    all_sent: String,
    writes: Vec<String>,
    // the opening, all connections, what was applied, and where the store was compacted and opened among them
    steps: Vec<String>,
}

// Adds a text: whether memory was there for it.
fn keep(alloc: Global, texts: &mut Vec<String>, kept: &str) -> bool {
    match text(alloc, kept) {
        Ok(kept) => texts.push(kept).is_ok(),
        Err(_) => false,
    }
}

impl Service for Stand {
    // A new store, opened.
    fn new(alloc: Global) -> Result<Stand, Wrong> {
        let mut stand = Stand {
            place: StorePlace::new(alloc, Format::First, ROOM_SECTORS),
            stores: NewStores {
                format: Format::First,
                room_sectors: 0,
            },
            all_sent: String::new(alloc),
            writes: Vec::new(alloc),
            steps: Vec::new(alloc),
        };
        let is_kept = keep(alloc, &mut stand.steps, "open");
        stand.place.note(is_kept, "out of memory");
        stand.place.open();
        Ok(stand)
    }

    fn serve(&mut self, alloc: Global, sent: &str) -> Result<String, Wrong> {
        let is_kept = self.all_sent.push_str(sent).is_ok()
            && keep(alloc, &mut self.steps, sent)
            && (sent.starts_with("GET ") || keep(alloc, &mut self.writes, sent));
        self.place.note(is_kept, "out of memory");
        self.place.send(sent);
        self.place.answer()
    }

    fn answer(&mut self, alloc: Global, word: &str, rest: &str) -> Result<String, Wrong> {
        match word {
            "sent" => shown(alloc, &self.all_sent.len()),
            "cuts" => cuts(alloc, self.stores, self.all_sent.as_str()),
            "writers" => writers(alloc, self.stores, self.all_sent.as_str()),
            "readers" => readers(alloc, self.stores, self.all_sent.as_str(), rest),
            "stops"
            | "group-stops"
            | "compaction-stops"
            | "compaction-failures"
            | "upgrade-stops"
            | "upgrade-failures"
            | "script-stops"
            | "script-failures" => {
                trials(alloc, self.stores, word, &self.writes, &self.steps, rest)
            }
            "compaction-damage" => compaction_damage(alloc, self.stores, &self.writes, rest),
            "drive" => driven(alloc, self.stores.format, &self.steps, rest),
            "apply" => self.apply(alloc, rest),
            "at-hand" => at_hand(alloc, rest),
            "fault" => fault(alloc, rest),
            _ => self.answer_of_place(alloc, word, rest),
        }
    }
}

impl Stand {
    fn apply(&mut self, alloc: Global, step: &str) -> Result<String, Wrong> {
        self.steps.push(match step {
            "open" | "compact" => text(alloc, step)?,
            _ => message(alloc, step)?,
        })?;
        applied(alloc, self.stores, &mut self.place, &self.steps)
    }

    // Keeps the steps that a line on the store is. The opening before the first step is that of the case.
    fn keep_steps(&mut self, alloc: Global, word: &str) {
        let mut is_kept = true;
        if word == "compact" || word == "again" {
            is_kept = keep(alloc, &mut self.steps, "compact");
        }
        if word == "again" || (word == "open" && self.steps.len() > 1) {
            is_kept = is_kept && keep(alloc, &mut self.steps, "open");
        }
        self.place.note(is_kept, "out of memory");
    }

    // `LENGTH PICK ..`: a crash, and what becomes of the sectors that may change.
    fn crash(&mut self, alloc: Global, rest: &str) -> Result<String, Wrong> {
        let mut picks = Vec::new(alloc);
        let length = crash_words(rest, &mut picks)?;
        self.place.crash(&picks, length);
        text(alloc, "ok")
    }

    // `[FORMAT]`: makes a store on the device, of format 1 where none is said.
    fn create(&mut self, alloc: Global, rest: &str) -> Result<String, Wrong> {
        let mut line = Line::new(alloc, rest);
        let format = line.format(Format::First);
        // Nothing is shown, so what is wrong with the words is told here.
        drop(line.end()?);
        self.stores.format = format;
        self.place.create(format);
        self.place.answer()
    }

    // Answers a line on the device, with the store shut.
    fn answer_of_device(&mut self, alloc: Global, word: &str, rest: &str) -> Result<String, Wrong> {
        if word == "device" {
            self.stores.room_sectors = WordReader::new(rest).number();
        }
        match self.place.device() {
            Some(device) => {
                let mut line = Line::new(alloc, rest);
                on_store_device(alloc, device, word, &mut line);
                line.end()
            }
            None => self.place.answer(),
        }
    }

    // Answers a line on the store, or on its device.
    fn answer_of_place(&mut self, alloc: Global, word: &str, rest: &str) -> Result<String, Wrong> {
        self.keep_steps(alloc, word);
        match word {
            "open" => self.place.open(),
            "settled" => self.place.settled(),
            "compact" => self.place.compact(),
            "upgrade" => self.place.upgrade(),
            "again" => self.place.again(),
            "check" => self.place.check(),
            "create" => return self.create(alloc, rest),
            "crash" => return self.crash(alloc, rest),
            _ => return self.answer_of_device(alloc, word, rest),
        }
        self.place.answer()
    }
}
