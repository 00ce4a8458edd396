//! The lines on what is stored as bytes, by their words.

use crate::core_lines::{answered, redo};
use crate::entry_lines::{pieces, reads_event, reads_object, reads_piece};
use crate::record_lines::{cuts, keys, reads};
use crate::view_lines::reads_view;
use cases::Wrong;
use diskcases::Line;
use std::alloc::Global;

/// The answer to a line, by its word and what stands after that.
pub fn answer(alloc: Global, word: &str, rest: &str) -> Result<String, Wrong> {
    let mut line = Line::new(alloc, rest);
    answer_line(alloc, word, &mut line);
    line.end()
}

fn answer_line(alloc: Global, word: &str, line: &mut Line<'_>) {
    match word {
        "reads" => reads(alloc, line),
        "cuts" => cuts(alloc, line),
        "redo" => redo(alloc, line),
        "answered" => answered(alloc, line),
        "keys" => keys(alloc, line),
        "reads-object" => reads_object(alloc, line),
        "reads-event" => reads_event(alloc, line),
        "pieces" => pieces(alloc, line),
        "reads-piece" => reads_piece(alloc, line),
        "reads-view" => reads_view(alloc, line),
        _ => line.refuse("no such question"),
    }
}
