//! Lines on the pages of a store's file.

use crate::line::Line;
use cases::{Wrong, first_word};
use pages::{Page, PageBuilder};
use std::alloc::Global;

/// Makes the page of the cells that the rest has: `KEY VALUE ; KEY VALUE ..`.
pub(crate) fn fill(alloc: Global, page: &mut PageBuilder, line: &mut Line<'_>) {
    page.clear();
    let cells = line.parts(alloc, line.rest, " ; ");
    for cell in &cells {
        let (key, value) = first_word(cell);
        if page.push(key.as_bytes(), value.as_bytes()).is_err() {
            line.refuse("the page has no room for its cells");
        }
    }
}

/// `page FRONT BACK CELLS`: this many of the page's first bytes, and this many of its last.
pub fn page(alloc: Global, page: &mut PageBuilder, line: &mut Line<'_>) {
    let (front, back) = (line.number() as usize, line.number() as usize);
    fill(alloc, page, line);
    let bytes = page.bytes();
    let from = bytes.len().saturating_sub(back);
    line.answer.spell(bytes.get(..front).unwrap_or(&[]));
    line.answer.push(" ..");
    line.answer.spell(bytes.get(from..).unwrap_or(&[]));
}

/// `page-with AT BYTE CELLS`: the keys and values of the page of these cells with this byte at a place, or why it is no page.
pub fn page_with(alloc: Global, page: &mut PageBuilder, line: &mut Line<'_>) {
    let (at, with) = (line.number() as usize, line.byte());
    fill(alloc, page, line);
    let Ok(mut bytes) = page.bytes().to_vec(alloc) else {
        return line.fail(Wrong::Memory);
    };
    if let Some(byte) = bytes.get_mut(at) {
        *byte = with;
    }
    match Page::check(&bytes) {
        Ok(page) => {
            for i in 0..page.len() {
                line.say(page.key(i));
                line.say(page.cell(i));
            }
        }
        Err(damage) => line.show(&damage),
    }
}

/// `page-room BYTES CELLS`: whether the page has room for a further cell with a key of one byte and a value of this many.
pub fn page_room(alloc: Global, page: &mut PageBuilder, line: &mut Line<'_>) {
    let size = line.number() as usize;
    fill(alloc, page, line);
    match vec![in alloc; 0; size] {
        Ok(value) => line.ended(page.push(b"z", &value)),
        Err(_) => line.fail(Wrong::Memory),
    }
}

/// `page-find KEY CELLS`: the value that is found under the key, or `none`.
pub fn page_find(alloc: Global, page: &mut PageBuilder, line: &mut Line<'_>) {
    let key = line.word();
    fill(alloc, page, line);
    match Page::check(page.bytes()) {
        Ok(page) => match page.find(key.as_bytes()) {
            Some(value) => line.say(value),
            None => line.answer.word("none"),
        },
        Err(damage) => line.show(&damage),
    }
}
