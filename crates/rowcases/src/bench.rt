//! What the rows of a file are asked of, and the questions by their words.

use crate::{documents_asked, edits, names_asked, record_bench, stored};
use cases::{Bench, Told, Wrong, compared, first_word, run_text};
use jsondoc::Doc;
use objects::Objects;
use std::alloc::Global;

// A document and objects, which the rows change one after the other.
#[derive(Drop)]
struct Rows {
    document: Doc,
    objects: Objects<u64>,
}

/// What the rows of a file come to.
pub fn run_rows(alloc: Global, file: &str, text: &str) -> Told {
    run_text::<Rows>(alloc, file, text)
}

/// What the cases of a file of records and entries come to.
pub fn run_records(alloc: Global, file: &str, text: &str) -> Told {
    run_rows(alloc, file, text)
}

impl Bench for Rows {
    fn new(alloc: Global, _file: &str) -> Result<Rows, Wrong> {
        Ok(Rows {
            document: Doc::empty_object(alloc),
            objects: Objects::new(alloc),
        })
    }

    // A row: `QUESTION => ANSWER`.
    fn line(&mut self, alloc: Global, line: &str) -> Result<u64, Wrong> {
        let Some((question, wanted)) = line.split_once(" => ") else {
            return Err(Wrong::Told("no row: QUESTION => ANSWER"));
        };
        let (word, rest) = first_word(question);
        match self.of_the_document(alloc, word, rest) {
            Ok(found) => compared(found, wanted),
            Err(wrong) => Err(wrong),
        }
    }
}

// Each of these answers the questions of its kind, and hands on the others.
impl Rows {
    fn of_the_document(&mut self, alloc: Global, word: &str, rest: &str) -> Result<String, Wrong> {
        match word {
            "put" => edits::put(alloc, &mut self.document, rest),
            "member" => edits::member(alloc, &self.document, rest),
            "characters" => edits::characters(alloc, &self.document, rest),
            "remove" => edits::remove(alloc, &mut self.document, rest),
            "members" => edits::members(alloc, &self.document),
            "items" => edits::items(alloc, &self.document, rest),
            _ => self.of_the_objects(alloc, word, rest),
        }
    }

    fn of_the_objects(&mut self, alloc: Global, word: &str, rest: &str) -> Result<String, Wrong> {
        match word {
            "store" => stored::store(alloc, &mut self.objects, rest),
            "found" => stored::found(alloc, &self.objects, rest),
            "delete" => stored::delete(alloc, &mut self.objects, rest),
            "count" => stored::count(alloc, &self.objects),
            _ => of_values(alloc, word, rest),
        }
    }
}

fn of_values(alloc: Global, word: &str, rest: &str) -> Result<String, Wrong> {
    match word {
        "name" | "namespace" => names_asked::name(alloc, word, rest),
        "key" => names_asked::key_bytes(alloc, rest),
        "bytes" => names_asked::key_read(alloc, rest),
        "order" => names_asked::order(alloc, rest),
        "told" => names_asked::told(alloc, rest),
        "numbered" => names_asked::numbered(alloc, rest),
        "plural" | "kind" => names_asked::number_of(alloc, word, rest),
        "format" => names_asked::format(alloc, rest),
        "has" => names_asked::has(alloc, rest),
        "json" => documents_asked::read(alloc, rest.as_bytes()),
        "json-bytes" => documents_asked::read_hex(alloc, rest),
        "nested" => documents_asked::repeated(alloc, rest, ("", "[", "]", "")),
        "string" => documents_asked::repeated(alloc, rest, ("\"", "v", "", "\"")),
        "shown" => documents_asked::shown(alloc, rest),
        "has-kind" | "has-metadata" | "metadata" | "copied-metadata" => {
            documents_asked::of_document(alloc, word, rest)
        }
        "selects" => documents_asked::selects(alloc, rest),
        _ => record_bench::answer(alloc, word, rest),
    }
}
