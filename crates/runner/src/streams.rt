//! Streams that are read in parts, and readers and writers that fail, each on a new store.

use crate::place::NewStores;
use cases::{WordReader, Wrong, compare, text};
use rowcases::short;
use std::alloc::Global;
use std::io;
use std::io::{Read, Write};

// Room for a store of which there are many.
const ROOM_SECTORS: u64 = 24;

/// Gives at most this many bytes at its first call, and this many at each later one. It fails at one call, and goes on at the next; 0 asks for none.
#[derive(Drop)]
pub struct Parted<'a> {
    rest: &'a [u8],
    first: usize,
    later: usize,
    calls_left: u64,
}

impl<'a> Parted<'a> {
    /// Gives what was sent.
    pub fn new(sent: &'a str, first: usize, later: usize, calls_left: u64) -> Parted<'a> {
        Parted {
            rest: sent.as_bytes(),
            first,
            later,
            calls_left,
        }
    }
}

impl<'a> Read for Parted<'a> {
    fn read(&mut self, buffer: &mut [u8]) -> io::Result<usize> {
        let is_failing = self.calls_left == 1;
        self.calls_left = self.calls_left.saturating_sub(1);
        if is_failing {
            return Err(io::ErrorKind::Other.into());
        }
        let count = self.first.min(self.rest.len()).min(buffer.len());
        buffer[..count].copy_from_slice(&self.rest[..count]);
        self.rest = &self.rest[count..];
        self.first = self.later;
        Ok(count)
    }
}

/// Takes at most this many bytes a call. It fails at one call, and goes on at the next; 0 asks for none.
#[derive(Drop)]
pub struct Taker {
    pub taken: Vec<u8>,
    most: usize,
    calls_left: u64,
}

impl Taker {
    /// Has taken nothing.
    pub fn new(alloc: Global, most: usize, calls_left: u64) -> Taker {
        Taker {
            taken: Vec::new(alloc),
            most,
            calls_left,
        }
    }
}

impl Write for Taker {
    fn write(&mut self, bytes: &[u8]) -> io::Result<usize> {
        let is_failing = self.calls_left == 1;
        self.calls_left = self.calls_left.saturating_sub(1);
        if is_failing {
            return Err(io::ErrorKind::Other.into());
        }
        let count = self.most.min(bytes.len());
        match self.taken.extend_from_slice(&bytes[..count]) {
            Ok(()) => Ok(count),
            Err(_) => Ok(0),
        }
    }

    fn flush(&mut self) -> io::Result<()> {
        Ok(())
    }
}

// What is written on a new store, with its end after it.
fn served(
    alloc: Global,
    stores: NewStores,
    reader: Parted<'_>,
    writer: Taker,
) -> Result<String, Wrong> {
    let mut place = stores.place(alloc, ROOM_SECTORS);
    place.open();
    place.serve(reader, writer);
    let answer = place.answer();
    drop(place);
    answer
}

// Asks that this is written, with its end after it, where a reader gets on.
fn is_read(
    alloc: Global,
    stores: NewStores,
    reader: Parted<'_>,
    wanted: &str,
) -> Result<(), Wrong> {
    let found = served(alloc, stores, reader, Taker::new(alloc, usize::MAX, 0))?;
    compare(alloc, found.as_str(), wanted)
}

/// `cuts`: whether a stream that is cut after each of its bytes in turn, or that is read byte by byte, has the replies and the end
/// of the whole.
pub fn cuts(alloc: Global, stores: NewStores, sent: &str) -> Result<String, Wrong> {
    let reader = Parted::new(sent, usize::MAX, usize::MAX, 0);
    let whole = served(alloc, stores, reader, Taker::new(alloc, usize::MAX, 0))?;
    for first in 1..sent.len() {
        is_read(
            alloc,
            stores,
            Parted::new(sent, first, usize::MAX, 0),
            whole.as_str(),
        )?;
    }
    is_read(alloc, stores, Parted::new(sent, 1, 1, 0), whole.as_str())?;
    text(alloc, "ok")
}

/// `readers A B`: what is written where a reader that gives a byte a call fails at each call from the A-th to the B-th, which is the
/// same for all of them.
pub fn readers(alloc: Global, stores: NewStores, sent: &str, line: &str) -> Result<String, Wrong> {
    let mut words = WordReader::new(line);
    let (first, last) = (words.number(), words.number());
    words.end()?;
    let answer = served(
        alloc,
        stores,
        Parted::new(sent, 1, 1, first),
        Taker::new(alloc, usize::MAX, 0),
    )?;
    for call in first..=last {
        is_read(
            alloc,
            stores,
            Parted::new(sent, 1, 1, call),
            answer.as_str(),
        )?;
    }
    short(alloc, answer.as_str())
}

// Asks that a writer that takes a byte a call, and fails after this many, takes the front of the replies, and that the connection ends so.
fn is_written(
    alloc: Global,
    stores: NewStores,
    sent: &str,
    replies: &str,
    count: usize,
) -> Result<(), Wrong> {
    let reader = Parted::new(sent, usize::MAX, usize::MAX, 0);
    let writer = Taker::new(alloc, 1, (count as u64).saturating_add(1));
    let found = served(alloc, stores, reader, writer)?;
    let front = replies.get(..count).unwrap_or("no text");
    match found.strip_suffix("ends write") {
        Some(taken) if taken == front => Ok(()),
        _ => Err(Wrong::Found(found)),
    }
}

/// `writers`: whether a writer that takes a byte a call, and fails at any of the calls that the replies need, takes all that is
/// before the call, and the connection ends so.
pub fn writers(alloc: Global, stores: NewStores, sent: &str) -> Result<String, Wrong> {
    let reader = Parted::new(sent, usize::MAX, usize::MAX, 0);
    let answer = served(alloc, stores, reader, Taker::new(alloc, usize::MAX, 0))?;
    let Some(replies) = answer.strip_suffix("ends clean") else {
        return Err(Wrong::Told("the connection does not end clean"));
    };
    for count in 0..replies.len() {
        is_written(alloc, stores, sent, replies, count)?;
    }
    text(alloc, "ok")
}
