//! Files of cases, line by line.

use crate::report::Told;
use crate::wrong::Wrong;
use std::alloc::Global;
use std::rt::{Env, Files};
use std::{env, fs, io};

/// What the lines of a file, or of a case, work on.
pub trait Bench: Drop + Sized {
    /// A bench with nothing on it, for a file of this name.
    fn new(alloc: Global, file: &str) -> Result<Self, Wrong>;

    /// Does what a line says, and tells how many comparisons it made, all of which held.
    fn line(&mut self, alloc: Global, line: &str) -> Result<u64, Wrong>;

    /// Ends the file or the case: asks that nothing is left to be compared.
    fn end(&self) -> Result<(), Wrong> {
        Ok(())
    }
}

// What a file has come to.
#[derive(Drop)]
struct Reading<B: Bench> {
    // none before the first line, and after a line of a case that failed
    bench: Option<B>,
    is_case: bool,
    // whether a comparison was made since the bench was new
    has_compared: bool,
}

impl<B: Bench> Reading<B> {
    fn begin(&mut self, alloc: Global, file: &str, is_case: bool) -> Result<(), Wrong> {
        self.bench = None;
        self.is_case = is_case;
        self.has_compared = false;
        self.bench = Some(B::new(alloc, file)?);
        Ok(())
    }

    // Does what a line says. After one that fails, the rest of a case is passed over.
    fn line(&mut self, alloc: Global, line: &str) -> Result<u64, Wrong> {
        let Some(bench) = &mut self.bench else {
            return Ok(0);
        };
        let done = bench.line(alloc, line);
        match &done {
            Ok(comparisons) => self.has_compared = self.has_compared || *comparisons > 0,
            Err(_) if self.is_case => self.bench = None,
            Err(_) => self.has_compared = true,
        }
        done
    }

    // Asks that something was compared, and nothing left out.
    fn end(&self) -> Result<u64, Wrong> {
        match &self.bench {
            Some(bench) => match bench.end() {
                Ok(()) if self.has_compared => Ok(0),
                Ok(()) => Err(Wrong::Told("nothing is compared before this line")),
                Err(wrong) => Err(wrong),
            },
            None => Ok(0),
        }
    }

    // Does what a line says that is no comment.
    fn step(&mut self, alloc: Global, file: &str, line: &str) -> Result<u64, Wrong> {
        if line.starts_with("case ") {
            let ended = self.end();
            return self.begin(alloc, file, true).and(ended);
        }
        if self.bench.is_none() && !self.is_case {
            self.begin(alloc, file, false)?;
        }
        self.line(alloc, line)
    }
}

/// What the lines of a text come to on a bench, that of a file with this name.
pub fn run_text<B: Bench>(alloc: Global, file: &str, text: &str) -> Told {
    let mut told = Told::new(alloc);
    let mut reading: Reading<B> = Reading {
        bench: None,
        is_case: false,
        has_compared: false,
    };
    let mut number = 0_u64;
    let mut last = 0_u64;
    for line in text.lines() {
        number = number.saturating_add(1);
        if line.is_empty() || line.starts_with('#') {
            continue;
        }
        last = number;
        let done = reading.step(alloc, file, line);
        told.note(number, done);
    }
    let done = match last {
        0 => Err(Wrong::Told("the file is empty")),
        _ => reading.end(),
    };
    told.note(last, done);
    told
}

// Adds the path of a file, unless it tells of the others.
fn push_path(alloc: Global, path: &str, paths: &mut Vec<String>) -> io::Result<()> {
    if !path.ends_with(".md") {
        paths.push(String::from_str(alloc, path)?)?;
    }
    Ok(())
}

// Adds the paths of the files of these folders, ascending, without those that tell of the others.
fn push_files<R: Files + Alloc<A = Global> + Clone + Drop>(
    rt: &R,
    alloc: Global,
    folders: &[&str],
    paths: &mut Vec<String>,
) -> io::Result<()> {
    for folder in folders {
        for entry in fs::read_dir(rt, *folder)? {
            push_path(alloc, entry?.path().as_str(), paths)?;
        }
    }
    Ok(paths.sort()?)
}

/// The paths that the arguments name, or else those of the files of these folders, ascending, without those that end in `.md`.
pub fn paths<R: Files + Env + Alloc<A = Global> + Clone + Drop>(
    rt: &R,
    alloc: Global,
    folders: &[&str],
) -> io::Result<Vec<String>> {
    let mut paths: Vec<String> = env::args(rt)?.skip(1).collect(alloc)?;
    if paths.is_empty() {
        push_files(rt, alloc, folders, &mut paths)?;
    }
    Ok(paths)
}
