//! Counts of comparisons.

use crate::wrong::Wrong;
use std::alloc::Global;
use std::io;
use std::process::ExitCode;

/// What the lines of a file have come to: how many comparisons hold, and which lines fail.
#[derive(Drop)]
pub struct Told {
    passed: u64,
    // the numbers of the lines, and why they fail
    failed: Vec<(u64, Wrong)>,
    // whether one of these ran out of memory
    has_lost: bool,
}

impl Told {
    /// No line yet.
    pub fn new(alloc: Global) -> Told {
        Told {
            passed: 0,
            failed: Vec::new(alloc),
            has_lost: false,
        }
    }

    /// Adds the comparisons of a line, or why it fails.
    pub fn note(&mut self, line: u64, done: Result<u64, Wrong>) {
        match done {
            Ok(comparisons) => self.passed = self.passed.saturating_add(comparisons),
            Err(wrong) => self.has_lost = self.failed.push((line, wrong)).is_err() || self.has_lost,
        }
    }
}

/// How many comparisons hold, and how many lines fail.
#[derive(Clone, Copy)]
pub struct Report {
    // how many comparisons hold
    passed: u64,
    // how many lines fail, with the files that cannot be read
    failed: u64,
}

impl Report {
    /// A report of no lines.
    pub fn new() -> Report {
        Report {
            passed: 0,
            failed: 0,
        }
    }

    /// Tells why a line fails.
    pub fn fail<R: Print>(
        &mut self,
        rt: &R,
        file: &str,
        line: u64,
        wrong: &Wrong,
    ) -> io::Result<()> {
        self.failed = self.failed.saturating_add(1);
        let (front, why) = match wrong {
            Wrong::Memory => ("", "out of memory"),
            Wrong::Told(why) => ("", *why),
            Wrong::Found(found) => ("it is: ", found.as_str()),
        };
        println!(rt; "{file}:{line}: {front}{why}")
    }

    /// Adds what the lines of a file have come to, and tells why those fail that do.
    pub fn add<R: Print>(&mut self, rt: &R, file: &str, told: &Told) -> io::Result<()> {
        self.passed = self.passed.saturating_add(told.passed);
        if told.has_lost {
            self.fail(rt, file, 0, &Wrong::Memory)?;
        }
        for (line, wrong) in &told.failed {
            self.fail(rt, file, *line, wrong)?;
        }
        Ok(())
    }

    /// Prints how many comparisons hold and how many lines fail. The program then ends with 0 where each comparison holds and there was
    /// one, and with 1 where not.
    pub fn end<R: Print>(&self, rt: &R) -> io::Result<ExitCode> {
        println!(rt; "{} passed, {} failed", self.passed, self.failed)?;
        Ok(if self.failed == 0 && self.passed > 0 {
            ExitCode::SUCCESS
        } else {
            ExitCode::FAILURE
        })
    }
}
