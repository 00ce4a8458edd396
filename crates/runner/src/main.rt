//! Runs the rows and cases of every layer: text files of what is asked and what is wanted, a folder of `data` for each bench.
//!
//! ```text
//! runner                           the files of all folders but those that end in .md
//! runner views/verdicts.case ..    these files
//! ```
//!
//! The folder of a file says which bench its lines are given to, and the `README.md` there tells them. The bench of the store and of what is
//! served stands here, the others in crates of their own. Each line that fails is told by its file, its number and what differs. The status is 0 where none failed and some passed. Devices over files of the operating system are
//! looked at first; where they do otherwise than they say, it is 3.
#![tactic(auto)]

mod bench;
mod compactions;
mod endings;
mod looks;
mod place;
mod refusals;
mod scripts;
mod steps;
mod stops;
mod streams;
mod trials;
mod upgrades;

use api::answers_are_runs;
use bench::Stand;
use cases::{Report, Told, Wrong, paths, run_text};
use celcases::{laws_of_expressions, run_expressions};
use diskcases::{check_files, run_disk};
use durable::one_view;
use rowcases::{
    Exchange, laws_of_histories, laws_of_records, laws_of_requests, run_records, run_rows,
};
use std::alloc::Global;
use std::process::ExitCode;
use std::rt::{Env, Files};
use std::{fs, io};

const FOLDERS: [&str; 6] = ["rows", "expressions", "views", "disk", "records", "store"];

// The folder that a file stands in.
fn folder_of(path: &str) -> &str {
    let (folders, _) = path.rsplit_once('/').unwrap_or(("", path));
    match folders.rsplit_once('/') {
        Some((_, folder)) => folder,
        None => folders,
    }
}

// What the lines of a file come to on the bench of its folder.
fn told(alloc: Global, path: &str, text: &str) -> Told {
    match folder_of(path) {
        "rows" => run_rows(alloc, path, text),
        "expressions" => run_expressions(alloc, path, text),
        "disk" => run_disk(alloc, path, text),
        "records" => run_records(alloc, path, text),
        "views" | "store" => run_text::<Exchange<Stand>>(alloc, path, text),
        _ => {
            let mut told = Told::new(alloc);
            told.note(1, Err(Wrong::Told("no bench has this folder")));
            told
        }
    }
}

// Runs a file. One that cannot be read is a line that fails.
fn run<R: Files + Print + Alloc<A = Global> + Clone + Drop>(
    rt: &R,
    alloc: Global,
    path: &str,
    report: &mut Report,
) -> io::Result<()> {
    match fs::read_to_string(rt, path) {
        Ok(text) => report.add(rt, path, &told(alloc, path, text.as_str())),
        Err(_) => report.fail(rt, path, 1, &Wrong::Told("the file cannot be read")),
    }
}

fn run_all<R: Files + Env + Print + Alloc<A = Global> + Clone + Drop>(
    rt: &R,
    alloc: Global,
) -> io::Result<ExitCode> {
    let mut report = Report::new();
    for path in paths(rt, alloc, &FOLDERS)?.iter() {
        run(rt, alloc, path.as_str(), &mut report)?;
    }
    report.end(rt)
}

fn main(rt: HostRuntime) -> ExitCode {
    laws_of_requests();
    laws_of_expressions();
    laws_of_records();
    laws_of_histories();
    // the laws of a store and of what it is served by
    one_view();
    answers_are_runs();
    if check_files(&rt).is_err() {
        return ExitCode::from(3);
    }
    run_all(&rt, rt.alloc()).unwrap_or(ExitCode::from(2))
}
