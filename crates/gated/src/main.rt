//! The program `gated`: makes a store in a file, and answers requests against it.
//!
//! ```text
//! gated create store.db
//! gated replay store.db < requests.http
//! gated serve store.db --listen 127.0.0.1:8080
//! ```
//!
//! It ends with status 0 on success, 2 for a command line that it does not know, and for help; 3 where there is no store, or a
//! damaged one; 4 where a device, the input or the output failed; 5 when out of memory. Faults are told on standard error, with the cause in a second line where
//! it is known.
#![tactic(auto)]

mod checking;
mod command;
mod listening;
mod opening;
mod places;
mod problem;
mod program;
mod progress;
mod status;
mod words;

use crate::places::take_places;
use crate::problem::tell;
use crate::program::program;
use crate::status::Status;
use crate::words::words;
use std::io::{IsTerminal, Stderr};
use std::process::ExitCode;
use store::{FileStorage, Std};

// Where it is shown how far a compaction, or an upgrade, is: on standard error where that is a terminal, and nowhere else.
fn terminal(runtime: &HostRuntime) -> Option<Std<Stderr>> {
    let errors = runtime.stderr();
    if errors.is_terminal() {
        Some(Std::new(errors))
    } else {
        None
    }
}

// Does what the words ask.
fn run(runtime: &HostRuntime) -> Status {
    let mut errors = Std::new(runtime.stderr());
    let _places = match take_places(runtime) {
        Ok(places) => places,
        Err(problem) => return tell(problem, None, &mut errors),
    };
    match words(runtime) {
        Ok(words) => program(
            &FileStorage::new(runtime),
            runtime,
            runtime.alloc(),
            &words,
            &mut Std::new(runtime.stdin()),
            &mut Std::new(runtime.stdout()),
            &mut errors,
            terminal(runtime),
            &mut Std::new(runtime.stderr()),
        ),
        Err(problem) => tell(problem, None, &mut errors),
    }
}

fn main(rt: HostRuntime) -> ExitCode {
    ExitCode::from(run(&rt).code())
}
