//! The smallest program over a store: makes one in the new file `store.db`, and answers the HTTP requests on standard input against it.
//!
//! It is what a program that has a store of its own begins with: a device, a store made on it, and a connection that is served. There is no
//! command line. It ends with status 0, or with 1 where a step fails, which is told on standard error.
#![tactic(auto)]

use std::fmt::Display;
use std::process::ExitCode;
use store::{FileStorage, Format, Std, Storage, answer, create, write_all};

const STORE: &str = "store.db";

// Tells why the program ends here.
fn failed<E: Display + Drop>(runtime: &HostRuntime, fault: E) -> ExitCode {
    // If standard error fails or memory is refused there is nowhere to report it.
    if let Ok(line) = format!(in runtime.alloc(); "quickstart: {fault}\n") {
        let _ = write_all(&mut Std::new(runtime.stderr()), line.as_bytes());
    }
    ExitCode::from(1)
}

fn main(rt: HostRuntime) -> ExitCode {
    let mut device = match FileStorage::new(&rt).create(STORE) {
        Ok(device) => device,
        Err(fault) => return failed(&rt, fault),
    };
    if let Err(fault) = create(&mut device, Format::Third) {
        return failed(&rt, fault);
    }
    let mut requests = Std::new(rt.stdin());
    let mut replies = Std::new(rt.stdout());
    match answer(rt.alloc(), device, &mut requests, &mut replies) {
        Ok(_) => ExitCode::from(0),
        Err((fault, _)) => failed(&rt, fault),
    }
}
