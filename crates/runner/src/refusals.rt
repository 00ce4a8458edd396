//! The bodies that take no memory, and what is told of faults.

use api::{ServeFault, fault_body};
use cases::{Wrong, first_word, shown, text};
use durable::{CreateFault, Damage, Fault, UpgradeFault};
use httpmsg::MessageFault;
use requests::Reply;
use rowcases::fault_word;
use std::alloc::Global;
use std::fmt::Display;

const FAULTS: [MessageFault; 9] = [
    MessageFault::Malformed,
    MessageFault::Version,
    MessageFault::TooManyFields,
    MessageFault::TransferCoding,
    MessageFault::Host,
    MessageFault::ContentLength,
    MessageFault::BodyTooLarge,
    MessageFault::Expectation,
    MessageFault::Target,
];

// The body of a message's fault; of another word none.
fn body_of_fault(word: &str) -> &'static str {
    let mut body = "";
    for fault in &FAULTS {
        if fault_word(*fault) == word {
            body = fault_body(*fault);
        }
    }
    body
}

/// `at-hand WORD`: the body that takes no memory, of `memory`, of `storage` or of a message's fault.
pub fn at_hand(alloc: Global, word: &str) -> Result<String, Wrong> {
    let body = match word {
        "memory" => Reply::out_of_memory_body(),
        "storage" => Reply::storage_failed_body(),
        _ => body_of_fault(word),
    };
    if body.is_empty() {
        return Err(Wrong::Told("no such fault of a message"));
    }
    text(alloc, body)
}

fn damage(word: &str) -> Option<Damage> {
    match word {
        "header" => Some(Damage::Header),
        "root" => Some(Damage::Root),
        "page" => Some(Damage::Page),
        "entry" => Some(Damage::Entry),
        "plan" => Some(Damage::Plan),
        "log" => Some(Damage::Log),
        _ => None,
    }
}

fn opening_fault(word: &str) -> Option<Fault> {
    match word {
        "device" => Some(Fault::Device),
        "memory" => Some(Fault::Memory),
        "exhausted" => Some(Fault::Exhausted),
        "failed" => Some(Fault::Failed),
        _ => Some(Fault::Damaged(damage(word)?)),
    }
}

fn upgrade_fault(word: &str) -> Option<UpgradeFault> {
    match word {
        "device" => Some(UpgradeFault::Device),
        "memory" => Some(UpgradeFault::Memory),
        "failed" => Some(UpgradeFault::Failed),
        "objects" => Some(UpgradeFault::TooManyObjects),
        "revision" => Some(UpgradeFault::RevisionExhausted),
        "upgraded" => Some(UpgradeFault::NotOld),
        _ => Some(UpgradeFault::Damaged(damage(word)?)),
    }
}

fn create_fault(word: &str) -> Option<CreateFault> {
    match word {
        "device" => Some(CreateFault::Device),
        "not empty" => Some(CreateFault::NotEmpty),
        _ => None,
    }
}

fn connection_fault(word: &str) -> Option<ServeFault> {
    match word {
        "read" => Some(ServeFault::Read),
        "write" => Some(ServeFault::Write),
        "device" => Some(ServeFault::Device),
        "memory" => Some(ServeFault::Memory),
        "failed" => Some(ServeFault::Failed),
        _ => Some(ServeFault::Damaged(damage(word)?)),
    }
}

// What people are told of a fault, if there is such a one.
fn told<E: Display + Drop>(alloc: Global, fault: Option<E>) -> Result<String, Wrong> {
    match fault {
        Some(fault) => shown(alloc, &fault),
        None => Err(Wrong::Told("no such fault")),
    }
}

/// `fault opening WORD`, `fault upgrade WORD`, `fault create WORD`, `fault connection WORD`: what people are told of it.
pub fn fault(alloc: Global, words: &str) -> Result<String, Wrong> {
    match first_word(words) {
        ("opening", word) => told(alloc, opening_fault(word)),
        ("upgrade", word) => told(alloc, upgrade_fault(word)),
        ("create", word) => told(alloc, create_fault(word)),
        ("connection", word) => told(alloc, connection_fault(word)),
        _ => Err(Wrong::Told("no such fault")),
    }
}
