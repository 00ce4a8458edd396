//! Lines on cores: the stores of logs, under limits of their own, and what requests are answered by.

ghost use Rattle.std.specs.Prelude.{IfOk};
ghost use Rattle.holdings.specs.Prepared.{HasRoomFor};

use crate::sent::message;
use crate::streams::routed_first;
use crate::texts::parted;
use apicore::{Prepared, prepare};
use cases::{Wrong, first_word, numbered};
use decoded::Core;
use diskcases::Line;
use holdings::Nothing;
use names::{Format, Rules};
use recovery::{RecoveryFault, redone};
use routes::{Routed, Routes};
use std::alloc::Global;

// The limits in front of a line: `first`, those of the first format, or the events of the window, the bytes of a text, the objects, and the greatest
// revision.
fn rules_of(line: &mut Line<'_>) -> Rules {
    let rules = Format::First.rules(0);
    let word = line.word();
    if word == "first" {
        return rules;
    }
    Rules {
        format: Format::First,
        window_events: line.number_of(word) as usize,
        text_limit_bytes: line.number() as usize,
        object_limit: line.number() as usize,
        greatest_revision: line.number(),
        floor: 0,
    }
}

// This many payloads, in whose spelling a number of six digits, from 100001 on, stands for `%`.
fn numbered_log(alloc: Global, count: u64, spelled: &str, line: &mut Line<'_>) -> Vec<Vec<u8>> {
    let mut log = Vec::new(alloc);
    for number in 1..=count {
        match numbered(alloc, spelled, "%", number.saturating_add(100_000)) {
            Ok(text) => {
                let payload = line.payload(alloc, text.as_str());
                if log.push(payload).is_err() {
                    line.fail(Wrong::Memory);
                }
            }
            Err(wrong) => line.fail(wrong),
        }
    }
    log
}

// The payloads of the log that the rest spells: `PAYLOAD ; ..`, or `times N PAYLOAD`.
fn log_of(alloc: Global, line: &mut Line<'_>) -> Vec<Vec<u8>> {
    match line.rest.strip_prefix("times ") {
        Some(rest) => {
            let (count, spelled) = first_word(rest);
            let count = line.number_of(count);
            numbered_log(alloc, count, spelled, line)
        }
        None => line.payloads(alloc),
    }
}

// The store of the log that the rest spells.
fn store(alloc: Global, rules: Rules, line: &mut Line<'_>) -> Result<Core, RecoveryFault> {
    let log = log_of(alloc, line);
    match Core::over(alloc, rules, 1, 0) {
        Ok(empty) => redone(alloc, empty, &log),
        Err(_) => Err(RecoveryFault::Memory),
    }
}

// The revision of a store, and its number of objects.
fn show_counts(core: &Core, line: &mut Line<'_>) {
    line.show(&core.revision());
    line.show(&core.object_count());
}

/// `redo LIMITS PAYLOAD ; ..`: the revision and the number of objects of the store.
pub fn redo(alloc: Global, line: &mut Line<'_>) {
    let rules = rules_of(line);
    match store(alloc, rules, line) {
        Ok(core) => show_counts(&core, line),
        Err(fault) => line.show(&fault),
    }
}

// What a message asks of a store of this format.
fn routed(alloc: Global, routes: &Routes, format: Format, text: &str) -> Result<Routed, Wrong> {
    let sent = message(alloc, text)?;
    routed_first(alloc, routes, format, sent.as_str())
}

// The step that a message asks for. Its request is dropped here, and so in no function that drops the step too.
fn step(core: &mut Core, alloc: Global, routes: &Routes, text: &str) -> Result<Prepared, Wrong>
    ensures { IfOk result (λ p. HasRoomFor core.new p.write) }
{
    let routed = routed(alloc, routes, core.rules().format, text)?;
    let prepared = prepare(core, alloc, &mut Nothing, &routed.request);
    drop(routed);
    match prepared {
        Ok(prepared) => Ok(prepared),
        Err(_) => Err(Wrong::Memory),
    }
}

// Takes the step that a message asks for, and shows the code and the body of its reply.
fn answer(core: &mut Core, alloc: Global, routes: &Routes, text: &str, line: &mut Line<'_>) {
    match step(core, alloc, routes, text) {
        Ok(prepared) => {
            core.take(prepared.write);
            line.show(&prepared.reply.code());
            line.answer.word(prepared.reply.body());
        }
        Err(wrong) => line.fail(wrong),
    }
}

fn answer_all(core: &mut Core, alloc: Global, asked: &str, line: &mut Line<'_>) {
    let Ok(routes) = Routes::new(alloc) else {
        return line.fail(Wrong::Memory);
    };
    let mut between = "";
    for text in &line.parts(alloc, asked, " | ") {
        line.answer.word(between);
        between = "|";
        answer(core, alloc, &routes, text, line);
    }
}

/// `answered LIMITS PAYLOAD ; .. | METHOD TARGET [BODY] | ..`: the codes and the bodies that these messages are answered by, in turn, over the store of a log.
pub fn answered(alloc: Global, line: &mut Line<'_>) {
    let rules = rules_of(line);
    let (log, asked) = parted(line.rest, "| ");
    line.rest = log.trim_end();
    match store(alloc, rules, line) {
        Ok(mut core) => answer_all(&mut core, alloc, asked, line),
        Err(_) => line.refuse("there is no store"),
    }
}
