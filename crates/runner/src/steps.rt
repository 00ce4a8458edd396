//! The steps of cases, each an episode of a store's life, and the crashes that end one.

use cases::Wrong;
use device::Pick;
use durable::Episode;
use names::Format;
use routes::Routes;
use rowcases::routed_first;
use std::alloc::{AllocError, Global};

/// A stop at a call of the device, and the crash that follows: what becomes of the sectors that may change, and the length.
#[derive(Clone, Copy)]
pub struct Stop<'a> {
    pub call: u64,
    pub picks: &'a [Pick],
    pub length: u64,
}

// Adds a step by its word, a connection's first message or what stands in place of one: an episode of its own, or to the last of a group.
fn push_step(
    alloc: Global,
    routes: &Routes,
    format: Format,
    word: &str,
    is_group: bool,
    steps: &mut Vec<Episode>,
) -> Result<(), Wrong> {
    if !is_group || steps.is_empty() {
        steps.push(Episode {
            requests: Vec::new(alloc),
            compacts: false,
            stop_on: 0,
            picks: Vec::new(alloc),
            length_sectors: u64::MAX,
        })?;
    }
    let Some(step) = steps.last_mut() else {
        return Ok(());
    };
    match word {
        "compact" => step.compacts = true,
        "open" => {}
        _ => step
            .requests
            .push(routed_first(alloc, routes, format, word)?.request)?,
    }
    Ok(())
}

// Adds a step for each of these words.
fn push_each(
    alloc: Global,
    routes: &Routes,
    format: Format,
    words: &[String],
    after: &[&str],
    is_group: bool,
    steps: &mut Vec<Episode>,
) -> Result<(), Wrong> {
    for word in words {
        push_step(alloc, routes, format, word.as_str(), is_group, steps)?;
    }
    for word in after {
        push_step(alloc, routes, format, word, is_group, steps)?;
    }
    Ok(())
}

/// Adds the steps of a case over a store of this format, and these after them, each an episode, or all in one.
pub fn push_steps(
    alloc: Global,
    format: Format,
    words: &[String],
    after: &[&str],
    is_group: bool,
    steps: &mut Vec<Episode>,
) -> Result<(), Wrong> {
    let routes = Routes::new(alloc)?;
    let pushed = push_each(alloc, &routes, format, words, after, is_group, steps);
    drop(routes);
    pushed
}

/// Stops a step, and crashes; it compacts before, if that is asked.
pub fn stop_step(
    alloc: Global,
    steps: &mut [Episode],
    at: usize,
    stop: Stop<'_>,
    compacts: bool,
) -> Result<(), AllocError> {
    let Some(step) = steps.get_mut(at) else {
        return Ok(());
    };
    step.compacts = step.compacts || compacts;
    step.stop_on = stop.call;
    step.picks = Vec::from_slice(alloc, stop.picks)?;
    step.length_sectors = stop.length;
    Ok(())
}
