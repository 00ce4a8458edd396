//! Repeats a case on new stores, with a stop or a failure at each of some calls of the device.

use crate::compactions::{compaction_failed, compaction_stopped};
use crate::place::NewStores;
use crate::scripts::{probe, push_script_looks, script_failed, script_stopped};
use crate::steps::{Stop, push_steps, stop_step};
use crate::stops::{push_write_looks, writes_stopped};
use crate::upgrades::{push_upgrade_looks, upgrade_failed, upgrade_stopped};
use cases::{WordReader, Wrong, shown};
use device::Pick;
use durable::Episode;
use std::alloc::{AllocError, Global};

// No crash of these devices leaves this many sectors open.
const MOST_PICKS: usize = 80;

// One call more than the probe takes with the compaction that follows, where two pages have objects.
const PROBE_CALLS: u64 = 17;

// What two sectors that one sync leaves open become: both alike, or one of them as it was.
const PICKS: [[Pick; 2]; 10] = [
    [Pick::Old, Pick::Old],
    [Pick::New, Pick::New],
    [Pick::Fill(0xA5), Pick::Fill(0xA5)],
    [Pick::Fill(0), Pick::Fill(0)],
    [Pick::New, Pick::Old],
    [Pick::Fill(0xA5), Pick::Old],
    [Pick::Fill(0), Pick::Old],
    [Pick::Old, Pick::New],
    [Pick::Old, Pick::Fill(0xA5)],
    [Pick::Old, Pick::Fill(0)],
];

// What is tried at a call.
#[derive(Clone, Copy)]
enum Kind {
    // `stops A B`: the writes, on a new store each time, the first in a connection and each of the others in a run of its own, are stopped at each
    // call from the A-th to the B-th, an opening's first being 1, and the device crashes, with each pair of picks and with the least and the greatest
    // length: what is found is what was told, or one write more, which must be always.
    Stops,
    // `group-stops A B`: the same of all writes in one run: what is found is what was told, or all of the next group.
    GroupStops,
    // `compaction-stops A B TIMES`: opens and compacts a new store with these writes, which was compacted this many times before, with such stops: all
    // that was shown before is found, after a second crash too, and after a compaction that follows. Each of the calls must be one of the opening or
    // of the compaction.
    CompactionStops(u64),
    // `compaction-failures A B TIMES`: the same with one call that fails, and no crash before what is found: where the opening does not fail, the
    // compaction must, and then the store is neither compacted nor checked any more.
    CompactionFailures(u64),
    // `upgrade-stops A B TIMES ALONE`: opens and upgrades a new store with these writes, which was compacted this many times before, with a
    // stop at each call from the A-th to the B-th, and crashes: the sectors that may change become all alike, or one of the first this many alone, with
    // the least and the greatest length. What is found is what was shown before, or what the upgraded store shows, the same after a second crash, and
    // the second after an upgrade that follows. Each of the calls must be one of the opening or of the upgrade.
    UpgradeStops { times: u64, alone: u64 },
    // `upgrade-failures A B TIMES`: the same with one call that fails, and no crash before what is found: where the opening does not fail, the upgrade
    // must, and then the store is neither upgraded nor checked any more.
    UpgradeFailures(u64),
    // `script-stops A B ALONE`: takes the steps of this case on a new store, with a stop at each call from the A-th to the B-th, an opening's first
    // being 1, and crashes: the sectors that may change become all alike, or one of the first this many alone, as they were or not, with the least and
    // the greatest length. How often a step met the stop; what is found must be what was told, or that and the step, after a second crash too, and a
    // further stop must leave that, or one write more.
    ScriptStops(u64),
    // `script-failures A B`: the same with one call that fails, and no crash: how many calls a step met.
    ScriptFailures,
}

// What is tried, and what it is tried with.
struct Trial<'a> {
    kind: Kind,
    stores: NewStores,
    writes: &'a [String],
    // the writes, or the steps of a script and those that follow a stop
    steps: Vec<Episode>,
    // what is shown after each of them, where nothing fails
    looks: Vec<String>,
}

// All sectors alike, or only the one of this number, counted from 1.
fn picks_of(alloc: Global, pick: Pick, alone: usize) -> Result<Vec<Pick>, AllocError> {
    let others = if alone == 0 { pick } else { Pick::Old };
    let mut picks = vec![in alloc; others; MOST_PICKS]?;
    if let Some(one) = picks.get_mut(alone.saturating_sub(1)) {
        *one = pick;
    }
    Ok(picks)
}

// Written out, as that of a place is.
impl Drop for Trial<'_> {
    fn drop(self) {
        let Trial {
            kind: _,
            stores: _,
            writes: _,
            steps: _,
            looks: _,
        } = self;
    }
}

impl<'a> Trial<'a> {
    // Gathers the steps, and what is shown after each.
    fn prepare(&mut self, alloc: Global, script: &[String]) -> Result<u64, Wrong> {
        match self.kind {
            Kind::CompactionStops(_) | Kind::CompactionFailures(_) => Ok(0),
            Kind::UpgradeStops { times, alone: _ } | Kind::UpgradeFailures(times) => {
                push_upgrade_looks(alloc, self.stores, self.writes, times, &mut self.looks)
            }
            Kind::Stops | Kind::GroupStops => {
                let is_group = matches!(self.kind, Kind::GroupStops);
                push_steps(
                    alloc,
                    self.stores.format,
                    self.writes,
                    &[],
                    is_group,
                    &mut self.steps,
                )?;
                push_write_looks(alloc, self.stores, self.writes, &mut self.looks)
            }
            Kind::ScriptStops(_) | Kind::ScriptFailures => {
                let format = self.stores.format;
                let after = [probe(format), "open"];
                push_steps(alloc, format, script, &after, false, &mut self.steps)?;
                let (script, _) = self.steps.split_at(self.steps.len().saturating_sub(2));
                push_script_looks(alloc, self.stores, script, &mut self.looks)
            }
        }
    }

    // One stop and one crash: how many hold.
    fn stopped(&self, alloc: Global, stop: Stop<'_>) -> Result<u64, Wrong> {
        match self.kind {
            Kind::CompactionStops(times) => compaction_stopped(
                alloc,
                self.stores,
                self.writes,
                times,
                stop,
            ),
            _ => {
                let is_group = matches!(self.kind, Kind::GroupStops);
                writes_stopped(
                    alloc,
                    self.stores,
                    self.writes,
                    &self.steps,
                    &self.looks,
                    is_group,
                    stop,
                )
            }
        }
    }

    // A stop at a call, and each crash: how many hold.
    fn stops(&self, alloc: Global, call: u64) -> Result<u64, Wrong> {
        let mut held = 0_u64;
        for picks in PICKS {
            for length in [0, u64::MAX] {
                let stop = Stop {
                    call,
                    picks: &picks,
                    length,
                };
                held = held.saturating_add(self.stopped(alloc, stop)?);
            }
        }
        Ok(held)
    }

    // One stop of a script and one crash, and a further stop after it: how many a step met.
    fn script_stopped(&mut self, alloc: Global, stop: Stop<'_>, second: u64) -> Result<u64, Wrong> {
        let at = self.steps.len().saturating_sub(2);
        let further = Stop {
            call: second,
            picks: stop.picks,
            length: stop.length,
        };
        stop_step(alloc, &mut self.steps, at, further, true)?;
        let (script, after) = self.steps.split_at(at);
        script_stopped(alloc, self.stores, script, after, &self.looks, stop)
    }

    // The same with each crash after a stop at a call.
    fn script_stops(&mut self, alloc: Global, call: u64, alone: u64) -> Result<u64, Wrong> {
        let mut met = 0_u64;
        for pick in [Pick::Old, Pick::New, Pick::Fill(0xA5), Pick::Fill(0)] {
            for number in 0..=alone {
                let picks = picks_of(alloc, pick, number as usize)?;
                for length in [0, u64::MAX] {
                    let stop = Stop {
                        call,
                        picks: &picks,
                        length,
                    };
                    let is_met = self.script_stopped(alloc, stop, met % PROBE_CALLS)?;
                    met = met.saturating_add(is_met);
                }
            }
        }
        Ok(met)
    }

    // A stop of an upgrade at a call, and each crash: how many hold.
    fn upgrade_stops(
        &self,
        alloc: Global,
        call: u64,
        times: u64,
        alone: u64,
    ) -> Result<u64, Wrong> {
        let mut held = 0_u64;
        for pick in [Pick::Old, Pick::New, Pick::Fill(0xA5), Pick::Fill(0)] {
            for number in 0..=alone {
                let picks = picks_of(alloc, pick, number as usize)?;
                for length in [0, u64::MAX] {
                    let stop = Stop {
                        call,
                        picks: &picks,
                        length,
                    };
                    held = held.saturating_add(upgrade_stopped(
                        alloc,
                        self.stores,
                        self.writes,
                        times,
                        &self.looks,
                        stop,
                    )?);
                }
            }
        }
        Ok(held)
    }

    // All trials of a call: how many hold, or met the stop or the failure.
    fn at(&mut self, alloc: Global, call: u64) -> Result<u64, Wrong> {
        match self.kind {
            Kind::CompactionFailures(times) => compaction_failed(
                alloc,
                self.stores,
                self.writes,
                times,
                call,
            ),
            Kind::ScriptFailures => {
                let (script, _) = self.steps.split_at(self.steps.len().saturating_sub(2));
                script_failed(alloc, self.stores, script, &self.looks, call)
            }
            Kind::ScriptStops(alone) => self.script_stops(alloc, call, alone),
            Kind::UpgradeStops { times, alone } => self.upgrade_stops(alloc, call, times, alone),
            Kind::UpgradeFailures(times) => {
                upgrade_failed(alloc, self.stores, self.writes, times, &self.looks, call)
            }
            _ => self.stops(alloc, call),
        }
    }
}

/// `WORD A B ..`: tries at each call from the A-th to the B-th what the word says, with the writes or the script of a case: how many trials hold, or
/// met the stop or the failure.
pub fn trials(
    alloc: Global,
    stores: NewStores,
    word: &str,
    writes: &[String],
    script: &[String],
    line: &str,
) -> Result<String, Wrong> {
    let mut words = WordReader::new(line);
    let (first, last) = (words.number(), words.number());
    let kind = match word {
        "stops" => Kind::Stops,
        "group-stops" => Kind::GroupStops,
        "compaction-stops" => Kind::CompactionStops(words.number()),
        "compaction-failures" => Kind::CompactionFailures(words.number()),
        "upgrade-stops" => Kind::UpgradeStops {
            times: words.number(),
            alone: words.number(),
        },
        "upgrade-failures" => Kind::UpgradeFailures(words.number()),
        "script-stops" => Kind::ScriptStops(words.number()),
        _ => Kind::ScriptFailures,
    };
    words.end()?;
    let mut trial = Trial {
        kind,
        stores,
        writes,
        steps: Vec::new(alloc),
        looks: Vec::new(alloc),
    };
    trial.prepare(alloc, script)?;
    let mut count = 0_u64;
    for call in first..=last {
        count = count.saturating_add(trial.at(alloc, call)?);
    }
    shown(alloc, &count)
}
