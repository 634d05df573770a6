//! The program: it hands its words, the files, the store, the wire, standard error and the child
//! programs of the machine to `run_staging`, and ends with the number of the status.
#![tactic(auto)]

use anb_base::Text;
use anb_command::tell;
use anb_probe_commands::ProbeWords;
use anb_processes::{RealSpawner, RealTrials, child_program};
use anb_real::{
    RealShelf, RealStore, RealWire, StandardError, fill_standard_descriptors, seed, words,
};
use anb_run::{Status, run_staging};
use anb_stage_commands::StageRecordWords;
use std::process::ExitCode;

fn main(rt: HostRuntime) -> ExitCode {
    fill_standard_descriptors(&rt);
    ExitCode::from(status(rt, 1).number())
}

/// Runs the words behind the first ones, of which there are so many.
fn status(rt: HostRuntime, skipped: usize) -> Status {
    let mut err = StandardError::new(rt);
    let Ok(words) = words(rt, skipped) else {
        tell(&mut err, &Status::NoMemory);
        err.finish();
        return Status::NoMemory;
    };
    let mut shelf = RealShelf::new(rt);
    let mut spawner = RealSpawner::new(rt, child_program(rt));
    let mut store = RealStore::new(rt);
    let mut trials = RealTrials::new(rt);
    let mut wire = RealWire::new(rt);
    if parks(&words) {
        wire.end_at_silence();
    }
    if let Some(words) = StageRecordWords::read(&words) {
        spawner.record_in(words.folder);
    }
    if let Some(words) = ProbeWords::read(&words)
        && let Some(folder) = words.trying.folder
    {
        trials.record_in(folder);
    }
    let status = run_staging(
        rt.alloc(),
        &words,
        &mut shelf,
        &mut spawner,
        &mut store,
        &mut trials,
        &mut wire,
        &mut err,
        seed(rt),
    );
    if blames(&status) {
        spawner.blame();
    }
    // The children end before the line is told, so one that can't be written leaves none behind.
    spawner.end();
    trials.end();
    err.finish();
    wire.finish();
    status
}

/// Whether a stage ended so for what a child did.
fn blames(status: &Status) -> bool {
    matches!(status.number(), 31..=35 | 37)
}

/// Whether a role that waits for a silent peer is to be parked.
fn parks(words: &[Text]) -> bool {
    match words {
        [command, ..] => matches!(command.as_str(), "park" | "resume"),
        [] => false,
    }
}

#[cfg(test)]
mod tests;
