//! Children in memory, which tell all that they hold.

ghost use Rattle.std.specs.Prelude.{◌≡◌, ◌<◌, ◌≤◌, ◌++◌, ℕ, [], ◌∷◌, length, true, Some, None, IfOk, OnOk, IfSome};
ghost use Rattle.anb_base.specs.Moves.{Rose};
ghost use Rattle.anb_stage.specs.Children.{limit_word, lines};
ghost use Rattle.anb_partner.specs.Memory.{fresh_trials, trial_at, trials_of};
ghost use Rattle.anb_partner.specs.Trials.{asked_words, target_words};

use crate::{ChildEnd, Target, Trials};
use anb_base::{Failed, MemWire, NoMemory, Text};
use itoa::Buffer;
use std::alloc::Global;
use std::marker::Model;

/// A child, with its pipes while it doesn't run.
#[derive(Debug, Drop)]
pub(crate) struct MemTrial {
    wire: Option<MemWire>,
    end: ChildEnd,
    asked: Vec<u8>,
    faults: u64,
    silent: bool,
    phase: u8,
}

impl Model for MemTrial {
    ghost use Rattle.anb_partner.specs.Memory.{MemoryTrial};

    ghost Value = { MemoryTrial };

    ghost view = { λ t. record {
      wire = t.wire;
      end = t.end;
      asked = t.asked.items;
      faults = t.faults;
      silent = t.silent;
      phase = t.phase;
    } };
}

impl MemTrial {
    /// Counts a call that failed, by silence or not.
    fn fail(&mut self, silent: bool) -> Failed
        ensures rose { Rose self.old.faults self.new.faults }
        ensures never_falls { self.old.faults ≤ self.new.faults }
        ensures silent { self.new.silent ≡ silent }
        ensures wire { self.new.wire ≡ self.old.wire }
        ensures end { self.new.end ≡ self.old.end }
        ensures asked { self.new.asked ≡ self.old.asked }
        ensures phase { self.new.phase ≡ self.old.phase }
    {
        self.faults = self.faults.saturating_add(1);
        self.silent = silent;
        Failed
    }
}

/// Children in memory, one a case. The pipes and the end of each stand from the start, and starts and
/// finishes fail by their numbers, which count both. Starting a case without a child is always a fault.
#[derive(Debug, Drop)]
pub struct MemTrials {
    alloc: Global,
    trials: Vec<MemTrial>,
    calls: u64,
    fails: Vec<u32>,
    is_silence: bool,
}

impl Model for MemTrials {
    ghost use Rattle.anb_partner.specs.Memory.{MemoryTrials};

    ghost Value = { MemoryTrials };

    ghost view = { λ s. record {
      trials = s.trials.items;
      calls = s.calls;
      fails = s.fails.items;
      is_silence = s.is_silence;
    } };
}

impl MemTrials {
    /// Children that aren't started, one of each wire and its end. The starts and finishes whose numbers
    /// from 1 stand in `fails` answer `Failed`.
    pub fn new(
        alloc: Global,
        wires: Vec<MemWire>,
        ends: Vec<ChildEnd>,
        fails: Vec<u32>,
    ) -> Result<Self, NoMemory>
        requires each { length ends.items ≡ length wires.items }
        ensures fresh { IfOk result (λ trials.
            trials.trials ≡ fresh_trials wires.items ends.items) }
    {
        let mut trials = Vec::new(alloc);
        for wire in wires {
            let end = ends[trials.len()];
            trials.push(MemTrial {
                wire: Some(wire),
                end,
                asked: Vec::new(alloc),
                faults: 0,
                silent: false,
                phase: 0,
            })?;
        }
        Ok(MemTrials {
            alloc,
            trials,
            calls: 0,
            fails,
            is_silence: false,
        })
    }

    /// From now on finishes that fail do so since their child is silent.
    pub fn fall_silent(&mut self)
        ensures { self.new ≡ record self.old { is_silence = true } }
    {
        self.is_silence = true;
    }

    /// How many cases have a child.
    pub fn cases(&self) -> usize
        ensures { result ≡ length self.now.trials }
    {
        self.trials.len()
    }

    /// The pipes of a case's child, where it doesn't run.
    pub fn wire(&self, case: u32) -> Option<&MemWire>
        requires { case < length self.now.trials }
        ensures some { IfSome result (λ wire. (trial_at self.now case).wire ≡ Some wire.now) }
    {
        self.trials[case as usize].wire.as_ref()
    }

    /// What was asked of a case's child: the limit, which is empty where there is none, and behind it
    /// `--` and a program's words, or `--dial` and a place; each with a line feed.
    pub fn asked(&self, case: u32) -> &[u8]
        requires { case < length self.now.trials }
        ensures { result.now ≡ (trial_at self.now case).asked }
    {
        &self.trials[case as usize].asked
    }

    /// Counts the call that comes now, and says whether it fails.
    fn next_fails(&mut self) -> bool
        ensures trials { self.new.trials ≡ self.old.trials }
        ensures silence { self.new.is_silence ≡ self.old.is_silence }
    {
        self.calls = self.calls.saturating_add(1);
        let number = self.calls;
        self.fails.iter().any(|fails| u64::from(*fails) == number)
    }
}

/// What was asked so far, and the limit and what is tried, each word with a line feed.
fn asked_too(
    alloc: Global,
    asked: &[u8],
    limit: Option<u32>,
    target: Target,
) -> Result<Vec<u8>, NoMemory>
    ensures { IfOk result (λ all.
        all.items ≡ asked.now ++ lines (asked_words limit target.entry)) }
{
    let mut digits = Buffer::new();
    let mut all = Vec::from_slice(alloc, asked)?;
    put_line(&mut all, text_of(&mut digits, limit))?;
    put_target(&mut all, target)?;
    Ok(all)
}

/// Appends what is tried, each word with a line feed.
fn put_target(all: &mut Vec<u8>, target: Target) -> Result<(), NoMemory>
    ensures { OnOk result (all.new.items ≡ all.old.items ++ lines (target_words target.entry)) }
{
    match target {
        Target::Program(words) => {
            put_line(all, "--")?;
            put_lines(all, words)
        }
        Target::Dial(place) => {
            put_line(all, "--dial")?;
            put_line(all, place.as_str())
        }
    }
}

/// Appends words, each with a line feed.
fn put_lines(all: &mut Vec<u8>, words: &[Text]) -> Result<(), NoMemory>
    ensures { OnOk result (all.new.items ≡ all.old.items ++ lines words.now) }
{
    for word in words {
        put_line(all, word.as_str())?;
    }
    Ok(())
}

/// Appends a word with a line feed.
fn put_line(all: &mut Vec<u8>, word: &str) -> Result<(), NoMemory>
    ensures { OnOk result (all.new.items ≡ all.old.items ++ word.now ++ 10 ∷ []) }
{
    all.extend_from_slice(word.as_bytes())?;
    all.push(b'\n')?;
    Ok(())
}

/// The limit as it is asked.
fn text_of(digits: &mut Buffer, limit: Option<u32>) -> &str
    ensures { result.now ≡ limit_word limit }
{
    match limit {
        Some(seconds) => digits.format(seconds),
        None => "",
    }
}

impl Trials for MemTrials {
    type Child = MemWire;

    ghost trial = { trials_of };

    fn start(&mut self, case: u32, limit: Option<u32>, target: Target) -> Result<MemWire, Failed> {
        let fails = self.next_fails();
        let alloc = self.alloc;
        if case as usize >= self.trials.len() {
            return Err(Failed);
        }
        let trial = &mut self.trials[case as usize];
        if fails {
            return Err(trial.fail(false));
        }
        let Ok(asked) = asked_too(alloc, &trial.asked, limit, target) else {
            return Err(trial.fail(false));
        };
        let Some(wire) = trial.wire.take() else {
            return Err(trial.fail(false));
        };
        trial.asked = asked;
        trial.phase = 1;
        Ok(wire)
    }

    fn close(&mut self, _child: &mut MemWire) {}

    fn finish(&mut self, case: u32, child: MemWire) -> Result<ChildEnd, Failed> {
        let fails = self.next_fails();
        let silent = self.is_silence;
        let trial = &mut self.trials[case as usize];
        trial.wire = Some(child);
        trial.phase = 2;
        if fails {
            return Err(trial.fail(silent));
        }
        Ok(trial.end)
    }

    fn was_silent(&self, case: u32) -> bool {
        if case as usize >= self.trials.len() {
            return false;
        }
        self.trials[case as usize].silent
    }
}
