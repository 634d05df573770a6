//! What is known of each case's child.

ghost use Rattle.std.specs.Prelude.{◌≡◌, ◌≤◌};
ghost use Rattle.anb_base.specs.Moves.{Rose};
ghost use Rattle.anb_processes.specs.Trials.{fresh_case};

use anb_base::Failed;
use std::marker::Model;

/// How often the calls for a case's child have failed, whether it was silent the last time, and its
/// phase.
#[derive(Drop)]
pub(crate) struct Case {
    pub(crate) reads: u64,
    pub(crate) writes: u64,
    pub(crate) faults: u64,
    pub(crate) silent: bool,
    pub(crate) phase: u8,
}

impl Model for Case {
    ghost use Rattle.anb_processes.specs.Trials as trials;

    ghost Value = { trials.Case };

    ghost view = { λ case. record {
      pipes = record { reads = case.reads; writes = case.writes };
      faults = case.faults;
      silent = case.silent;
      phase = case.phase;
    } };
}

impl Case {
    /// One of which nothing was asked.
    pub(crate) fn fresh() -> Self
        ensures { result ≡ fresh_case }
    {
        Case {
            reads: 0,
            writes: 0,
            faults: 0,
            silent: false,
            phase: 0,
        }
    }

    /// Counts a start or a wait for the end that failed, since the child was silent or not.
    pub(crate) fn fail(&mut self, silent: bool) -> Failed
        ensures rose { Rose self.old.faults self.new.faults }
        ensures never_falls { self.old.faults ≤ self.new.faults }
        ensures silent { self.new.silent ≡ silent }
        ensures pipes { self.new.pipes ≡ self.old.pipes }
        ensures phase { self.new.phase ≡ self.old.phase }
    {
        self.faults = self.faults.saturating_add(1);
        self.silent = silent;
        Failed
    }
}
