//! Laws of runs, each a function that does nothing.
ghost use Rattle.anb_machine.specs.Laws.{RunsSendWithin};

/// A law: no message of a run is longer than its register's width says, where the initial values
/// and the arrivals are no longer than an arrival may be. So four bytes hold its length.
pub fn runs_send_within()
    ensures { RunsSendWithin }
{}
