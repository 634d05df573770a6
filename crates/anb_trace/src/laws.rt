//! What holds of traces.
ghost use Rattle.anb_trace.specs.Laws.{InnermostIsOne, InnermostStaysClosed, MisfitsAreExact, TracesTellRuns};

/// Law: a trace tells the code's run: each message and each arrival with its bytes, and how it ends.
pub fn traces_tell_runs()
    ensures { TracesTellRuns }
{}

/// Law: the innermost difference of two values that differ is one.
pub fn innermost_is_one()
    ensures { InnermostIsOne }
{}

/// Law: not both sides of the innermost difference open.
pub fn innermost_stays_closed()
    ensures { InnermostStaysClosed }
{}

/// Law: something isn't right with some bytes exactly where no arguments build them.
pub fn misfits_are_exact()
    ensures { MisfitsAreExact }
{}
