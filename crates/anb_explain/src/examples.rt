//! Worked examples: explanations that were written by hand. Each is a law, a function that does nothing.
ghost use Rattle.anb_explain.specs.Examples.{NeedhamSchroederIsExplained, PingIsExplained};

/// A role that sends a name and compares what comes back.
pub fn ping_is_explained()
    ensures { PingIsExplained }
{}

/// The first role of the protocol of Needham and Schroeder.
pub fn needham_schroeder_is_explained()
    ensures { NeedhamSchroederIsExplained }
{}
