//! Worked examples: charts that were written by hand. Each is a law, a function that does nothing.
ghost use Rattle.anb_chart.specs.Examples.{EndingIsCharted, MutualIsCharted};

/// A mutual authentication has roles, notes and arrows.
pub fn mutual_is_charted()
    ensures { MutualIsCharted }
{}

/// A role whose name is a word of Mermaid's is escaped.
pub fn ending_is_charted()
    ensures { EndingIsCharted }
{}
