//! Laws of participants as they are written.
ghost use Rattle.anb_chart.specs.Laws.{ParticipantsAreNoWords, ParticipantsAreToldApart};

/// A law: no participant is written as a word that Mermaid keeps for itself.
pub fn participants_are_no_words()
    ensures { ParticipantsAreNoWords }
{}

/// A law: participants with different names are written differently.
pub fn participants_are_told_apart()
    ensures { ParticipantsAreToldApart }
{}
