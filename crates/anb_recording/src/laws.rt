//! A law of recorded transcripts.
ghost use Rattle.anb_recording.specs.Laws.{WrittenLinesAreRead};

/// Law: what is recorded is read as the lines that were recorded.
pub fn written_lines_are_read()
    ensures { WrittenLinesAreRead }
{}
