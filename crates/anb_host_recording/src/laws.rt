//! Laws of recorded hosts.
ghost use Rattle.anb_host_recording.specs.Laws.{FilesAreOfSessions, LinesAreTranscripts};

/// Law: what is recorded of a session is its transcript, whose replay ends as the session did.
pub fn lines_are_transcripts()
    ensures { LinesAreTranscripts }
{}

/// Law: each started session's lines stand in its file, and no other file is touched.
pub fn files_are_of_sessions()
    ensures { FilesAreOfSessions }
{}
