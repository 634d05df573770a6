//! What commands share: the files that are read, the steps before the wire, and what goes over the
//! wire. The words are those of anb_words, and the ends those of anb_status.
#![tactic(auto)]

mod files;
mod limits;
mod over;
mod playable;
mod prepare;
mod reaching;
mod text;

pub use anb_status::{
    BranchNo, CertifyNo, Due, Halt, NarrationNo, ParkNo, Report, Status, ill_formed, tell,
};
pub use anb_words::{
    BranchWords, CertifyWords, Command, EnactWords, Endpoint, ParkWords, PlayWords, RehearseWords,
    ReplayWords, ResumeWords, RoleText, is_operand, read_seconds,
};
pub use files::{
    code_in_file, fetch_file, narration_in_file, protocol_in_file, protocol_of_narration,
    transcript_in_file, values_in_file,
};
pub use limits::{
    KEY_LIMIT, NARRATION_LIMIT, RECORD_LIMIT, ROLE_FILE_LIMIT, SCHEDULE_LIMIT, TRANSCRIPT_LIMIT,
    VALUES_LIMIT,
};
pub use over::{run_over, status_of};
pub use playable::{
    Playable, codes_of, no_role, playable_in_file, playable_of, role_named, sendable_in_file,
};
pub use prepare::{Prepared, prepare_code, seed_of, texts_of_takes};
pub use reaching::{reach, reach_stdio};
pub use text::{reach_streams, write_text};
