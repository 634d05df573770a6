//! The most bytes of each kind of file that a command fetches.
use anb_base::{LARGE_FILE, SMALL_FILE};

/// The most bytes of a file with the key of parked sessions.
pub const KEY_LIMIT: u32 = 65_536;

/// The most bytes of a narration file.
pub const NARRATION_LIMIT: u32 = SMALL_FILE;

/// The most bytes of a file with the record of a parked session.
pub const RECORD_LIMIT: u32 = 134_217_728;

/// The most bytes of a role file.
pub const ROLE_FILE_LIMIT: u32 = LARGE_FILE;

/// The most bytes of a schedule file.
pub const SCHEDULE_LIMIT: u32 = SMALL_FILE;

/// The most bytes of a transcript file.
pub const TRANSCRIPT_LIMIT: u32 = LARGE_FILE;

/// The most bytes of a values file.
pub const VALUES_LIMIT: u32 = SMALL_FILE;
