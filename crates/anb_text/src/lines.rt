//! The lines of a role file.
use anb_base::{Suite, Text};
use anb_code::{RawFormat, RawInstr};

/// The version of a role file. Version 1 has no line for the suite, which is suite One.
#[derive(Clone, Copy, Debug, PartialEq, Eq, Drop)]
pub(crate) enum Version {
    One,
    Two,
}

/// A line of a role file.
#[derive(Debug, Drop)]
pub(crate) enum Line {
    Version(Version),
    Protocol(Text),
    Role(Text),
    Suite(Suite),
    Format(RawFormat),
    Code,
    Instr(RawInstr),
    End,
}
