//! What was read of a role file.
ghost use Rattle.std.specs.Prelude.{◌≡◌, IfOk};
ghost use Rattle.anb_text.specs.Stages.{no_code, stage_after};

use crate::lines::{Line, Version};
use anb_base::{NoMemory, Suite, Text};
use anb_code::RawCode;
use std::alloc::Global;

/// What was read of a role file.
#[derive(Debug, Drop)]
pub(crate) enum Stage {
    Start,
    Version(Version),
    Protocol(Version, Text),
    /// The protocol and the role of a file of version 2.
    Role(Text, Text),
    /// The lines before the formats, and formats.
    Formats(Version, RawCode),
    /// The lines up to `code`, and instructions.
    Code(Version, RawCode),
    /// A whole role file.
    End(Version, RawCode),
}

/// What was read with one line more, where it is in the grammar there.
pub(crate) fn stage_after(
    alloc: Global,
    stage: Stage,
    line: Line,
) -> Result<Option<Stage>, NoMemory>
    ensures { IfOk result (λ r. r ≡ stage_after stage line) }
{
    match (stage, line) {
        (Stage::Start, Line::Version(version)) => Ok(Some(Stage::Version(version))),
        (Stage::Version(version), Line::Protocol(name)) => Ok(Some(Stage::Protocol(version, name))),
        (Stage::Protocol(Version::One, protocol), Line::Role(role)) => Ok(Some(Stage::Formats(
            Version::One,
            no_code(alloc, protocol, role, Suite::One),
        ))),
        (Stage::Protocol(Version::Two, protocol), Line::Role(role)) => {
            Ok(Some(Stage::Role(protocol, role)))
        }
        (Stage::Role(protocol, role), Line::Suite(suite)) => Ok(Some(Stage::Formats(
            Version::Two,
            no_code(alloc, protocol, role, suite),
        ))),
        (Stage::Formats(version, mut raw), Line::Format(format)) => {
            raw.formats.push(format)?;
            Ok(Some(Stage::Formats(version, raw)))
        }
        (Stage::Formats(version, raw), Line::Code) => Ok(Some(Stage::Code(version, raw))),
        (Stage::Code(version, mut raw), Line::Instr(instr)) => {
            raw.code.push(instr)?;
            Ok(Some(Stage::Code(version, raw)))
        }
        (Stage::Code(version, raw), Line::End) => Ok(Some(Stage::End(version, raw))),
        _ => Ok(None),
    }
}

/// A code with these names, and nothing else so far.
fn no_code(alloc: Global, protocol: Text, role: Text, suite: Suite) -> RawCode
    ensures { result ≡ no_code protocol role suite }
{
    RawCode {
        protocol,
        role,
        suite,
        formats: Vec::new(alloc),
        code: Vec::new(alloc),
    }
}
