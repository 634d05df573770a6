//! Lines are strings of bytes.
ghost use Rattle.std.specs.Prelude.{◌≡◌, map};
ghost use Rattle.std.specs.List.{AllByRecursion};
ghost use Rattle.anb_base.specs.Bytes.{IsBytes};
ghost use Rattle.anb_judge.specs.Verdicts.{line_bytes};

use anb_transcript::TranscriptLine;

/// A law: each of these lines is a string of bytes.
pub(crate) fn lines_are_bytes(lines: &[TranscriptLine])
    ensures { AllByRecursion IsBytes (map line_bytes lines.now) }
{
    for line in lines {
        are_bytes(bytes_of(line));
    }
}

/// The bytes of a line.
fn bytes_of(line: &TranscriptLine) -> &[u8]
    ensures { result.now ≡ line_bytes line.now }
{
    match line {
        TranscriptLine::In(arrival) => arrival.as_slice(),
        TranscriptLine::Out(message) => message.as_slice(),
    }
}

/// A law: a slice of bytes is a string of bytes.
fn are_bytes(bytes: &[u8])
    ensures { IsBytes bytes.now }
{
    let _ = bytes;
}
