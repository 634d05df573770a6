//! A line of a transcript.

ghost use Rattle.std.specs.Prelude.{◌≡◌, IfOk};
ghost use Rattle.anb_recording.specs.Lines.{spelled};

use anb_base::{Bytes, NoMemory};
use std::alloc::Global;

/// The line with this sign and the digits of these bytes.
pub fn line_of(alloc: Global, sign: u8, bytes: &[u8]) -> Result<Bytes, NoMemory>
    ensures { IfOk result (λ line. line ≡ spelled sign bytes.now) }
{
    let digits = hex::encode(alloc, bytes)?;
    let mut line = Vec::new(alloc);
    line.push(sign)?;
    line.push(b' ')?;
    line.extend_from_slice(digits.as_bytes())?;
    line.push(b'\n')?;
    Ok(Bytes::new(line))
}
