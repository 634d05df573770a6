//! Writing lines to a wire that was reached.
ghost use Rattle.std.specs.Prelude.{◌≡◌, ℕ, List, IfOk, IfErr, OnOk};
ghost use Rattle.anb_text.specs.Writing.{IsWritten};
ghost use Rattle.anb_command.specs.OverWire.{OnlyWrites};
ghost use Rattle.anb_probe_commands.specs.Playing.{BrokeIn, Wrote, no_of};

use anb_base::{NoMemory, Wire};
use anb_text::{WriteNo, write_part};

/// Why not all cases were played.
#[derive(Clone, Copy, Debug, PartialEq, Eq, Drop)]
pub(crate) enum PlayNo {
    /// A child couldn't be started.
    NotStarted,
    /// Writing a line failed.
    Failed,
    NoMemory,
}

/// Writes lines, where there was memory to make them.
pub(crate) fn write_lines<W: Wire>(
    wire: &mut W,
    lines: Result<Vec<u8>, NoMemory>,
) -> Result<(), PlayNo>
    ensures wrote { (text : List ℕ) → IfOk lines (λ bytes. bytes.items ≡ text)
        → OnOk result (Wrote (W.state wire.old) (W.state wire.new) text) }
    ensures broke { (text : List ℕ) → IfOk lines (λ bytes. bytes.items ≡ text)
        → IfErr result (BrokeIn text (W.state wire.old) (W.state wire.new)) }
{
    match write_now(wire, lines) {
        Ok(()) => Ok(()),
        Err(no) => Err(no_of(no)),
    }
}

/// Why they weren't, where writing them ended so.
fn no_of(no: WriteNo) -> PlayNo
    ensures { result ≡ no_of no }
{
    match no {
        WriteNo::Failed => PlayNo::Failed,
        WriteNo::NoMemory => PlayNo::NoMemory,
    }
}

fn write_now<W: Wire>(wire: &mut W, lines: Result<Vec<u8>, NoMemory>) -> Result<(), WriteNo>
    ensures writes { (text : List ℕ) → IfOk lines (λ bytes. bytes.items ≡ text)
        → IsWritten text result (W.state wire.old).written (W.state wire.new).written
        (W.state wire.old).write_faults (W.state wire.new).write_faults }
    ensures only { OnlyWrites (W.state wire.old) (W.state wire.new) }
{
    write_part(wire, lines)
}
