//! The line of a status on the error sink.
ghost use Rattle.std.specs.Prelude.{◌≡◌, ◌≤◌, ◌<◌, ℕ, List, IfSome, OnOk, OnErr};
ghost use Rattle.anb_base.specs.Moves.{Rose, Put, PutPrefix};
ghost use Rattle.anb_status.specs.Lines.{Tells};
ghost use Rattle.anb_status.specs.Pieces.{joined};
ghost use Rattle.anb_status.specs.Statuses.{line_of};

use crate::Status;
use crate::status::Digits;
use anb_base::{Failed, Sink, write_whole};
use arrayvec::ArrayString;

/// The most bytes of a line that goes out in one write.
const LINE: usize = 4096;

/// Writes the line of a status other than Done. A fault of the sink cuts it short. A line of at most
/// 4,096 bytes goes out in one write, so that the lines of programs that share a pipe don't mix.
pub fn tell<E: Sink>(err: &mut E, status: &Status)
    ensures line { Tells (line_of status.now)
        (E.written err.old) (E.written err.new) (E.faults err.old) (E.faults err.new) }
    ensures kept { E.kept err.new ≡ E.kept err.old }
{
    if let Status::Done = status {
        return;
    }
    let mut digits = Digits::new();
    let (a, b, c, d, e, f, g) = status.pieces(&mut digits);
    let _ = write_line(err, &["anb: ", a, b, c, d, e, f, g, "\n"]);
}

/// Writes the pieces one after another, at once where they aren't too many bytes.
fn write_line<E: Sink>(err: &mut E, pieces: &[&str]) -> Result<(), Failed>
    ensures put { OnOk result (Put (E.written err.old) (E.written err.new) (joined pieces.now)) }
    ensures failed { OnErr result
        (PutPrefix (E.written err.old) (E.written err.new) (joined pieces.now)) }
    ensures cause { OnErr result (Rose (E.faults err.old) (E.faults err.new)) }
    ensures never_falls { E.faults err.old ≤ E.faults err.new }
    ensures kept { E.kept err.new ≡ E.kept err.old }
{
    match whole(pieces) {
        Some(line) => write_whole(err, line.as_bytes()),
        None => write_pieces(err, pieces),
    }
}

/// The pieces in one text, where they aren't too many bytes.
fn whole(pieces: &[&str]) -> Option<ArrayString<LINE>>
    ensures { IfSome result (λ line. line.bytes ≡ joined pieces.now) }
{
    let mut line = ArrayString::new();
    for piece in pieces {
        let Ok(()) = line.try_push_str(piece) else {
            return None;
        };
    }
    Some(line)
}

/// Writes the pieces one after another.
fn write_pieces<E: Sink>(err: &mut E, pieces: &[&str]) -> Result<(), Failed>
    ensures put { OnOk result (Put (E.written err.old) (E.written err.new) (joined pieces.now)) }
    ensures failed { OnErr result
        (PutPrefix (E.written err.old) (E.written err.new) (joined pieces.now)) }
    ensures cause { OnErr result (Rose (E.faults err.old) (E.faults err.new)) }
    ensures never_falls { E.faults err.old ≤ E.faults err.new }
    ensures kept { E.kept err.new ≡ E.kept err.old }
{
    for piece in pieces {
        write_whole(err, piece.as_bytes())?;
    }
    Ok(())
}
