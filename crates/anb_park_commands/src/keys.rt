//! The key of a session's records.
ghost use Rattle.std.specs.Prelude.{◌≡◌, [], ◌∷◌, IfOk, IfErr};
ghost use Rattle.anb_base.specs.Moves.{Rose};
ghost use Rattle.anb_command.specs.Fetches.{Fetches, IfTold};
ghost use Rattle.anb_command.specs.Reported.{TellsFileFaults};
ghost use Rattle.anb_status.specs.Statuses.{IsEarly};
ghost use Rattle.anb_command.specs.Steps.{IsFailure, refused, given};
ghost use Rattle.anb_park_commands.specs.Keys.{KeyIs};

use anb_base::{Bytes, Shelf, Text};
use anb_command::{KEY_LIMIT, Status, fetch_file};
use anb_park::ParkNo;
use std::alloc::Global;

/// The key in the file. An empty one is refused as a faulty key: whoever failed to write a key would
/// have records that anybody opens.
pub(crate) fn key_in_file<F: Shelf>(
    alloc: Global,
    shelf: &mut F,
    name: &Text,
) -> Result<Bytes, Status>
    ensures given { IfOk result (λ key. IfTold (F.files shelf.old) (λ files.
        KeyIs files name.now (given key))) }
    ensures refused { IfErr result (λ status. IsFailure status
        (λ file. (file ≡ name.now) × Rose (F.faults shelf.old file) (F.faults shelf.new file))
        (IfTold (F.files shelf.old) (λ files. KeyIs files name.now (refused status)))) }
    ensures early { IfErr result IsEarly }
    ensures fetches { Fetches (name.now ∷ [])
        (F.files shelf.old) (F.files shelf.new) (F.faults shelf.old) (F.faults shelf.new) }
    ensures told { TellsFileFaults result (F.faults shelf.old) (F.faults shelf.new) }
{
    match fetch_file(alloc, shelf, name, KEY_LIMIT) {
        Ok(key) if key.as_slice().is_empty() => Err(Status::BadRecord(ParkNo::Damaged)),
        Ok(key) => Ok(key),
        Err(status) => Err(status),
    }
}
