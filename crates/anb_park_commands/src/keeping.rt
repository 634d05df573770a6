//! The file of a record that doesn't go over the wire.
ghost use Rattle.anb_park_commands.specs.Going.{Stores, StoresOr};

use crate::ended::Ended;
use anb_base::{NoMemory, Text};
use anb_command::Status;
use anb_store::{Store, StoreNo};
use std::alloc::Global;

/// Keeps the record that was handed out, where there is one, in its file. The messages are written
/// by then.
pub(crate) fn keep_in_file<S: Store>(
    alloc: Global,
    store: &mut S,
    file: &Text,
    ended: Ended,
) -> Status
    ensures { Stores file.now ended.record ended.status (S.state store.old) (S.state store.new)
        result }
{
    let Ended { status, record } = ended;
    match record {
        None => status,
        Some(record) => fault_of(alloc, store, file, record.as_slice()).unwrap_or(status),
    }
}

/// Why the record isn't kept, where it isn't.
fn fault_of<S: Store>(alloc: Global, store: &mut S, file: &Text, record: &[u8]) -> Option<Status>
    ensures { StoresOr file.now record.now (S.state store.old) (S.state store.new) result }
{
    let name = match file.copy(alloc) {
        Ok(name) => name,
        Err(NoMemory) => return Some(Status::NoMemory),
    };
    match store.replace(alloc, file.as_str(), record) {
        Ok(()) => None,
        Err(StoreNo::Failed) => Some(Status::Unwritten(name)),
        Err(StoreNo::NoMemory) => Some(Status::NoMemory),
    }
}
