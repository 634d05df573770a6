//! How a session over a wire ended, and where its record goes.

use anb_base::Bytes;
use anb_command::Status;

/// Where the record of a session that is parked goes.
#[derive(Clone, Copy, Debug, PartialEq, Eq, Drop)]
pub enum RecordWay {
    /// Over the wire, in a frame of its own after the messages.
    ByWire,
    /// To a file, and not over the wire.
    ToFile,
}

/// How a session ended, and its record where it is parked and the record goes to a file.
#[derive(Drop)]
pub(crate) struct Ended {
    pub(crate) status: Status,
    pub(crate) record: Option<Bytes>,
}
