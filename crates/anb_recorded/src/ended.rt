//! How a command that makes a recording ended, and the status that is told.
ghost use Rattle.std.specs.Prelude.{◌≡◌, if◌then◌else◌};
ghost use Rattle.anb_status.specs.Statuses.{is_fault};
ghost use Rattle.anb_recorded.specs.Outcomes.{told_as};

use anb_base::Text;
use anb_command::Status;

/// What is missing of a recording.
#[derive(Drop)]
pub enum Missing {
    Nothing,
    /// This file couldn't be written.
    Unwritten(Text),
    NoMemory,
    /// This file was there, so nothing was played.
    There(Text),
}

/// How the command ended by itself, and what is missing of its recording.
#[derive(Drop)]
pub struct Ended {
    pub status: Status,
    pub missing: Missing,
}

impl Ended {
    /// The status that is told.
    pub fn told(self) -> Status
        ensures { result ≡ told_as self.status self.missing }
    {
        let Ended { status, missing } = self;
        match missing {
            Missing::Nothing => status,
            Missing::There(name) => Status::Unwritten(name),
            Missing::Unwritten(name) => in_place_of(status, Status::Unwritten(name)),
            Missing::NoMemory => in_place_of(status, Status::NoMemory),
        }
    }
}

/// The end, where it is a fault of its own, and else the other status.
fn in_place_of(end: Status, other: Status) -> Status
    ensures { result ≡ (if is_fault end then end else other) }
{
    if is_fault(&end) { end } else { other }
}

/// Whether a status is a fault of the outside, or want of memory.
fn is_fault(status: &Status) -> bool
    ensures { result ≡ is_fault status.now }
{
    match status {
        Status::FileFault(_)
        | Status::Unreached(_)
        | Status::ReadFault
        | Status::WriteFault
        | Status::ChildFault(_)
        | Status::ChildSilent { .. }
        | Status::Unwritten(_)
        | Status::NoMemory => true,
        _ => false,
    }
}
