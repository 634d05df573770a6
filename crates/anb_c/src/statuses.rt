//! The statuses of anb.h. Those below 100 are the program's.
ghost use Rattle.std.specs.Prelude.{◌≡◌};
ghost use Rattle.anb_c.specs.Statuses.{text_of};

/// The version of the interface.
pub(crate) const VERSION: u32 = 1;

pub(crate) const DONE: i32 = 0;

pub(crate) const LONG: i32 = 3;

pub(crate) const BAD_NARRATION: i32 = 4;

pub(crate) const NO_ROLE: i32 = 5;

pub(crate) const CANNOT_SEND: i32 = 6;

pub(crate) const BAD_VALUES: i32 = 7;

pub(crate) const NO_SEED: i32 = 8;

pub(crate) const STOPPED: i32 = 10;

pub(crate) const WAITING: i32 = 11;

pub(crate) const TOO_LARGE: i32 = 13;

pub(crate) const BAD_ROLE_FILE: i32 = 16;

pub(crate) const BAD_RECORD: i32 = 30;

pub(crate) const NO_MEMORY: i32 = 99;

pub(crate) const MESSAGE: i32 = 100;

pub(crate) const SHORT: i32 = 101;

pub(crate) const MISUSED: i32 = 102;

/// What a status says.
pub(crate) fn text_of(status: i32) -> &'static str
    ensures { result.now ≡ text_of status }
{
    match status {
        DONE => "done",
        LONG => "a text is too long",
        BAD_NARRATION => "the narration can't be read, or isn't well formed",
        NO_ROLE => "no role has this name",
        CANNOT_SEND => "a role can't compose a message",
        BAD_VALUES => "the values don't fit the role file",
        NO_SEED => "no seed",
        STOPPED => "a check failed",
        WAITING => "waiting for an arrival",
        TOO_LARGE => "the arrival is too large",
        BAD_ROLE_FILE => "the role file can't be read, or its code isn't accepted",
        BAD_RECORD => "the record isn't one of this role file and key, or its session doesn't wait",
        NO_MEMORY => "no memory",
        MESSAGE => "a message",
        SHORT => "the buffer is too short",
        MISUSED => "the call doesn't fit where the session stands",
        _ => "no such status",
    }
}
