//! Statuses: why a command did its work or didn't, their numbers and their lines.
ghost use Rattle.std.specs.Prelude.{◌≡◌, ◌++◌};
ghost use Rattle.anb_status.specs.Statuses.{instruction_text, item_text, kind_text, uncertified_at, where_text, why_ill_formed, why_misshapen, why_unaccepted, why_unfit, why_unloaded, why_unread};

use crate::pieces::{Pieces, five, four, one, seven, three, two};
use anb_base::{NoMemory, Place, Text};
use anb_code::CodeNo;
use anb_format::FormatNo;
pub use anb_machine::Halt;
pub use anb_outcomes::{BranchNo, CertifyNo, Report};
pub use anb_park::ParkNo;
use anb_protocol::{Item, Kind, ResolveNo};
use anb_read::ReadNo;
use anb_text::LoadNo;
pub use anb_transcript::Due;
use anb_values::ValuesNo;
use itoa::Buffer;

/// Why a file holds no narration to work with.
#[derive(Debug, Drop)]
pub enum NarrationNo {
    /// The text is no narration.
    Read(ReadNo),
    /// The narration isn't well formed.
    Resolve(ResolveNo),
}

/// How a command ended.
#[derive(Debug, Drop)]
pub enum Status {
    /// The command did its whole work.
    Done,
    /// The words fit no command.
    Usage,
    /// The file of this name couldn't be read.
    FileFault(Text),
    /// The file of this name has more bytes than a file of its kind may have.
    FileLong(Text),
    /// The narration file holds none.
    BadNarration(NarrationNo),
    /// No role of the narration has this name.
    NoRole(Text),
    /// The first action, numbered from 1, whose message its sender can't compose.
    CannotSend { action: u32, role: Text },
    /// The values file doesn't fit.
    BadValues(ValuesNo),
    /// The role makes a name, and there is no seed.
    NoSeed,
    /// The place of the words couldn't be reached.
    Unreached(Place),
    /// The checks of the role failed at this event, and at this instruction where a code is enacted.
    Stopped(Halt),
    /// The input ended before the arrival of this event.
    Waiting(u32),
    /// The input ended within a frame, which has `need` bytes with its length, after `have` of them.
    /// Where the length isn't whole, `need` is 4. Of a host's frame both count from its kind on:
    /// `need` is 5 for a start, 9 for an arrival while its length isn't whole, and then 9 plus that.
    Truncated { have: u64, need: u64 },
    /// A frame has this length, which is too much.
    TooLarge(u32),
    /// Reading from the wire failed.
    ReadFault,
    /// Writing to the wire failed.
    WriteFault,
    /// The role file gives no code.
    BadRoleFile(LoadNo),
    /// This line of the transcript can't be read, the first such, numbered from 1.
    BadTranscript(u32),
    /// This line of the transcript isn't what is due there.
    Differs { line: u32, due: Due },
    /// The transcript ends while this event is due.
    Short(u32),
    /// A frame of a host begins with this byte, which is no kind of frame.
    BadKind(u8),
    /// As many frames of a host were handled as may be.
    Spent(u32),
    /// The message of this action has this length, which is more than an arrival may have; action 0
    /// is for an initial value.
    LongMessage { action: u32, len: u64 },
    /// This word of the schedule, numbered from 1, names no role, the first such.
    BadTurn(u32),
    /// The schedule ends before all roles are done; the report is written.
    NotAll(Report),
    /// The text is no lawful text with a choice.
    BadBranch(BranchNo),
    /// The first arm in which a role can't compose the message of an action that it sends, and the
    /// first such action there. Arms and actions are numbered from 1.
    ArmCannotSend { arm: u32, action: u32, role: Text },
    /// The arm that the words name, of a role that doesn't choose or more than there are; 0 where the
    /// role that chooses is told none.
    BadArm(u32),
    /// The role file's code isn't certified.
    NotCertified(CertifyNo),
    /// The role waits for the arrival of this event, and its record was written.
    Parked(u32),
    /// The record isn't one to go on from.
    BadRecord(ParkNo),
    /// A call for the child of this role failed.
    ChildFault(Text),
    /// The output of this action's sender ended in the place of its message.
    ChildEnded(u32),
    /// It ended within the message's frame, after `have` of the `need` bytes of this, both with its
    /// length. Where the length isn't whole, `need` is 4.
    ChildCut { action: u32, have: u64, need: u64 },
    /// The message of this action has so many bytes, which is too much.
    ChildLong { action: u32, len: u32 },
    /// The child of this role ended with another status than 0.
    ChildBad { role: Text, status: u8 },
    /// So many of the cases aren't ok; the report is written.
    CasesNotOk { failed: u32, cases: u32 },
    /// The child of this role gave nothing, or took nothing, for so many seconds.
    ChildSilent { role: Text, seconds: u32 },
    /// The file of this name couldn't be written.
    Unwritten(Text),
    /// No memory was left.
    NoMemory,
}

impl From<NoMemory> for Status {
    ghost use Rattle.std.specs.Prelude.{◌≡◌};
    ghost use Rattle.anb_status.specs.declared.status.Status.TheVariants.{NoMemory};

    ghost from_gives = { λ _ status. status ≡ NoMemory };

    fn from(_none: NoMemory) -> Self {
        Status::NoMemory
    }
}

/// Room for the digits of the three numbers that a line may have.
#[derive(Drop)]
pub struct Digits {
    first: Buffer,
    second: Buffer,
    third: Buffer,
}

impl Digits {
    pub fn new() -> Self {
        Digits {
            first: Buffer::new(),
            second: Buffer::new(),
            third: Buffer::new(),
        }
    }
}

impl Status {
    ghost use Rattle.std.specs.Prelude.{◌≡◌};
    ghost use Rattle.anb_status.specs.Pieces.{said};
    ghost use Rattle.anb_status.specs.Statuses.{number_of, text_of};

    /// The exit status of the program.
    pub fn number(&self) -> u8
        ensures { result ≡ number_of self.now }
    {
        match self {
            Status::Done => 0,
            Status::Usage => 1,
            Status::FileFault(_) => 2,
            Status::FileLong(_) => 3,
            Status::BadNarration(_) => 4,
            Status::NoRole(_) => 5,
            Status::CannotSend { .. } => 6,
            Status::BadValues(_) => 7,
            Status::NoSeed => 8,
            Status::Unreached(_) => 9,
            Status::Stopped(_) => 10,
            Status::Waiting(_) => 11,
            Status::Truncated { .. } => 12,
            Status::TooLarge(_) => 13,
            Status::ReadFault => 14,
            Status::WriteFault => 15,
            Status::BadRoleFile(_) => 16,
            Status::BadTranscript(_) => 17,
            Status::Differs { .. } => 18,
            Status::Short(_) => 19,
            Status::BadKind(_) => 20,
            Status::Spent(_) => 21,
            Status::LongMessage { .. } => 22,
            Status::BadTurn(_) => 23,
            Status::NotAll(_) => 24,
            Status::BadBranch(_) => 25,
            Status::ArmCannotSend { .. } => 26,
            Status::BadArm(_) => 27,
            Status::NotCertified(_) => 28,
            Status::Parked(_) => 29,
            Status::BadRecord(_) => 30,
            Status::ChildFault(_) => 31,
            Status::ChildEnded(_) => 32,
            Status::ChildCut { .. } => 33,
            Status::ChildLong { .. } => 34,
            Status::ChildBad { .. } => 35,
            Status::CasesNotOk { .. } => 36,
            Status::ChildSilent { .. } => 37,
            Status::Unwritten(_) => 38,
            Status::NoMemory => 99,
        }
    }

    /// What the status says, in pieces. The digits hold those that are numbers.
    pub fn pieces<'a>(&'a self, digits: &'a mut Digits) -> Pieces<'a>
        ensures { said result ≡ text_of self.now }
    {
        let Digits {
            first,
            second,
            third,
        } = digits;
        match self {
            Status::Done => one(""),
            Status::Usage => one("the words fit no command"),
            Status::FileFault(name) => two("can't read ", name.as_str()),
            Status::FileLong(name) => two(name.as_str(), " is too long"),
            Status::BadNarration(why) => {
                let (a, b, c, d) = why.pieces(first);
                five("narration: ", a, b, c, d)
            }
            Status::NoRole(name) => two("no role ", name.as_str()),
            Status::CannotSend { action, role } => three(
                role.as_str(),
                " can't compose the message of action ",
                first.format(*action),
            ),
            Status::BadValues(why) => {
                let (what, which) = unfit(why, first);
                three("values: ", what, which)
            }
            Status::NoSeed => one("no seed"),
            Status::Unreached(place) => two("can't reach ", where_text(place)),
            Status::Stopped(halt) => {
                let (what, which) = instruction(halt.at, second);
                four("stopped at event ", first.format(halt.event), what, which)
            }
            Status::Waiting(event) => two("waiting at event ", first.format(*event)),
            Status::Truncated { have, need } => five(
                "input ends after ",
                first.format(*have),
                " of ",
                second.format(*need),
                " bytes",
            ),
            Status::TooLarge(len) => three("a frame of ", first.format(*len), " bytes"),
            Status::ReadFault => one("read failed"),
            Status::WriteFault => one("write failed"),
            Status::BadRoleFile(why) => {
                let (what, which, is) = unloaded(*why, first);
                four("role file: ", what, which, is)
            }
            Status::BadTranscript(line) => {
                three("transcript line ", first.format(*line), " can't be read")
            }
            Status::Differs { line, .. } => {
                three("transcript line ", first.format(*line), " differs")
            }
            Status::Short(event) => two("transcript ends before event ", first.format(*event)),
            Status::BadKind(kind) => two("no frame kind ", first.format(*kind)),
            Status::Spent(frames) => two(first.format(*frames), " frames handled"),
            Status::LongMessage { action, len } => five(
                "message of action ",
                first.format(*action),
                " has ",
                second.format(*len),
                " bytes",
            ),
            Status::BadTurn(turn) => three("turn ", first.format(*turn), " names no role"),
            Status::NotAll(_) => one("not all roles are done"),
            Status::BadBranch(_) => one("branch refused"),
            Status::ArmCannotSend { arm, action, role } => five(
                role.as_str(),
                " can't compose the message of action ",
                first.format(*action),
                " in arm ",
                second.format(*arm),
            ),
            Status::BadArm(arm) => three("arm ", first.format(*arm), " doesn't fit"),
            Status::NotCertified(why) => two(
                "not certified at instruction ",
                first.format(uncertified(*why)),
            ),
            Status::Parked(event) => two("parked at event ", first.format(*event)),
            Status::BadRecord(_) => one("record refused"),
            Status::ChildFault(role) => three("child ", role.as_str(), " failed"),
            Status::ChildEnded(action) => two("no message of action ", first.format(*action)),
            Status::ChildCut { action, have, need } => seven(
                "message of action ",
                first.format(*action),
                " ends after ",
                second.format(*have),
                " of ",
                third.format(*need),
                " bytes",
            ),
            Status::ChildLong { action, len } => five(
                "message of action ",
                first.format(*action),
                " has ",
                second.format(*len),
                " bytes",
            ),
            Status::ChildBad { role, status } => {
                four(
                    "child ",
                    role.as_str(),
                    " ended with ",
                    first.format(*status),
                )
            }
            Status::CasesNotOk { failed, cases } => four(
                first.format(*failed),
                " of ",
                second.format(*cases),
                " cases not ok",
            ),
            Status::ChildSilent { role, seconds } => five(
                "child ",
                role.as_str(),
                " was silent for ",
                first.format(*seconds),
                " seconds",
            ),
            Status::Unwritten(name) => two("can't write ", name.as_str()),
            Status::NoMemory => one("no memory"),
        }
    }
}

impl NarrationNo {
    ghost use Rattle.std.specs.Prelude.{◌≡◌, ◌++◌};
    ghost use Rattle.anb_status.specs.Statuses.{why_bad};

    /// Why the file holds no narration.
    fn pieces<'a>(&'a self, digits: &'a mut Buffer) -> (&'a str, &'a str, &'a str, &'a str)
        ensures { why_bad self.now ≡
            result.0.now ++ (result.1.now ++ (result.2.now ++ result.3.now)) }
    {
        match self {
            NarrationNo::Read(why) => {
                let (what, at) = unread(*why, digits);
                (what, at, "", "")
            }
            NarrationNo::Resolve(why) => ill_formed(why, digits),
        }
    }
}

/// Why a text is no narration, and where.
fn unread(why: ReadNo, digits: &mut Buffer) -> (&str, &str)
    ensures { why_unread why ≡ result.0.now ++ result.1.now }
{
    match why {
        ReadNo::Token { at } => ("no token at ", digits.format(at)),
        ReadNo::Grammar { at } => ("unexpected at ", digits.format(at)),
        ReadNo::Deep { at } => ("too deep at ", digits.format(at)),
        ReadNo::NoMemory => ("no memory", ""),
    }
}

/// Why a narration isn't well formed, in pieces.
pub fn ill_formed<'a>(
    why: &'a ResolveNo,
    digits: &'a mut Buffer,
) -> (&'a str, &'a str, &'a str, &'a str)
    ensures { why_ill_formed why.now ≡
        result.0.now ++ (result.1.now ++ (result.2.now ++ result.3.now)) }
{
    match why {
        ResolveNo::Limit(kind, count) => {
            ("too many ", kind_text(*kind), ": ", digits.format(*count))
        }
        ResolveNo::Twice(name) => (name.as_str(), " twice", "", ""),
        ResolveNo::Unknown(name) => (name.as_str(), " unknown", "", ""),
        ResolveNo::WrongSort(name) => (name.as_str(), " has the wrong sort", "", ""),
        ResolveNo::WrongCount(name) => (name.as_str(), " has the wrong count", "", ""),
        ResolveNo::FormatShape(name, why) => {
            let (what, at) = misshapen(*why, digits);
            (name.as_str(), what, at, "")
        }
        ResolveNo::Overlap(f, g) => (f.as_str(), " and ", g.as_str(), " overlap"),
        ResolveNo::SelfSend(n) => ("action ", digits.format(*n), " goes to its sender", ""),
        ResolveNo::KnowledgeTwice(role, term) => {
            (role.as_str(), " knows ", term.as_str(), " twice")
        }
        ResolveNo::Wide(what) => {
            let (kind, which) = item(what, digits);
            (kind, which, " is too wide", "")
        }
        ResolveNo::NoMemory => ("no memory", "", "", ""),
    }
}

fn kind_text(kind: Kind) -> &'static str
    ensures { result.now ≡ kind_text kind }
{
    match kind {
        Kind::Name => "bytes in a name",
        Kind::Formats => "formats",
        Kind::Fields => "fields",
        Kind::Roles => "roles",
        Kind::Actions => "actions",
        Kind::TermNodes => "nodes in a term",
        Kind::AllNodes => "nodes",
    }
}

/// Why a format's pieces make none.
fn misshapen(why: FormatNo, digits: &mut Buffer) -> (&str, &str)
    ensures { why_misshapen why ≡ result.0.now ++ result.1.now }
{
    match why {
        FormatNo::NoHead => (" has no head", ""),
        FormatNo::RestNotLast(at) => (" has a rest at ", digits.format(at)),
    }
}

/// Where a term stands.
fn item<'a>(what: &'a Item, digits: &'a mut Buffer) -> (&'a str, &'a str)
    ensures { item_text what.now ≡ result.0.now ++ result.1.now }
{
    match what {
        Item::Know(role) => ("knowledge of ", role.as_str()),
        Item::Action(n) => ("action ", digits.format(*n)),
    }
}

/// Why a values file doesn't fit.
fn unfit<'a>(why: &'a ValuesNo, digits: &'a mut Buffer) -> (&'a str, &'a str)
    ensures { why_unfit why.now ≡ result.0.now ++ result.1.now }
{
    match why {
        ValuesNo::Line(n) => ("line ", digits.format(*n)),
        ValuesNo::Extra(name) => (name.as_str(), " isn't asked for"),
        ValuesNo::Twice(name) => (name.as_str(), " twice"),
        ValuesNo::Long(name) => (name.as_str(), " is too long"),
        ValuesNo::Missing(name) => (name.as_str(), " is missing"),
        ValuesNo::NoMemory => ("no memory", ""),
    }
}

/// Why a role file gives no code.
fn unloaded(why: LoadNo, digits: &mut Buffer) -> (&str, &str, &str)
    ensures { why_unloaded why ≡ result.0.now ++ (result.1.now ++ result.2.now) }
{
    match why {
        LoadNo::Line(n) => ("line ", digits.format(n), ""),
        LoadNo::Code(why) => unaccepted(why, digits),
        LoadNo::NoMemory => ("no memory", "", ""),
    }
}

/// Why a code isn't accepted.
fn unaccepted(why: CodeNo, digits: &mut Buffer) -> (&str, &str, &str)
    ensures { why_unaccepted why ≡ result.0.now ++ (result.1.now ++ result.2.now) }
{
    match why {
        CodeNo::Many(f) => ("format ", digits.format(f), " is too much"),
        CodeNo::Twice(f) => ("format ", digits.format(f), " has an earlier name"),
        CodeNo::Shape(f, _) => ("format ", digits.format(f), " has no shape"),
        CodeNo::Late(at) => ("instruction ", digits.format(at), ": late take"),
        CodeNo::TakeTwice(at) => ("instruction ", digits.format(at), ": take twice"),
        CodeNo::BadFormat(at) => ("instruction ", digits.format(at), ": bad format"),
        CodeNo::Unwritten(at) => ("instruction ", digits.format(at), ": unwritten"),
        CodeNo::Order(at) => ("instruction ", digits.format(at), ": out of order"),
        CodeNo::Wide(at) => ("instruction ", digits.format(at), ": too wide"),
        CodeNo::NoMemory => ("no memory", "", ""),
    }
}

/// At which instruction a code isn't certified.
fn uncertified(why: CertifyNo) -> u32
    ensures { result ≡ uncertified_at why }
{
    match why {
        CertifyNo::Frame(n) => n,
        CertifyNo::Untrue(n) => n,
        CertifyNo::Sent(n) => n,
        CertifyNo::Loose { at, .. } => at,
        CertifyNo::NoMemory => 0,
    }
}

/// At which instruction a run stopped, where that is told.
fn instruction(at: u32, digits: &mut Buffer) -> (&str, &str)
    ensures { instruction_text at ≡ result.0.now ++ result.1.now }
{
    if at == 0 {
        ("", "")
    } else {
        (", instruction ", digits.format(at))
    }
}

fn where_text(place: &Place) -> &str
    ensures { result.now ≡ where_text place.now }
{
    match place {
        Place::Stdio => "stdio",
        Place::Dial(at) => at.as_str(),
        Place::Listen(at) => at.as_str(),
    }
}
