//! The lines of an event.

ghost use Rattle.std.specs.Prelude.{◌≡◌, ◌++◌, IfOk, OnOk};
ghost use Rattle.std.specs.List.{AllByRecursion, flat_map};
ghost use Rattle.anb_base.specs.Bytes.{IsBytes};
ghost use Rattle.anb_host.specs.Hosts.{Fits};
ghost use Rattle.anb_host.specs.Own.{is_start};
ghost use Rattle.anb_recording.specs.Lines.{IsPlain, lines_text, spelled};
ghost use Rattle.anb_host_recording.specs.Entries.{is_refusal, line_in, line_out, transcript_of};

use anb_base::{Bytes, NoMemory, Text};
use anb_host::{HostEvent, Notice};
use anb_recording::line_of;
use itoa::Buffer;
use std::alloc::Global;

/// The line of an arrival, where the event is one.
pub(crate) fn arrival_line(alloc: Global, event: &HostEvent) -> Result<Bytes, NoMemory>
    ensures is { IfOk result (λ line. line ≡ lines_text (line_in event.now)) }
    ensures plain { Fits event.now → AllByRecursion IsPlain (line_in event.now) }
{
    match event {
        HostEvent::Start(_session) => Ok(Bytes::new(Vec::new(alloc))),
        HostEvent::Arrive(_session, bytes) => told_line(alloc, b'<', bytes.as_slice()),
        HostEvent::Oversize(_session, _len) => Ok(Bytes::new(Vec::new(alloc))),
    }
}

/// The line with this sign and the digits of these bytes.
fn told_line(alloc: Global, sign: u8, bytes: &[u8]) -> Result<Bytes, NoMemory>
    ensures is { IfOk result (λ line. line ≡ spelled sign bytes.now) }
    ensures bytes { IsBytes bytes.now }
{
    line_of(alloc, sign, bytes)
}

/// Appends the lines of the messages.
pub(crate) fn put_messages(
    alloc: Global,
    out: &mut Vec<u8>,
    told: &[Notice],
) -> Result<(), NoMemory>
    ensures put { OnOk result
        (out.new.items ≡ out.old.items ++ lines_text (flat_map line_out told.now)) }
    ensures plain { OnOk result (AllByRecursion IsPlain (flat_map line_out told.now)) }
{
    for notice in told {
        put_message(alloc, out, notice)?;
    }
    Ok(())
}

/// Appends the line of a message, where the notice is one.
fn put_message(alloc: Global, out: &mut Vec<u8>, notice: &Notice) -> Result<(), NoMemory>
    ensures put { OnOk result (out.new.items ≡ out.old.items ++ lines_text (line_out notice.now)) }
    ensures plain { AllByRecursion IsPlain (line_out notice.now) }
{
    match notice {
        Notice::Message(_session, message) => {
            let line = told_line(alloc, b'>', message.as_slice())?;
            out.extend_from_slice(line.as_slice())?;
            Ok(())
        }
        Notice::Stopped(_session, _event) => Ok(()),
        Notice::Finished(_session) => Ok(()),
        Notice::Refused(_session, _cause) => Ok(()),
    }
}

/// Whether the event starts a session.
pub(crate) fn is_start(event: &HostEvent) -> bool
    ensures { result ≡ is_start event.now }
{
    match event {
        HostEvent::Start(_session) => true,
        HostEvent::Arrive(_session, _bytes) => false,
        HostEvent::Oversize(_session, _len) => false,
    }
}

/// Whether the event was refused.
pub(crate) fn is_refused(told: &[Notice]) -> bool
    ensures { result ≡ is_refusal told.now }
{
    match told {
        [Notice::Refused(_session, _cause), ..] => true,
        _ => false,
    }
}

/// The name of the session's file in the folder.
pub fn transcript_of(alloc: Global, folder: &Text, session: u32) -> Result<Text, NoMemory>
    ensures { IfOk result (λ name. name ≡ transcript_of folder.now session) }
{
    let mut buffer = Buffer::new();
    let mut name = String::from_str(alloc, folder.as_str())?;
    name.push_str("/transcript-")?;
    name.push_str(buffer.format(session))?;
    Ok(Text::new(name))
}
