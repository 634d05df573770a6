//! The report of a rehearsal as a text, written a line at a time.
ghost use Rattle.std.specs.Prelude.{◌≡◌, IfOk};
ghost use Rattle.std.specs.List.{flat_map};
ghost use Rattle.anb_text.specs.Writing.{IsWritten};
ghost use Rattle.anb_rehearse_commands.specs.Reports.{counts_line, report_text, sent_line};

use anb_base::{NoMemory, Sent, Sink};
use anb_command::Report;
use anb_text::{WriteNo, write_part};
use std::alloc::Global;

/// Writes the report of a rehearsal: a line for each message, and the counts. A line is in memory at a
/// time.
pub(crate) fn write_report<K: Sink>(
    alloc: Global,
    snk: &mut K,
    report: &Report,
) -> Result<(), WriteNo>
    ensures written { IsWritten (report_text report.now) result
        (K.written snk.old) (K.written snk.new) (K.faults snk.old) (K.faults snk.new) }
    ensures kept { K.kept snk.new ≡ K.kept snk.old }
{
    match write_messages(alloc, snk, report.sent.as_slice()) {
        Ok(()) => {}
        Err(no) => return Err(no),
    }
    write_part(snk, counts_line(alloc, report))
}

/// Writes a line for each message.
fn write_messages<K: Sink>(alloc: Global, snk: &mut K, messages: &[Sent]) -> Result<(), WriteNo>
    ensures written { IsWritten (flat_map sent_line messages.now) result
        (K.written snk.old) (K.written snk.new) (K.faults snk.old) (K.faults snk.new) }
    ensures kept { K.kept snk.new ≡ K.kept snk.old }
{
    for sent in messages {
        match write_part(snk, sent_line(alloc, sent)) {
            Ok(()) => {}
            Err(no) => return Err(no),
        }
    }
    Ok(())
}

/// The line of a message.
fn sent_line(alloc: Global, sent: &Sent) -> Result<Vec<u8>, NoMemory>
    ensures { IfOk result (λ bytes. bytes.items ≡ sent_line sent.now) }
{
    let digits = hex::encode(alloc, sent.bytes.as_slice())?;
    let line = format!(in alloc; "{} {}\n", sent.action, digits.as_str())?;
    Ok(line.into_bytes())
}

/// The line of the counts.
fn counts_line(alloc: Global, report: &Report) -> Result<Vec<u8>, NoMemory>
    ensures { IfOk result (λ bytes. bytes.items ≡ counts_line report.now) }
{
    let line = format!(in alloc;
        "turns {}, taken {}, passed {}\n",
        report.turns, report.taken, report.passed
    )?;
    Ok(line.into_bytes())
}
